//! Texts that are written with escapes: a run of characters that stand for themselves is appended
//! at once.

ghost use Rattle.std.specs.Prelude.{◌≡◌, ◌≢◌, ◌≤◌, ◌<◌, ◌++◌, ◌∷◌, [], true, Bool, List, ℕ, IfOk};
ghost use Rattle.std.specs.Prelude.{OnOk, OnErr, chars, flat_map, encode_utf8_all, string_bytes};
ghost use Rattle.std.specs.Prelude.{length};
ghost use Rattle.nano_text.specs.Characters.{prefix};
ghost use Rattle.nano_text.specs.Outcomes.{Appends, AppendsPart};
ghost use Rattle.nano_text.specs.String.{is_plain_in_line};

use crate::lanes::unescaped_run;
use std::alloc::AllocError;

/// How a format writes the characters of a text.
pub trait Escaping {
    // which characters stand for themselves, and how each character is written
    ghost stands: { ℕ → Bool };

    ghost written: { ℕ → List ℕ };

    /// Whether a character, or a byte of UTF-8, stands for itself.
    fn stands_as_itself(c: u32) -> bool
        ensures { result ≡ stands c };

    /// Appends a character as it is written. If an allocation fails, what was written so far
    /// remains.
    fn append_character(out: &mut String, c: char) -> Result<(), AllocError>
        ensures ok { OnOk result (Appends out.old out.new (written c)) }
        ensures err { OnErr result (AppendsPart out.old out.new) };

    // all beyond ASCII stand for themselves, and so does what is plain in its line but DEL; a
    // character that does is written alone
    ghost wide_stands: { (n : ℕ) → 128 ≤ n → stands n ≡ true };

    ghost plain_stands: { (n : ℕ) → is_plain_in_line n ≡ true → n ≢ 127 → stands n ≡ true };

    ghost as_itself: { (c : ℕ) → stands c ≡ true → written c ≡ c ∷ [] };
}

/// How many bytes stand for themselves before the first that doesn't, looked at one by one.
fn plain_prefix<E: Escaping>(bytes: &[u8]) -> usize
    ensures { result ≡ length (prefix E.stands bytes.now) }
{
    for (len, byte) in bytes.iter().enumerate() {
        if !E::stands_as_itself(u32::from(*byte)) {
            return len;
        }
    }
    bytes.len()
}

/// How many bytes stand for themselves before the first that doesn't. Those that do in every
/// format are passed sixteen in a turn.
fn plain_len<E: Escaping>(bytes: &[u8]) -> usize
    ensures { result ≡ length (prefix E.stands bytes.now) }
{
    let unescaped = unescaped_run(bytes);
    unescaped + plain_prefix::<E>(&bytes[unescaped..])
}

/// Appends the longest prefix of a text that stands for itself, at once, and the character
/// after it. Returns what is left of the text. If an allocation fails, what was written so far
/// remains.
fn append_run<'a, E: Escaping>(out: &mut String, text: &'a str) -> Result<&'a str, AllocError>
    ensures ok { IfOk result (λ rest. (run : List ℕ)
        × (string_bytes out.new ≡ string_bytes out.old ++ run)
        × (encode_utf8_all (flat_map E.written (chars text.now))
        ≡ run ++ encode_utf8_all (flat_map E.written (chars rest.now)))) }
    ensures shorter { IfOk result (λ rest. 0 < length text.now
        → length rest.now < length text.now) }
    ensures err { OnErr result (AppendsPart out.old out.new) }
{
    let (plain, following) = text.split_at(plain_len::<E>(text.as_bytes()));
    out.push_str(plain)?;
    let mut characters = following.chars();
    if let Some(c) = characters.next() {
        E::append_character(out, c)?;
    }
    Ok(characters.as_str())
}

/// Appends the characters of a text as a format writes them: those that stand for themselves at
/// once, up to the next that doesn't. If an allocation fails, what was written so far remains.
pub fn append_characters<E: Escaping>(out: &mut String, text: &str) -> Result<(), AllocError>
    ensures ok { OnOk result (Appends out.old out.new (flat_map E.written (chars text.now))) }
    ensures err { OnErr result (AppendsPart out.old out.new) }
{
    let mut rest = text;
    'runs: while !rest.is_empty() {
        rest = append_run::<E>(out, rest)?;
    }
    Ok(())
}
