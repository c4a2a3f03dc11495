//! Strings.

ghost use Rattle.std.specs.Prelude.{◌≡◌, ◌≢◌, ℕ, ◌<◌, ◌^◌, ◌-◌, min, ◌==◌, ◌++◌, ◌∷◌, [], length};
ghost use Rattle.std.specs.Prelude.{true, false, None, OnOk, IfOk, string_bytes, encode_utf8};
ghost use Rattle.std.specs.Prelude.{encode_utf8_all, if◌then◌else◌};
ghost use Rattle.nano_toml.specs.Characters.{is_quote};
ghost use Rattle.nano_toml.specs.Place.{remaining};
ghost use Rattle.nano_toml.specs.Outcomes.{OnFault, FaultIs, Appends, content};
ghost use Rattle.nano_toml.specs.Scan.{is_plain, short_at, triple_at, some_quotes, after_one_quote};
ghost use Rattle.nano_toml.specs.Token.{begins, prefix, following};

use crate::fault::{Fault, Lexeme};
use crate::runs::is_plain;
use crate::state::Cursor;
use std::alloc::{AllocError, Global};

fn is_quote(c: u8) -> bool
    ensures { result ≡ is_quote c }
{
    c == b'"'
}

impl<'a> Cursor<'a> {
    /// Takes the longest prefix of characters that stand for themselves, and appends it to the
    /// text.
    fn append_plain(&mut self, text: &mut String) -> Result<(), AllocError>
        requires { begins is_plain (remaining self.old) ≡ true }
        ensures shorter { OnOk result (length (remaining self.new) < length (remaining self.old)) }
        ensures rest { OnOk result (remaining self.new ≡ following is_plain (remaining self.old)) }
        ensures text { OnOk result
            (Appends text.old text.new (encode_utf8_all (prefix is_plain (remaining self.old)))) }
    {
        let plain = self.take_while(is_plain);
        text.push_str(plain)?;
        Ok(())
    }

    /// Takes a backslash and the character after it, and appends that to the text.
    fn read_escaped(&mut self, text: &mut String) -> Result<(), Fault>
        requires { begins (λ c. c == 92) (remaining self.old) ≡ true }
        ensures found { OnOk result
            ((c : ℕ) × (remaining self.old ≡ 92 ∷ (c ∷ remaining self.new))
            × Appends text.old text.new (encode_utf8 c)) }
        ensures rejected { OnFault result (remaining self.old ≡ 92 ∷ []) }
        ensures reported { FaultIs result (Fault.Malformed Lexeme.Quoted) }
        ensures remaining { OnFault result (remaining self.new ≡ []) }
    {
        self.next();
        let escaped = self.next();
        if escaped == '\0' {
            return Err(Fault::Malformed(Lexeme::Quoted));
        }
        text.push(escaped)?;
        Ok(())
    }

    /// Takes what comes before a closing quote, and that quote, and appends the characters to
    /// the text.
    fn read_short_string(&mut self, text: &mut String) -> Result<(), Fault>
        ensures found { OnOk result
            (short_at (string_bytes text.old) false (remaining self.old)
            ≡ content text.new (remaining self.new)) }
        ensures rejected { OnFault result
            (short_at (string_bytes text.old) false (remaining self.old) ≡ None) }
        ensures reported { FaultIs result (Fault.Malformed Lexeme.Quoted) }
        ensures remaining { OnFault result (remaining self.new ≡ []) }
    {
        'pieces: loop {
            match self.first() {
                0 => return Err(Fault::Malformed(Lexeme::Quoted)),
                b'"' => {
                    self.next();
                    return Ok(());
                }
                b'\\' => self.read_escaped(text)?,
                _ => self.append_plain(text)?,
            }
        }
    }

    /// Takes a run of quotes.
    fn read_quotes(&mut self) -> &'a str
        ensures text { result.now ≡ prefix is_quote (remaining self.old) }
        ensures rest { remaining self.new ≡ following is_quote (remaining self.old) }
    {
        self.take_while(is_quote)
    }

    /// Takes a run of quotes, and returns whether they are three. Others are appended to the
    /// text.
    fn closing_quotes(&mut self, text: &mut String) -> Result<bool, AllocError>
        ensures closing { IfOk result
            (λ closing. closing ≡ (length (prefix is_quote (remaining self.old)) == 3)) }
        ensures rest { OnOk result (remaining self.new ≡ following is_quote (remaining self.old)) }
        ensures text { IfOk result (λ closing. string_bytes text.new
            ≡ (if closing then string_bytes text.old
            else string_bytes text.old ++ prefix is_quote (remaining self.old))) }
    {
        let quotes = self.read_quotes();
        let closing = quotes.len() == 3;
        if !closing {
            text.push_str(quotes)?;
        }
        Ok(closing)
    }

    /// Takes what comes before three closing quotes, and these, and appends the characters to
    /// the text.
    fn read_triple_string(&mut self, text: &mut String) -> Result<(), Fault>
        ensures found { OnOk result
            (triple_at (string_bytes text.old) (some_quotes []) (remaining self.old)
            ≡ content text.new (remaining self.new)) }
        ensures rejected { OnFault result
            (triple_at (string_bytes text.old) (some_quotes []) (remaining self.old) ≡ None) }
        ensures reported { FaultIs result (Fault.Malformed Lexeme.Quoted) }
        ensures remaining { OnFault result (remaining self.new ≡ []) }
    {
        'pieces: loop {
            match self.first() {
                0 => return Err(Fault::Malformed(Lexeme::Quoted)),
                b'"' => {
                    if self.closing_quotes(text)? {
                        return Ok(());
                    }
                }
                b'\\' => self.read_escaped(text)?,
                _ => self.append_plain(text)?,
            }
        }
    }

    /// Reads a string, after its first quote.
    pub(crate) fn read_string(&mut self, alloc: Global) -> Result<String, Fault>
        ensures found { IfOk result
            (λ text. after_one_quote (remaining self.old) ≡ content text (remaining self.new)) }
        ensures rejected { OnFault result (after_one_quote (remaining self.old) ≡ None) }
        ensures reported { FaultIs result (Fault.Malformed Lexeme.Quoted) }
        ensures remaining { OnFault result (remaining self.new ≡ []) }
    {
        let mut text = String::new(alloc);
        if !self.take(b'"') {
            self.read_short_string(&mut text)?;
            return Ok(text);
        }
        let empty = !self.take(b'"');
        if empty {
            return Ok(text);
        }
        self.read_triple_string(&mut text)?;
        Ok(text)
    }
}
