//! JSON Pointers.

ghost use Rattle.std.specs.Prelude.{◌≡◌, ◌≢◌, ◌<◌, ◌^◌, ◌↔◌, ◌⊎◌, ◌++◌, ◌∷◌, [], ℕ, List};
ghost use Rattle.std.specs.Prelude.{IsTrue, MatchOption, decimal};
ghost use Rattle.nano_document.specs.Held.{HasNone, IsLast};
ghost use Rattle.nano_document.specs.Pointers.{escaped_byte, escaped, LeadsTo, PointsTo};
ghost use Rattle.nano_document.specs.Pointers.{IsFirstToken};

use crate::json::Json;
use std::str;

impl Json {
    /// The document that a pointer leads to, if it leads to one: `""` to this one, and each
    /// `/TOKEN` from a list to the item at that place, counted from 0, and from an object to the
    /// last entry of that name, in which `~0` stands for `~` and `~1` for `/`.
    ///
    /// # Examples
    ///
    /// ```
    /// if document.pointer(pointer).is_none() {
    ///     bail!("nothing at {pointer}");
    /// }
    /// ```
    pub fn pointer(&self, pointer: &str) -> Option<&Json>
        ensures { MatchOption result ((y : Json) → PointsTo pointer.now self.now y → ⊥)
            (λ y. PointsTo pointer.now self.now y.now) }
    {
        let mut at = self;
        let mut rest = pointer.as_bytes();
        'tokens: while !rest.is_empty() {
            let (token, after) = first_token(rest)?;
            at = at.inner(token)?;
            rest = after;
        }
        Some(at)
    }

    /// What a token leads to.
    fn inner(&self, token: &[u8]) -> Option<&Json>
        ensures { MatchOption result ((y : Json) → LeadsTo token.now self.now y → ⊥)
            (λ y. LeadsTo token.now self.now y.now) }
    {
        match self {
            Json::List(items) => items.get(place(token)?),
            Json::Object(entries) => last_escaped(entries.as_slice(), token),
            _ => None,
        }
    }
}

/// The first token of a pointer that is not empty, and what is left.
fn first_token(pointer: &[u8]) -> Option<(&[u8], &[u8])>
    requires { pointer.now ≢ [] }
    ensures { MatchOption result ((more : List ℕ) → pointer.now ≢ 47 ∷ more)
        (λ parts. IsFirstToken pointer.now parts.0.now parts.1.now) }
{
    let Some((slash, rest)) = pointer.split_first() else {
        return None;
    };
    if *slash != b'/' {
        return None;
    }
    match rest.iter().position(|byte| *byte == b'/') {
        Some(end) => Some((&rest[..end], &rest[end..])),
        None => Some((rest, &[])),
    }
}

/// The number that a token writes in decimal, without a zero before it.
fn place(token: &[u8]) -> Option<usize>
    ensures { MatchOption result ((n : ℕ) → n < 2 ^ 64 → token.now ≢ decimal n)
        (λ n. token.now ≡ decimal n) }
{
    if token.is_empty() {
        return None;
    }
    if is_padded(token[0], token.len()) {
        return None;
    }
    let Ok(text) = str::from_utf8(token) else {
        return None;
    };
    text.parse().ok()
}

/// Whether digits of a length begin with a plus, or with a zero before others.
fn is_padded(first: u8, len: usize) -> bool
    ensures { IsTrue result ↔ (first ≡ 43) ⊎ ((first ≡ 48) × (1 < len)) }
{
    first == b'+' || (first == b'0' && len > 1)
}

/// The document of the last entry whose escaped name is a token.
fn last_escaped<'a>(entries: &'a [(String, Json)], token: &[u8]) -> Option<&'a Json>
    ensures { MatchOption result (HasNone (λ n. escaped n ≡ token.now) entries.now)
        (λ value. IsLast (λ n. escaped n ≡ token.now) entries.now value.now) }
{
    let mut end = entries.len();
    'entries: while end > 0 {
        end -= 1;
        let entry = &entries[end];
        if is_escaped(entry.0.as_bytes(), token) {
            return Some(&entry.1);
        }
    }
    None
}

/// Whether a token is an escaped name.
fn is_escaped(name: &[u8], token: &[u8]) -> bool
    ensures { IsTrue result ↔ (escaped name.now ≡ token.now) }
{
    let mut rest = token;
    for byte in name {
        match after_byte(*byte, rest) {
            Some(after) => rest = after,
            None => return false,
        }
    }
    rest.is_empty()
}

/// What follows an escaped byte.
fn after_byte(byte: u8, token: &[u8]) -> Option<&[u8]>
    ensures { MatchOption result ((rest : List ℕ) → token.now ≢ escaped_byte byte ++ rest)
        (λ rest. token.now ≡ escaped_byte byte ++ rest.now) }
{
    match byte {
        b'~' => token.strip_prefix(b"~0"),
        b'/' => token.strip_prefix(b"~1"),
        _ => token.strip_prefix(&[byte]),
    }
}
