//! What readers of whole inputs ask of a text, and of the message of an error.

ghost use Rattle.std.specs.Prelude.{◌≡◌, ◌≢◌, string_bytes, codes};
ghost use Rattle.std.specs.Bool.{MatchBool};
ghost use Rattle.nano_grammar.specs.Outcomes.{HoldsNul, end_message};

/// Whether a NUL stands anywhere in the text.
pub fn holds_nul(text: &str) -> bool
    ensures { MatchBool result (HoldsNul text.now) (HoldsNul text.now → ⊥) }
{
    text.contains('\0')
}

/// Makes the message of a part's error distinct from `Cannot parse end `, which is reserved for
/// what comes after a value that is to be a whole input. This very message loses the space at
/// its end, and any other is unchanged. It takes no memory.
#[cold]
#[inline(never)]
pub fn strip_end_message(msg: &mut String)
    ensures apart { string_bytes msg.new ≢ end_message }
    ensures unchanged { string_bytes msg.old ≢ end_message
        → string_bytes msg.new ≡ string_bytes msg.old }
    ensures cut { string_bytes msg.old ≡ end_message
        → string_bytes msg.new ≡ codes "Cannot parse end" }
{
    if msg.as_str() == "Cannot parse end " {
        msg.pop();
    }
}
