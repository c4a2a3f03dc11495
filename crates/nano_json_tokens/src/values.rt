//! The calls of a reader's state that give the value of the pending token.

ghost use Rattle.std.specs.Prelude.{◌≡◌, [], IsSome, ◌↔◌, MatchResult, string_bytes};
ghost use Rattle.nano_json_tokens.specs.Outcomes.{GivesTruth, GivesUnsigned, GivesSigned, TookText};
ghost use Rattle.nano_json_tokens.specs.Outcomes.{LacksText};
ghost use Rattle.nano_json_tokens.specs.State.{pending};
ghost use Rattle.nano_json_tokens.specs.Token.{integer_of, IsStr};

use crate::error::DeJsonErr;
use crate::state::DeJsonState;
use crate::token::DeJsonTok;
use std::alloc::Global;
use std::mem;

/// The calls that look at the pending token and leave it. They allocate the message of an
/// error. `as_string` allocates its answer too, and does without if that allocation fails.
impl DeJsonState {
    /// Whether a string is pending.
    pub fn next_str(&self) -> Option<()>
        ensures { IsSome result ↔ IsStr (pending self.now) }
    {
        match self.tok {
            DeJsonTok::Str => Some(()),
            _ => None,
        }
    }

    /// The pending whole number without a minus sign, if it is at most `max`.
    ///
    /// A greater one is rejected with `Value out of range {value}>{max} `.
    pub fn u64_range(&self, alloc: Global, max: u64) -> Result<u64, DeJsonErr>
        ensures { GivesUnsigned self.now max result }
    {
        match self.tok {
            DeJsonTok::U64(value) => {
                if value > max {
                    return Err(self.err_above(alloc, i128::from(value), i128::from(max)));
                }
                Ok(value)
            }
            _ => Err(self.err_token(alloc, "unsigned integer")),
        }
    }

    /// The pending whole number, with or without a minus sign, if it is from `min` to `max`.
    ///
    /// A smaller one is rejected with `Value out of range {value}<{min} `, and else a greater
    /// one with `Value out of range {value}>{max} `.
    pub fn i64_range(&self, alloc: Global, min: i64, max: i64) -> Result<i64, DeJsonErr>
        ensures { GivesSigned self.now min max result }
    {
        let Some(value) = self.integer() else {
            return Err(self.err_token(alloc, "signed integer"));
        };
        let (least, greatest) = (i128::from(min), i128::from(max));
        if value < least {
            return Err(self.err_below(alloc, value, least));
        }
        if value > greatest {
            return Err(self.err_above(alloc, value, greatest));
        }
        Ok(value as i64)
    }

    /// The pending boolean.
    pub fn as_bool(&self, alloc: Global) -> Result<bool, DeJsonErr>
        ensures { GivesTruth self.now result }
    {
        match self.tok {
            DeJsonTok::Bool(value) => Ok(value),
            _ => Err(self.err_token(alloc, "boolean")),
        }
    }

    /// The text of the pending string. It is taken out of `strbuf`, which is empty then, and
    /// the token is unchanged.
    ///
    /// The text is a copy, so that `strbuf` keeps its capacity for the next string. If
    /// allocation of the copy fails, the text itself is returned, and `strbuf` has no capacity.
    /// So the call never fails because of that allocation.
    #[inline(always)]
    pub fn as_string(&mut self, alloc: Global) -> Result<String, DeJsonErr>
        ensures { MatchResult result
            (λ text. TookText self.old self.new (string_bytes text)) (LacksText self.old self.new) }
    {
        match self.tok {
            DeJsonTok::Str => Ok(self.take_text(alloc)),
            _ => Err(self.err_token(alloc, "string")),
        }
    }

    /// Takes the text out of `strbuf`, which is empty then.
    ///
    /// The text is copied, so that `strbuf` keeps its capacity for the next string. If
    /// allocation of the copy fails, the text is moved.
    #[inline(always)]
    fn take_text(&mut self, alloc: Global) -> String
        ensures text { string_bytes result ≡ string_bytes self.old.strbuf }
        ensures emptied { (string_bytes self.new.strbuf ≡ [])
            × (self.new ≡ record self.old { strbuf = self.new.strbuf }) }
    {
        match String::from_str(alloc, self.strbuf.as_str()) {
            Ok(text) => {
                self.strbuf.clear();
                text
            }
            Err(_rejected) => mem::replace(&mut self.strbuf, String::new(alloc)),
        }
    }

    /// The pending whole number.
    #[inline]
    fn integer(&self) -> Option<i128>
        ensures { result ≡ integer_of (pending self.now) }
    {
        match self.tok {
            DeJsonTok::U64(value) => Some(i128::from(value)),
            DeJsonTok::I64(value) => Some(i128::from(value)),
            _ => None,
        }
    }
}
