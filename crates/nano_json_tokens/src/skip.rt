//! Fields that are passed over.

ghost use Rattle.std.specs.Prelude.{◌≡◌, ◌+◌, ◌<◌, ◌^◌, true};
ghost use Rattle.nano_json_tokens.specs.Scan.{is_opening};
ghost use Rattle.nano_json_tokens.specs.Skipped.{TakesField, SkipsBrackets, opens, closes};
ghost use Rattle.nano_json_tokens.specs.State.{pending};

use crate::error::DeJsonErr;
use crate::scan::Rejection;
use crate::state::DeJsonState;
use nano_text::bytes_left;
use std::alloc::Global;
use std::str::Chars;

impl DeJsonState {
    /// Takes a skipped field and the token after it. A skipped field is one token `Str`, `U64`,
    /// `I64`, `F64`, `Bool` or `Null`, or all tokens from an opening bracket to the one that
    /// closes it, square and braces counted together.
    ///
    /// If another token is pending, it is rejected, and the token and its text are unchanged.
    /// Once the field has begun, an error leaves the state at the end of the text. What the buffers
    /// hold after brackets is not said: they may have been used for the tokens between them.
    pub fn whole_field(&mut self, alloc: Global, i: &mut Chars<'_>) -> Result<(), DeJsonErr>
        ensures { TakesField self.old i.old self.new i.new result }
    {
        if self.is_scalar() {
            return self.next_tok(alloc, i);
        }
        if self.is_opening() {
            return match self.skip_brackets(i) {
                Ok(()) => Ok(()),
                Err(rejection) => Err(self.reject(alloc, rejection)),
            };
        }
        Err(self.err_token(alloc, "field"))
    }

    /// Takes the tokens from the pending bracket to the one that closes it, and the token after
    /// it.
    fn skip_brackets(&mut self, i: &mut Chars<'_>) -> Result<(), Rejection>
        requires { is_opening (pending self.old) ≡ true }
        ensures { SkipsBrackets self.old i.old self.new i.new result }
    {
        // A text has fewer than 2^63 bytes, so no count of its brackets can wrap.
        let _capacity = bytes_left(i);
        let mut depth: usize = 1;
        self.scan_after_value(i)?;
        'tokens: while depth > 0 {
            if self.is_end() {
                return Err(Rejection::Field);
            }
            depth = self.depth_after(depth);
            self.scan_after_value(i)?;
        }
        Ok(())
    }

    /// How many brackets are open after the pending token, if this many are open before it.
    #[inline]
    fn depth_after(&self, depth: usize) -> usize
        requires open { 0 < depth }
        requires capacity { depth < usize.MAX }
        ensures { depth + opens (pending self.now) ≡ result + closes (pending self.now) }
    {
        if self.is_opening() {
            return depth + 1;
        }
        if self.is_closing() {
            return depth - 1;
        }
        depth
    }
}
