//! Fields that are passed over.

ghost use Rattle.std.specs.Prelude.{◌≡◌, ◌+◌, ◌<◌, ◌^◌, true};
ghost use Rattle.nano_ron_tokens.specs.Scan.{is_opening};
ghost use Rattle.nano_ron_tokens.specs.Skipped.{TakesField, TakesBrackets, SkipsBrackets};
ghost use Rattle.nano_ron_tokens.specs.Skipped.{opens, closes};
ghost use Rattle.nano_ron_tokens.specs.State.{pending};
ghost use Rattle.nano_ron_tokens.specs.Token.{IsIdent};

use crate::error::DeRonErr;
use crate::scan::Rejection;
use crate::state::DeRonState;
use nano_text::bytes_left;
use std::alloc::Global;
use std::str::Chars;

impl DeRonState {
    /// Takes a skipped field and the token after it. A skipped field is one token `Ident`, `Str`,
    /// `U64`, `I64`, `F64`, `Bool` or `Char`, or all tokens from an opening bracket to the one that
    /// closes it, parentheses, square and braces counted together, or an `Ident` and such brackets
    /// that open with a parenthesis. Where a parenthesis opens after an `Ident`, it belongs to the
    /// field.
    ///
    /// If another token is pending, it is rejected, and the token and its text are unchanged.
    /// Once the field has begun, an error leaves the state at the end of the text. What the buffers
    /// hold after brackets is not said: they may have been used for the tokens between them.
    pub fn whole_field(&mut self, alloc: Global, i: &mut Chars<'_>) -> Result<(), DeRonErr>
        ensures { TakesField self.old i.old self.new i.new result }
    {
        if self.next_ident().is_some() {
            return self.whole_variant(alloc, i);
        }
        if self.is_scalar() {
            return self.next_tok(alloc, i);
        }
        if self.is_opening() {
            return self.whole_brackets(alloc, i);
        }
        Err(self.err_token(alloc, "field"))
    }

    /// Takes the pending word, its content if a parenthesis opens after it, and the token after
    /// them.
    fn whole_variant(&mut self, alloc: Global, i: &mut Chars<'_>) -> Result<(), DeRonErr>
        requires { IsIdent (pending self.old) }
        ensures { TakesField self.old i.old self.new i.new result }
    {
        self.next_tok(alloc, i)?;
        if self.is_paren_open() {
            return self.whole_brackets(alloc, i);
        }
        Ok(())
    }

    /// Takes the tokens from the pending bracket to the one that closes it, and the token after
    /// it. An error leaves the state at the end of the text.
    fn whole_brackets(&mut self, alloc: Global, i: &mut Chars<'_>) -> Result<(), DeRonErr>
        requires { is_opening (pending self.old) ≡ true }
        ensures { TakesBrackets self.old i.old self.new i.new result }
    {
        match self.skip_brackets(i) {
            Ok(()) => Ok(()),
            Err(rejection) => Err(self.reject(alloc, rejection)),
        }
    }

    /// Takes the tokens from the pending bracket to the one that closes it, and the token after
    /// it.
    fn skip_brackets(&mut self, i: &mut Chars<'_>) -> Result<(), Rejection>
        requires { is_opening (pending self.old) ≡ true }
        ensures { SkipsBrackets self.old i.old self.new i.new result }
    {
        // A text has fewer than 2^63 bytes, so no count of its brackets can wrap.
        let _capacity = bytes_left(i);
        let mut depth: usize = 1;
        self.scan_after_value(i)?;
        'tokens: while depth > 0 {
            if self.is_end() {
                return Err(Rejection::Field);
            }
            depth = self.depth_after(depth);
            self.scan_after_value(i)?;
        }
        Ok(())
    }

    /// How many brackets are open after the pending token, if this many are open before it.
    #[inline]
    fn depth_after(&self, depth: usize) -> usize
        requires open { 0 < depth }
        requires capacity { depth < usize.MAX }
        ensures { depth + opens (pending self.now) ≡ result + closes (pending self.now) }
    {
        if self.is_opening() {
            return depth + 1;
        }
        if self.is_closing() {
            return depth - 1;
        }
        depth
    }
}
