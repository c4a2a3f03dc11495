//! How a reader's state passes over what stands between tokens: white space and comments.

ghost use Rattle.std.specs.Prelude.{◌≡◌};
ghost use Rattle.nano_text.specs.Characters.{following, is_space};
ghost use Rattle.nano_text.specs.Place.{remaining};
ghost use Rattle.nano_ron_tokens.specs.Scan.{
  AfterLine,
  AfterBlock,
  Passed,
  SkipsComment,
  SkipsGaps,
};

use crate::state::DeRonState;
use nano_text::is_space;
use std::str::Chars;

impl DeRonState {
    /// Passes over white space and comments. Returns whether each `/` that it came to begins a
    /// comment; if not, it is after the first that does not.
    #[inline]
    pub(crate) fn skip_gaps(&mut self, i: &mut Chars<'_>) -> bool
        ensures skipped { SkipsGaps (remaining self.old.cur i.old)
            (remaining self.new.cur i.new) result }
        ensures passed { Passed self.old i.old self.new i.new }
    {
        self.skip_space(i);
        'comments: while self.cur == '/' {
            if !self.skip_comment(i) {
                return false;
            }
            self.skip_space(i);
        }
        true
    }

    /// Passes over white space, of which many tokens have none before them.
    #[inline]
    fn skip_space(&mut self, i: &mut Chars<'_>)
        ensures remaining { remaining self.new.cur i.new
            ≡ following is_space (remaining self.old.cur i.old) }
        ensures passed { Passed self.old i.old self.new i.new }
    {
        if is_space(self.cur) {
            let mut place = self.place();
            place.skip_space(i);
            self.stand_at(place);
        }
    }

    /// Passes over the comment that begins here, where a `/` stands. Answers whether one does.
    #[inline(never)]
    fn skip_comment(&mut self, i: &mut Chars<'_>) -> bool
        requires { self.old.cur ≡ 47 }
        ensures skipped { SkipsComment (remaining self.old.cur i.old)
            (remaining self.new.cur i.new) result }
        ensures passed { Passed self.old i.old self.new i.new }
    {
        self.next(i);
        if self.cur == '/' {
            self.next(i);
            self.skip_line(i);
            return true;
        }
        if self.cur == '*' {
            self.next(i);
            self.skip_block(i);
            return true;
        }
        false
    }

    /// Passes over the line and its line feed, or what is left where it has none.
    fn skip_line(&mut self, i: &mut Chars<'_>)
        ensures skipped { AfterLine (remaining self.old.cur i.old) (remaining self.new.cur i.new) }
        ensures passed { Passed self.old i.old self.new i.new }
    {
        'line: while self.cur != '\0' {
            let ends = self.cur == '\n';
            self.next(i);
            if ends {
                return;
            }
        }
    }

    /// Passes over what stands before the first `*/`, and over that, or over what is left where
    /// there is none.
    fn skip_block(&mut self, i: &mut Chars<'_>)
        ensures skipped { AfterBlock (remaining self.old.cur i.old) (remaining self.new.cur i.new) }
        ensures passed { Passed self.old i.old self.new i.new }
    {
        'block: while self.cur != '\0' {
            let star = self.cur == '*';
            self.next(i);
            if star && self.cur == '/' {
                self.next(i);
                return;
            }
        }
    }
}
