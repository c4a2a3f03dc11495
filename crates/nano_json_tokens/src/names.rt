//! A name that stands ahead, in place.

ghost use Rattle.std.specs.Prelude.{MatchOption};
ghost use Rattle.nano_json_tokens.specs.Scan.{NoName, TookName};
ghost use Rattle.nano_json_tokens.specs.State.{KeepsBuffers};

use crate::state::DeJsonState;
use crate::token::DeJsonTok;
use nano_text::plain_string;
use std::str::Chars;

impl DeJsonState {
    /// Takes the pending token and the name after it, where the name has no escape and no
    /// character below U+0020, and a colon directly follows it. The colon is pending then. The
    /// name is not copied: it is a part of the input, and no buffer is changed.
    ///
    /// Where no such name is ahead, white space is passed and nothing is taken.
    #[inline(always)]
    pub fn next_name<'a>(&mut self, i: &mut Chars<'a>) -> Option<&'a str>
        ensures name { MatchOption result (NoName self.old i.old self.new i.new)
            (λ name. TookName self.old i.old self.new i.new name.now) }
        ensures buffers { KeepsBuffers self.old self.new }
    {
        self.skip_space(i);
        let mut place = self.place();
        let mut rest = i.as_str().chars();
        let name = plain_string(&mut place, &mut rest)?;
        if place.cur != ':' {
            return None;
        }
        place.next(&mut rest);
        self.stand_at(place);
        self.tok = DeJsonTok::Colon;
        *i = rest;
        Some(name)
    }
}
