//! Values one after the other in one text.

use nano_ron::DeRon;
use nano_ron_tokens::{DeRonErr, DeRonState, DeRonTok, expect_end};
use std::alloc::Global;
use std::str::Chars;

pub mod laws;

/// Values one after the other in one text, with white space and comments alone between them.
#[derive(Drop)]
pub struct Values<'a> {
    text: &'a str,
    input: Chars<'a>,
    state: DeRonState,
}

impl<'a> Values<'a> {
    ghost use Rattle.std.specs.Prelude.{◌≡◌, Ok, None, MatchResult};
    ghost use Rattle.nano_ron_tokens.specs.State.{pending};
    ghost use Rattle.nano_ron_tokens.specs.Token.{end};
    ghost use Rattle.nano_values.specs.RonValues.{IsNew, HasEnded, Gives, Rejects};
    ghost use Rattle.nano_values.specs.RonValues.{TakesFirst, CutsNone, Ends, FindsNul};

    /// Those of a text. Nothing is taken yet, and it takes no memory.
    pub fn new(alloc: Global, text: &'a str) -> Values<'a>
        ensures { IsNew text.now result }
    {
        let mut state = DeRonState::new(alloc);
        let mut input = text.chars();
        state.next(&mut input);
        Values { text, input, state }
    }

    /// Takes the next value, as `de_ron` reads it, or returns none where nothing is left but
    /// white space and comments.
    ///
    /// # Errors
    ///
    /// No value is encoded there with one more token or the end after it, or memory ran out
    /// (`memory`). Where the values are at an end and a NUL stands in the text, the message is
    /// `Cannot parse end `. The error's line and column, from 0, are those where the next value goes
    /// wrong, or where the text breaks. After an error nothing is left: each later call returns none.
    pub fn next<T: DeRon>(&mut self, alloc: Global) -> Result<Option<T>, DeRonErr>
        ensures taken { MatchResult result
            (Gives T.ron.encoding.encodes self.old self.new T.means)
            (Rejects T.ron.encoding.encodes self.old self.new) }
        ensures ended { HasEnded self.old → result ≡ Ok None }
    {
        if let Err(error) = self.begin(alloc) {
            self.text = "";
            return Err(error);
        }
        match self.state.tok {
            DeRonTok::Eof => self.finish(alloc),
            _ => match T::de_ron(alloc, &mut self.state, &mut self.input) {
                Ok(value) => Ok(Some(value)),
                Err(error) => {
                    self.text = "";
                    Err(error)
                }
            },
        }
    }

    /// Takes the first token of the text, if none was taken yet.
    fn begin(&mut self, alloc: Global) -> Result<(), DeRonErr>
        ensures taken { MatchResult result (λ _. TakesFirst self.old self.new)
            (CutsNone self.old self.new) }
        ensures text { self.new.text ≡ self.old.text }
    {
        match self.state.tok {
            DeRonTok::Bof => self.state.next_tok(alloc, &mut self.input),
            _ => Ok(()),
        }
    }

    /// Returns none at the end of the text, or an error if a NUL stands in it.
    fn finish<T>(&mut self, alloc: Global) -> Result<Option<T>, DeRonErr>
        requires { pending self.old.state ≡ end }
        ensures { MatchResult result (Ends self.old self.new) (FindsNul self.old self.new) }
    {
        match expect_end(alloc, &self.state, self.text) {
            Ok(()) => Ok(None),
            Err(error) => {
                self.state.fail();
                self.text = "";
                Err(error)
            }
        }
    }
}
