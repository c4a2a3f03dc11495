//! The state of a reader, and its steps: a character, a token, and the end.

ghost use Rattle.std.specs.Prelude.{◌≡◌, ◌≢◌, ◌∷◌};
ghost use Rattle.std.specs.declared.str.Chars.{Chars};
ghost use Rattle.nano_text.specs.Place.{held, tail, remaining, before_nul, place_after, Passes};
ghost use Rattle.nano_ron_tokens.specs.Outcomes.{Reports, Moved, TakesNext};
ghost use Rattle.nano_ron_tokens.specs.State.{at, ended, place_of, IsFresh};

use crate::error::DeRonErr;
use crate::scan::Rejection;
use crate::token::DeRonTok;
use nano_text::Place;
use std::alloc::Global;
use std::str::Chars;

/// A reader's state: the pending token with its texts, and the place after it.
///
/// The remaining input, which is still to be read, is `cur` and what the characters still hold,
/// before the first NUL. Every call is defined for any values of the fields.
#[derive(Drop)]
pub struct DeRonState {
    /// The current character, or NUL at the end of the text.
    pub cur: char,
    /// The number of characters that were taken on this line.
    pub col: usize,
    /// The pending token.
    pub tok: DeRonTok,
    /// The text of a pending `Str`.
    pub strbuf: String,
    /// The text of a pending `F64`.
    pub numbuf: String,
    /// The text of a pending `Ident`.
    pub identbuf: String,
    // `line` is far from `col`: a load of both at once would wait for the store of a column.
    /// The line of the current character, counted from 0.
    pub line: usize,
}

impl DeRonState {
    /// A state before the first character. It takes no memory.
    pub fn new(alloc: Global) -> Self
        ensures { IsFresh result }
    {
        DeRonState {
            cur: '\0',
            tok: DeRonTok::Bof,
            strbuf: String::new(alloc),
            numbuf: String::new(alloc),
            identbuf: String::new(alloc),
            line: 0,
            col: 0,
        }
    }

    /// Takes one character. A line feed adds a line and starts its columns at 0, any other
    /// character adds a column. At the end of the text `cur` becomes NUL, and line and column
    /// are unchanged. It takes no memory.
    pub fn next(&mut self, i: &mut Chars<'_>)
        ensures place { place_of self.new ≡ place_after (place_of self.old) (held i.old) }
        ensures held { held i.new ≡ tail (held i.old) }
        ensures passes { Passes (place_of self.old) (held i.old) (place_of self.new) (held i.new) }
        ensures counts { self.old.cur ≢ 0 → Moved self.old i.old self.new i.new }
        ensures rest { remaining self.new.cur i.new ≡ before_nul (held i.old) }
        ensures taken { self.old.cur ≢ 0
            → remaining self.old.cur i.old ≡ self.old.cur ∷ remaining self.new.cur i.new }
        ensures tok { self.new.tok ≡ self.old.tok }
        ensures strbuf { self.new.strbuf ≡ self.old.strbuf }
        ensures numbuf { self.new.numbuf ≡ self.old.numbuf }
        ensures identbuf { self.new.identbuf ≡ self.old.identbuf }
    {
        let mut place = self.place();
        place.next(i);
        self.stand_at(place);
    }

    /// Takes the next token: it is pending then, and `Eof` if nothing but white space and
    /// comments is left. `strbuf` changes only for a `Str`, `numbuf` only for a number, and
    /// `identbuf` only for a word.
    ///
    /// It fails if no token can be cut from the remaining input, or if an allocation fails. It
    /// allocates only if the buffer has no capacity for the text of the token. On an error the
    /// state is at the end of the text, as `fail` leaves it, and its line and column count the
    /// characters that were taken, up to where the fault was found.
    #[inline(always)]
    pub fn next_tok(&mut self, alloc: Global, i: &mut Chars<'_>) -> Result<(), DeRonErr>
        ensures { TakesNext self.old i.old self.new i.new result }
    {
        match self.scan_after_value(i) {
            Ok(()) => Ok(()),
            Err(rejection) => Err(self.reject(alloc, rejection)),
        }
    }

    /// Takes the next token as `next_tok` does, where most often a value or a name begins: so
    /// it does not look for punctuation first.
    #[inline(always)]
    pub(crate) fn scan_value_token(
        &mut self,
        alloc: Global,
        i: &mut Chars<'_>,
    ) -> Result<(), DeRonErr>
        ensures { TakesNext self.old i.old self.new i.new result }
    {
        match self.scan_token(i) {
            Ok(()) => Ok(()),
            Err(rejection) => Err(self.reject(alloc, rejection)),
        }
    }

    /// Leaves the state at the end of the text: `Eof` is pending, and `cur` is NUL. Line and
    /// column are unchanged. It takes no memory.
    #[tactic(auto, unfolding(nano_text::specs::Place::remaining))]
    pub fn fail(&mut self)
        ensures ended { (i : Chars) → at self.new i ≡ ended }
        ensures unchanged { self.new ≡ record self.old { tok = DeRonTok.Eof; cur = 0 } }
    {
        self.tok = DeRonTok::Eof;
        self.cur = '\0';
    }

    /// The error of a rejection. It leaves the state at the end of the text.
    #[cold]
    #[inline(never)]
    pub(crate) fn reject(&mut self, alloc: Global, rejection: Rejection) -> DeRonErr
        ensures unchanged { self.new ≡ record self.old { tok = DeRonTok.Eof; cur = 0 } }
        ensures made { Reports self.new (rejection ≢ Rejection.Memory) result }
    {
        let err = match rejection {
            Rejection::NoToken => self.err_token(alloc, "tokenizer"),
            Rejection::Comment => self.err_parse(alloc, "comment"),
            Rejection::Character => self.err_token(alloc, "char"),
            Rejection::Number => self.err_parse(alloc, "number"),
            Rejection::String => self.err_parse(alloc, "string"),
            Rejection::Field => self.err_parse(alloc, "field"),
            Rejection::Memory => self.err_memory(alloc),
        };
        self.fail();
        err
    }

    /// Where the state stands.
    #[inline]
    pub fn place(&self) -> Place
        ensures { result ≡ place_of self.now }
    {
        Place {
            cur: self.cur,
            line: self.line,
            col: self.col,
        }
    }

    /// Stands at another place. The pending token and the buffers are the same.
    #[inline]
    pub fn stand_at(&mut self, place: Place)
        ensures { self.new
            ≡ record self.old { cur = place.cur; line = place.line; col = place.col } }
    {
        self.cur = place.cur;
        self.line = place.line;
        self.col = place.col;
    }
}
