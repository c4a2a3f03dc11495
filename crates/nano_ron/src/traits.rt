//! The traits of values that can be written as RON and read from it.

use nano_ron_tokens::{DeRonErr, DeRonState, SerRonState, as_value_error, expect_end};
use nano_text::Place;
use nano_value::Value;
use std::alloc::{AllocError, Global};
use std::str::Chars;

/// A type that has a RON codec. A type that is only written has one too.
pub trait RonCodec: Value {
    ghost use Rattle.nano_value.specs.Meaning.{Agrees};
    ghost use Rattle.nano_ron.specs.Codec.{Codec};

    /// The canonical text of each value, the tokens that it splits into, and which tokens
    /// encode which meaning.
    ghost ron: { Codec Self };

    /// It speaks of what the values mean, and of the meanings that are legal for the type.
    ghost agrees: { Agrees Self.means Self.legal ron.canonical.means ron.encoding.legal };
}

/// A value that can be written as RON.
pub trait SerRon: RonCodec {
    ghost use Rattle.std.specs.Prelude.{◌≡◌, IfOk, OnOk, OnErr, string_bytes, encode_utf8_all};
    ghost use Rattle.nano_text.specs.Outcomes.{Appends, Unchanged};

    /// Appends the canonical text of the value to `s.out`.
    ///
    /// `d` is the nesting level, from 0: each level is indented by four spaces more.
    ///
    /// # Errors
    ///
    /// Out of memory alone, and then `s.out` is unchanged.
    ///
    /// # Examples
    ///
    /// ```
    /// let mut written = SerRonState {
    ///     out: String::new(alloc),
    /// };
    /// age.ser_ron(alloc, 0, &mut written)?;
    /// ```
    fn ser_ron(&self, alloc: Global, d: usize, s: &mut SerRonState) -> Result<(), AllocError>
        ensures ok { OnOk result
            (Appends s.old.out s.new.out (Self.ron.canonical.text d self.now)) }
        ensures err { OnErr result (Unchanged s.old.out s.new.out) };

    /// Returns the canonical text of the value at level 0, as a new text.
    ///
    /// # Errors
    ///
    /// Out of memory alone.
    ///
    /// # Examples
    ///
    /// ```
    /// let text = point.serialize_ron(alloc)?;
    /// ```
    final fn serialize_ron(&self, alloc: Global) -> Result<String, AllocError>
        ensures { IfOk result (λ text.
            string_bytes text ≡ encode_utf8_all (Self.ron.canonical.text 0 self.now)) }
    {
        let mut state = SerRonState {
            out: String::new(alloc),
        };
        self.ser_ron(alloc, 0, &mut state)?;
        Ok(state.out)
    }
}

/// A value that can be read from RON.
pub trait DeRon: RonCodec + Drop {
    ghost use Rattle.nano_ron.specs.Outcomes.{position, ReadsOrEnds};
    ghost use Rattle.nano_ron.specs.Readers.{ReadsText, ReadsWhole};
    ghost use Rattle.nano_ron_tokens.specs.Outcomes.{TakesPlainly};

    /// Reads the value that the tokens from the pending one on encode. The token after the
    /// value is pending then, which may be the end.
    ///
    /// # Errors
    ///
    /// No value is encoded there with one more token or the end after it, or memory ran out
    /// (`memory`). Every error leaves the state at the end of the text. Line and column, from 0,
    /// are those of a token that no encoding goes on with; or, where no token can be cut after
    /// the pending one, of a character from there on.
    ///
    /// # Examples
    ///
    /// ```
    /// let age = u8::de_ron(alloc, &mut state, &mut input)?;
    /// ```
    fn de_ron(
        alloc: Global,
        state: &mut DeRonState,
        input: &mut Chars<'_>,
    ) -> Result<Self, DeRonErr>
        ensures { ReadsOrEnds Self.ron.encoding.encodes Self.means
            (position state.old input.old) (position state.new input.new) result };

    /// Takes the value that comes next, where it stands plainly. Lists take one item after the other
    /// by it, and keep the place and the input in registers. `text` is room for a text: what it
    /// holds counts for nothing before and after.
    ///
    /// `None` says nothing of what stands there, and the place and the input, which are copies, may
    /// have moved: `de_ron` reads it then. So a type that always answers `None` loses speed alone.
    #[inline(always)]
    fn de_ron_plain(
        alloc: Global,
        place: &mut Place,
        input: &mut Chars<'_>,
        text: &mut String,
    ) -> Option<Self>
        ensures { TakesPlainly Self.ron.encoding.encodes Self.means
            place.old input.old place.new input.new result }
    {
        None
    }

    /// Reads the value that begins the text, which ends before its first NUL. More may follow:
    /// of that, one token is read.
    ///
    /// # Errors
    ///
    /// No value is encoded at the beginning of the text with one more token or the end after
    /// it, or memory ran out (`memory`).
    ///
    /// # Examples
    ///
    /// ```
    /// let point = <(i32, Option<bool>)>::deserialize_ron(alloc, "(-1, None) // a point")?;
    /// ```
    final fn deserialize_ron(alloc: Global, input: &str) -> Result<Self, DeRonErr>
        ensures { ReadsText Self.ron.encoding.encodes Self.means input.now result }
    {
        let mut state = DeRonState::new(alloc);
        let mut chars = input.chars();
        state.next(&mut chars);
        state.next_tok(alloc, &mut chars)?;
        Self::de_ron(alloc, &mut state, &mut chars)
    }

    /// Reads the value that is the whole input: no token follows it, and no NUL stands
    /// anywhere. White space and comments may stand around it and inside it.
    ///
    /// # Errors
    ///
    /// Where the beginning of the text decodes to a value, and another token or a NUL follows
    /// it, the message of the error is `Cannot parse end `, or the error is out of memory.
    /// Nothing else is rejected so. An error of the value's own reader that has this very
    /// message loses the space at its end. Any other error except out of memory reports that no
    /// value is encoded at the beginning of the text, with one more token or the end after it.
    ///
    /// # Examples
    ///
    /// ```
    /// if let Err(error) = u8::deserialize_ron_whole(alloc, "42 /* and */ 43") {
    ///     println!(rt; "{error}")?;
    /// }
    /// ```
    final fn deserialize_ron_whole(alloc: Global, input: &str) -> Result<Self, DeRonErr>
        ensures { ReadsWhole Self.ron.encoding.encodes Self.means input.now result }
    {
        let mut state = DeRonState::new(alloc);
        let mut characters = input.chars();
        state.next(&mut characters);
        if let Err(error) = state.next_tok(alloc, &mut characters) {
            return Err(as_value_error(error));
        }
        match Self::de_ron(alloc, &mut state, &mut characters) {
            Ok(value) => {
                expect_end(alloc, &state, input)?;
                Ok(value)
            }
            Err(error) => Err(as_value_error(error)),
        }
    }
}

/// A value that is read back from what is written, where it is sound: nowhere inside it a `Some`
/// stands around what is written with the word `None` at its beginning. Each type with a writer and
/// a reader is one.
pub trait BothRon: SerRon + DeRon {}

impl<T: SerRon + DeRon> BothRon for T {}
