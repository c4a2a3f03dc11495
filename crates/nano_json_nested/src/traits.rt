//! What a type that contains itself is read by, and what it is written by.

use nano_json::{DeJsonErr, DeJsonState, JsonCodec, SerJsonState};
use std::alloc::{AllocError, Global};
use std::str::Chars;

/// A type that contains itself, or whose values hold values of such a type.
pub trait NestedJson {
    ghost use Rattle.std.specs.Prelude.{ℕ};
    ghost use Rattle.nano_value.specs.Meaning.{Meaning};
    ghost use Rattle.nano_json.specs.Codec.{Codec};

    /// What a value means.
    ghost means: { Self → Meaning };

    /// The codec that encodes the values of at most so many levels.
    ghost at: { ℕ → Codec Self };
}

/// What reads values of a type from JSON: a chain of levels, along which a reader ends.
pub trait ReadsJson<T: NestedJson> {
    ghost use Rattle.nano_json.specs.Outcomes.{position, ReadsOrEnds};

    /// Reads the value of at most `left` levels that the tokens from the pending one on encode. The
    /// token after the value is pending then, which may be the end.
    ///
    /// # Errors
    ///
    /// No value of at most so many levels is encoded there with one more token or the end after it,
    /// or memory ran out (`memory`), as it does where the chain is shorter. Every error leaves the
    /// state at the end of the text.
    fn read_json(
        &self,
        left: usize,
        alloc: Global,
        state: &mut DeJsonState,
        input: &mut Chars<'_>,
    ) -> Result<T, DeJsonErr>
        ensures { ReadsOrEnds (T.at left).encoding.encodes T.means
            (position state.old input.old) (position state.new input.new) result };
}

/// A value that is written as JSON by one method, through which a type may lead back to itself.
pub trait WritesJson: JsonCodec {
    ghost use Rattle.std.specs.Prelude.{OnOk, OnErr};
    ghost use Rattle.nano_text.specs.Outcomes.{Appends, Unchanged};

    /// Appends the canonical text of the value to `s.out`.
    ///
    /// `d` is the nesting level, from 0, which JSON ignores.
    ///
    /// # Errors
    ///
    /// Out of memory alone, and then `s.out` is unchanged.
    fn write_json(&self, alloc: Global, d: usize, s: &mut SerJsonState) -> Result<(), AllocError>
        ensures ok { OnOk result
            (Appends s.old.out s.new.out (Self.json.canonical.text d self.now)) }
        ensures err { OnErr result (Unchanged s.old.out s.new.out) };
}
