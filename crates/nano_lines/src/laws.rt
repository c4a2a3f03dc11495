//! What [`put`](crate::put) and [`Lines::next`](crate::Lines::next) promise together, each the
//! contract of a function.
//!
//! The laws speak of the outcomes that the two contracts name: a writer got a line, the next line
//! that is not blank was taken, and what is left has a fault next, or only blank lines. None of
//! these functions does anything.
ghost use Rattle.std.specs.Prelude.{
  ◌≡◌,
  ◌≤◌,
  ◌+◌,
  ◌++◌,
  ℕ,
  List,
  Some,
  map,
  length,
  encode_utf8_all,
};
ghost use Rattle.std.specs.List.{AllByRecursion};
ghost use Rattle.nano_value.specs.Meaning.{Meaning};
ghost use Rattle.nano_lines.specs.Lines.{IsBlank, HoldsValue};
ghost use Rattle.nano_lines.specs.Promises.{AreLines, AppendsLines, AddsLines, StreamHolds};
ghost use Rattle.nano_lines.specs.Promises.{BeginsWithValue, GivesValues};
ghost use Rattle.nano_lines.specs.Writes.{AppendsLine};

use nano_json::{DeJson, JsonCodec, SerJson};
use nano_value::Value;

/// What one `put` of a sound value appended is taken by one `next`, whatever follows, unless it
/// is longer than the limit: as a value that means the same, with what follows left. A value is
/// sound if nowhere inside it a `Some` stands around what is written as `null`.
pub fn what_was_put_is_taken<T: SerJson + DeJson>(value: &T)
    ensures { (limit : ℕ) (before line rest : List ℕ) → T.json.sound value.now
        → AppendsLine (T.json.canonical.text 0 value.now) (Some before) (Some (before ++ line))
        → length line ≤ limit + 1
        → BeginsWithValue T.json.encoding.encodes limit (line ++ rest) (T.means value.now) rest }
{
    value.known();
}

/// From lines of these sound values, one after the other, what they mean is taken in their order,
/// and then the stream is at its end. On the way no `next` reports a fault of a line, nor the end.
pub fn lines_give_their_values<T: SerJson + DeJson>(values: &[T])
    ensures { (limit : ℕ) (stream : List ℕ) → AllByRecursion T.json.sound values.now
        → AllByRecursion (λ x. length (encode_utf8_all (T.json.canonical.text 0 x)) ≤ limit)
        values.now
        → AreLines stream (map (T.json.canonical.text 0) values.now)
        → GivesValues T.json.encoding.encodes limit stream (map T.means values.now) }
{
    values.known();
}

/// What one `put` after the other appended is the lines of those texts, one after the other.
pub fn puts_append_lines()
    ensures { (texts : List (List ℕ)) (before after : List ℕ)
        → AppendsLines texts (Some before) (Some after) → AddsLines texts before after }
{}

/// A stream holds one list of values at most.
pub fn one_list_at_most<T: JsonCodec>()
    ensures { (stream : List ℕ) (ms ns : List Meaning)
        → StreamHolds T.json.encoding.encodes stream ms
        → StreamHolds T.json.encoding.encodes stream ns → ms ≡ ns }
{}

/// A blank line holds no value.
pub fn a_blank_line_holds_none<T: JsonCodec>()
    ensures { (line : List ℕ) (m : Meaning) → IsBlank line
        → HoldsValue T.json.encoding.encodes line m → ⊥ }
{}
