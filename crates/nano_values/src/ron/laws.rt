//! What [`Values`](super::Values) promises of the whole text: each function does nothing, and its
//! contract is the law.
ghost use Rattle.std.specs.Prelude.{◌≡◌, ℕ, List};
ghost use Rattle.nano_value.specs.Meaning.{Meaning};
ghost use Rattle.nano_grammar.specs.Outcomes.{Position};
ghost use Rattle.nano_values.specs.Values.{HoldsValues, IsFirst, IsOver, TakesValues, NoneIsNext};
ghost use Rattle.nano_ron_tokens.specs.Cut.{Cut};
ghost use Rattle.nano_ron_tokens.specs.Token.{Token, bof, end};

use nano_ron::RonCodec;

/// The values that are taken from a text, one after the other up to its end, are those whose
/// encodings, one after the other, the whole text is.
pub fn taken_values_are_those_of_the_text<T: RonCodec>()
    ensures { (bytes : List ℕ) (ms : List Meaning) (start stop last : Position Token)
        → IsFirst bof bytes start → TakesValues Cut T.ron.encoding.encodes bof start ms stop
        → IsOver Cut bof end bytes stop last
        → HoldsValues Cut T.ron.encoding.encodes end bytes ms }
{}

/// Where after some values no further one is taken, and an error is returned, the whole text is the
/// encodings of no values.
pub fn a_text_with_a_fault_holds_no_values<T: RonCodec>()
    ensures { (bytes : List ℕ) (ms ns : List Meaning) (start stop : Position Token)
        → IsFirst bof bytes start → TakesValues Cut T.ron.encoding.encodes bof start ms stop
        → NoneIsNext Cut T.ron.encoding.encodes bof end bytes stop.at
        → HoldsValues Cut T.ron.encoding.encodes end bytes ns → ⊥ }
{}

/// A text is the encodings of one list of values at most.
pub fn a_text_holds_one_list_of_values<T: RonCodec>()
    ensures { (bytes : List ℕ) (ms ns : List Meaning)
        → HoldsValues Cut T.ron.encoding.encodes end bytes ms
        → HoldsValues Cut T.ron.encoding.encodes end bytes ns → ms ≡ ns }
{}
