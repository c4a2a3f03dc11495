//! Laws of the definitions that the formats' contracts cite, each proved once for every cut and
//! every encoding: each function does nothing, and its contract is the law.
ghost use Rattle.nano_grammar.specs.Promises.{TakenTokensBegin, DecodesWhereTextBegins, SpansOnce};
ghost use Rattle.nano_grammar.specs.Promises.{ListsAreJoined, FaultsDecodeToNothing};
ghost use Rattle.nano_grammar.specs.Promises.{NothingGoesPastFaults};

/// Any way to cut a text into tokens `T`, to encode values `V` by them, and to punctuate lists.
pub trait AnyCodec<T, V> {
    ghost use Rattle.std.specs.Prelude.{ℕ, List};
    ghost use Rattle.nano_grammar.specs.Items.{ListPunctuation};

    /// Which token is cut from a text, and what is left.
    ghost cut: { List ℕ → T → List ℕ → Type 0 };

    /// Which tokens encode which value.
    ghost encodes: { List T → V → Type 0 };

    /// The tokens that a list is written with.
    ghost punctuation: { ListPunctuation T };
}

/// To take tokens up to another one is the same as to begin with them and that one.
pub fn taken_tokens_begin_the_text<T, V, F: AnyCodec<T, V>>()
    ensures { TakenTokensBegin F.cut }
{}

/// A text decodes to a value where the text begins with an encoding of it and one more token.
pub fn a_value_decodes_where_the_text_begins<T, V, F: AnyCodec<T, V>>()
    ensures { DecodesWhereTextBegins F.cut F.encodes }
{}

/// Where a text is cut in one way, and no encoding begins another, one value is encoded from a
/// place, to one other place.
pub fn a_value_spans_to_one_place<T, V, F: AnyCodec<T, V>>()
    ensures { SpansOnce F.cut F.encodes }
{}

/// Where a text is cut in one way and goes wrong, no value decodes.
pub fn a_fault_decodes_to_nothing<T, V, F: AnyCodec<T, V>>()
    ensures { FaultsDecodeToNothing F.cut F.encodes }
{}

/// Tokens that were taken and begin an encoding are no more than those before where the text goes
/// wrong.
pub fn nothing_goes_past_a_fault<T, V, F: AnyCodec<T, V>>()
    ensures { NothingGoesPastFaults F.cut F.encodes }
{}

/// An encoded list is its items with one comma between two, and optionally one after the last.
pub fn encoded_lists_are_joined<T, V, F: AnyCodec<T, V>>()
    ensures { ListsAreJoined F.punctuation F.encodes }
{}
