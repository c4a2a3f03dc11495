//! The laws that hold of any format are called for one whose tokens are characters.

use nano_grammar::laws;

/// Each character is a token, and encodes itself.
struct Characters;

impl laws::AnyCodec<u32, u32> for Characters {
    ghost use Rattle.std.specs.Prelude.{◌≡◌, [], ◌∷◌};
    ghost use Rattle.nano_json_tokens.specs.Token.{block_punctuation};

    ghost cut = { λ text token rest. text ≡ token ∷ rest };

    ghost encodes = { λ tokens value. tokens ≡ value ∷ [] };

    ghost punctuation = { block_punctuation };
}

#[test]
fn laws_of_a_codec(_rt: HostRuntime) {
    laws::taken_tokens_begin_the_text::<u32, u32, Characters>();
    laws::a_value_decodes_where_the_text_begins::<u32, u32, Characters>();
    laws::a_value_spans_to_one_place::<u32, u32, Characters>();
    laws::encoded_lists_are_joined::<u32, u32, Characters>();
    laws::a_fault_decodes_to_nothing::<u32, u32, Characters>();
    laws::nothing_goes_past_a_fault::<u32, u32, Characters>();
}
