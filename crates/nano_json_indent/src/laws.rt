//! Laws of texts with indentation: functions that do nothing, and whose contract is the law.

ghost use Rattle.std.specs.Prelude.{◌++◌, List, ℕ};
ghost use Rattle.nano_grammar.specs.Tokens.{Cuts, TextDecodesTo};
ghost use Rattle.nano_json_tokens.specs.Cut.{Cut};
ghost use Rattle.nano_json_tokens.specs.Written.{MayFollow};
ghost use Rattle.nano_json_indent.specs.Layout.{indented};

use nano_json::SerJson;
use nano_json::laws::written_tokens_encode_a_sound_value;

/// A value's text with indentation, with anything after it that may follow a value, is cut into the
/// tokens of its canonical text, and leaves exactly what follows.
pub fn indented_text_has_the_same_tokens<T: SerJson>(value: &T)
    ensures { (rest : List ℕ) → MayFollow rest → Cuts Cut (T.json.canonical.tokens value.now)
        (indented (T.json.canonical.tokens value.now) ++ rest) rest }
{
    value.known();
}

/// So a sound value decodes from its text with indentation.
pub fn indented_text_decodes_to_the_value<T: SerJson>(value: &T)
    ensures { T.json.sound value.now → TextDecodesTo Cut T.json.encoding.encodes
        (indented (T.json.canonical.tokens value.now)) (T.means value.now) }
{
    value.known();
    written_tokens_encode_a_sound_value(value);
}
