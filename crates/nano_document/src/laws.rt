//! Laws of documents: functions that do nothing, and whose contract is the law.

ghost use Rattle.std.specs.Prelude.{◌≡◌, ◌↔◌, ◌<◌, ◌++◌, ℕ, ℤ, List, String, string_bytes};
ghost use Rattle.std.specs.Prelude.{MatchResult, true};
ghost use Rattle.std.specs.Global.{Global};
ghost use Rattle.nano_value.specs.Meaning.{Meaning, text};
ghost use Rattle.nano_meaning.specs.Sums.{tagged};
ghost use Rattle.nano_document.specs.Decimals.{IsDecimal};
ghost use Rattle.nano_document.specs.Documents.{depth, most_levels, json_means};
ghost use Rattle.nano_document.specs.DocumentCodecs.{json_codec, level_codec};
ghost use Rattle.nano_document.specs.FirstFaults.{HasOneFirstError};
ghost use Rattle.nano_document.specs.Conversions.{IsWrittenDocument};
ghost use Rattle.nano_document.specs.IndentedCodecs.{indented};
ghost use Rattle.nano_bin_bytes.specs.Scalars.{little_endian};
ghost use Rattle.nano_bin_bytes.specs.Containers.{written_string};
ghost use Rattle.nano_document.specs.BinScalars.{written_integer};
ghost use Rattle.nano_document.specs.BinCodecs.{bin_codec, EncodesDocument};
ghost use Rattle.nano_grammar.specs.Tokens.{Cuts, TextDecodesTo};
ghost use Rattle.nano_json_tokens.specs.Cut.{Cut};
ghost use Rattle.nano_json_tokens.specs.Written.{MayFollow};

use crate::json::Json;
use nano_json::laws::written_tokens_encode_a_sound_value;
use nano_json::{BothJson, DeJsonErr};
use nano_value::Value;
use std::alloc::Global;

/// A document of at most 128 levels is sound: what is written of it is read back.
pub fn a_document_of_few_levels_is_sound()
    ensures { (x : Json) → depth x < most_levels → json_codec.sound x }
{}

/// Where a text goes wrong first is one place.
pub fn a_text_has_one_first_error()
    ensures { (levels : ℕ) (bytes : List ℕ)
        → HasOneFirstError (level_codec levels).encoding.encodes bytes }
{}

/// A `Decimal` means the decimal that its text is, and is written as it stands; of a text that is
/// none, it means what a `Text` means.
pub fn a_decimal_is_its_text()
    ensures means { (s : String Global) → IsDecimal (string_bytes s)
        → json_means (Json.Decimal s) ≡ tagged 6 (text (string_bytes s)) }
    ensures written { (s : String Global) (d : ℕ) → IsDecimal (string_bytes s)
        → json_codec.canonical.text d (Json.Decimal s) ≡ string_bytes s }
    ensures other { (s : String Global) → (IsDecimal (string_bytes s) → ⊥)
        → json_means (Json.Decimal s) ≡ json_means (Json.Text s) }
{}

/// The text of a document with indentation, with anything after it that may follow a value, is cut
/// into the tokens of its canonical text, and leaves exactly what follows.
pub fn indented_text_is_cut_into_the_same_tokens(value: &Json)
    ensures { (d : ℕ) (rest : List ℕ) → MayFollow rest → Cuts Cut
        (json_codec.canonical.tokens value.now) (indented d value.now ++ rest) rest }
{
    value.known();
}

/// So a document of at most 128 levels decodes from its text with indentation.
pub fn indented_text_decodes_to_the_document(value: &Json)
    ensures { depth value.now < most_levels → TextDecodesTo Cut json_codec.encoding.encodes
        (indented 0 value.now) (json_means value.now) }
{
    value.known();
}

/// Bytes encode a document exactly if they are the tag of a variant and what that holds. A number is the
/// same as a `U64` and as an `I64`.
pub fn bytes_are_a_tag_and_its_content()
    ensures { (bytes : List ℕ) (m : Meaning) → bin_codec.encoding.encodes bytes m
        ↔ EncodesDocument bytes m }
{}

/// In bytes a number is written as a `U64` unless it is below 0, and a `Decimal` as such only if its
/// text is one, else as a `Text`.
pub fn equal_documents_have_one_tag()
    ensures number { (z : ℤ) → bin_codec.canonical.written (Json.I64 z) ≡ written_integer z }
    ensures decimal { (s : String Global) → IsDecimal (string_bytes s)
        → bin_codec.canonical.written (Json.Decimal s) ≡ little_endian 2 4 ++ written_string s }
    ensures other { (s : String Global) → (IsDecimal (string_bytes s) → ⊥)
        → bin_codec.canonical.written (Json.Decimal s) ≡ little_endian 2 5 ++ written_string s }
{}

/// Makes a document of a value and reads the value from it, where the value's canonical tokens are
/// those that a document is written with. A sound value comes back as one that means the same, and
/// the only error is out of memory.
pub fn a_value_comes_back<T: BothJson>(alloc: Global, value: &T) -> Result<T, DeJsonErr>
    ensures { (x : Json) → IsWrittenDocument (T.json.canonical.tokens value.now) x
        → T.json.sound value.now → MatchResult result
        (λ read. T.means read ≡ T.means value.now) (λ e. e.memory ≡ true) }
{
    written_tokens_encode_a_sound_value(value);
    let document = Json::from_value(alloc, value)?;
    document.to_value(alloc)
}
