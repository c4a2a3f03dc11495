//! Documents from values of any type with a codec, and values from documents.

ghost use Rattle.std.specs.Prelude.{encode_utf8_all};
ghost use Rattle.nano_json.specs.Readers.{ReadsWhole};
ghost use Rattle.nano_document.specs.Documents.{json_means};
ghost use Rattle.nano_document.specs.DocumentCodecs.{json_codec};
ghost use Rattle.nano_document.specs.Conversions.{ReadsAll};

use crate::json::Json;
use nano_json::{DeJson, DeJsonErr, DeJsonState, JsonCodec, SerJson};
use nano_value::Value;
use std::alloc::Global;

impl Json {
    /// The document that the canonical text of a value is. Only this document, by what it means, is
    /// encoded by the value's canonical tokens.
    ///
    /// # Errors
    ///
    /// No document is encoded by them, as of more than 128 levels, or memory ran out (`memory`).
    /// Line and column are those of the canonical text.
    pub fn from_value<T: SerJson>(alloc: Global, value: &T) -> Result<Json, DeJsonErr>
        ensures text { ReadsWhole json_codec.encoding.encodes json_means
            (encode_utf8_all (T.json.canonical.text 0 value.now)) result }
        ensures tokens { ReadsAll json_codec.encoding.encodes json_means
            (T.json.canonical.tokens value.now) result }
    {
        value.known();
        match value.serialize_json(alloc) {
            Ok(text) => Json::deserialize_json_whole(alloc, text.as_str()),
            Err(_rejected) => Err(DeJsonState::new(alloc).err_memory(alloc)),
        }
    }

    /// The value of a type that the canonical text of the document decodes to.
    ///
    /// # Errors
    ///
    /// It decodes to none, or memory ran out (`memory`). Line and column are those of the canonical
    /// text.
    pub fn to_value<T: DeJson>(&self, alloc: Global) -> Result<T, DeJsonErr>
        ensures text { ReadsWhole T.json.encoding.encodes T.means
            (encode_utf8_all (json_codec.canonical.text 0 self.now)) result }
        ensures tokens { ReadsAll T.json.encoding.encodes T.means
            (json_codec.canonical.tokens self.now) result }
    {
        self.known();
        match self.serialize_json(alloc) {
            Ok(text) => T::deserialize_json_whole(alloc, text.as_str()),
            Err(_rejected) => Err(DeJsonState::new(alloc).err_memory(alloc)),
        }
    }
}
