//! The forms of a text, and values read from one and written.

ghost use Rattle.std.specs.Prelude.{◌≡◌, IfOk, IfErr, string_bytes};
ghost use Rattle.nano_text_forms.specs.Forms.{form_of, IsWhole, NotOfMemory, RejectsWhole, written};

use crate::rejection::Rejection;
use nano_json::{DeJson, SerJson};
use nano_ron::{DeRon, SerRon};
use std::alloc::{AllocError, Global};

/// The form of a text.
#[derive(Clone, Copy, Debug, PartialEq)]
pub enum Form {
    /// JSON.
    Json,
    /// RON.
    Ron,
}

impl Form {
    /// The form that the end of a file's name selects: `.json` or `.ron`. Any other end selects
    /// none.
    pub fn of_name(name: &str) -> Option<Form>
        ensures { result ≡ form_of name.now }
    {
        if name.ends_with(".json") {
            Some(Form::Json)
        } else if name.ends_with(".ron") {
            Some(Form::Ron)
        } else {
            None
        }
    }

    /// The value that the whole text encodes in this form, with nothing after it but white
    /// space, and in RON comments.
    ///
    /// # Errors
    ///
    /// The text is no value of the type, with words, line and column, or memory ran out.
    pub fn read<T: DeJson + DeRon>(self, alloc: Global, text: &str) -> Result<T, Rejection>
        ensures decodes { IfOk result (λ value.
            IsWhole self T.json.encoding T.ron.encoding text.now (T.means value)) }
        ensures rejected { IfErr result (λ rejection. NotOfMemory rejection
            → (m : _) → IsWhole self T.json.encoding T.ron.encoding text.now m → ⊥) }
        ensures reported { IfErr result
            (RejectsWhole self T.json.encoding T.ron.encoding text.now) }
    {
        match self {
            Form::Json => Ok(T::deserialize_json_whole(alloc, text)?),
            Form::Ron => Ok(T::deserialize_ron_whole(alloc, text)?),
        }
    }

    /// The normal form of a value.
    ///
    /// # Errors
    ///
    /// Out of memory alone.
    pub fn write<T: SerJson + SerRon>(self, alloc: Global, value: &T) -> Result<String, AllocError>
        ensures { IfOk result (λ text.
            string_bytes text ≡ written self T.json.canonical T.ron.canonical value.now) }
    {
        match self {
            Form::Json => value.serialize_json(alloc),
            Form::Ron => value.serialize_ron(alloc),
        }
    }
}
