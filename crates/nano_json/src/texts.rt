//! Texts: a string.
//! The readers are inlined, so a value that is read passes through no result with space for an
//! error.
//!
//! On an error, a reader here may leave the state at any position, unless it says where.

ghost use Rattle.std.specs.Prelude.{string_bytes};
ghost use Rattle.nano_value.specs.Meaning.{text};
ghost use Rattle.nano_meaning.proofs.AgreesLaws.{agreed};
ghost use Rattle.nano_json.specs.Codec.{codec_as};
ghost use Rattle.nano_json.specs.ScalarCodecs.{texts, text_codec};
ghost use Rattle.nano_json.specs.Outcomes.{position, Reads};

use crate::traits::{DeJson, JsonCodec, SerJson};
use nano_json_tokens::{
    DeJsonErr, DeJsonState, SerJsonState, append_string, end_on_error, take_text,
};
use nano_text::Place;
use std::alloc::{AllocError, Global};
use std::str::Chars;

impl JsonCodec for String {
    ghost json = { codec_as (λ x. string_bytes x) text_codec };

    ghost agrees = { agreed };
}

impl SerJson for String {
    fn ser_json(&self, _alloc: Global, _d: usize, s: &mut SerJsonState) -> Result<(), AllocError> {
        append_string(&mut s.out, self.as_str())
    }
}

/// Reads a string.
#[inline(always)]
fn read_string(
    alloc: Global,
    state: &mut DeJsonState,
    input: &mut Chars<'_>,
) -> Result<String, DeJsonErr>
    ensures { Reads texts.encodes (λ x. text (string_bytes x))
        (position state.old input.old) (position state.new input.new) result }
{
    let text = state.as_string(alloc)?;
    state.next_tok(alloc, input)?;
    let _length = text.len();
    Ok(text)
}

impl DeJson for String {
    #[inline(always)]
    fn de_json(
        alloc: Global,
        state: &mut DeJsonState,
        input: &mut Chars<'_>,
    ) -> Result<String, DeJsonErr> {
        let read = read_string(alloc, state, input);
        end_on_error(state, read)
    }

    #[inline(always)]
    fn de_json_plain(
        alloc: Global,
        place: &mut Place,
        input: &mut Chars<'_>,
        text: &mut String,
    ) -> Option<String> {
        if !take_text(place, input, text) {
            return None;
        }
        let _length = text.len();
        match String::from_str(alloc, text.as_str()) {
            Ok(copy) => Some(copy),
            Err(_full) => None,
        }
    }
}

impl JsonCodec for &str {
    ghost json = { codec_as (λ x. x.now) text_codec };

    ghost agrees = { agreed };
}

impl SerJson for &str {
    fn ser_json(&self, _alloc: Global, _d: usize, s: &mut SerJsonState) -> Result<(), AllocError> {
        append_string(&mut s.out, self)
    }
}
