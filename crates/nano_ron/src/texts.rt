//! Texts: a string.
//! Their readers are inlined: a value read then passes through no result with space for an
//! error.

ghost use Rattle.std.specs.Prelude.{string_bytes};
ghost use Rattle.nano_value.specs.Meaning.{text};
ghost use Rattle.nano_meaning.proofs.AgreesLaws.{agreed};
ghost use Rattle.nano_ron.specs.Codec.{codec_as};
ghost use Rattle.nano_ron.specs.ScalarCodecs.{texts, text_codec};
ghost use Rattle.nano_ron.specs.Outcomes.{position, Reads};

use crate::traits::{DeRon, RonCodec, SerRon};
use nano_ron_tokens::{DeRonErr, DeRonState, SerRonState, append_string, end_on_error, take_text};
use nano_text::Place;
use std::alloc::{AllocError, Global};
use std::str::Chars;

impl RonCodec for String {
    ghost ron = { codec_as (λ x. string_bytes x) text_codec };

    ghost agrees = { agreed };
}

impl SerRon for String {
    fn ser_ron(&self, _alloc: Global, _d: usize, s: &mut SerRonState) -> Result<(), AllocError> {
        append_string(&mut s.out, self.as_str())
    }
}

/// Reads a string. On an error, the position of the state is unspecified.
#[inline(always)]
fn read_string(
    alloc: Global,
    state: &mut DeRonState,
    input: &mut Chars<'_>,
) -> Result<String, DeRonErr>
    ensures { Reads texts.encodes (λ x. text (string_bytes x))
        (position state.old input.old) (position state.new input.new) result }
{
    let text = state.as_string(alloc)?;
    state.next_tok(alloc, input)?;
    let _length = text.len();
    Ok(text)
}

impl DeRon for String {
    #[inline(always)]
    fn de_ron(
        alloc: Global,
        state: &mut DeRonState,
        input: &mut Chars<'_>,
    ) -> Result<String, DeRonErr> {
        let read = read_string(alloc, state, input);
        end_on_error(state, read)
    }

    #[inline(always)]
    fn de_ron_plain(
        alloc: Global,
        place: &mut Place,
        input: &mut Chars<'_>,
        text: &mut String,
    ) -> Option<String> {
        if !take_text(place, input, text) {
            return None;
        }
        let _length = text.len();
        match String::from_str(alloc, text.as_str()) {
            Ok(copy) => Some(copy),
            Err(_full) => None,
        }
    }
}
