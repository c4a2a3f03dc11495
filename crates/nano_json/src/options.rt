//! Options: `null`, or the item.

ghost use Rattle.nano_meaning.proofs.AgreesLaws.{option_agrees};
ghost use Rattle.nano_json.specs.ContainerCodecs.{option_codec};

use crate::traits::{DeJson, JsonCodec, SerJson};
use nano_json_tokens::{DeJsonErr, DeJsonState, SerJsonState, may_be_null, take_null};
use nano_text::Place;
use std::alloc::{AllocError, Global};
use std::str::Chars;

impl<T: JsonCodec> JsonCodec for Option<T> {
    ghost json = { option_codec T.json };

    ghost agrees = { option_agrees T.agrees };
}

impl<T: SerJson> SerJson for Option<T> {
    fn ser_json(&self, alloc: Global, d: usize, s: &mut SerJsonState) -> Result<(), AllocError> {
        match self {
            None => s.out.push_str("null"),
            Some(value) => value.ser_json(alloc, d, s),
        }
    }
}

impl<T: DeJson> DeJson for Option<T> {
    fn de_json(
        alloc: Global,
        state: &mut DeJsonState,
        input: &mut Chars<'_>,
    ) -> Result<Option<T>, DeJsonErr> {
        if state.is_null() {
            state.next_tok(alloc, input)?;
            return Ok(None);
        }
        let value = T::de_json(alloc, state, input)?;
        Ok(Some(value))
    }

    #[inline(always)]
    fn de_json_plain(
        alloc: Global,
        place: &mut Place,
        input: &mut Chars<'_>,
        text: &mut String,
    ) -> Option<Option<T>> {
        if may_be_null(place, input) {
            take_null(place, input)?;
            return Some(None);
        }
        let value = T::de_json_plain(alloc, place, input, text)?;
        Some(Some(value))
    }
}
