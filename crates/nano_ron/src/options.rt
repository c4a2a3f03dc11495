//! Options: the word `None`, or the item.

ghost use Rattle.nano_meaning.proofs.AgreesLaws.{option_agrees};
ghost use Rattle.nano_ron.specs.ContainerCodecs.{option_codec};

use crate::traits::{DeRon, RonCodec, SerRon};
use nano_ron_tokens::{DeRonErr, DeRonState, SerRonState};
use std::alloc::{AllocError, Global};
use std::str::Chars;

impl<T: RonCodec> RonCodec for Option<T> {
    ghost ron = { option_codec T.ron };

    ghost agrees = { option_agrees T.agrees };
}

impl<T: SerRon> SerRon for Option<T> {
    fn ser_ron(&self, alloc: Global, d: usize, s: &mut SerRonState) -> Result<(), AllocError> {
        match self {
            None => s.out.push_str("None"),
            Some(value) => value.ser_ron(alloc, d, s),
        }
    }
}

impl<T: DeRon> DeRon for Option<T> {
    fn de_ron(
        alloc: Global,
        state: &mut DeRonState,
        input: &mut Chars<'_>,
    ) -> Result<Option<T>, DeRonErr> {
        if state.is_none() {
            state.next_tok(alloc, input)?;
            return Ok(None);
        }
        let value = T::de_ron(alloc, state, input)?;
        Ok(Some(value))
    }
}
