//! Options of values that contain themselves: the word `None`, or the item.

ghost use Rattle.std.specs.Option.{option_map};
ghost use Rattle.nano_value.specs.Meaning.{optional};
ghost use Rattle.nano_ron.specs.ContainerCodecs.{option_codec};

use crate::traits::{NestedRon, ReadsRon, WritesRon};
use nano_ron::{DeRonErr, DeRonState, SerRonState};
use std::alloc::{AllocError, Global};
use std::str::Chars;

impl<T: NestedRon> NestedRon for Option<T> {
    ghost means = { λ x. optional (option_map T.means x) };

    ghost at = { λ levels. option_codec (T.at levels) };
}

impl<T: NestedRon, L: ReadsRon<T>> ReadsRon<Option<T>> for L {
    fn read_ron(
        &self,
        left: usize,
        alloc: Global,
        state: &mut DeRonState,
        input: &mut Chars<'_>,
    ) -> Result<Option<T>, DeRonErr> {
        if state.is_none() {
            state.next_tok(alloc, input)?;
            return Ok(None);
        }
        let value: T = ReadsRon::<T>::read_ron(self, left, alloc, state, input)?;
        Ok(Some(value))
    }
}

impl<T: WritesRon> WritesRon for Option<T> {
    fn write_ron(&self, alloc: Global, d: usize, s: &mut SerRonState) -> Result<(), AllocError> {
        match self {
            None => s.out.push_str("None"),
            Some(value) => value.write_ron(alloc, d, s),
        }
    }
}
