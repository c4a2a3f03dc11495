//! Options of values that contain themselves: `null`, or the item.

ghost use Rattle.std.specs.Option.{option_map};
ghost use Rattle.nano_value.specs.Meaning.{optional};
ghost use Rattle.nano_json.specs.ContainerCodecs.{option_codec};

use crate::traits::{NestedJson, ReadsJson, WritesJson};
use nano_json::{DeJsonErr, DeJsonState, SerJsonState};
use std::alloc::{AllocError, Global};
use std::str::Chars;

impl<T: NestedJson> NestedJson for Option<T> {
    ghost means = { λ x. optional (option_map T.means x) };

    ghost at = { λ levels. option_codec (T.at levels) };
}

impl<T: NestedJson, L: ReadsJson<T>> ReadsJson<Option<T>> for L {
    fn read_json(
        &self,
        left: usize,
        alloc: Global,
        state: &mut DeJsonState,
        input: &mut Chars<'_>,
    ) -> Result<Option<T>, DeJsonErr> {
        if state.is_null() {
            state.next_tok(alloc, input)?;
            return Ok(None);
        }
        let value: T = ReadsJson::<T>::read_json(self, left, alloc, state, input)?;
        Ok(Some(value))
    }
}

impl<T: WritesJson> WritesJson for Option<T> {
    fn write_json(&self, alloc: Global, d: usize, s: &mut SerJsonState) -> Result<(), AllocError> {
        match self {
            None => s.out.push_str("null"),
            Some(value) => value.write_json(alloc, d, s),
        }
    }
}
