//! No fields: none is known, and none is written.

ghost use Rattle.nano_json_schema.specs.FieldCodecs.{no_fields};

use crate::fields::{JsonFields, JsonRefs, JsonShape};
use nano_json::{DeJsonErr, DeJsonState, SerJsonState};
use nano_schema::Unit;
use nano_text::Place;
use std::alloc::{AllocError, Global};
use std::str::Chars;

impl JsonShape for Unit {
    type Values = ();

    ghost codec = { no_fields };
}

impl JsonFields for Unit {
    type Values = ();

    type Slots = ();

    ghost codec = { no_fields };

    ghost holds = { λ slots fs. Unit {0} };

    ghost skips = { λ slots fs f unknown held. tt };

    fn empty() {}

    fn read_field(
        _name: &str,
        _slots: &mut (),
        _alloc: Global,
        _state: &mut DeJsonState,
        _input: &mut Chars<'_>,
    ) -> Result<bool, DeJsonErr> {
        Ok(false)
    }

    #[inline(always)]
    fn take_field(
        _name: &str,
        _slots: &mut (),
        _alloc: Global,
        _place: &mut Place,
        _input: &mut Chars<'_>,
        _text: &mut String,
    ) -> Option<bool> {
        Some(false)
    }

    #[inline(always)]
    fn whole(_slots: (), _alloc: Global) -> Option<()> {
        Some(())
    }

    fn values(_slots: (), _alloc: Global, _state: &DeJsonState) -> Result<(), DeJsonErr> {
        Ok(())
    }

    fn discard(_slots: ()) {}

    fn discard_values(_values: ()) {}
}

impl<'a> JsonRefs<'a> for Unit {
    type Values = ();

    type Refs = ();

    ghost values = { λ r. r };

    ghost codec = { no_fields };

    fn append_fields(
        _refs: &(),
        _alloc: Global,
        first: bool,
        _d: usize,
        _s: &mut SerJsonState,
    ) -> Result<bool, AllocError> {
        Ok(first)
    }
}
