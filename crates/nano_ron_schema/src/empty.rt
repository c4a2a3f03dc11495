//! No fields: none is known, and none is written.

ghost use Rattle.nano_ron_schema.specs.FieldCodecs.{no_fields};

use crate::fields::{RonFields, RonRefs, RonShape};
use nano_ron::{DeRonErr, DeRonState, SerRonState};
use nano_schema::Unit;
use std::alloc::{AllocError, Global};
use std::str::Chars;

impl RonShape for Unit {
    type Values = ();

    ghost codec = { no_fields };
}

impl RonFields for Unit {
    type Values = ();

    type Slots = ();

    ghost codec = { no_fields };

    ghost holds = { λ slots fs. Unit {0} };

    ghost skips = { λ slots fs f unknown held. tt };

    fn empty() {}

    fn read_field(
        _slots: &mut (),
        _alloc: Global,
        _state: &mut DeRonState,
        _input: &mut Chars<'_>,
    ) -> Result<bool, DeRonErr> {
        Ok(false)
    }

    fn values(_slots: (), _alloc: Global, _state: &DeRonState) -> Result<(), DeRonErr> {
        Ok(())
    }

    fn discard(_slots: ()) {}

    fn discard_values(_values: ()) {}
}

impl<'a> RonRefs<'a> for Unit {
    type Values = ();

    type Refs = ();

    ghost values = { λ r. r };

    ghost codec = { no_fields };

    fn append_fields(
        _refs: &(),
        _alloc: Global,
        _d: usize,
        _s: &mut SerRonState,
    ) -> Result<(), AllocError> {
        Ok(())
    }
}
