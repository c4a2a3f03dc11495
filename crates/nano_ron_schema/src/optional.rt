//! A field that may be missing.

ghost use Rattle.std.specs.Option.{option_map};
ghost use Rattle.nano_value.specs.Meaning.{optional};
ghost use Rattle.nano_grammar.proofs.StructLaws.{may_read};
ghost use Rattle.nano_ron_schema.specs.FieldCodecs.{optional_field};
ghost use Rattle.nano_grammar.proofs.FieldsLaws.{optional_skips};

use crate::fields::{RonFields, RonRefs, RonShape};
use crate::read::read_named;
use crate::writer::append_field;
use nano_ron::{DeRon, DeRonErr, DeRonState, RonCodec, SerRon, SerRonState};
use nano_schema::{Label, Optional};
use std::alloc::{AllocError, Global};
use std::str::Chars;

impl<N: Label, T: RonCodec> RonShape for Optional<N, T> {
    type Values = Option<T>;

    ghost codec = { optional_field N.label T.ron };
}

impl<N: Label, T: DeRon> RonFields for Optional<N, T> {
    type Values = Option<T>;

    type Slots = Option<T>;

    ghost codec = { optional_field N.label T.ron };

    ghost holds = { λ slot fs. (may_read N.label T.ron.encoding).shape.means fs
        (optional (option_map T.ron.canonical.means slot)) };

    ghost skips = { λ slot. optional_skips N.label T.ron.encoding
        (optional (option_map T.ron.canonical.means slot)) };

    fn empty() -> Option<T> {
        None
    }

    fn read_field(
        slots: &mut Option<T>,
        alloc: Global,
        state: &mut DeRonState,
        input: &mut Chars<'_>,
    ) -> Result<bool, DeRonErr> {
        if state.identbuf.as_str() != N::text() {
            return Ok(false);
        }
        let value = read_named(alloc, state, input)?;
        *slots = value;
        Ok(true)
    }

    fn values(
        slots: Option<T>,
        _alloc: Global,
        _state: &DeRonState,
    ) -> Result<Option<T>, DeRonErr> {
        Ok(slots)
    }

    fn discard(_slots: Option<T>) {}

    fn discard_values(_values: Option<T>) {}
}

impl<'a, N: Label, T: SerRon + 'a> RonRefs<'a> for Optional<N, T> {
    type Values = Option<T>;

    type Refs = &'a Option<T>;

    ghost values = { λ r. r.now };

    ghost codec = { optional_field N.label T.ron };

    fn append_fields(
        refs: &&'a Option<T>,
        alloc: Global,
        d: usize,
        s: &mut SerRonState,
    ) -> Result<(), AllocError> {
        match *refs {
            Some(value) => append_field(alloc, N::text(), value, d, s),
            None => Ok(()),
        }
    }
}
