//! A field that must be there.

ghost use Rattle.std.specs.Option.{option_map};
ghost use Rattle.nano_ron_schema.specs.FieldCodecs.{required_field};
ghost use Rattle.nano_grammar.specs.Fields.{Holds};
ghost use Rattle.nano_grammar.proofs.FieldsLaws.{holds_skips};

use crate::fields::{RonFields, RonRefs, RonShape};
use crate::read::read_named;
use crate::writer::append_field;
use nano_ron::{DeRon, DeRonErr, DeRonState, RonCodec, SerRon, SerRonState};
use nano_schema::{Label, Required};
use std::alloc::{AllocError, Global};
use std::str::Chars;

impl<N: Label, T: RonCodec> RonShape for Required<N, T> {
    type Values = T;

    ghost codec = { required_field N.label T.ron };
}

impl<N: Label, T: DeRon> RonFields for Required<N, T> {
    type Values = T;

    type Slots = Option<T>;

    ghost codec = { required_field N.label T.ron };

    ghost holds = { λ slot. Holds N.label T.ron.encoding.encodes
        (option_map T.ron.canonical.means slot) };

    ghost skips = { λ slot. holds_skips N.label T.ron.encoding.encodes
        (option_map T.ron.canonical.means slot) };

    fn empty() -> Option<T> {
        None
    }

    fn read_field(
        slots: &mut Option<T>,
        alloc: Global,
        state: &mut DeRonState,
        input: &mut Chars<'_>,
    ) -> Result<bool, DeRonErr> {
        if state.identbuf.as_str() != N::text() {
            return Ok(false);
        }
        let value = read_named(alloc, state, input)?;
        *slots = Some(value);
        Ok(true)
    }

    fn values(slots: Option<T>, alloc: Global, state: &DeRonState) -> Result<T, DeRonErr> {
        match slots {
            Some(value) => Ok(value),
            None => Err(state.err_nf(alloc, N::text())),
        }
    }

    fn discard(_slots: Option<T>) {}

    fn discard_values(_values: T) {}
}

impl<'a, N: Label, T: SerRon + 'a> RonRefs<'a> for Required<N, T> {
    type Values = T;

    type Refs = &'a T;

    ghost values = { λ r. r.now };

    ghost codec = { required_field N.label T.ron };

    fn append_fields(
        refs: &&'a T,
        alloc: Global,
        d: usize,
        s: &mut SerRonState,
    ) -> Result<(), AllocError> {
        append_field(alloc, N::text(), *refs, d, s)
    }
}
