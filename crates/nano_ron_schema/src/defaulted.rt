//! A field that has a default where it is missing.

ghost use Rattle.std.specs.Option.{option_map};
ghost use Rattle.nano_ron_schema.specs.FieldCodecs.{defaulted_field};
ghost use Rattle.nano_ron_schema.specs.Outcomes.{GivesDefault};
ghost use Rattle.nano_grammar.specs.Fields.{Holds};
ghost use Rattle.nano_grammar.proofs.FieldsLaws.{holds_skips};

use crate::fields::{RonFields, RonRefs, RonShape};
use crate::read::read_named;
use crate::writer::append_field;
use nano_ron::{DeRon, DeRonErr, DeRonState, RonCodec, SerRon, SerRonState};
use nano_schema::{DefaultOf, Defaulted, Label};
use std::alloc::{AllocError, Global};
use std::str::Chars;

/// A default that is read back from RON.
pub trait RonDefaultOf<T: RonCodec>: DefaultOf<T> {
    ghost use Rattle.nano_grammar.specs.Fields.{IsSoundDefault};

    /// It is sound: nowhere inside it a `Some` stands around what is written as an absent value.
    ghost is_sound: { IsSoundDefault T.ron Self.DefaultOf.missing };
}

/// The default in the place of a field that is missing.
fn missing<T: DeRon, D: RonDefaultOf<T>>(alloc: Global, state: &DeRonState) -> Result<T, DeRonErr>
    ensures { GivesDefault T.ron.encoding.encodes T.ron.canonical.means D.DefaultOf.missing
        state.now result }
{
    match D::default(alloc) {
        Ok(value) => {
            value.known();
            Ok(value)
        }
        Err(_error) => Err(state.err_memory(alloc)),
    }
}

impl<N: Label, T: RonCodec, D: RonDefaultOf<T>> RonShape for Defaulted<N, T, D> {
    type Values = T;

    ghost codec = { defaulted_field N.label T.ron D.DefaultOf.missing };
}

impl<N: Label, T: DeRon, D: RonDefaultOf<T>> RonFields for Defaulted<N, T, D> {
    type Values = T;

    type Slots = Option<T>;

    ghost codec = { defaulted_field N.label T.ron D.DefaultOf.missing };

    ghost holds = { λ slot. Holds N.label T.ron.encoding.encodes
        (option_map T.ron.canonical.means slot) };

    ghost skips = { λ slot. holds_skips N.label T.ron.encoding.encodes
        (option_map T.ron.canonical.means slot) };

    fn empty() -> Option<T> {
        None
    }

    fn read_field(
        slots: &mut Option<T>,
        alloc: Global,
        state: &mut DeRonState,
        input: &mut Chars<'_>,
    ) -> Result<bool, DeRonErr> {
        if state.identbuf.as_str() != N::text() {
            return Ok(false);
        }
        let value = read_named(alloc, state, input)?;
        *slots = Some(value);
        Ok(true)
    }

    #[tactic(auto, using(nano_grammar::proofs::DefaultsLaws::meant_values))]
    fn values(slots: Option<T>, alloc: Global, state: &DeRonState) -> Result<T, DeRonErr> {
        match slots {
            Some(value) => Ok(value),
            None => missing::<T, D>(alloc, state),
        }
    }

    fn discard(_slots: Option<T>) {}

    fn discard_values(_values: T) {}
}

impl<'a, N: Label, T: SerRon + 'a, D: RonDefaultOf<T>> RonRefs<'a> for Defaulted<N, T, D> {
    type Values = T;

    type Refs = &'a T;

    ghost values = { λ r. r.now };

    ghost codec = { defaulted_field N.label T.ron D.DefaultOf.missing };

    fn append_fields(
        refs: &&'a T,
        alloc: Global,
        d: usize,
        s: &mut SerRonState,
    ) -> Result<(), AllocError> {
        append_field(alloc, N::text(), *refs, d, s)
    }
}
