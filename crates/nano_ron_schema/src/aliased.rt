//! A field that is also read under an alias.

ghost use Rattle.std.specs.Prelude.{map, bytes_eq};
ghost use Rattle.std.proofs.lemmas.Bool.{or_right};
ghost use Rattle.nano_grammar.specs.Aliases.{under_own};
ghost use Rattle.nano_grammar.proofs.AliasesLaws.{aliased_skips};
ghost use Rattle.nano_grammar.proofs.FieldReading.{same_name};
ghost use Rattle.nano_ron_schema.specs.FieldCodecs.{aliased_field};

use crate::defaulted::RonDefaultOf;
use crate::fields::{RonFields, RonRefs, RonShape};
use crate::read::read_named;
use nano_ron::{DeRon, DeRonErr, DeRonState, SerRonState};
use nano_schema::{Aliased, Defaulted, Label, Optional, Required};
use std::alloc::{AllocError, Global};
use std::str::Chars;

/// One field that is read, whose label is its own name.
pub trait RonField: RonFields + Label {
    ghost use Rattle.std.specs.Prelude.{◌≡◌, true, string_bytes};
    ghost use Rattle.nano_ron.specs.Outcomes.{position};
    ghost use Rattle.nano_ron.specs.State.{pending};
    ghost use Rattle.nano_ron.specs.Token.{IsIdent};
    ghost use Rattle.nano_ron_schema.specs.Outcomes.{ReadsUnder};

    /// Reads the pending name, a colon and the value, and puts it in place of an earlier one: the
    /// field is read as if its own name stood there, whatever the pending one is.
    ///
    /// An error other than out of memory says that no value of its type stands after the name and
    /// a colon, with one more token or the end after it. The state may be at any position then.
    fn read_value(
        slots: &mut Self::Slots,
        alloc: Global,
        state: &mut DeRonState,
        input: &mut Chars<'_>,
    ) -> Result<(), DeRonErr>
        requires { IsIdent (pending state.old) }
        ensures { ReadsUnder Self.Label.label (string_bytes state.old.identbuf)
            Self.RonFields.codec.struct.shape
            (Self.RonFields.holds slots.old) (Self.RonFields.holds slots.new)
            (position state.old input.old) (position state.new input.new) result };

    /// It is known under that name.
    ghost is_known: { Self.RonFields.codec.struct.shape.knows Self.Label.label ≡ true };
}

impl<N: Label, T: DeRon> RonField for Required<N, T> {
    ghost is_known = { same_name N.label };

    fn read_value(
        slots: &mut Option<T>,
        alloc: Global,
        state: &mut DeRonState,
        input: &mut Chars<'_>,
    ) -> Result<(), DeRonErr> {
        let value = read_named(alloc, state, input)?;
        *slots = Some(value);
        Ok(())
    }
}

impl<N: Label, T: DeRon> RonField for Optional<N, T> {
    ghost is_known = { same_name N.label };

    fn read_value(
        slots: &mut Option<T>,
        alloc: Global,
        state: &mut DeRonState,
        input: &mut Chars<'_>,
    ) -> Result<(), DeRonErr> {
        let value = read_named(alloc, state, input)?;
        *slots = value;
        Ok(())
    }
}

impl<N: Label, T: DeRon, D: RonDefaultOf<T>> RonField for Defaulted<N, T, D> {
    ghost is_known = { same_name N.label };

    fn read_value(
        slots: &mut Option<T>,
        alloc: Global,
        state: &mut DeRonState,
        input: &mut Chars<'_>,
    ) -> Result<(), DeRonErr> {
        let value = read_named(alloc, state, input)?;
        *slots = Some(value);
        Ok(())
    }
}

impl<N: Label, F: RonField> RonField for Aliased<N, F> {
    ghost is_known = { or_right (bytes_eq F.Label.label N.label)
        (F.RonFields.codec.struct.shape.knows F.Label.label) F.is_known };

    fn read_value(
        slots: &mut F::Slots,
        alloc: Global,
        state: &mut DeRonState,
        input: &mut Chars<'_>,
    ) -> Result<(), DeRonErr> {
        F::read_value(slots, alloc, state, input)
    }
}

impl<N: Label, F: RonShape + Label> RonShape for Aliased<N, F> {
    type Values = F::Values;

    ghost codec = { aliased_field N.label F.label F.codec };
}

impl<N: Label, F: RonField> RonFields for Aliased<N, F> {
    type Values = F::Values;

    type Slots = F::Slots;

    ghost codec = { aliased_field N.label F.Label.label F.RonFields.codec };

    ghost holds = { λ slots fs. F.RonFields.holds slots (map (under_own N.label F.Label.label) fs) };

    ghost skips = { λ slots fs f e. aliased_skips N.label F.Label.label
        F.RonFields.codec.struct.shape (F.RonFields.holds slots) fs f e
        (F.RonFields.skips slots (map (under_own N.label F.Label.label) fs) f) };

    fn empty() -> F::Slots {
        F::empty()
    }

    fn read_field(
        slots: &mut F::Slots,
        alloc: Global,
        state: &mut DeRonState,
        input: &mut Chars<'_>,
    ) -> Result<bool, DeRonErr> {
        if state.identbuf.as_str() != N::text() {
            return F::read_field(slots, alloc, state, input);
        }
        F::read_value(slots, alloc, state, input)?;
        Ok(true)
    }

    fn values(slots: F::Slots, alloc: Global, state: &DeRonState) -> Result<F::Values, DeRonErr> {
        F::values(slots, alloc, state)
    }

    fn discard(slots: F::Slots) {
        F::discard(slots);
    }

    fn discard_values(values: F::Values) {
        F::discard_values(values);
    }
}

impl<'a, N: Label, F: RonRefs<'a> + Label> RonRefs<'a> for Aliased<N, F> {
    type Values = F::Values;

    type Refs = F::Refs;

    ghost values = { F.values };

    ghost codec = { aliased_field N.label F.label F.codec };

    fn append_fields(
        refs: &F::Refs,
        alloc: Global,
        d: usize,
        s: &mut SerRonState,
    ) -> Result<(), AllocError> {
        F::append_fields(refs, alloc, d, s)
    }
}
