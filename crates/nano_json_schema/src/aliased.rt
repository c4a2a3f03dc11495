//! A field that is also read under an alias.

ghost use Rattle.std.specs.Prelude.{◌≡◌, map, bytes_eq};
ghost use Rattle.std.proofs.lemmas.Bool.{or_right};
ghost use Rattle.nano_grammar.specs.Aliases.{own_of, under_own};
ghost use Rattle.nano_grammar.proofs.AliasesLaws.{aliased_skips};
ghost use Rattle.nano_grammar.proofs.FieldReading.{same_name};
ghost use Rattle.nano_json_schema.specs.FieldCodecs.{aliased_field};

use crate::defaulted::JsonDefaultOf;
use crate::fields::{JsonFields, JsonRefs, JsonShape};
use nano_json::{DeJson, DeJsonErr, DeJsonState, SerJsonState};
use nano_schema::{Aliased, Defaulted, Label, Optional, Required};
use nano_text::Place;
use std::alloc::{AllocError, Global};
use std::str::Chars;

/// One field that is read, whose label is its own name.
pub trait JsonField: JsonFields + Label {
    ghost use Rattle.std.specs.Prelude.{◌≡◌, true};

    /// It is known under that name.
    ghost is_known: { Self.JsonFields.codec.struct.shape.knows Self.Label.label ≡ true };
}

impl<N: Label, T: DeJson> JsonField for Required<N, T> {
    ghost is_known = { same_name N.label };
}

impl<N: Label, T: DeJson> JsonField for Optional<N, T> {
    ghost is_known = { same_name N.label };
}

impl<N: Label, T: DeJson, D: JsonDefaultOf<T>> JsonField for Defaulted<N, T, D> {
    ghost is_known = { same_name N.label };
}

impl<N: Label, F: JsonField> JsonField for Aliased<N, F> {
    ghost is_known = { or_right (bytes_eq F.Label.label N.label)
        (F.JsonFields.codec.struct.shape.knows F.Label.label) F.is_known };
}

/// The name that counts: in place of the alias the field's own.
#[inline(always)]
fn own_name<'n, N: Label, F: Label>(name: &'n str) -> &'n str
    ensures { result.now ≡ own_of N.label F.label name.now }
{
    if name == N::text() { F::text() } else { name }
}

impl<N: Label, F: JsonShape + Label> JsonShape for Aliased<N, F> {
    type Values = F::Values;

    ghost codec = { aliased_field N.label F.label F.codec };
}

impl<N: Label, F: JsonField> JsonFields for Aliased<N, F> {
    type Values = F::Values;

    type Slots = F::Slots;

    ghost codec = { aliased_field N.label F.Label.label F.JsonFields.codec };

    ghost holds = { λ slots fs. F.JsonFields.holds slots (map (under_own N.label F.Label.label) fs) };

    ghost skips = { λ slots fs f e. aliased_skips N.label F.Label.label
        F.JsonFields.codec.struct.shape (F.JsonFields.holds slots) fs f e
        (F.JsonFields.skips slots (map (under_own N.label F.Label.label) fs) f) };

    fn empty() -> F::Slots {
        F::empty()
    }

    fn read_field(
        name: &str,
        slots: &mut F::Slots,
        alloc: Global,
        state: &mut DeJsonState,
        input: &mut Chars<'_>,
    ) -> Result<bool, DeJsonErr> {
        F::read_field(own_name::<N, F>(name), slots, alloc, state, input)
    }

    #[inline(always)]
    fn take_field(
        name: &str,
        slots: &mut F::Slots,
        alloc: Global,
        place: &mut Place,
        input: &mut Chars<'_>,
        text: &mut String,
    ) -> Option<bool> {
        F::take_field(own_name::<N, F>(name), slots, alloc, place, input, text)
    }

    #[inline(always)]
    fn whole(slots: F::Slots, alloc: Global) -> Option<F::Values> {
        F::whole(slots, alloc)
    }

    fn values(slots: F::Slots, alloc: Global, state: &DeJsonState) -> Result<F::Values, DeJsonErr> {
        F::values(slots, alloc, state)
    }

    fn discard(slots: F::Slots) {
        F::discard(slots);
    }

    fn discard_values(values: F::Values) {
        F::discard_values(values);
    }
}

impl<'a, N: Label, F: JsonRefs<'a> + Label> JsonRefs<'a> for Aliased<N, F> {
    type Values = F::Values;

    type Refs = F::Refs;

    ghost values = { F.values };

    ghost codec = { aliased_field N.label F.label F.codec };

    fn append_fields(
        refs: &F::Refs,
        alloc: Global,
        first: bool,
        d: usize,
        s: &mut SerJsonState,
    ) -> Result<bool, AllocError> {
        F::append_fields(refs, alloc, first, d, s)
    }
}
