//! User-defined enums in JSON.

ghost use Rattle.std.specs.Prelude.{OnOk, OnErr};
ghost use Rattle.nano_schema.specs.Views.{SeesAs};
ghost use Rattle.nano_text.specs.Outcomes.{Appends, Unchanged};
ghost use Rattle.nano_json.specs.Outcomes.{position, ReadsOrEnds};
ghost use Rattle.nano_json_schema.specs.Outcomes.{ReadsEnum};
ghost use Rattle.nano_json_schema.specs.Reading.{EncodesVariant};

use crate::choices::{JsonChoiceRefs, JsonChoices};
use crate::variants::read_variant_name;
use nano_json::{DeJsonErr, DeJsonState, JsonCodec, SerJsonState};
use nano_schema::{EnumSchema, VariantRefs};
use std::alloc::{AllocError, Global};
use std::str::Chars;

/// Reads a user-defined enum, where the variants mean what its codec says: the name of a variant
/// alone, or between braces a name, a colon and the content. The token after it is pending
/// then, which may be the end. A name that no variant has is rejected with `Enum not defined
/// {name}`, once the token after it, or after its colon, is taken.
///
/// An error other than out of memory says that no variant is encoded there, with one more token
/// or the end after it. Every error leaves the state at the end of the text.
pub fn read_choice_json<E: EnumSchema + JsonCodec, V: JsonChoices<Values = E::Values>>(
    alloc: Global,
    state: &mut DeJsonState,
    input: &mut Chars<'_>,
) -> Result<E, DeJsonErr>
    ensures reads { ReadsEnum V.codec.encodes (λ value. V.means 0 (E.view value))
        (position state.old input.old) (position state.new input.new) result }
    ensures means { SeesAs (λ value. V.means 0 (E.view value)) E.json.canonical.means
        → ReadsOrEnds (EncodesVariant V.codec.encodes) E.means
        (position state.old input.old) (position state.new input.new) result }
{
    let name = read_variant_name(alloc, state, input)?;
    match V::read(&name, alloc, state, input) {
        Ok(values) => Ok(E::make(values)),
        Err(error) => Err(error),
    }
}

/// Writes a user-defined enum at level `d`, where the variants are those that it is seen by. If the
/// write fails, `s.out` is unchanged.
pub fn write_choice_json<
    'a,
    E: VariantRefs<'a>,
    V: JsonChoiceRefs<'a, Refs = E::Refs, Values = E::Values>,
>(value: &'a E, alloc: Global, d: usize, s: &mut SerJsonState) -> Result<(), AllocError>
    ensures ok { SeesAs V.values E.VariantRefs.values → OnOk result
        (Appends s.old.out s.new.out (V.codec.text d (E.view value.now))) }
    ensures err { OnErr result (Unchanged s.old.out s.new.out) }
{
    let refs = value.as_refs();
    V::write(&refs, alloc, d, s)
}
