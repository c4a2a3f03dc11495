//! User-defined structs in JSON.

ghost use Rattle.std.specs.Prelude.{OnOk, OnErr};
ghost use Rattle.nano_text.specs.Outcomes.{Appends, Unchanged};
ghost use Rattle.nano_json.specs.Outcomes.{position, ReadsOrEnds};
ghost use Rattle.nano_json_tokens.specs.Outcomes.{TakesPlainly};
ghost use Rattle.nano_schema.specs.Views.{SeesAs};
ghost use Rattle.nano_grammar.specs.FieldCodec.{fields_text};
ghost use Rattle.nano_json_schema.specs.Reading.{EncodesFields, EncodesKnownFields};
ghost use Rattle.nano_json_schema.specs.FieldCodecs.{json_fields};

use crate::fields::{JsonFields, JsonRefs};
use crate::plain::{take_fields, take_fields_strict};
use crate::read::{read_fields, read_fields_strict};
use crate::writer::write_fields;
use nano_json::{DeJson, DeJsonErr, DeJsonState, SerJsonState};
use nano_schema::{FieldRefs, StructSchema};
use nano_text::Place;
use std::alloc::{AllocError, Global};
use std::str::Chars;

/// Reads a user-defined struct. The token after it is pending then, which may be the end.
///
/// An error other than out of memory says that no struct is encoded there, with one more token
/// or the end after it. Every error leaves the state at the end of the text.
pub fn read_record_json<R: StructSchema, F: JsonFields<Values = R::Values>>(
    alloc: Global,
    state: &mut DeJsonState,
    input: &mut Chars<'_>,
) -> Result<R, DeJsonErr>
    ensures { ReadsOrEnds (EncodesFields F.codec.struct.shape)
        (λ value. F.codec.canonical.means (R.view value))
        (position state.old input.old) (position state.new input.new) result }
{
    match read_fields::<F>(alloc, state, input) {
        Ok(values) => Ok(R::make(values)),
        Err(error) => Err(error),
    }
}

/// Reads a user-defined struct that has no fields but its own: one whose name is not known is
/// rejected by `Unexpected key {name}`, once its name, the colon, and the first token of what comes
/// after them are cut. The token after the struct is pending then, which may be the end.
///
/// An error other than out of memory says that no such struct is encoded there, with one more token
/// or the end after it. Every error leaves the state at the end of the text.
pub fn read_record_json_strict<R: StructSchema, F: JsonFields<Values = R::Values>>(
    alloc: Global,
    state: &mut DeJsonState,
    input: &mut Chars<'_>,
) -> Result<R, DeJsonErr>
    ensures { ReadsOrEnds (EncodesKnownFields F.codec.struct.shape)
        (λ value. F.codec.canonical.means (R.view value))
        (position state.old input.old) (position state.new input.new) result }
{
    match read_fields_strict::<F>(alloc, state, input) {
        Ok(values) => Ok(R::make(values)),
        Err(error) => Err(error),
    }
}

/// Takes a user-defined struct, where it stands plainly. `None` says nothing of what stands there,
/// and the place and the input, which are copies, may have moved.
#[inline(always)]
pub fn take_record_json<R: StructSchema, F: JsonFields<Values = R::Values>>(
    alloc: Global,
    place: &mut Place,
    input: &mut Chars<'_>,
    text: &mut String,
) -> Option<R>
    ensures { TakesPlainly (EncodesFields F.codec.struct.shape)
        (λ value. F.codec.canonical.means (R.view value))
        place.old input.old place.new input.new result }
{
    let values = take_fields::<F>(alloc, place, input, text)?;
    Some(R::make(values))
}

/// Takes a user-defined struct that has no fields but its own, where it stands plainly. `None` says
/// nothing of what stands there, and the place and the input, which are copies, may have moved.
#[inline(always)]
pub fn take_record_json_strict<R: StructSchema, F: JsonFields<Values = R::Values>>(
    alloc: Global,
    place: &mut Place,
    input: &mut Chars<'_>,
    text: &mut String,
) -> Option<R>
    ensures { TakesPlainly (EncodesKnownFields F.codec.struct.shape)
        (λ value. F.codec.canonical.means (R.view value))
        place.old input.old place.new input.new result }
{
    let values = take_fields_strict::<F>(alloc, place, input, text)?;
    Some(R::make(values))
}

/// Reads a user-defined tuple struct, which is encoded as the tuple of its elements. The
/// token after it is pending then, which may be the end.
///
/// An error other than out of memory says that no such tuple is encoded there, with one more token
/// or the end after it. Every error leaves the state at the end of the text.
pub fn read_parts_json<R: StructSchema<Values = P>, P: DeJson>(
    alloc: Global,
    state: &mut DeJsonState,
    input: &mut Chars<'_>,
) -> Result<R, DeJsonErr>
    ensures { ReadsOrEnds P.json.encoding.encodes (λ value. P.means (R.view value))
        (position state.old input.old) (position state.new input.new) result }
{
    match P::de_json(alloc, state, input) {
        Ok(values) => Ok(R::make(values)),
        Err(error) => Err(error),
    }
}

/// Writes a user-defined struct at level `d`, where the fields are those that it is seen by. If the
/// write fails, `s.out` is unchanged.
pub fn write_record_json<'a, R: FieldRefs<'a>, F: JsonRefs<'a, Refs = R::Refs, Values = R::Values>>(
    value: &'a R,
    alloc: Global,
    d: usize,
    s: &mut SerJsonState,
) -> Result<(), AllocError>
    ensures ok { SeesAs F.values R.FieldRefs.values → OnOk result (Appends s.old.out s.new.out
        (fields_text json_fields d (F.codec.canonical.fields (R.view value.now)))) }
    ensures err { OnErr result (Unchanged s.old.out s.new.out) }
{
    let refs = value.as_refs();
    write_fields::<F>(&refs, alloc, d, s)
}
