//! User-defined structs in RON.

ghost use Rattle.std.specs.Prelude.{OnOk, OnErr};
ghost use Rattle.nano_text.specs.Outcomes.{Appends, Unchanged};
ghost use Rattle.nano_ron.specs.Outcomes.{position, ReadsOrEnds};
ghost use Rattle.nano_schema.specs.Views.{SeesAs};
ghost use Rattle.nano_ron_schema.specs.Reading.{EncodesFields, EncodesOpenFields};
ghost use Rattle.nano_ron_schema.specs.Outcomes.{fields_text};

use crate::fields::{RonFields, RonRefs};
use crate::read::{read_fields, read_fields_open};
use crate::writer::write_fields;
use nano_ron::{DeRon, DeRonErr, DeRonState, SerRonState};
use nano_schema::{FieldRefs, StructSchema};
use std::alloc::{AllocError, Global};
use std::str::Chars;

/// Reads a user-defined struct. The token after it is pending then, which may be the end.
///
/// An error other than out of memory says that no struct is encoded there, with one more token
/// or the end after it. Every error leaves the state at the end of the text.
pub fn read_record_ron<R: StructSchema, F: RonFields<Values = R::Values>>(
    alloc: Global,
    state: &mut DeRonState,
    input: &mut Chars<'_>,
) -> Result<R, DeRonErr>
    ensures { ReadsOrEnds (EncodesFields F.codec.struct.shape)
        (λ value. F.codec.canonical.means (R.view value))
        (position state.old input.old) (position state.new input.new) result }
{
    match read_fields::<F>(alloc, state, input) {
        Ok(values) => Ok(R::make(values)),
        Err(error) => Err(error),
    }
}

/// Reads a user-defined struct that may have other fields than its own: one whose name is not known
/// is skipped. The token after the struct is pending then, which may be the end.
///
/// An error other than out of memory says that no such struct is encoded there, with one more token
/// or the end after it. Every error leaves the state at the end of the text.
pub fn read_record_ron_open<R: StructSchema, F: RonFields<Values = R::Values>>(
    alloc: Global,
    state: &mut DeRonState,
    input: &mut Chars<'_>,
) -> Result<R, DeRonErr>
    ensures { ReadsOrEnds (EncodesOpenFields F.codec.struct.shape)
        (λ value. F.codec.canonical.means (R.view value))
        (position state.old input.old) (position state.new input.new) result }
{
    match read_fields_open::<F>(alloc, state, input) {
        Ok(values) => Ok(R::make(values)),
        Err(error) => Err(error),
    }
}

/// Reads a user-defined tuple struct, which is encoded as the tuple of its elements. The
/// token after it is pending then, which may be the end.
///
/// An error other than out of memory says that no such tuple is encoded there, with one more token
/// or the end after it. Every error leaves the state at the end of the text.
pub fn read_parts_ron<R: StructSchema<Values = P>, P: DeRon>(
    alloc: Global,
    state: &mut DeRonState,
    input: &mut Chars<'_>,
) -> Result<R, DeRonErr>
    ensures { ReadsOrEnds P.ron.encoding.encodes (λ value. P.means (R.view value))
        (position state.old input.old) (position state.new input.new) result }
{
    match P::de_ron(alloc, state, input) {
        Ok(values) => Ok(R::make(values)),
        Err(error) => Err(error),
    }
}

/// Writes a user-defined struct at level `d`, where the fields are those that it is seen by. If the
/// write fails, `s.out` is unchanged.
pub fn write_record_ron<'a, R: FieldRefs<'a>, F: RonRefs<'a, Refs = R::Refs, Values = R::Values>>(
    value: &'a R,
    alloc: Global,
    d: usize,
    s: &mut SerRonState,
) -> Result<(), AllocError>
    ensures ok { SeesAs F.values R.FieldRefs.values → OnOk result (Appends s.old.out s.new.out
        (fields_text d (F.codec.canonical.fields (R.view value.now)))) }
    ensures err { OnErr result (Unchanged s.old.out s.new.out) }
{
    let refs = value.as_refs();
    write_fields::<F>(&refs, alloc, d, s)
}
