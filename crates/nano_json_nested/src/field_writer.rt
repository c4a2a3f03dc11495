//! Named fields whose values hold values of the type that has the fields, written.

ghost use Rattle.std.specs.Prelude.{◌≡◌, OnOk, OnErr, IfOk};
ghost use Rattle.nano_grammar.specs.FieldCodec.{field_text};
ghost use Rattle.nano_grammar.proofs.FieldCodecLaws.{written_field};
ghost use Rattle.nano_json_schema.specs.FieldCodecs.{json_fields, required_field, optional_field};
ghost use Rattle.nano_json_schema.specs.Outcomes.{after_comma, in_a_row, none_yet};
ghost use Rattle.nano_text.specs.Outcomes.{Appends, AppendsPart};

use crate::traits::WritesJson;
use nano_json::SerJsonState;
use std::alloc::{AllocError, Global};

/// Appends a field, after a comma unless it is the first. Its name is written as it is, without
/// escapes. If the write fails, what was written so far is left.
fn append_field_within<T: WritesJson>(
    alloc: Global,
    name: &str,
    value: &T,
    first: bool,
    d: usize,
    s: &mut SerJsonState,
) -> Result<(), AllocError>
    ensures ok { OnOk result (Appends s.old.out s.new.out (after_comma first
        (field_text json_fields d (written_field name.now T.json.canonical value.now)))) }
    ensures err { OnErr result (AppendsPart s.old.out s.new.out) }
{
    if !first {
        s.conl()?;
    }
    s.field(d, name)?;
    value.write_json(alloc, d, s)
}

/// Appends a field that is always written. It comes after a comma, unless `first` says that no field
/// comes before it. Answers whether none comes before the next: never. If the write fails, what was
/// written so far is left.
pub fn append_required_within<T: WritesJson>(
    alloc: Global,
    name: &str,
    value: &T,
    first: bool,
    d: usize,
    s: &mut SerJsonState,
) -> Result<bool, AllocError>
    ensures ok { OnOk result (Appends s.old.out s.new.out
        (in_a_row first (field_text json_fields d)
        ((required_field name.now T.json).canonical.fields value.now))) }
    ensures next { IfOk result (λ still_first. still_first
        ≡ none_yet first ((required_field name.now T.json).canonical.fields value.now)) }
    ensures err { OnErr result (AppendsPart s.old.out s.new.out) }
{
    append_field_within(alloc, name, value, first, d, s)?;
    Ok(false)
}

/// Appends a field that is written where there is a value. It comes after a comma, unless `first`
/// says that no field comes before it. Answers whether none comes before the next. If the write
/// fails, what was written so far is left.
pub fn append_optional_within<T: WritesJson>(
    alloc: Global,
    name: &str,
    value: &Option<T>,
    first: bool,
    d: usize,
    s: &mut SerJsonState,
) -> Result<bool, AllocError>
    ensures ok { OnOk result (Appends s.old.out s.new.out
        (in_a_row first (field_text json_fields d)
        ((optional_field name.now T.json).canonical.fields value.now))) }
    ensures next { IfOk result (λ still_first. still_first
        ≡ none_yet first ((optional_field name.now T.json).canonical.fields value.now)) }
    ensures err { OnErr result (AppendsPart s.old.out s.new.out) }
{
    match value {
        Some(value) => {
            append_field_within(alloc, name, value, first, d, s)?;
            Ok(false)
        }
        None => Ok(first),
    }
}
