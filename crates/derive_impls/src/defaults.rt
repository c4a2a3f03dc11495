//! What stands for the default of a field, and what a skipped field is made of.

use crate::labels::name_of;
use crate::names::in_type_name;
use crate::sheet::Sheet;
use crate::types::{path_text, type_text};
use derive_syntax::{Field, Holes, Missing, missing_value, stands_in_row};
use std::alloc::{AllocError, Global};

/// A kind of default that is appended as a type: what it means and the value, as templates, and what
/// the call that makes it is passed.
struct Given {
    import: &'static str,
    meaning: &'static str,
    argument: &'static str,
    value: &'static str,
}

const WHOLE: Given = Given {
    import: "ghost use Rattle.nano_schema.specs.UserTypes.{whole};",
    meaning: "whole $GIVEN",
    argument: "_alloc",
    value: "Ok($GIVEN)",
};

const POSITIVE: Given = Given {
    import: "ghost use Rattle.nano_schema.specs.UserTypes.{number};",
    meaning: "number (pos $GIVEN)",
    argument: "_alloc",
    value: "Ok($GIVEN)",
};

const NEGATIVE: Given = Given {
    import: "ghost use Rattle.nano_schema.specs.UserTypes.{number};",
    meaning: "number (neg_ℤ (pos $GIVEN))",
    argument: "_alloc",
    value: "Ok(-$GIVEN)",
};

const TEXT: Given = Given {
    import: "ghost use Rattle.nano_schema.specs.UserTypes.{text};",
    meaning: "text (codes \"$GIVEN\")",
    argument: "alloc",
    value: "String::from_str(alloc, \"$GIVEN\")",
};

/// What stands for the default of a field: that of its type where nothing is given, and else a type
/// with the number or the truth value. A text, and a number of 128 bits, is appended as a type, which
/// is called as the field is.
pub fn append_default<'a>(
    sheet: &mut Sheet,
    owner: &str,
    field: Field<'a>,
) -> Result<String, AllocError> {
    match missing_value(field) {
        Missing::OfType => Ok(sheet.short("nano_schema::TypeDefault")),
        Missing::Path(path) => path_text(sheet.alloc, path),
        Missing::Truth(word) => Ok(constant(sheet, "bool", word)),
        Missing::Text(text) => append_given(sheet, owner, field, (&TEXT, text)),
        Missing::Whole(number) | Missing::Signed(number) => {
            append_number(sheet, owner, field, number)
        }
    }
}

/// What stands for a number: a type of the schema with it, or one that is appended where it has 128
/// bits.
fn append_number<'a>(
    sheet: &mut Sheet,
    owner: &str,
    field: Field<'a>,
    number: &str,
) -> Result<String, AllocError> {
    let of = type_text(sheet.alloc, field.of)?;
    match (of.as_str(), number.strip_prefix('-')) {
        ("u128", _) => append_given(sheet, owner, field, (&WHOLE, number)),
        ("i128", Some(digits)) => append_given(sheet, owner, field, (&NEGATIVE, digits)),
        ("i128", None) => append_given(sheet, owner, field, (&POSITIVE, number)),
        (of, _) => Ok(constant(sheet, of, number)),
    }
}

/// The type of the schema that stands for this value of a type of Rust's.
fn constant(sheet: &mut Sheet, of: &str, value: &str) -> String {
    let alloc = sheet.alloc;
    let name = sheet.made(in_type_name(alloc, of));
    let path = sheet.made(format!(in alloc; "nano_schema::Default{name}<{value}>"));
    sheet.short(path.as_str())
}

/// Brings in the constants that the meaning of a default has.
fn import_constants(sheet: &mut Sheet, kind: &Given) {
    if kind.meaning.contains("pos ") {
        sheet.import("ghost use Rattle.std.specs.Prelude.{pos};");
    }
    if kind.meaning.contains("neg_ℤ ") {
        sheet.import("ghost use Rattle.std.specs.Prelude.{neg_ℤ};");
    }
    if kind.meaning.contains("codes ") {
        sheet.import("ghost use Rattle.std.specs.Prelude.{codes};");
    }
}

const DEFAULT: &str = "
/// The default of `$FIELD`.
pub struct $NAME {}

impl nano_schema::DefaultOf<$OF> for $NAME {
    ghost missing = { $MEANING };

    fn default($ARGUMENT: std::alloc::Global) -> Result<$OF, std::alloc::AllocError> {
        $VALUE
    }
}";

/// Appends the type that stands for a default that is given, and returns its name.
fn append_given<'a>(
    sheet: &mut Sheet,
    owner: &str,
    field: Field<'a>,
    (kind, given): (&Given, &str),
) -> Result<String, AllocError> {
    let alloc = sheet.alloc;
    sheet.import(kind.import);
    import_constants(sheet, kind);
    let wanted = sheet.made(format!(in alloc; "{}_default", field.name.text));
    let name = name_of(sheet, owner, wanted.as_str())?;
    let mut holes = Holes::new(alloc);
    holes.put("GIVEN", given);
    holes.put("FIELD", field.name.text);
    holes.put("NAME", name.as_str());
    holes.put_made("OF", type_text(alloc, field.of));
    holes.put("ARGUMENT", kind.argument);
    let meaning = holes.fill(kind.meaning)?;
    holes.put("MEANING", meaning.as_str());
    let value = holes.fill(kind.value)?;
    holes.put("VALUE", value.as_str());
    sheet.write(DEFAULT, &holes);
    Ok(name)
}

/// A field in a struct or a variant that is made: by its name, or with its default if it is skipped
/// and does not stand in the schema.
pub(crate) fn made_field<'a>(alloc: Global, field: Field<'a>) -> Result<String, AllocError> {
    let name = field.name.text;
    if stands_in_row(field) {
        return String::from_str(alloc, name);
    }
    let value = match missing_value(field) {
        Missing::Whole(value) | Missing::Signed(value) | Missing::Truth(value) => value,
        _ => "std::default::Default::default()",
    };
    format!(in alloc; "{name}: {value}")
}

/// A field in a pattern: by its name, or passed over if it does not stand in the schema.
pub(crate) fn bound_field<'a>(alloc: Global, field: Field<'a>) -> Result<String, AllocError> {
    let name = field.name.text;
    if stands_in_row(field) {
        return String::from_str(alloc, name);
    }
    format!(in alloc; "{name}: _")
}
