//! What a field that is missing means, as a ghost term.

use derive_pen::Pen;
use derive_syntax::{Core, Field, Missing, NestedPart, missing_value};

/// What a field means that has a default and is missing; the field is made of this.
pub(crate) fn missing_of(pen: &Pen, field: Field<'_>, nested: &NestedPart<'_>) -> Option<String> {
    if field.attributes.default.is_none() {
        return None;
    }
    let term = match missing_value(field) {
        Missing::Whole(number) => pen.one("(whole {})", number),
        Missing::Signed(number) => match number.strip_prefix('-') {
            Some(digits) => pen.one("(number (neg_ℤ (pos {})))", digits),
            None => pen.one("(number (pos {}))", number),
        },
        Missing::Truth(word) => pen.one("(truth {})", word),
        Missing::Text(text) => pen.one("(text (codes \"{}\"))", text),
        Missing::OfType | Missing::Path(_) => pen.copy(of_type(nested)),
    };
    Some(term)
}

/// What the default of a part's type means.
fn of_type(nested: &NestedPart<'_>) -> &'static str {
    match nested.core {
        _ if !nested.holders.is_empty() => "nothing",
        Core::Plain("bool") => "(truth false)",
        Core::Plain("String") => "(text [])",
        Core::Plain(name) if name.starts_with('u') => "(whole 0)",
        Core::Plain(name) if name.starts_with('i') => "(number (pos 0))",
        _ => "nothing",
    }
}
