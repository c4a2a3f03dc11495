//! Structs that are what their one field is.

use crate::codecs::append_codecs;
use crate::forms::TRANSPARENT;
use crate::sheet::Sheet;
use crate::target::Target;
use crate::types::type_text;
use derive_syntax::Type;
use std::alloc::AllocError;

const VALUE: &str = "
type $ROW = $OF;

impl$BOUNDS nano_schema::Value for $FULL$OPEN
    ghost means = { λ x. ⟦<$ROW as nano_schema::Value>⟧.means x.0 };

    ghost legal = { ⟦<$ROW as nano_schema::Value>⟧.legal };

    fn known(&self) {
        nano_schema::Value::known(&self.0);
    }
}";

/// Appends the impls of a newtype.
pub(crate) fn append_transparent<'a>(
    sheet: &mut Sheet,
    target: &Target<'a>,
    part: Type<'a>,
) -> Result<(), AllocError> {
    let alloc = sheet.alloc;
    let of = sheet.made(type_text(alloc, part));
    let bound = sheet.short(": nano_schema::Value");
    let bounds = target.bounds(alloc, bound.as_str())?;
    let mut holes = target.holes(alloc);
    holes.put("OF", of.as_str());
    holes.put("BOUNDS", bounds.as_str());
    sheet.write(VALUE, &holes);
    append_codecs(sheet, target, &TRANSPARENT, &TRANSPARENT)
}
