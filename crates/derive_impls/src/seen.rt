//! What is written of a struct: how it is seen as the values of its fields, and is made of them.

use crate::sheet::Sheet;
use crate::target::Target;
use std::alloc::AllocError;

/// A struct as the values of its fields.
#[derive(Drop)]
pub(crate) struct Seen {
    /// The type of the values.
    pub(crate) types: String,
    /// The values of the struct `x`, in a ghost term.
    pub(crate) view: String,
    /// What comes after the head of `make`: its own clauses, and the bracket that opens its body.
    pub(crate) ensured: String,
    /// Lines that take `values` apart.
    pub(crate) taken: String,
    /// The struct, made of what these bind.
    pub(crate) made: String,
    /// References to the values of `self`.
    pub(crate) borrowed: String,
}

const RECORD: &str = "
impl$BOUNDS nano_schema::StructSchema for $FULL$OPEN
    type Values = $FIELDS;

    ghost view = { λ x. $VIEW };

    fn make(values: Self::Values) -> Self$ENSURED
$TAKEN        $MADE
    }
}

impl$LIFETIME nano_schema::FieldRefs<'a> for $FULL$OPEN
    type Refs = <$ROW as nano_schema::Borrowed<'a>>::Refs;

    ghost values = { ⟦<$ROW as nano_schema::Borrowed<'a>>⟧.values };

    fn as_refs(&'a self) -> Self::Refs {
        $BORROWED
    }
}

impl$BOUNDS nano_schema::Value for $FULL$OPEN
    ghost means = { λ x. ⟦<$ROW as nano_schema::Shape>⟧.means \
        (⟦<$FULL as nano_schema::StructSchema>⟧.view x) };

    ghost legal = { ⟦<$ROW as nano_schema::Shape>⟧.legal };

    fn known(&self) {
        nano_schema::known_record::<Self, $ROW>(self);
    }
}";

/// Appends the impls that split a struct into the values of its fields, by value and by reference,
/// and make it of them, and the one that says what it means.
pub(crate) fn append_seen<'a>(
    sheet: &mut Sheet,
    target: &Target<'a>,
    seen: &Seen,
) -> Result<(), AllocError> {
    let mut holes = target.bounded_holes(sheet)?;
    holes.put("FIELDS", seen.types.as_str());
    holes.put("VIEW", seen.view.as_str());
    holes.put("ENSURED", seen.ensured.as_str());
    holes.put("TAKEN", seen.taken.as_str());
    holes.put("MADE", seen.made.as_str());
    holes.put("BORROWED", seen.borrowed.as_str());
    sheet.write(RECORD, &holes);
    Ok(())
}
