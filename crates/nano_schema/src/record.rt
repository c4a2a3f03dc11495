//! User-defined structs.

ghost use Rattle.std.specs.Prelude.{◌≡◌};
ghost use Rattle.nano_schema.specs.Views.{SeesAs};

use crate::fields::Borrowed;

/// A user-defined struct, as the values of its fields.
pub trait StructSchema {
    /// The values, nested as the fields are.
    type Values;

    /// A struct as the values of its fields.
    ghost view: { Self → Self.Values };

    /// The struct of these values.
    fn make(values: Self::Values) -> Self
        ensures { view result ≡ values };
}

/// A user-defined struct that is seen by references to its fields.
pub trait FieldRefs<'a>: StructSchema {
    /// The references, nested as the fields are.
    type Refs: Drop;

    /// What they refer to.
    ghost values: { Self.Refs → Self.Values };

    /// The values, by reference.
    fn as_refs(&'a self) -> Self::Refs
        ensures { values result ≡ Self.view self.now };
}

/// Does nothing. Its contract says that what the values of the fields mean is legal, where the
/// fields are those that the struct is seen by.
pub fn known_record<'a, R: FieldRefs<'a>, F: Borrowed<'a, Refs = R::Refs, Values = R::Values>>(
    value: &'a R,
)
    ensures { SeesAs F.values R.FieldRefs.values → F.legal (F.means (R.view value.now)) }
{
    let refs = value.as_refs();
    F::known(&refs);
}
