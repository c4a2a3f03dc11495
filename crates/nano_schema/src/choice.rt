//! User-defined enums.

ghost use Rattle.std.specs.Prelude.{◌≡◌};
ghost use Rattle.nano_value.specs.Sums.{LegalVariant};
ghost use Rattle.nano_schema.specs.Views.{SeesAs};

use crate::choices::BorrowedChoices;

/// A user-defined enum, as the content of the variant that it is.
pub trait EnumSchema {
    /// The content of a variant, nested as the variants are.
    type Values;

    /// An enum as the content of the variant that it is.
    ghost view: { Self → Self.Values };

    /// The enum of this content.
    fn make(values: Self::Values) -> Self
        ensures { view result ≡ values };
}

/// A user-defined enum that is seen by references to the content of its variant.
pub trait VariantRefs<'a>: EnumSchema {
    /// The references, nested as the variants are.
    type Refs: Drop;

    /// What they refer to.
    ghost values: { Self.Refs → Self.Values };

    /// The content, by reference.
    fn as_refs(&'a self) -> Self::Refs
        ensures { values result ≡ Self.view self.now };
}

/// Does nothing. Its contract says that what the value means is legal, for an enum that is seen by
/// these variants. It is at once that of `Value::known`, so it serves an enum of any number of
/// variants.
pub fn known_variant<
    'a,
    E: VariantRefs<'a>,
    V: BorrowedChoices<'a, Refs = E::Refs, Values = E::Values>,
>(value: &'a E)
    requires { SeesAs V.values E.VariantRefs.values }
    ensures { LegalVariant V.legals (V.means 0 (E.view value.now)) }
{
    let refs = value.as_refs();
    V::known(&refs);
}
