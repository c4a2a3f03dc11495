//! The type of documents.

ghost use Rattle.nano_meaning.proofs.AgreesLaws.{agreed};
ghost use Rattle.nano_document.specs.Documents.{json_means};
ghost use Rattle.nano_document.specs.DocumentCodecs.{json_codec};
ghost use Rattle.nano_document.specs.BinCodecs.{bin_codec};
ghost use Rattle.nano_document.specs.BinImpls.{bin_agrees};

use crate::known::known_json;
use crate::same::same_json;
use nano_bin::BinCodec;
use nano_json::JsonCodec;
use nano_value::Value;

/// A document of JSON.
///
/// A whole number that is read is a `U64` unless it is below 0, and a number with a point or an
/// exponent is a `Decimal`.
///
/// Two documents are equal by `==` if they mean the same: a number as a `U64` equals the same
/// number as an `I64`, and two objects are equal if they have the same entries in the same order.
/// Two decimals are equal if their texts are, so 1.0 and 1.00 differ.
#[derive(Debug, Drop)]
pub enum Json {
    /// `null`.
    Null,
    /// `true` or `false`.
    Bool(bool),
    /// A whole number that is not negative.
    U64(u64),
    /// A whole number.
    I64(i64),
    /// A number with a point or an exponent, by its text as it stands in JSON. Of a text that is no
    /// such number, by [`is_decimal`](crate::is_decimal), it means the same as `Text`.
    Decimal(String),
    /// A text.
    Text(String),
    /// Documents between square brackets, in order.
    List(Vec<Json>),
    /// Names with their documents between braces, in order. A name may stand more than once.
    Object(Vec<(String, Json)>),
}

impl PartialEq for Json {
    ghost use Rattle.std.specs.Prelude.{◌≡◌, ◌↔◌, IsTrue};
    ghost use Rattle.nano_document.specs.Documents.{json_means};
    ghost use Rattle.nano_document.specs.Equality.{json_eq};
    ghost use Rattle.nano_document.specs.EqualityImpls.{json_eq_laws};

    ghost eq = { json_eq };

    ghost laws = { json_eq_laws };

    fn eq(&self, other: &Json) -> bool
        ensures same { IsTrue result ↔ (json_means self.now ≡ json_means other.now) }
        ensures value { result ≡ json_eq self.now other.now }
    {
        same_json(self, other)
    }
}

impl Eq for Json {
    ghost use Rattle.nano_document.specs.EqualityImpls.{json_eq_equiv};

    ghost laws = { json_eq_equiv };
}

impl Value for Json {
    ghost means = { json_means };

    ghost legal = { json_codec.encoding.legal };

    fn known(&self) {
        known_json(self);
    }
}

impl JsonCodec for Json {
    ghost json = { json_codec };

    ghost agrees = { agreed };
}

impl BinCodec for Json {
    ghost bin = { bin_codec };

    ghost agrees = { bin_agrees };
}
