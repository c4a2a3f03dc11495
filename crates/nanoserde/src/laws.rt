//! The promises of normal forms and of converted inputs, each the contract of a function that does
//! nothing else.
ghost use Rattle.std.specs.Prelude.{◌≡◌};
ghost use Rattle.nano_value.specs.Meaning.{EqAgrees};
ghost use Rattle.nanoserde.specs.Promises.{OneForm, FormsTellValues, FormOfForm, ReadBack};
ghost use Rattle.nanoserde.specs.Normal.{BeginsBytes, BeginsText, text_bytes};

use crate::{BothBin, BothJson, BothRon, DeJson, DeRon, ExactEq, StructSchema};

/// Bytes have at most one normal form, the normal forms of two inputs are equal exactly where their
/// values are the same, and a normal form is its own.
pub fn normal_bytes<T: BothBin>()
    ensures one { OneForm T.means (BeginsBytes T.bin) T.bin.canonical.written }
    ensures tell { FormsTellValues T.means (BeginsBytes T.bin) T.bin.canonical.written }
    ensures again { FormOfForm T.means (BeginsBytes T.bin) T.bin.canonical.written }
{}

/// A JSON text has at most one normal form, the normal forms of two inputs are equal exactly where
/// their values are the same, and a normal form is its own.
pub fn normal_json_texts<T: BothJson>()
    ensures one { OneForm T.means (BeginsText T.json) (text_bytes T.json) }
    ensures tell { FormsTellValues T.means (BeginsText T.json) (text_bytes T.json) }
    ensures again { FormOfForm T.means (BeginsText T.json) (text_bytes T.json) }
{}

/// A RON text has at most one normal form, the normal forms of two inputs are equal exactly where
/// their values are the same, and a normal form is its own.
pub fn normal_ron_texts<T: BothRon>()
    ensures one { OneForm T.means (BeginsText T.ron) (text_bytes T.ron) }
    ensures tell { FormsTellValues T.means (BeginsText T.ron) (text_bytes T.ron) }
    ensures again { FormOfForm T.means (BeginsText T.ron) (text_bytes T.ron) }
{}

/// A JSON text is converted to one list of bytes, two are converted alike exactly where their
/// values are the same, and the bytes are read back as the value of the text.
pub fn json_as_bytes<T: DeJson + BothBin>()
    ensures one { OneForm T.means (BeginsText T.json) T.bin.canonical.written }
    ensures tell { FormsTellValues T.means (BeginsText T.json) T.bin.canonical.written }
    ensures back { ReadBack T.means (BeginsText T.json) T.bin.canonical.written (BeginsBytes T.bin) }
{}

/// A RON text is converted to one list of bytes, two are converted alike exactly where their values
/// are the same, and the bytes are read back as the value of the text.
pub fn ron_as_bytes<T: DeRon + BothBin>()
    ensures one { OneForm T.means (BeginsText T.ron) T.bin.canonical.written }
    ensures tell { FormsTellValues T.means (BeginsText T.ron) T.bin.canonical.written }
    ensures back { ReadBack T.means (BeginsText T.ron) T.bin.canonical.written (BeginsBytes T.bin) }
{}

/// Does nothing. Its contract says that `==` of a struct is exact where it compares the values of
/// the fields, as a derived one does.
pub fn equal_records_mean_the_same<R: StructSchema<Values = V> + PartialEq, V: ExactEq>()
    ensures { (R.eq ≡ λ x y. V.eq (R.view x) (R.view y))
        → EqAgrees R.eq (λ x. V.means (R.view x)) }
{
    V::eq_agrees();
}
