//! Readers of types in which a type parameter stands deep: a law says what their values mean.

use crate::codec::Codec;
use crate::sheet::Sheet;
use derive_syntax::Holes;
use std::alloc::AllocError;

// For each value, and not for the functions that say what values mean: so a reader's proof need not
// look into types that stand in one another.
const LAW: &str = "
/// Does nothing. Its contract says that the codec is of what a value means.
fn $LAW<T: nano_$MODULE_schema::$NAMECodec>(value: &T)
    ensures { T.$MODULE.canonical.means value.now ≡ T.means value.now }
{
    let _value = value;
}";

/// A body that reads, with the law of the format for what is read.
pub(crate) fn with_law(sheet: &mut Sheet, codec: &Codec, read: &str) -> Result<String, AllocError> {
    let law = law_of(sheet, codec)?;
    let read = read.trim();
    format!(in sheet.alloc;
        "        match {read} {{
            Ok(value) => {{
                {law}::<Self>(&value);
                Ok(value)
            }}
            Err(error) => Err(error),
        }}"
    )
}

/// The name of the law of a format, which is appended where it is not there.
fn law_of(sheet: &mut Sheet, codec: &Codec) -> Result<String, AllocError> {
    let alloc = sheet.alloc;
    for (module, name) in &sheet.laws {
        if *module == codec.module {
            return name.clone();
        }
    }
    let wanted = sheet.made(format!(in alloc; "means_as_{}", codec.module));
    let name = sheet.names.take(alloc, wanted.as_str())?;
    sheet.import("ghost use Rattle.std.specs.Prelude.{◌≡◌};");
    let mut holes = Holes::new(alloc);
    holes.put("MODULE", codec.module);
    holes.put("NAME", codec.name);
    holes.put("LAW", name.as_str());
    let text = holes.fill(LAW)?;
    sheet.write(text.as_str(), &Holes::new(alloc));
    sheet.laws.push((codec.module, name.clone()?))?;
    Ok(name)
}
