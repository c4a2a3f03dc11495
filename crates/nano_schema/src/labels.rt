//! The names of fields and variants, as types.

ghost use Rattle.std.specs.Prelude.{◌≡◌, List, ℕ};

/// The name of a field or of a variant. The schema has it as a type, so a name stands in one
/// place: code and contracts take it from here.
pub trait Label {
    /// The name, in bytes of UTF-8.
    ghost label: { List ℕ };

    /// The name.
    fn text() -> &'static str
        ensures { result.now ≡ label };
}

/// The name of a number, of names that are numbered from 0 on: the arms of a `match` over the
/// number.
#[macro_export]
macro_rules! name_of {
    ($number:expr, $($i:literal => $name:literal,)+ _ => $last:literal) => {
        match $number {
            $($i => $name,)+
            _ => $last,
        }
    };
}
