//! From a source to the impls of its structs and enums.

ghost use Rattle.std.specs.Prelude.{IfOk, IfErr};
ghost use Rattle.derive_source.specs.Below.{IsDerived};
ghost use Rattle.derive_source.specs.Errors.{IsErrorIn};

use crate::output::impls;
use derive_syntax::{
    DeriveError, Fault, Writer, Written, check_source, derive_by, source_of, tokens_of,
};
use std::alloc::Global;

/// Writes the impls of structs and enums.
pub struct Impls;

impl Writer for Impls {
    ghost writes = { λ _ _ _. Unit {0} };

    fn write(alloc: Global, module_name: &str, above: &str) -> Result<String, Fault> {
        let tokens = tokens_of(alloc, above)?;
        let source = source_of(alloc, &tokens, above.len())?;
        check_source(alloc, &source)?;
        impls(alloc, module_name, &source, above.len())
    }
}

/// The impls of the structs and enums of a source that ends in `mod derived;`: the whole text of
/// that module.
///
/// `module_name` is the module that the source is, as ghost names say it:
/// `app.specs.declared.shapes` is `src/shapes.rt` of the crate `app`.
///
/// A source may have the line `MARKER` in the place of `mod derived;`. It is then moved: what
/// stands above the marker is unchanged, and `mod derived;` takes the place of the marker and of
/// what stood below it, which is not read.
///
/// # Errors
///
/// The source is at fault: it neither ends in `mod derived;` nor has one marker, what stands above
/// is no Rust that the generator reads, or an attribute or a type is none that it knows. Or an
/// allocation fails.
pub fn derive(alloc: Global, module_name: &str, source: &str) -> Result<Written, DeriveError>
    ensures derived { IfOk result
        (IsDerived (⟦<Impls as Writer>⟧.writes module_name.now) source.now) }
    ensures error { IfErr result (IsErrorIn source.now) }
{
    derive_by::<Impls>(alloc, module_name, source)
}
