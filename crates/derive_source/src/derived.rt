//! From a source to the impls of its types, which stand in a module of their own.

ghost use Rattle.std.specs.Prelude.{◌≡◌, ◌∷◌, [], ◌++◌, ℕ, List, IfOk, IfErr, string_bytes};
ghost use Rattle.derive_source.specs.Below.{module_line, IsDerived};
ghost use Rattle.derive_source.specs.Errors.{IsErrorIn};

use crate::error::{DeriveError, error_of};
use crate::fault::Fault;
use crate::marker::{MODULE_LINE, above_marker, above_module};
use std::alloc::{AllocError, Global};

/// What is written for a source.
#[derive(Drop)]
pub struct Written {
    /// The whole text of the module `derived` of the source.
    pub impls: String,
    /// The source with `mod derived;` in the place of its marker and of what stood below, if it has
    /// a marker. A source that ends in `mod derived;` is unchanged.
    pub moved: Option<String>,
}

/// What writes impls for a text above `mod derived;`, from that text alone.
pub trait Writer {
    /// What it may write for a module's name and a text.
    ghost writes: { List ℕ → List ℕ → List ℕ → Type 0 };

    /// What is written for a text in a module.
    ///
    /// # Errors
    ///
    /// The text is at fault, or an allocation fails.
    fn write(alloc: Global, module_name: &str, above: &str) -> Result<String, Fault>
        ensures { IfOk result (λ impls. writes module_name.now above.now (string_bytes impls)) };
}

/// What a writer writes for what stands above `mod derived;` in the source, or above its marker.
///
/// # Errors
///
/// The source does not end in `mod derived;` and has no marker or two, or what stands above it is
/// at fault for the writer. Or an allocation fails.
pub fn derive_by<W: Writer>(
    alloc: Global,
    module_name: &str,
    source: &str,
) -> Result<Written, DeriveError>
    ensures derived { IfOk result (IsDerived (W.writes module_name.now) source.now) }
    ensures error { IfErr result (IsErrorIn source.now) }
{
    match derived::<W>(alloc, module_name, source) {
        Ok(written) => Ok(written),
        Err(fault) => Err(error_of(alloc, source, fault)),
    }
}

/// What a writer writes for a source.
fn derived<W: Writer>(alloc: Global, module_name: &str, source: &str) -> Result<Written, Fault>
    ensures { IfOk result (IsDerived (W.writes module_name.now) source.now) }
{
    if let Some(above) = above_module(source) {
        let impls = W::write(alloc, module_name, above)?;
        return Ok(Written { impls, moved: None });
    }
    let above = above_marker(source)?;
    let impls = W::write(alloc, module_name, above)?;
    let moved = with_module(alloc, above)?;
    Ok(Written {
        impls,
        moved: Some(moved),
    })
}

/// A text, and the line that names the module of the impls.
fn with_module(alloc: Global, above: &str) -> Result<String, AllocError>
    ensures { IfOk result (λ text.
        string_bytes text ≡ above.now ++ module_line ++ (10 ∷ [])) }
{
    let mut text = String::from_str(alloc, above)?;
    text.push_str(MODULE_LINE)?;
    text.push('\n')?;
    Ok(text)
}
