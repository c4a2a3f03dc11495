//! What becomes of a source.

use derive_text::{DeriveError, derive};
use std::alloc::{AllocError, Global};

/// The module of the sources.
pub(crate) const MODULE: &str = "app.specs.declared.shapes";

/// What becomes of a source: the impls that are written, or `LINE:COLUMN: MESSAGE`.
pub(crate) fn outcome(alloc: Global, source: &str) -> Result<String, AllocError> {
    match derive(alloc, MODULE, source) {
        Ok(written) => Ok(written.impls),
        Err(DeriveError::Memory) => Err(AllocError),
        Err(DeriveError::Source(fault)) => {
            format!(in alloc;
                "{}:{}: {}",
                fault.line.saturating_add(1),
                fault.column.saturating_add(1),
                fault.message
            )
        }
    }
}

/// What becomes of what stands above `mod derived;`.
pub(crate) fn outcome_above(alloc: Global, above: &str) -> Result<String, AllocError> {
    let source = format!(in alloc; "{above}\nmod derived;\n")?;
    outcome(alloc, source.as_str())
}
