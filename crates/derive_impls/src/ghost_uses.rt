//! What brings in ghost names, once for each module.

use crate::layout::{COLUMNS, width};
use std::alloc::AllocError;

/// What brings in ghost names of a module.
#[derive(Drop)]
pub(crate) struct Import {
    /// The line up to the names.
    pub(crate) module: &'static str,
    /// The names, each once.
    pub(crate) names: Vec<&'static str>,
}

impl Import {
    /// Adds names, if they are not there yet.
    pub(crate) fn add(&mut self, names: &'static str) -> Result<(), AllocError> {
        if !self.names.contains(&names) {
            self.names.push(names)?;
        }
        Ok(())
    }
}

/// Appends what brings in names of a module, on each line as many as it has space for.
pub(crate) fn append_import(output: &mut String, import: &Import) -> Result<(), AllocError> {
    let mut used = 0usize;
    for names in &import.names {
        let longer = used.saturating_add(width(*names)).saturating_add(2);
        if used > 0 && longer.saturating_add(2) <= COLUMNS {
            output.push_str(", ")?;
            used = longer;
        } else {
            output.push_str(if used > 0 { "};\n" } else { "" })?;
            output.push_str(import.module)?;
            output.push_str(".{")?;
            used = width(import.module)
                .saturating_add(2)
                .saturating_add(width(*names));
        }
        output.push_str(*names)?;
    }
    output.push_str("};\n")
}
