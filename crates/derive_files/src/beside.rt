//! Files in the folders `specs` and `proofs` of a crate, beside its sources.

use crate::disk::{has_text, put, text_of};
use anyhow::{Result, bail};
use derive_nested::NestedFile;
use derive_text::path_in_crate;

/// Whether each of the files is there as it is to be, and is declared. `source` is the path of the
/// source that they are written for.
pub(crate) fn is_beside(rt: &HostRuntime, source: &str, files: &[NestedFile]) -> Result<bool> {
    for file in files {
        let is_there = has_text(rt, path_of(rt, source, file)?.as_str(), file.text.as_str())?;
        if !is_there || undeclared(rt, source, file)?.is_some() {
            return Ok(false);
        }
    }
    Ok(true)
}

/// Writes the files, and declares them.
pub(crate) fn write_beside(rt: &HostRuntime, source: &str, files: &[NestedFile]) -> Result<()> {
    for file in files {
        put(rt, path_of(rt, source, file)?.as_str(), file.text.as_str())?;
        if let Some(text) = undeclared(rt, source, file)? {
            put(rt, library_of(rt, source, file)?.as_str(), text.as_str())?;
        }
    }
    Ok(())
}

/// The path of a file.
fn path_of(rt: &HostRuntime, source: &str, file: &NestedFile) -> Result<String> {
    below(rt, source, file, file.path.as_str())
}

/// The path of the file that declares those of the folder of a file.
fn library_of(rt: &HostRuntime, source: &str, file: &NestedFile) -> Result<String> {
    below(rt, source, file, "Lib.antt")
}

/// A path in the folder of a file.
fn below(rt: &HostRuntime, source: &str, file: &NestedFile, path: &str) -> Result<String> {
    let path = format!(in rt.alloc(); "{}/{path}", file.folder.name())?;
    match path_in_crate(rt.alloc(), source, path.as_str())? {
        Some(path) => Ok(path),
        None => bail!("{source} is in no src folder of a crate"),
    }
}

/// What is to be the text of the file that declares a file, if it does not yet.
fn undeclared(rt: &HostRuntime, source: &str, file: &NestedFile) -> Result<Option<String>> {
    let Some(line) = &file.declared else {
        return Ok(None);
    };
    let text = match text_of(rt, library_of(rt, source, file)?.as_str())? {
        Some(text) => text,
        None => String::new(rt.alloc()),
    };
    for found in text.lines() {
        if found == line.as_str() {
            return Ok(None);
        }
    }
    let break_before = if text.is_empty() || text.ends_with('\n') {
        ""
    } else {
        "\n"
    };
    Ok(Some(format!(in rt.alloc(); "{text}{break_before}{line}\n")?))
}
