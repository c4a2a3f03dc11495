//! Files that are compared, and replaced as a whole.

use anyhow::{Context, Result};
use std::fs::{self, File};
use std::io::{ErrorKind, Write};

/// Writes a text beside a file, and then moves it to the file's place: where a step fails, the
/// file is still what it was.
pub(crate) fn replace(rt: &HostRuntime, name: &str, text: &str) -> Result<()> {
    let beside = format!(in rt.alloc(); "{name}.new")?;
    let mut file = File::create(rt, beside.as_str())?;
    file.write_all(text.as_bytes())?;
    file.sync_all()?;
    Ok(fs::rename(rt, beside.as_str(), name)?)
}

/// Whether a file is there and has this text.
pub(crate) fn has_text(rt: &HostRuntime, name: &str, text: &str) -> Result<bool> {
    match text_of(rt, name)? {
        Some(found) => Ok(found.as_str() == text),
        None => Ok(false),
    }
}

/// The text of a file, if it is there.
pub(crate) fn text_of(rt: &HostRuntime, name: &str) -> Result<Option<String>> {
    match fs::read_to_string(rt, name) {
        Ok(text) => Ok(Some(text)),
        Err(error) if error.kind() == ErrorKind::NotFound => Ok(None),
        Err(error) => Err(error).context(format_args!("reading {name}")),
    }
}

/// Writes a file, and the folder that it stands in.
pub(crate) fn put(rt: &HostRuntime, name: &str, text: &str) -> Result<()> {
    if let Some((folder, _name)) = name.rsplit_once('/') {
        fs::create_dir_all(rt, folder).context(format_args!("making {folder}"))?;
    }
    replace(rt, name, text).context(format_args!("writing {name}"))
}
