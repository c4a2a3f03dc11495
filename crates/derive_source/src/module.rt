//! The module that a file is, and the file of the module of its impls.

use crate::case::Case;
use std::alloc::{AllocError, Global};

/// The module that a file is, as ghost names say it: `app.specs.declared.shapes` for a path that
/// ends in `app/src/shapes.rt`, and `app.specs.declared` for `app/src/lib.rt`. `None` where the
/// file is in no `src` folder.
pub fn module_of(alloc: Global, path: &str) -> Result<Option<String>, AllocError> {
    let Some((folder, file)) = path.rsplit_once("/src/") else {
        return Ok(None);
    };
    let name = match folder.rsplit_once('/') {
        Some((_above, name)) => name,
        None => folder,
    };
    let mut module = format!(in alloc; "{name}{DECLARED}")?;
    for part in folder_of(file).split('/') {
        if !part.is_empty() {
            module.push('.')?;
            module.push_str(part)?;
        }
    }
    Ok(Some(module))
}

/// The file of the module `derived` of a file: `app/src/shapes/derived.rt` for
/// `app/src/shapes.rt`, and `app/src/derived.rt` for `app/src/lib.rt`. `None` where the file is in
/// no `src` folder.
pub fn derived_path(alloc: Global, path: &str) -> Result<Option<String>, AllocError> {
    let Some((folder, file)) = path.rsplit_once("/src/") else {
        return Ok(None);
    };
    let ending = match file.split_once('.') {
        Some((_file, ending)) => ending,
        None => "rt",
    };
    let path = match folder_of(file) {
        "" => format!(in alloc; "{folder}/src/derived.{ending}")?,
        below => format!(in alloc; "{folder}/src/{below}/derived.{ending}")?,
    };
    Ok(Some(path))
}

/// The path of a file in a folder of a crate, by that of a source of it: `app/specs/Lib.antt` for
/// `app/src/shapes.rt` and `specs/Lib.antt`. What follows `.rt` in the name of the source follows
/// here, too. `None` where the source is in no `src` folder.
pub fn path_in_crate(
    alloc: Global,
    source: &str,
    path: &str,
) -> Result<Option<String>, AllocError> {
    let Some((folder, file)) = source.rsplit_once("/src/") else {
        return Ok(None);
    };
    let ending = match file.split_once(".rt") {
        Some((_file, ending)) => ending,
        None => "",
    };
    Ok(Some(format!(in alloc; "{folder}/{path}{ending}")?))
}

/// The name of the file of definitions, in the folder `specs`, for the types of a module that
/// contain themselves: `ShapesCodecs` for the module `app.specs.declared.shapes`.
pub fn codecs_name(alloc: Global, module: &str) -> Result<String, AllocError> {
    let (_crate, path) = crate_of(module);
    let mut name = String::new(alloc);
    for part in path.split('.') {
        name.push_str(Case::Pascal.of_field(alloc, part)?.as_str())?;
    }
    name.push_str(if name.is_empty() {
        "RootCodecs"
    } else {
        "Codecs"
    })?;
    Ok(name)
}

/// What stands in the name of a module between those of its crate and of its path.
const DECLARED: &str = ".specs.declared";

/// The crate of a module, and its path in there, with a period before each step.
pub fn crate_of(module: &str) -> (&str, &str) {
    module.split_once(DECLARED).unwrap_or((module, ""))
}

/// The folder below `src` in which the modules of a file stand: `a/b` for `a/b.rt` and for
/// `a/b/mod.rt`, and nothing for `lib.rt` and `main.rt`.
fn folder_of(file: &str) -> &str {
    let file = match file.split_once('.') {
        Some((file, _ending)) => file,
        None => file,
    };
    match file {
        "lib" | "main" => "",
        _ => file.strip_suffix("/mod").unwrap_or(file),
    }
}
