//! Types that contain themselves: what is written of them, and what is not.

use crate::collection_faults::COLLECTIONS;
use crate::cycle_faults::CYCLES;
use crate::cycle_forms::{CYCLE_FILES, CYCLE_IMPLS};
use crate::fault_tests::are_reported;
use crate::form_tests::{are_written, has_lines};
use crate::nested_default_forms::{DEFAULT_FILES, DEFAULT_IMPLS};
use crate::nested_faults::NESTED;
use crate::nested_forms::{FILES, IMPLS};
use crate::nested_generic_forms::{GENERIC_FILES, GENERIC_IMPLS};
use crate::nested_shape_forms::{SHAPE_FILES, SHAPE_IMPLS};
use crate::outcome::MODULE;
use derive_nested::{DeriveError, NestedFile, nested_files};
use std::alloc::{AllocError, Global};
use std::process::Abort;

/// The files that are written for what stands above `mod derived;`, each with its path.
fn files_of(alloc: Global, above: &str) -> Result<Vec<NestedFile>, DeriveError> {
    let source = format!(in alloc; "{above}\nmod derived;\n")?;
    nested_files(alloc, MODULE, source.as_str())
}

/// The paths and the texts of files.
fn texts_of(alloc: Global, files: &[NestedFile]) -> Result<String, AllocError> {
    let mut texts = String::new(alloc);
    for file in files {
        texts.push_str(format!(in alloc; "{}/{}", file.folder.name(), file.path)?.as_str())?;
        if let Some(line) = &file.declared {
            texts.push_str(format!(in alloc; ", declared by `{line}`")?.as_str())?;
        }
        texts.push('\n')?;
        texts.push_str(file.text.as_str())?;
    }
    Ok(texts)
}

/// What is written beside the sources, as one text.
fn beside(alloc: Global, above: &str) -> Result<String, AllocError> {
    match files_of(alloc, above) {
        Ok(files) => texts_of(alloc, &files),
        Err(_error) => Err(AllocError),
    }
}

/// The lines after each source stand in the files that are written of it.
fn are_beside(rt: &impl Abort, alloc: Global, rows: &str) {
    for row in rows.split("----\n") {
        let (above, lines) = row.split_once("=>\n").unwrap_or((row, "a line"));
        has_lines(rt, beside(alloc, above), lines);
    }
}

/// Whether no file is written for a type that does not contain itself.
fn has_none(alloc: Global) -> bool {
    match files_of(alloc, "// nanoserde: bin\nstruct A(u8);\n") {
        Ok(files) => files.is_empty(),
        Err(_error) => false,
    }
}

/// Whether a fault has its place here, too.
fn is_reported(alloc: Global) -> bool {
    match files_of(alloc, "// nanoserde: bin\nstruct A(Vec<A>);\n") {
        Err(DeriveError::Source(fault)) => fault.line == 1 && fault.column == 7,
        _ => false,
    }
}

#[test]
fn impls_are_written_within_levels(rt: HostRuntime) {
    are_written(&rt, rt.alloc(), IMPLS);
    are_written(&rt, rt.alloc(), CYCLE_IMPLS);
    are_written(&rt, rt.alloc(), DEFAULT_IMPLS);
    are_written(&rt, rt.alloc(), GENERIC_IMPLS);
    are_written(&rt, rt.alloc(), SHAPE_IMPLS);
}

#[test]
fn definitions_and_laws_stand_beside_the_sources(rt: HostRuntime) {
    are_beside(&rt, rt.alloc(), FILES);
    are_beside(&rt, rt.alloc(), CYCLE_FILES);
    are_beside(&rt, rt.alloc(), DEFAULT_FILES);
    are_beside(&rt, rt.alloc(), GENERIC_FILES);
    are_beside(&rt, rt.alloc(), SHAPE_FILES);
}

#[test]
fn other_types_have_no_files(rt: HostRuntime) {
    let alloc = rt.alloc();
    assert!(rt; has_none(alloc));
    assert!(rt; is_reported(alloc));
}

#[test]
fn a_type_contains_itself_in_some_ways_alone(rt: HostRuntime) {
    are_reported(&rt, rt.alloc(), NESTED);
    are_reported(&rt, rt.alloc(), COLLECTIONS);
    are_reported(&rt, rt.alloc(), CYCLES);
}
