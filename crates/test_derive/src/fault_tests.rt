//! Sources at fault, and what is said of each.

use crate::alias_faults::ALIASES;
use crate::attribute_faults::{ATTRIBUTES, CONTROL};
use crate::case_faults::CASES;
use crate::default_faults::{DEFAULTS, SKIPPED};
use crate::faults::{BOUNDS, ITEMS, TYPES};
use crate::key_faults::{KEYS, PARTS};
use crate::mistakes::{COMMENTS, FORMS, OTHERS};
use crate::outcome::{MODULE, outcome, outcome_above};
use crate::strict_faults::{ALLOWED, DENIED};
use derive_text::{DeriveError, derive, derived_path, module_of};
use std::alloc::{AllocError, Global};
use std::process::Abort;

/// What became of a source begins with what was expected.
fn begins(rt: &impl Abort, became: Result<String, AllocError>, expected: &str) {
    match became {
        Ok(found) => assert!(rt; found.as_str().starts_with(expected), "{found}"),
        Err(_failed) => assert!(rt; false, "no memory"),
    }
}

/// Each source has the fault that stands after it.
pub(crate) fn are_reported(rt: &impl Abort, alloc: Global, rows: &str) {
    for row in rows.split("\n----\n") {
        let (above, expected) = row.split_once("\n=> ").unwrap_or((row, "a fault"));
        begins(rt, outcome_above(alloc, above), expected);
    }
}

#[test]
fn items_are_structs_and_enums(rt: HostRuntime) {
    are_reported(&rt, rt.alloc(), ITEMS);
}

#[test]
fn types_are_known(rt: HostRuntime) {
    are_reported(&rt, rt.alloc(), TYPES);
}

#[test]
fn bounds_are_those_of_a_type(rt: HostRuntime) {
    are_reported(&rt, rt.alloc(), BOUNDS);
}

#[test]
fn attributes_stand_where_they_have_a_meaning(rt: HostRuntime) {
    are_reported(&rt, rt.alloc(), ATTRIBUTES);
    are_reported(&rt, rt.alloc(), CONTROL);
}

#[test]
fn aliases_stand_above_fields_and_are_other_names(rt: HostRuntime) {
    are_reported(&rt, rt.alloc(), ALIASES);
}

#[test]
fn keys_are_types_that_can_be_compared(rt: HostRuntime) {
    are_reported(&rt, rt.alloc(), KEYS);
    are_reported(&rt, rt.alloc(), PARTS);
}

#[test]
fn forms_of_rust_that_are_none_here_are_named(rt: HostRuntime) {
    are_reported(&rt, rt.alloc(), FORMS);
}

#[test]
fn comments_that_are_meant_to_be_attributes_are_named(rt: HostRuntime) {
    are_reported(&rt, rt.alloc(), COMMENTS);
}

#[test]
fn attributes_and_types_of_others_are_named(rt: HostRuntime) {
    are_reported(&rt, rt.alloc(), OTHERS);
}

#[test]
fn a_case_is_one_of_the_names_here(rt: HostRuntime) {
    are_reported(&rt, rt.alloc(), CASES);
}

#[test]
fn unknown_names_are_denied_by_structs_of_json(rt: HostRuntime) {
    are_reported(&rt, rt.alloc(), DENIED);
}

#[test]
fn unknown_names_are_allowed_by_structs_of_ron(rt: HostRuntime) {
    are_reported(&rt, rt.alloc(), ALLOWED);
}

#[test]
fn a_default_is_a_value_of_its_field(rt: HostRuntime) {
    are_reported(&rt, rt.alloc(), DEFAULTS);
}

#[test]
fn a_skipped_field_has_a_default(rt: HostRuntime) {
    are_reported(&rt, rt.alloc(), SKIPPED);
}

const MODULES: &[(&str, &str)] = &[
    (
        "struct A {\n    a: u8,\n}\n",
        "4:1: no line is `mod derived;`",
    ),
    ("mod derived;\nstruct A;\n", "1:1: `mod derived;` stands"),
    ("\n  mod derived;\n", "2:3: `mod derived;` stands"),
    (
        "// ---- written by derive_files, twice\n",
        "1:1: the marker",
    ),
    ("  // ---- written by derive_files\n", "1:3: the marker"),
    (
        "// ---- written by derive_files\nx\n// ---- written by derive_files\n",
        "3:1: the marker stands a second time",
    ),
];

#[test]
fn a_file_ends_in_its_module_or_has_one_marker(rt: HostRuntime) {
    for (source, expected) in MODULES {
        begins(&rt, outcome(rt.alloc(), source), expected);
    }
}

const MOVED: &[(&str, &str)] = &[
    ("mod derived;\n", "// ---- written by derive_files\n"),
    (
        "mod derived;\n",
        "// ---- written by derive_files\r\n\nstruct B;",
    ),
    ("", "mod derived;\r\n\n"),
    ("", "mod derived;"),
];

/// What a source becomes if it is moved, or nothing.
fn moved(alloc: Global, source: &str) -> Result<String, DeriveError> {
    let written = derive(alloc, MODULE, source)?;
    Ok(written.moved.unwrap_or(String::new(alloc)))
}

/// Whether a struct with these lines below it is moved to one with this line there.
fn is_moved(alloc: Global, expected: &str, below: &str) -> Result<bool, DeriveError> {
    let source = format!(in alloc; "// nanoserde: bin\nstruct A(u8);\n{below}")?;
    let text = moved(alloc, source.as_str())?;
    match text
        .as_str()
        .strip_prefix("// nanoserde: bin\nstruct A(u8);\n")
    {
        Some(line) => Ok(line == expected),
        None => Ok(text.as_str() == expected),
    }
}

#[test]
fn a_source_with_a_marker_is_moved(rt: HostRuntime) {
    for (expected, below) in MOVED {
        let found = is_moved(rt.alloc(), expected, below);
        assert!(&rt; matches!(found, Ok(true)), "{below}");
    }
}

/// Whether this is shown of a source's fault.
fn is_shown(alloc: Global, source: &str, expected: &str) -> Option<bool> {
    match derive(alloc, MODULE, source) {
        Err(DeriveError::Source(fault)) => {
            let mut output = Vec::new(alloc);
            fault.show(&mut output, "a.rt", source).ok()?;
            Some(output.as_slice() == expected.as_bytes())
        }
        _ => None,
    }
}

#[test]
fn a_fault_is_shown_with_its_line_and_a_caret(rt: HostRuntime) {
    let source = "struct A {\n\ta: Strng,\n}\nmod derived;\n";
    let expected = "a.rt:2:5: `Strng` is no type that is known: none above has this name, \
        and no `use` brings it in\n\ta: Strng,\n\t   ^\n";
    assert!(&rt;
        is_shown(rt.alloc(), source, expected) == Some(true),
        "{source}"
    );
}

/// The module of a path, or `none`.
fn module(alloc: Global, path: &str) -> Result<String, AllocError> {
    match module_of(alloc, path)? {
        Some(module) => Ok(module),
        None => String::from_str(alloc, "none"),
    }
}

/// The file of the impls of a path, or `none`.
fn beside(alloc: Global, path: &str) -> Result<String, AllocError> {
    match derived_path(alloc, path)? {
        Some(path) => Ok(path),
        None => String::from_str(alloc, "none"),
    }
}

const BESIDE: &[(&str, &str)] = &[
    ("/a/crates/app/src/lib.rt", "/a/crates/app/src/derived.rt"),
    ("app/src/main.rt", "app/src/derived.rt"),
    ("app/src/a.rt", "app/src/a/derived.rt"),
    ("/app/src/a/mod.rt", "/app/src/a/derived.rt"),
    ("/app/src/a/b.rt.txt", "/app/src/a/b/derived.rt.txt"),
    ("/a/src.rt", "none"),
];

/// Whether the impls of a path stand in this file.
fn is_beside(alloc: Global, path: &str, expected: &str) -> Result<bool, AllocError> {
    Ok(beside(alloc, path)?.as_str() == expected)
}

#[test]
fn impls_stand_where_their_module_does(rt: HostRuntime) {
    for (path, expected) in BESIDE {
        assert!(&rt; is_beside(rt.alloc(), path, expected) == Ok(true), "{path}");
    }
}

const PATHS: &[(&str, &str)] = &[
    ("/a/crates/app/src/lib.rt", "app.specs.declared"),
    ("/a/crates/app/src/a/b.rt.txt", "app.specs.declared.a.b"),
    ("app/src/main.rt", "app.specs.declared"),
    ("/app/src/a/mod.rt", "app.specs.declared.a"),
    ("/a/src.rt", "none"),
];

/// Whether a path has this module.
fn is_module(alloc: Global, path: &str, expected: &str) -> Result<bool, AllocError> {
    Ok(module(alloc, path)?.as_str() == expected)
}

#[test]
fn a_path_tells_the_module(rt: HostRuntime) {
    for (path, expected) in PATHS {
        assert!(&rt; is_module(rt.alloc(), path, expected) == Ok(true), "{path}");
    }
}
