//! What is written of each form of a struct.

use crate::default_forms::{DEFAULTED, LARGEST, SKIPPED, SKIPPED_IN_ROW};
use crate::ensured_forms::ENSURED;
use crate::forms::{CITING, EMPTY, GENERIC, LARGE, PARTS, PASSED};
use crate::generic_forms::{BOUNDED, HELD, PATHS};
use crate::key_forms::KEYS;
use crate::named_forms::{ALIASED, BEYOND, CLASHING, LONG, NAMED, OPEN, STRICT};
use crate::outcome::outcome_above;
use crate::wide_forms::WIDE;
use std::alloc::{AllocError, Global};
use std::process::Abort;

/// Each of these lines is written.
fn have_lines(rt: &impl Abort, written: &str, lines: &str) {
    for expected in lines.split("=>\n") {
        assert!(rt; written.contains(expected), "{expected}");
    }
}

/// What became of a source has each of these lines.
pub(crate) fn has_lines(rt: &impl Abort, became: Result<String, AllocError>, lines: &str) {
    match became {
        Ok(written) => have_lines(rt, written.as_str(), lines),
        Err(_failed) => assert!(rt; false, "no memory"),
    }
}

/// The lines after each source are written of it.
pub(crate) fn are_written(rt: &impl Abort, alloc: Global, rows: &str) {
    for row in rows.split("----\n") {
        let (above, lines) = row.split_once("=>\n").unwrap_or((row, "a line"));
        has_lines(rt, outcome_above(alloc, above), lines);
    }
}

#[test]
fn forms_are_written(rt: HostRuntime) {
    let alloc = rt.alloc();
    are_written(&rt, alloc, PARTS);
    are_written(&rt, alloc, GENERIC);
    are_written(&rt, alloc, LARGE);
    are_written(&rt, alloc, CITING);
    are_written(&rt, alloc, PASSED);
}

#[test]
fn structs_of_more_parts_than_a_tuple_are_written(rt: HostRuntime) {
    are_written(&rt, rt.alloc(), WIDE);
}

#[test]
fn a_default_is_a_type(rt: HostRuntime) {
    are_written(&rt, rt.alloc(), DEFAULTED);
    are_written(&rt, rt.alloc(), LARGEST);
}

#[test]
fn a_skipped_field_has_no_name(rt: HostRuntime) {
    are_written(&rt, rt.alloc(), SKIPPED);
    are_written(&rt, rt.alloc(), SKIPPED_IN_ROW);
}

#[test]
fn make_ensures_what_a_skipped_field_is_made_as(rt: HostRuntime) {
    are_written(&rt, rt.alloc(), ENSURED);
}

#[test]
fn forms_with_parameters_and_paths_are_written(rt: HostRuntime) {
    are_written(&rt, rt.alloc(), BOUNDED);
    are_written(&rt, rt.alloc(), HELD);
    are_written(&rt, rt.alloc(), PATHS);
}

#[test]
fn names_beyond_ascii_and_long_ones_are_written(rt: HostRuntime) {
    are_written(&rt, rt.alloc(), BEYOND);
    are_written(&rt, rt.alloc(), LONG);
}

#[test]
fn an_alias_stands_around_its_field(rt: HostRuntime) {
    are_written(&rt, rt.alloc(), ALIASED);
}

#[test]
fn a_struct_that_denies_unknown_names_is_strict_in_json(rt: HostRuntime) {
    are_written(&rt, rt.alloc(), STRICT);
}

#[test]
fn a_struct_that_allows_unknown_names_is_open_in_ron(rt: HostRuntime) {
    are_written(&rt, rt.alloc(), OPEN);
}

#[test]
fn types_of_which_nothing_is_read_are_written(rt: HostRuntime) {
    are_written(&rt, rt.alloc(), EMPTY);
}

#[test]
fn keys_are_written(rt: HostRuntime) {
    are_written(&rt, rt.alloc(), KEYS);
}

#[test]
fn a_module_brings_in_what_it_says(rt: HostRuntime) {
    are_written(&rt, rt.alloc(), NAMED);
    are_written(&rt, rt.alloc(), CLASHING);
}
