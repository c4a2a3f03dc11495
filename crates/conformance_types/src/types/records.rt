//! Documents, types of `nanoserde::records`, `test_types` and `test_nested`, and what holds them.
//!
//! tools/write_types.py writes this file of tools/types.tsv.

use crate::containers::{of_holder, of_list};
use crate::format::Format;
use crate::named::place_of;
use crate::outcome::Outcome;
use crate::reads::{of_bytes, of_bytes_and_json, of_json_alone, of_type};
use nano_document::Json;
use nanoserde::records::{Choice, Holder, Item, Plain, Test};
use std::alloc::{AllocError, Global};
use std::collections::{BTreeSet, HashMap, HashSet, LinkedList};
use test_nested::{Branch, Statement};
use test_nested_defaults::Widget;
use test_nested_derived::{Chain, Expression, Folder, Rule, Tree};
use test_nested_derived_ron::Menu;
use test_nested_shapes::{Argument, Node, Term, Trail};
use test_types::{
    Cells, Change, Clock, Command, Count, Draft, Edit, Empty, Entry, Event, Greetings, Hall,
    HallName, Marker, Measures, Message, Moved, Notice, Point, Profile, Proxy, Reply, Role, Seat,
    Seats, Segment, Server, Signal, Site, Sky, Step, Tagged, Trip, UserId, Visits,
};

/// The names of the types of `of_records`, in the order of its arms.
const RECORDS_NAMES: &[&str] = &[
    "Test",
    "Plain",
    "Item",
    "Choice",
    "Holder<Test>",
    "Holder<Plain>",
    "Holder<Pair>",
    "Holder<Lists>",
    "Holder<[u64; 100]>",
    "Holder<HashMap<String, i32>>",
    "Holder<Holder<Option<Item>>>",
    "Vec<Option<Holder<Item>>>",
    "Vec<Option<Holder<Choice>>>",
    "Vec<Option<Holder<Event>>>",
];

/// A type of `nanoserde::records`, or one that has one as a part, or another type.
pub(crate) fn of_records(
    alloc: Global,
    format: Format,
    kind: &str,
    input: &[u8],
) -> Result<Outcome, AllocError> {
    match place_of(RECORDS_NAMES, kind) {
        Some(0) => of_type::<Test>(alloc, format, input),
        Some(1) => of_type::<Plain>(alloc, format, input),
        Some(2) => of_type::<Item>(alloc, format, input),
        Some(3) => of_type::<Choice>(alloc, format, input),
        Some(4) => of_holder::<Test>(alloc, format, input),
        Some(5) => of_holder::<Plain>(alloc, format, input),
        Some(6) => of_holder::<Option<([u32; 4], String)>>(alloc, format, input),
        Some(7) => of_holder::<(Vec<i32>, LinkedList<i32>, HashSet<i32>, BTreeSet<i32>)>(
            alloc, format, input,
        ),
        Some(8) => of_holder::<[u64; 100]>(alloc, format, input),
        Some(9) => of_holder::<HashMap<String, i32>>(alloc, format, input),
        Some(10) => of_holder::<Holder<Option<Item>>>(alloc, format, input),
        Some(11) => of_list::<Option<Holder<Item>>>(alloc, format, input),
        Some(12) => of_list::<Option<Holder<Choice>>>(alloc, format, input),
        Some(13) => of_list::<Option<Holder<Event>>>(alloc, format, input),
        _ => of_examples(alloc, format, kind, input),
    }
}

/// The names of the types of `of_examples`, in the order of its arms.
const EXAMPLES_NAMES: &[&str] = &[
    "Message",
    "Command",
    "Server",
    "Signal",
    "Event",
    "Point",
    "Entry",
    "Site",
    "Clock",
    "Notice",
    "Proxy",
    "Vec<Proxy>",
    "Tagged",
    "Reply",
];

/// A type of `test_types` with attributes, or in one format alone, or another type.
pub(crate) fn of_examples(
    alloc: Global,
    format: Format,
    kind: &str,
    input: &[u8],
) -> Result<Outcome, AllocError> {
    match place_of(EXAMPLES_NAMES, kind) {
        Some(0) => of_json_alone::<Message>(alloc, format, input),
        Some(1) => of_bytes::<Command>(alloc, format, input),
        Some(2) => of_type::<Server>(alloc, format, input),
        Some(3) => of_type::<Signal>(alloc, format, input),
        Some(4) => of_type::<Event>(alloc, format, input),
        Some(5) => of_type::<Point>(alloc, format, input),
        Some(6) => of_type::<Entry>(alloc, format, input),
        Some(7) => of_type::<Site>(alloc, format, input),
        Some(8) => of_type::<Clock>(alloc, format, input),
        Some(9) => of_type::<Notice>(alloc, format, input),
        Some(10) => of_type::<Proxy>(alloc, format, input),
        Some(11) => of_list::<Proxy>(alloc, format, input),
        Some(12) => of_type::<Tagged<i32, String>>(alloc, format, input),
        Some(13) => of_type::<Reply<i32, String>>(alloc, format, input),
        _ => of_changes(alloc, format, kind, input),
    }
}

/// The names of the types of `of_changes`, in the order of its arms.
const CHANGES_NAMES: &[&str] = &[
    "Marker",
    "Empty",
    "Count",
    "Step",
    "Trip",
    "Moved",
    "Change",
    "Profile",
    "Vec<Profile>",
];

/// A type of `test_types` without fields, or of data that changes, or another type.
pub(crate) fn of_changes(
    alloc: Global,
    format: Format,
    kind: &str,
    input: &[u8],
) -> Result<Outcome, AllocError> {
    match place_of(CHANGES_NAMES, kind) {
        Some(0) => of_type::<Marker>(alloc, format, input),
        Some(1) => of_type::<Empty>(alloc, format, input),
        Some(2) => of_type::<Count>(alloc, format, input),
        Some(3) => of_type::<Step>(alloc, format, input),
        Some(4) => of_type::<Trip>(alloc, format, input),
        Some(5) => of_type::<Moved>(alloc, format, input),
        Some(6) => of_type::<Change>(alloc, format, input),
        Some(7) => of_type::<Profile>(alloc, format, input),
        Some(8) => of_list::<Profile>(alloc, format, input),
        _ => of_wide(alloc, format, kind, input),
    }
}

/// The names of the types of `of_wide`, in the order of its arms.
const WIDE_NAMES: &[&str] = &["Segment", "Cells", "Draft", "Edit", "Measures", "Sky"];

/// A type of `test_types` of many parts, with fields that are skipped, or with names beyond ASCII, or another type.
pub(crate) fn of_wide(
    alloc: Global,
    format: Format,
    kind: &str,
    input: &[u8],
) -> Result<Outcome, AllocError> {
    match place_of(WIDE_NAMES, kind) {
        Some(0) => of_type::<Segment>(alloc, format, input),
        Some(1) => of_type::<Cells<i32>>(alloc, format, input),
        Some(2) => of_type::<Draft>(alloc, format, input),
        Some(3) => of_type::<Edit>(alloc, format, input),
        Some(4) => of_bytes_and_json::<Measures>(alloc, format, input),
        Some(5) => of_bytes_and_json::<Sky>(alloc, format, input),
        _ => of_keys(alloc, format, kind, input),
    }
}

/// The names of the types of `of_keys`, in the order of its arms.
const KEYS_NAMES: &[&str] = &[
    "UserId",
    "HallName",
    "Role",
    "Seat",
    "Visits",
    "Greetings",
    "Seats",
    "Hall",
];

/// A type of `test_types` that is a key or that holds some, or another type.
pub(crate) fn of_keys(
    alloc: Global,
    format: Format,
    kind: &str,
    input: &[u8],
) -> Result<Outcome, AllocError> {
    match place_of(KEYS_NAMES, kind) {
        Some(0) => of_type::<UserId>(alloc, format, input),
        Some(1) => of_type::<HallName>(alloc, format, input),
        Some(2) => of_type::<Role>(alloc, format, input),
        Some(3) => of_type::<Seat>(alloc, format, input),
        Some(4) => of_type::<Visits>(alloc, format, input),
        Some(5) => of_type::<Greetings>(alloc, format, input),
        Some(6) => of_type::<Seats>(alloc, format, input),
        Some(7) => of_type::<Hall>(alloc, format, input),
        _ => of_itself(alloc, format, kind, input),
    }
}

/// The names of the types of `of_itself`, in the order of its arms.
const ITSELF_NAMES: &[&str] = &[
    "Tree",
    "Expression",
    "Chain",
    "Folder",
    "Rule",
    "Menu",
    "Statement",
    "Branch",
    "Widget",
    "Term",
    "Argument",
    "Node",
    "Trail",
];

/// A type that contains itself, or one of two that contain each other, or another type.
pub(crate) fn of_itself(
    alloc: Global,
    format: Format,
    kind: &str,
    input: &[u8],
) -> Result<Outcome, AllocError> {
    match place_of(ITSELF_NAMES, kind) {
        Some(0) => of_type::<Tree>(alloc, format, input),
        Some(1) => of_type::<Expression>(alloc, format, input),
        Some(2) => of_type::<Chain>(alloc, format, input),
        Some(3) => of_type::<Folder>(alloc, format, input),
        Some(4) => of_type::<Rule>(alloc, format, input),
        Some(5) => of_type::<Menu>(alloc, format, input),
        Some(6) => of_type::<Statement>(alloc, format, input),
        Some(7) => of_type::<Branch>(alloc, format, input),
        Some(8) => of_type::<Widget>(alloc, format, input),
        Some(9) => of_type::<Term>(alloc, format, input),
        Some(10) => of_type::<Argument>(alloc, format, input),
        Some(11) => of_type::<Node>(alloc, format, input),
        Some(12) => of_type::<Trail>(alloc, format, input),
        _ => of_documents(alloc, format, kind, input),
    }
}

/// The names of the types of `of_documents`, in the order of its arms.
const DOCUMENTS_NAMES: &[&str] = &["Json", "Vec<Json>", "Holder<Json>"];

/// A document, or what holds some, or no type that a case can name.
pub(crate) fn of_documents(
    alloc: Global,
    format: Format,
    kind: &str,
    input: &[u8],
) -> Result<Outcome, AllocError> {
    match place_of(DOCUMENTS_NAMES, kind) {
        Some(0) => of_bytes_and_json::<Json>(alloc, format, input),
        Some(1) => of_bytes_and_json::<Vec<Json>>(alloc, format, input),
        Some(2) => of_bytes_and_json::<Holder<Json>>(alloc, format, input),
        _ => Ok(Outcome::Unknown),
    }
}
