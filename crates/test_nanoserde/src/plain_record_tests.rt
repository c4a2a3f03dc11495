//! Structs that are taken with no token pending, as lists do: fields that are optional or have a
//! default or an alias, in any order, and the column after each.

use crate::type_checks::holds;
use nano_json_schema::{DeJson, Place};
use std::alloc::Global;
use std::str::Chars;
use test_types::Moved;

/// A host, who answers for it, and a port.
type Found = (&'static str, Option<&'static str>, u16);

/// A text, what is taken of it, and the column after that.
const MOVED: &[(&str, Option<Found>, usize)] = &[
    (
        "{\"host\":\"a\",\"contact\":\"b\",\"port\":1},",
        Some(("a", Some("b"), 1)),
        36,
    ),
    ("{\"host\":\"a\"},", Some(("a", None, 8080)), 13),
    ("{\"hostname\":\"a\"}]", Some(("a", None, 8080)), 17),
    (
        "{\"port\":9,\"admin\":\"b\",\"host\":\"a\"},",
        Some(("a", Some("b"), 9)),
        34,
    ),
    (
        "{\"host\":\"a\",\"contact\":null},",
        Some(("a", None, 8080)),
        28,
    ),
    (
        "{\"tcp_port\":1,\"port\":2,\"host\":\"a\",\"hostname\":\"c\"},",
        Some(("c", None, 2)),
        50,
    ),
    ("{\"contact\":\"b\",\"port\":1},", None, 0),
    ("{\"host\":\"a\",\"other\":1},", None, 0),
    ("{\"host\":\"a\",\"port\":65536},", None, 0),
    ("{\"host\":7},", None, 0),
];

/// The place at the first character of a text.
pub(crate) fn first_place(text: &str) -> (Place, Chars<'_>) {
    let mut input = text.chars();
    let mut place = Place {
        cur: '\0',
        line: 0,
        col: 0,
    };
    place.next(&mut input);
    (place, input)
}

/// Whether that was found.
fn is_found(moved: &Moved, found: Found) -> bool {
    let contact = match &moved.contact {
        Some(contact) => Some(contact.as_str()),
        None => None,
    };
    moved.host.as_str() == found.0 && contact == found.1 && moved.port == found.2
}

/// Whether this is taken of a text, up to this column.
fn is_taken(alloc: Global, text: &str, found: Option<Found>, column: usize) -> bool {
    let mut buffer = String::new(alloc);
    let (mut place, mut input) = first_place(text);
    let taken = Moved::de_json_plain(alloc, &mut place, &mut input, &mut buffer);
    match (&taken, found) {
        (Some(moved), Some(found)) => is_found(moved, found) && place.col == column,
        (None, None) => true,
        _ => false,
    }
}

#[test]
fn structs_stand_plainly(rt: HostRuntime) {
    let alloc = rt.alloc();
    for (text, found, column) in MOVED {
        holds(&rt, is_taken(alloc, text, *found, *column), text);
    }
}
