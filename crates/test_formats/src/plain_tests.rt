//! Values that are taken with no token pending, in JSON and in RON: how each may end, and the
//! place after it.

use crate::checks::holds;
use crate::text_tests::first_place;
use nano_grammar::Attempts;
use nano_json::{DeJson, DeJsonState};
use nano_json_tokens::{
    may_be_null, take_directly, take_name, take_null, take_plain_bool, take_plain_integer,
    take_plain_unsigned, take_punctuator, take_text,
};
use nano_ron::{DeRon, DeRonState};
use nano_text::{Place, take_negative, take_unsigned};
use std::alloc::Global;

/// A text, what a `u8` there is, and the line and column after it.
const BYTES: &[(&str, Option<u8>, usize, usize)] = &[
    ("7,8", Some(7), 0, 2),
    (" 7,8", Some(7), 0, 3),
    ("\n    255,", Some(255), 1, 8),
    ("\r\n\t0,\n1", Some(0), 1, 3),
    ("007,8", Some(7), 0, 4),
    ("7 ,8", Some(7), 0, 2),
    ("7]", Some(7), 0, 2),
    ("256,8", None, 0, 0),
    ("18446744073709551616,8", None, 0, 0),
    ("-1,8", None, 0, 0),
    ("7.5,8", None, 0, 0),
    ("7e1,8", None, 0, 0),
    (",7", None, 0, 0),
    ("", None, 0, 0),
];

/// The same of an `i8`.
const INTEGERS: &[(&str, Option<i8>, usize, usize)] = &[
    ("-128,1", Some(-128), 0, 5),
    ("\n127,1", Some(127), 1, 4),
    ("-0,1", Some(0), 0, 3),
    ("-129,1", None, 0, 0),
    ("128,1", None, 0, 0),
    ("-,1", None, 0, 0),
    ("18446744073709551615,1", None, 0, 0),
    ("7\n}", Some(7), 1, 0),
    ("-12\n]", Some(-12), 1, 0),
    ("7\r\n]", Some(7), 0, 2),
    ("7", None, 0, 0),
    ("+7]", None, 0, 0),
    ("0000000000000000000000007]", None, 0, 0),
];

/// Whether the place is there, where a value was taken.
fn stands<T>(taken: &Option<T>, place: Place, line: usize, col: usize) -> bool {
    taken.is_none() || place.line == line && place.col == col
}

fn is_byte(alloc: Global, text: &str, value: Option<u8>, line: usize, col: usize) -> bool {
    let mut buffer = String::new(alloc);
    let (mut place, mut input) = first_place(text);
    let json = u8::de_json_plain(alloc, &mut place, &mut input, &mut buffer);
    let stands_in_json = stands(&json, place, line, col);
    let (mut place, mut input) = first_place(text);
    let ron = u8::de_ron_plain(alloc, &mut place, &mut input, &mut buffer);
    json == value && ron == value && stands_in_json && stands(&ron, place, line, col)
}

fn is_integer(alloc: Global, text: &str, value: Option<i8>, line: usize, col: usize) -> bool {
    let mut buffer = String::new(alloc);
    let (mut place, mut input) = first_place(text);
    let json = i8::de_json_plain(alloc, &mut place, &mut input, &mut buffer);
    let stands_in_json = stands(&json, place, line, col);
    let (mut place, mut input) = first_place(text);
    let ron = i8::de_ron_plain(alloc, &mut place, &mut input, &mut buffer);
    json == value && ron == value && stands_in_json && stands(&ron, place, line, col)
}

#[test]
fn plain_numbers(rt: HostRuntime) {
    let alloc = rt.alloc();
    for (text, value, line, col) in BYTES {
        holds(&rt, is_byte(alloc, text, *value, *line, *col), text);
    }
    for (text, value, line, col) in INTEGERS {
        holds(&rt, is_integer(alloc, text, *value, *line, *col), text);
    }
}

/// Tokens of an object, one after the other.
#[test]
fn plain_tokens(rt: HostRuntime) {
    let (mut place, mut input) = first_place(" {\"a\": 9,\"b\":true,\"c\":null}");
    holds(&rt, take_punctuator(&mut place, &mut input, '{'), "{");
    holds(&rt, take_name(&mut place, &mut input) == Some("a"), "a");
    let number = take_plain_unsigned(&mut place, &mut input, 9);
    holds(&rt, number == Some(9), "9");
    holds(&rt, take_directly(&mut place, &mut input, ','), ",");
    holds(&rt, take_name(&mut place, &mut input) == Some("b"), "b");
    holds(&rt, !may_be_null(&place, &input), "true is not null");
    let truth = take_plain_bool(&mut place, &mut input);
    holds(&rt, truth == Some(true), "true");
    holds(
        &rt,
        !take_directly(&mut place, &mut input, ':'),
        "a comma is no colon",
    );
    holds(&rt, take_directly(&mut place, &mut input, ','), ", again");
    holds(&rt, take_name(&mut place, &mut input) == Some("c"), "c");
    holds(&rt, may_be_null(&place, &input), "null may come");
    holds(&rt, take_null(&mut place, &mut input).is_some(), "null");
    holds(&rt, take_punctuator(&mut place, &mut input, '}'), "}");
    let ends = place.line == 0 && place.col == 27;
    holds(&rt, ends, "the end of the object");
}

/// The same calls of RON, and integers of a range.
#[test]
fn plain_tokens_of_ron(rt: HostRuntime) {
    let mut buffer = String::new(rt.alloc());
    let (mut place, mut input) = first_place("\"a\",9,-9]");
    let text = nano_ron_tokens::take_text(&mut place, &mut input, &mut buffer);
    holds(&rt, text && buffer.as_str() == "a", "a text of RON");
    let comma = nano_ron_tokens::take_directly(&mut place, &mut input, ',');
    let number = nano_ron_tokens::take_plain_unsigned(&mut place, &mut input, 9);
    holds(&rt, comma && number == Some(9), "a number of RON");
    holds(&rt, take_directly(&mut place, &mut input, ','), "a comma");
    let (mut here, mut rest) = first_place("-9");
    let few = take_plain_integer(&mut here, &mut rest, -8, 8);
    let all = nano_ron_tokens::take_plain_integer(&mut place, &mut input, -9, 8);
    holds(&rt, few.is_none() && all == Some(-9), "a range");
    let (mut place, mut input) = first_place("\n\"a\\u0062\"]");
    let text = take_text(&mut place, &mut input, &mut buffer);
    holds(
        &rt,
        text && buffer.as_str() == "ab" && place.col == 10,
        "a text of JSON",
    );
}

/// A list looks for items less and less often while there are none.
#[test]
fn attempts(rt: HostRuntime) {
    let mut attempts = Attempts::new();
    holds(&rt, attempts.is_due(), "a first look");
    attempts.note(false);
    holds(&rt, !attempts.is_due(), "an item passes");
    holds(&rt, attempts.is_due(), "a second look");
    attempts.note(false);
    holds(&rt, !attempts.is_due(), "three items pass: the first");
    holds(&rt, !attempts.is_due(), "the second");
    holds(&rt, !attempts.is_due(), "the third");
    holds(&rt, attempts.is_due(), "a third look");
    let mut attempts = Attempts::new();
    attempts.note(true);
    holds(&rt, attempts.is_due(), "a look that finds some");
}

/// What is taken of a text where at most 255 is wanted.
fn small(text: &str) -> Option<u64> {
    let (mut place, mut input) = first_place(text);
    take_unsigned(&mut place, &mut input, 255)
}

/// Small numbers of each length, and what follows them.
#[test]
fn small_numbers(rt: HostRuntime) {
    let all = ["7,  ", "42]  ", "255}  ", "256, "];
    let values = [7, 42, 255, 256];
    for (text, value) in all.iter().zip(values) {
        holds(&rt, small(text) == Some(value), text);
    }
    for text in ["1234, ", "7.5  ", "8e1  ", "-7,  ", "7x   ", "é  ", "7"] {
        holds(&rt, small(text).is_none(), text);
    }
}

/// Numbers that are taken at once, and states that stand where a place is.
#[test]
fn lexemes_and_states(rt: HostRuntime) {
    let alloc = rt.alloc();
    let (mut place, mut input) = first_place("12 -3 4");
    let number = take_unsigned(&mut place, &mut input, u64::MAX);
    place.skip_space(&mut input);
    let none = take_unsigned(&mut place, &mut input, u64::MAX);
    let negative = take_negative(&mut place, &mut input);
    let taken = number == Some(12) && none.is_none() && negative == Some(-3);
    holds(&rt, taken && place.line == 0 && place.col == 6, "12 -3 4");
    let mut json = DeJsonState::new(alloc);
    json.stand_at(place);
    holds(&rt, json.place() == place, "a state of JSON");
    let mut ron = DeRonState::new(alloc);
    ron.stand_at(place);
    holds(&rt, ron.place() == place, "a state of RON");
}
