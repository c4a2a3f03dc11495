//! Laws and calls of JSON that no case makes: a value is read back from its own text, a slice is
//! written, the end of a text is expected, and small calls of texts.

use crate::checks::{holds, is_made};
use nano_grammar::{holds_nul, strip_end_message};
use nano_json::{DeJsonErr, DeJsonState, DeJsonTok, SerJson, end_on_error, laws};
use nano_json_tokens::{append_string, as_value_error, expect_end};
use std::alloc::{AllocError, Global};
use std::collections::{BTreeMap, BTreeSet, HashMap, HashSet};

/// Whether a value is read back from its own text, whole and as a beginning.
fn is_back(alloc: Global, value: Option<u8>) -> Result<bool, DeJsonErr> {
    let first = laws::read_back(alloc, &value)?;
    let whole = laws::read_back_whole(alloc, &value)?;
    let equal = laws::read_back_equal(alloc, &value)?;
    Ok(first == value && whole == value && equal == value)
}

/// What a slice is written as.
fn slice_text(alloc: Global, items: &[u16]) -> Result<String, AllocError> {
    items.serialize_json(alloc)
}

/// A string as it is written.
fn appended(alloc: Global, text: &str) -> Result<String, AllocError> {
    let mut out = String::new(alloc);
    append_string(&mut out, text)?;
    Ok(out)
}

/// The message that is made distinct from that of another.
fn message_apart(alloc: Global, message: &str) -> Result<String, AllocError> {
    let mut message = String::from_str(alloc, message)?;
    strip_end_message(&mut message);
    Ok(message)
}

/// Messages, and what they are once they are made distinct.
const MESSAGES: &[(&str, &str)] = &[
    ("Cannot parse end ", "Cannot parse end"),
    ("Cannot parse end", "Cannot parse end"),
    ("Cannot parse field ", "Cannot parse field "),
    ("", ""),
];

#[test]
fn json_values_and_strings(rt: HostRuntime) {
    let alloc = rt.alloc();
    holds(&rt, is_back(alloc, Some(1)).unwrap_or(false), "an option");
    is_made(&rt, slice_text(alloc, &[1, 2, 3]), "[1,2,3]");
    is_made(&rt, slice_text(alloc, &[]), "[]");
    let expected = "\"é\\\"\\n\\u0001\"";
    is_made(&rt, appended(alloc, "é\"\n\u{1}"), expected);
    for (message, expected) in MESSAGES {
        is_made(&rt, message_apart(alloc, message), expected);
    }
    holds(&rt, holds_nul("a\0b") && holds_nul("\0"), "a NUL");
    holds(&rt, !holds_nul("a0") && !holds_nul(""), "no NUL");
}

/// Whether the text ends where its first token is taken.
fn end_of(alloc: Global, text: &str) -> Result<(), DeJsonErr> {
    let mut input = text.chars();
    let mut state = DeJsonState::new(alloc);
    state.next(&mut input);
    state.next_tok(alloc, &mut input)?;
    expect_end(alloc, &state, text)
}

/// Whether the error has this message, in the first line after so many characters.
fn is_error(error: &DeJsonErr, msg: &str, col: usize) -> bool {
    error.msg.as_str() == msg && error.line == 0 && error.col == col
}

/// Whether the text goes on there, and the error is that of an end, or of a value
/// where it is made one.
fn goes_on(alloc: Global, text: &str, col: usize) -> bool {
    match end_of(alloc, text) {
        Ok(()) => false,
        Err(error) => {
            let is_end = is_error(&error, "Cannot parse end ", col);
            is_end && is_error(&as_value_error(error), "Cannot parse end", col)
        }
    }
}

/// Whether a state is unchanged after a success, and ends after an out of memory error.
fn ends_on_error(alloc: Global) -> bool {
    let mut state = DeJsonState::new(alloc);
    state.tok = DeJsonTok::U64(7);
    state.cur = ' ';
    let answer = end_on_error(&mut state, Ok::<u8, DeJsonErr>(7));
    let unchanged = answer.is_ok() && state.cur == ' ';
    let error = state.err_memory(alloc);
    let is_out_of_memory = error.memory && error.msg.is_empty();
    let is_rejected = end_on_error::<u8>(&mut state, Err(error)).is_err();
    unchanged && is_out_of_memory && is_rejected && state.cur == '\0'
}

/// Texts after an opening bracket, the name that is taken in place, and the token that is pending
/// then.
const NAMES: &[(&str, Option<&str>, DeJsonTok)] = &[
    ("\"a\":1", Some("a"), DeJsonTok::Colon),
    (" \n\"é\":1", Some("é"), DeJsonTok::Colon),
    ("\"a\" :1", None, DeJsonTok::CurlyOpen),
    ("\"\\u0061\":1", None, DeJsonTok::CurlyOpen),
    ("}", None, DeJsonTok::CurlyOpen),
];

/// Whether this name is taken after an opening bracket, and this token is pending then.
fn is_name(alloc: Global, text: &str, name: Option<&str>, tok: &DeJsonTok) -> bool {
    let mut input = text.chars();
    let mut state = DeJsonState::new(alloc);
    state.tok = DeJsonTok::CurlyOpen;
    state.next(&mut input);
    state.next_name(&mut input) == name && state.tok == *tok
}

#[test]
fn json_ends(rt: HostRuntime) {
    let alloc = rt.alloc();
    holds(&rt, end_of(alloc, " ").is_ok(), "the end");
    holds(&rt, goes_on(alloc, " \0", 2), "a NUL");
    holds(&rt, goes_on(alloc, " 8", 2), "a number");
    holds(&rt, ends_on_error(alloc), "a state");
    for (text, name, tok) in NAMES {
        holds(&rt, is_name(alloc, text, *name, tok), text);
    }
}

#[test]
fn json_laws(rt: HostRuntime) {
    let alloc = rt.alloc();
    laws::a_text_is_cut_in_one_way();
    laws::a_text_breaks_at_one_place();
    laws::a_text_breaks_or_is_cut();
    laws::the_end_follows_white_space();
    laws::taken_tokens_begin_the_text();
    laws::skipped_fields_are_apart();
    laws::encoded_is_legal::<Vec<u8>>();
    laws::one_encoding_one_value::<Vec<u8>>();
    laws::no_encoding_begins_another::<Vec<u8>>();
    laws::each_encoding_begins_a_value::<Vec<u8>>();
    laws::at_most_one_decodes::<Vec<u8>>();
    laws::at_most_one_decodes_whole::<Vec<u8>>();
    laws::a_rejected_text_decodes_to_nothing::<Vec<u8>>();
    laws::the_items_decide_the_text::<u8>();
    laws::the_entries_decide_the_text::<u8, bool>();
    let one = Some(1u8);
    laws::written_text_is_cut_into_its_tokens(&one);
    laws::written_tokens_encode_a_sound_value(&one);
    laws::encoded_is_sound(&one);
    laws::null_stands_alone(&one);
    laws::same_meaning_same_text(&one, &one);
    laws::equal_sets_equal_text(&HashSet::<u8>::new(alloc), &BTreeSet::<u8>::new(alloc));
    laws::equal_maps_equal_text(
        &HashMap::<u8, u8>::new(alloc),
        &BTreeMap::<u8, u8>::new(alloc),
    );
}
