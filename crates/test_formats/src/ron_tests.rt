//! Laws and calls of RON that no case makes: a value is read back from its own text, a slice is
//! written, the end of a text is expected, and small calls of texts.

use crate::checks::{holds, is_made};
use nano_ron::{DeRon, DeRonErr, DeRonState, DeRonTok, SerRon, SerRonState, end_on_error, laws};
use nano_ron_tokens::{append_comma, append_string, as_value_error, expect_end};
use std::alloc::{AllocError, Global};
use std::collections::{BTreeMap, BTreeSet, HashMap, HashSet};

/// Whether a value is read back from its own text, whole and as a beginning.
fn is_back(alloc: Global, value: Option<u8>) -> Result<bool, DeRonErr> {
    let first = laws::read_back(alloc, &value)?;
    let whole = laws::read_back_whole(alloc, &value)?;
    let equal = laws::read_back_equal(alloc, &value)?;
    let read = Option::<u8>::deserialize_ron(alloc, "1 // x")?;
    Ok(first == value && whole == value && equal == value && read == value)
}

/// What a slice is written as.
fn slice_text(alloc: Global, items: &[u16]) -> Result<String, AllocError> {
    items.serialize_ron(alloc)
}

/// A string and a number at a level, with a comma between.
fn appended(alloc: Global, text: &str) -> Result<String, AllocError> {
    let mut state = SerRonState {
        out: String::new(alloc),
    };
    append_comma(true, &mut state)?;
    append_string(&mut state.out, text)?;
    append_comma(false, &mut state)?;
    (7u8, true).ser_ron(alloc, 3, &mut state)?;
    Ok(state.out)
}

/// Whether a level that no memory holds is rejected, and leaves what is written.
fn is_unchanged(alloc: Global, level: usize) -> bool {
    let mut state = SerRonState {
        out: String::new(alloc),
    };
    state.indent(level).is_err() && state.st_post(level).is_err() && state.out.is_empty()
}

#[test]
fn ron_values_and_strings(rt: HostRuntime) {
    let alloc = rt.alloc();
    holds(&rt, is_back(alloc, Some(1)).unwrap_or(false), "an option");
    is_made(&rt, slice_text(alloc, &[1, 2, 3]), "(1, 2, 3)");
    is_made(&rt, slice_text(alloc, &[]), "()");
    let expected = "\"a\\n\\r\\t\\0\\\\\\\"\u{1}é\",(7, true)";
    is_made(&rt, appended(alloc, "a\n\r\t\0\\\"\u{1}é"), expected);
    holds(&rt, is_unchanged(alloc, usize::MAX), "the greatest level");
    holds(&rt, is_unchanged(alloc, usize::MAX / 8), "an eighth");
}

/// Whether the text ends where its first token is taken.
fn end_of(alloc: Global, text: &str) -> Result<(), DeRonErr> {
    let mut input = text.chars();
    let mut state = DeRonState::new(alloc);
    state.next(&mut input);
    state.next_tok(alloc, &mut input)?;
    expect_end(alloc, &state, text)
}

/// Whether the error has this message, in the first line after so many characters.
fn is_error(error: &DeRonErr, msg: &str, col: usize) -> bool {
    error.msg.as_str() == msg && error.line == 0 && error.col == col
}

/// Whether the text goes on there, and the error is that of an end, or of a value
/// where it is made one.
fn goes_on(alloc: Global, text: &str, col: usize) -> bool {
    match end_of(alloc, text) {
        Ok(()) => false,
        Err(error) => {
            let is_end = is_error(&error, "Cannot parse end ", col);
            is_end && is_error(&as_value_error(error), "Cannot parse end", col)
        }
    }
}

/// Whether a state is unchanged after a success, and ends after an out of memory error.
fn ends_on_error(alloc: Global) -> bool {
    let mut state = DeRonState::new(alloc);
    state.tok = DeRonTok::Comma;
    let answer = end_on_error(&mut state, Ok::<u8, DeRonErr>(7));
    let unchanged = answer.is_ok() && state.tok == DeRonTok::Comma;
    let error = state.err_memory(alloc);
    let is_rejected = end_on_error::<u8>(&mut state, Err(error)).is_err();
    unchanged && is_rejected && state.tok == DeRonTok::Eof
}

#[test]
fn ron_ends(rt: HostRuntime) {
    let alloc = rt.alloc();
    holds(&rt, end_of(alloc, " ").is_ok(), "the end");
    holds(&rt, goes_on(alloc, " \0", 2), "a NUL");
    holds(&rt, goes_on(alloc, " 8", 2), "a number");
    holds(&rt, ends_on_error(alloc), "a state");
}

#[test]
fn ron_laws(rt: HostRuntime) {
    let alloc = rt.alloc();
    laws::a_text_is_cut_in_one_way();
    laws::a_text_breaks_at_one_place();
    laws::a_text_breaks_or_is_cut();
    laws::gaps_are_skipped();
    laws::the_end_follows_gaps();
    laws::taken_tokens_begin_the_text();
    laws::a_skipped_field_goes_on_with_a_parenthesis();
    laws::encoded_is_legal::<u8>();
    laws::one_encoding_one_value::<u8>();
    laws::no_encoding_begins_another::<u8>();
    laws::each_encoding_begins_a_value::<u8>();
    laws::at_most_one_decodes::<u8>();
    laws::at_most_one_decodes_whole::<u8>();
    laws::a_rejected_text_decodes_to_nothing::<u8>();
    laws::the_items_decide_the_text::<u8>();
    laws::the_entries_decide_the_text::<u8, u8>();
    laws::written_text_is_cut_into_its_tokens(&7u8);
    laws::written_tokens_encode_a_sound_value(&7u8);
    laws::encoded_is_sound(&7u8);
    laws::none_stands_alone(&7u8);
    laws::same_meaning_same_text(&7u8, &7u8);
    laws::equal_sets_equal_text(&HashSet::<u8>::new(alloc), &BTreeSet::<u8>::new(alloc));
    laws::equal_maps_equal_text(
        &HashMap::<u8, u8>::new(alloc),
        &BTreeMap::<u8, u8>::new(alloc),
    );
}
