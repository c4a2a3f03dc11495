//! What the tests of JSON share.

use crate::checks::{Deep, TOO_DEEP, nested};
use nano_json::{BothJson, DeJson};
use std::alloc::Global;

/// All of the text is a value, which is written as another text.
pub(crate) fn is_written_as<T: BothJson>(alloc: Global, text: &str, wanted: &str) -> bool {
    let Ok(value) = T::deserialize_json_whole(alloc, text) else {
        return false;
    };
    match value.serialize_json(alloc) {
        Ok(written) => written.as_str() == wanted,
        Err(_error) => false,
    }
}

/// All of the text is a value, and is what is written of it.
pub(crate) fn is_read_back<T: BothJson>(alloc: Global, text: &str) -> bool {
    is_written_as::<T>(alloc, text, text)
}

/// Each is a value, written as the same text.
pub(crate) fn are_values<T: BothJson>(alloc: Global, rows: &[&str]) -> bool {
    for text in rows {
        if !is_read_back::<T>(alloc, text) {
            return false;
        }
    }
    true
}

/// No value is there, which is reported in this column with these words.
pub(crate) fn is_rejected<T: DeJson>(
    alloc: Global,
    text: &str,
    column: usize,
    words: &str,
) -> bool {
    match T::deserialize_json(alloc, text) {
        Ok(_value) => false,
        Err(error) => error.line == 0 && error.col == column && error.msg.as_str() == words,
    }
}

/// 128 values one in the other are read and written back, and 129 are too deep, which is reported in
/// this column.
pub(crate) fn ends_after_128<T: BothJson>(alloc: Global, deep: &Deep, column: usize) -> bool {
    let Ok(most) = nested(alloc, deep, 127) else {
        return false;
    };
    let Ok(more) = nested(alloc, deep, 128) else {
        return false;
    };
    let is_read = is_read_back::<T>(alloc, most.as_str());
    is_read && is_rejected::<T>(alloc, more.as_str(), column, TOO_DEEP)
}
