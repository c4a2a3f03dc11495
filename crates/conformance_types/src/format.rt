//! The formats that a case can name.

use crate::named::named;

/// A format, and how much of the input is to be a value of it.
#[derive(Clone, Copy)]
pub enum Format {
    /// Bytes that begin with a value.
    Bin,
    /// Bytes that are a value.
    BinWhole,
    /// Bytes that are taken to be what is written of a value, and are asked what such are asked.
    BinWritten,
    /// Bytes that begin with a value, whose JSON text is wanted.
    BinJson,
    /// Bytes that begin with a value, whose RON text is wanted.
    BinRon,
    /// JSON that begins with a value.
    Json,
    /// JSON that is a value.
    JsonWhole,
    /// JSON that is taken to be what is written of a value.
    JsonWritten,
    /// JSON that begins with a value, whose bytes are wanted.
    JsonBin,
    /// JSON that is read a second time in the state that the first reading left.
    JsonAgain,
    /// RON that begins with a value.
    Ron,
    /// RON that is a value.
    RonWhole,
    /// RON that is taken to be what is written of a value.
    RonWritten,
    /// RON that begins with a value, whose bytes are wanted.
    RonBin,
    /// RON that is read a second time in the state that the first reading left.
    RonAgain,
    /// Bytes after an offset and a space, that hold a value from that offset on.
    BinAt,
    /// A state of JSON's reader, and a type that is read in it or a call.
    JsonState,
    /// A state of RON's reader, and a type that is read in it or a call.
    RonState,
    /// Bytes that are written as JSON at the greatest level, or a text and a call after it.
    JsonWrite,
    /// Bytes that are written as RON at the greatest level, or a text and a call after it.
    RonWrite,
    /// A TOML text, and a key that stands in the place of a type and has a date.
    TomlDate,
    /// The words of `nano_show`, which stand in the place of a type.
    Run,
}

/// The formats that a case can name, by their names.
const NAMES: &[(&str, Format)] = &[
    ("bin", Format::Bin),
    ("bin-whole", Format::BinWhole),
    ("bin-json", Format::BinJson),
    ("bin-ron", Format::BinRon),
    ("json", Format::Json),
    ("json-whole", Format::JsonWhole),
    ("json-bin", Format::JsonBin),
    ("ron", Format::Ron),
    ("ron-whole", Format::RonWhole),
    ("ron-bin", Format::RonBin),
    ("bin-written", Format::BinWritten),
    ("json-written", Format::JsonWritten),
    ("ron-written", Format::RonWritten),
    ("bin-at", Format::BinAt),
    ("json-state", Format::JsonState),
    ("ron-state", Format::RonState),
    ("json-write", Format::JsonWrite),
    ("ron-write", Format::RonWrite),
    ("toml-date", Format::TomlDate),
    ("run", Format::Run),
];

impl Format {
    /// The format of this name.
    pub fn of(word: &str) -> Option<Format> {
        named(NAMES, word)
    }

    /// The same format, for an input that is a value.
    pub fn whole(self) -> Option<Format> {
        match self {
            Format::Bin | Format::BinWhole | Format::BinWritten => Some(Format::BinWhole),
            Format::Json | Format::JsonWhole | Format::JsonWritten => Some(Format::JsonWhole),
            Format::Ron | Format::RonWhole | Format::RonWritten => Some(Format::RonWhole),
            _ => None,
        }
    }

    /// The same format, for an input that begins with a value.
    pub fn prefix(self) -> Format {
        match self {
            Format::BinWhole => Format::Bin,
            Format::JsonWhole => Format::Json,
            Format::RonWhole => Format::Ron,
            other => other,
        }
    }

    /// The same format, where the input is read.
    pub fn read(self) -> Format {
        match self {
            Format::BinWritten => Format::Bin,
            Format::JsonWritten => Format::Json,
            Format::RonWritten => Format::Ron,
            other => other,
        }
    }

    /// The same format, read a second time.
    pub fn again(self) -> Format {
        match self {
            Format::JsonWhole => Format::JsonAgain,
            Format::RonWhole => Format::RonAgain,
            other => other,
        }
    }

    /// The bytes of the same text.
    pub fn as_bytes(self) -> Format {
        match self {
            Format::JsonWhole => Format::JsonBin,
            Format::RonWhole => Format::RonBin,
            other => other,
        }
    }

    /// Whether white space of this format may be a comment.
    pub fn has_comments(self) -> bool {
        match self {
            Format::Ron | Format::RonWhole => true,
            _ => false,
        }
    }
}
