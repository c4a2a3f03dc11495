//! Reads a whole text.

ghost use Rattle.std.specs.Prelude.{◌≡◌, [], true, false, IfOk, IfErr, chars, string_bytes};
ghost use Rattle.nano_toml.specs.Outcomes.{Reports, IsMessage, OnFault};
ghost use Rattle.nano_toml.specs.FirstError.{IsErrorAt, IsFirstError};
ghost use Rattle.nano_toml.specs.Place.{remaining, remaining_text, taken, IsPlaceIn, line_of};
ghost use Rattle.nano_toml.specs.Place.{column_of};
ghost use Rattle.nano_toml.specs.StatementTable.{EncodesTable, EncodesNoTable};
ghost use Rattle.nano_toml.specs.Data.{table_view};

use crate::error::TomlErr;
use crate::fault::Fault;
use crate::place::Place;
use crate::statements::Reader;
use crate::table::{Builder, Table};
use crate::value::Toml;
use std::alloc::{AllocError, Global};
use std::collections::HashMap;

/// A parser for TOML texts, which are read by [`TomlParser::parse`].
#[derive(Default, Drop)]
pub struct TomlParser;

// The table that a text encodes.
fn read_table(reader: &mut Reader) -> Result<Table, Fault>
    ensures found { IfOk result
        (λ table. EncodesTable (remaining reader.old.cursor) (table_view table.entries)) }
    ensures rejected { OnFault result (EncodesNoTable (remaining reader.old.cursor)) }
    ensures error { OnFault result
        (IsFirstError (remaining reader.old.cursor) (remaining reader.new.cursor)) }
{
    let mut builder = Builder::new(reader.alloc);
    'statements: while let Some(statement) = reader.read_statement()? {
        builder.add(reader.alloc, statement)?;
    }
    Ok(builder.finish(reader.alloc)?)
}

// What is wrong with the text, or out of memory.
#[cold]
#[inline(never)]
fn message(alloc: Global, fault: Fault) -> Result<String, AllocError>
    ensures { IfOk result (λ text. Reports fault (string_bytes text)) }
{
    match fault {
        Fault::Memory => Err(AllocError),
        Fault::Malformed(lexeme) => {
            let word = lexeme.word();
            format!(in alloc; "Cannot parse toml {word} ")
        }
        Fault::Unexpected(token) => {
            let shown = format!(in alloc; "{token:?}")?;
            format!(in alloc; "Unexpected token {shown} ")
        }
        Fault::OtherKind(key) => format!(in alloc; "Array header on another kind {key} "),
    }
}

// The error of a fault that was found where the reader of the text stands. If the allocation of its
// message fails, the error is out of memory.
fn error_at(input: &str, reader: &Reader, fault: Fault) -> TomlErr
    ensures line { result.line ≡ line_of (taken input.now (remaining reader.now.cursor)) }
    ensures col { result.col ≡ column_of (taken input.now (remaining reader.now.cursor)) }
    ensures reported { result.memory ≡ false → Reports fault (string_bytes result.msg) }
    ensures empty { result.memory ≡ true → string_bytes result.msg ≡ [] }
{
    let place = Place::following(input, reader.cursor.taken(input));
    let (msg, memory) = match message(reader.alloc, fault) {
        Ok(msg) => (msg, false),
        Err(_) => (String::new(reader.alloc), true),
    };
    TomlErr {
        msg,
        line: place.line,
        col: place.col,
        memory,
    }
}

impl TomlParser {
    /// The table that a text encodes.
    ///
    /// It succeeds exactly if the text, before its first NUL, encodes valid statements:
    /// `[name]`, `[[key]]` and `name = value`, with nothing between them but white space and
    /// comments. An array at the very end of the text may lack its closing brackets.
    ///
    /// A pair stands under its name, or `scope.name` after a header `[scope]`. Of a key that
    /// stands twice the last value counts. Each header `[[key]]` adds a table to the `Array` at its
    /// key, which has the pairs after the header, up to the next one; the scope remains. A header
    /// `[[key]]` on a key that a pair gave is not valid.
    ///
    /// # Errors
    ///
    /// The error says why there is no table, and where that was found; or, with `memory`, that
    /// memory ran out. Where it is of the text, it is the first one, and its place is after all
    /// that was taken and the one character that stands next: after a token that can't stand
    /// there, after what can begin a lexeme that goes on wrong, or after a header `[[key]]` on a
    /// key that a pair gave. The text ends at its first NUL, which is the character that stands
    /// next there.
    ///
    /// # Examples
    ///
    /// ```
    /// let settings = TomlParser::parse(alloc, "[window]\ntitle = \"a\"\nwidth = 1_280")?;
    /// if let Some(Toml::Str(title)) = settings.get("window.title") {
    ///     println!(rt; "{title}")?;
    /// }
    /// ```
    pub fn parse(alloc: Global, input: &str) -> Result<HashMap<String, Toml>, TomlErr>
        ensures found { IfOk result
            (λ table. EncodesTable (remaining_text input.now) (table_view table.entries)) }
        ensures rejected { IfErr result
            (λ e. e.memory ≡ false → EncodesNoTable (remaining_text input.now)) }
        ensures place { IfErr result (λ e. IsPlaceIn (chars input.now) e.line e.col) }
        ensures error { IfErr result
            (λ e. e.memory ≡ false → IsErrorAt (chars input.now) e.line e.col) }
        ensures reported { IfErr result (λ e. e.memory ≡ false → IsMessage (string_bytes e.msg)) }
        ensures empty { IfErr result (λ e. e.memory ≡ true → string_bytes e.msg ≡ []) }
    {
        let mut reader = Reader::new(alloc, input);
        match read_table(&mut reader) {
            Ok(table) => Ok(table),
            Err(fault) => Err(error_at(input, &reader, fault)),
        }
    }
}
