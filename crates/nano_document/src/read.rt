//! Reads documents.
//!
//! On an error, a reader here may leave the state at any position, unless it says where.

ghost use Rattle.std.specs.Prelude.{◌≡◌, map, string_bytes};
ghost use Rattle.nano_json_tokens.specs.Outcomes.{Says};
ghost use Rattle.nano_value.specs.Meaning.{number, text, listed};
ghost use Rattle.nano_meaning.specs.Sums.{tagged};
ghost use Rattle.nano_json.specs.Outcomes.{position};
ghost use Rattle.nano_document.specs.Documents.{json_means, entry_means};
ghost use Rattle.nano_levels.specs.Limits.{levels_message};
ghost use Rattle.nano_document.specs.FirstFaults.{ReadsOrFirstFault};
ghost use Rattle.nano_document.specs.DecimalCodecs.{decimals};
ghost use Rattle.nano_document.specs.DocumentCodecs.{level_codec, string_codec};
ghost use Rattle.nano_document.specs.DocumentCodecs.{items_at, entry_at, entries_at};

use crate::decimal::is_decimal;
use crate::json::Json;
use nano_json::{DeJson, DeJsonErr, DeJsonState, DeJsonTok, end_on_error};
use nano_json_tokens::bytes_left;
use std::alloc::Global;
use std::str::Chars;

/// How many levels a document may have that is read. Each takes stack.
pub(crate) const MOST_LEVELS: usize = 128;

/// A number that was read as an `i64`.
pub(crate) fn signed(value: i64) -> Json
    ensures { json_means result ≡ tagged 2 (number value) }
{
    if value < 0 {
        Json::I64(value)
    } else {
        Json::U64(value as u64)
    }
}

/// Reads a number with a point or an exponent, as its text.
fn read_decimal(
    alloc: Global,
    state: &mut DeJsonState,
    input: &mut Chars<'_>,
) -> Result<String, DeJsonErr>
    requires { state.now.tok ≡ DeJsonTok.F64 }
    ensures { ReadsOrFirstFault decimals.encodes (λ x. text (string_bytes x))
        (position state.old input.old) (position state.new input.new) result }
{
    if !is_decimal(state.numbuf.as_str()) {
        return Err(state.err_token(alloc, "value"));
    }
    let Ok(text) = String::from_str(alloc, state.numbuf.as_str()) else {
        return Err(state.err_memory(alloc));
    };
    state.next_tok(alloc, input)?;
    Ok(text)
}

/// Reads a text.
fn read_text(
    alloc: Global,
    state: &mut DeJsonState,
    input: &mut Chars<'_>,
) -> Result<String, DeJsonErr>
    ensures { ReadsOrFirstFault string_codec.encoding.encodes (λ x. text (string_bytes x))
        (position state.old input.old) (position state.new input.new) result }
{
    // A `usize` counts the bytes of the pending text.
    let _length = state.strbuf.len();
    match state.tok {
        DeJsonTok::Str => String::de_json(alloc, state, input),
        _ => Err(state.err_token(alloc, "string")),
    }
}

/// The error of a document inside more others than the limit: `Value out of range levels>{limit} `.
#[cold]
#[inline(never)]
fn too_deep(alloc: Global, limit: usize, state: &DeJsonState) -> DeJsonErr
    ensures { Says state.now (levels_message limit) result }
{
    match format!(in alloc; "levels>{limit}") {
        Ok(what) => state.err_range(alloc, what.as_str()),
        Err(_rejected) => state.err_memory(alloc),
    }
}

/// Reads a document of at most so many levels. An error of one with more says the limit.
#[cycle(read)]
pub(crate) fn read_json(
    alloc: Global,
    limit: usize,
    levels: usize,
    state: &mut DeJsonState,
    input: &mut Chars<'_>,
) -> Result<Json, DeJsonErr>
    ensures { ReadsOrFirstFault (level_codec levels).encoding.encodes json_means
        (position state.old input.old) (position state.new input.new) result }
{
    if levels == 0 {
        return Err(too_deep(alloc, limit, state));
    }
    match state.tok {
        DeJsonTok::Null => {
            state.next_tok(alloc, input)?;
            Ok(Json::Null)
        }
        DeJsonTok::Bool(truth) => {
            state.next_tok(alloc, input)?;
            Ok(Json::Bool(truth))
        }
        DeJsonTok::U64(value) => {
            state.next_tok(alloc, input)?;
            Ok(Json::U64(value))
        }
        DeJsonTok::I64(value) => {
            state.next_tok(alloc, input)?;
            Ok(signed(value))
        }
        DeJsonTok::F64 => Ok(Json::Decimal(read_decimal(alloc, state, input)?)),
        DeJsonTok::Str => Ok(Json::Text(read_text(alloc, state, input)?)),
        DeJsonTok::BlockOpen => Ok(Json::List(read_items(alloc, limit, levels - 1, state, input)?)),
        DeJsonTok::CurlyOpen => Ok(Json::Object(read_entries(
            alloc,
            limit,
            levels - 1,
            state,
            input,
        )?)),
        _ => Err(state.err_token(alloc, "value")),
    }
}

/// Reads documents between square brackets, each of at most so many levels.
#[cycle(read)]
fn read_items(
    alloc: Global,
    limit: usize,
    levels: usize,
    state: &mut DeJsonState,
    input: &mut Chars<'_>,
) -> Result<Vec<Json>, DeJsonErr>
    ensures { ReadsOrFirstFault (items_at levels).encodes
        (λ items. listed (map json_means items.items))
        (position state.old input.old) (position state.new input.new) result }
{
    // A text has fewer than 2^63 bytes, so a `usize` counts its items.
    let _capacity = bytes_left(input);
    let mut items = Vec::new(alloc);
    state.block_open(alloc, input)?;
    'items: while !state.is_block_close() {
        let item = read_json(alloc, limit, levels, state, input)?;
        let Ok(()) = items.push(item) else {
            return Err(state.err_memory(alloc));
        };
        state.eat_comma_block(alloc, input)?;
    }
    state.block_close(alloc, input)?;
    Ok(items)
}

/// Reads names with their documents between braces, each of at most so many levels.
#[cycle(read)]
fn read_entries(
    alloc: Global,
    limit: usize,
    levels: usize,
    state: &mut DeJsonState,
    input: &mut Chars<'_>,
) -> Result<Vec<(String, Json)>, DeJsonErr>
    ensures { ReadsOrFirstFault (entries_at levels).encodes
        (λ entries. listed (map (entry_means json_means) entries.items))
        (position state.old input.old) (position state.new input.new) result }
{
    // A text has fewer than 2^63 bytes, so a `usize` counts its entries.
    let _capacity = bytes_left(input);
    let mut entries = Vec::new(alloc);
    state.curly_open(alloc, input)?;
    'entries: while !state.is_curly_close() {
        let entry = read_entry(alloc, limit, levels, state, input)?;
        let Ok(()) = entries.push(entry) else {
            return Err(state.err_memory(alloc));
        };
        state.eat_comma_curly(alloc, input)?;
    }
    state.curly_close(alloc, input)?;
    Ok(entries)
}

/// Reads a name, a colon and a document of at most so many levels. Of 0 there is none, so the error
/// is at the name.
#[cycle(read)]
fn read_entry(
    alloc: Global,
    limit: usize,
    levels: usize,
    state: &mut DeJsonState,
    input: &mut Chars<'_>,
) -> Result<(String, Json), DeJsonErr>
    ensures { ReadsOrFirstFault (entry_at levels).encodes (entry_means json_means)
        (position state.old input.old) (position state.new input.new) result }
{
    if levels == 0 {
        return Err(too_deep(alloc, limit, state));
    }
    let name = read_text(alloc, state, input)?;
    state.colon(alloc, input)?;
    let value = read_json(alloc, limit, levels, state, input)?;
    Ok((name, value))
}

impl DeJson for Json {
    fn de_json(
        alloc: Global,
        state: &mut DeJsonState,
        input: &mut Chars<'_>,
    ) -> Result<Json, DeJsonErr> {
        let read = read_json(alloc, MOST_LEVELS, MOST_LEVELS, state, input);
        end_on_error(state, read)
    }
}
