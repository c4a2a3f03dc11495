//! A value as it is listed.

ghost use Rattle.std.specs.Prelude.{◌≡◌, ◌++◌, ◌<◌, [], ◌∷◌, length, IfOk, OnOk, option_map};
ghost use Rattle.std.specs.Prelude.{string_bytes, codes};
ghost use Rattle.std.specs.Fmt.{decimal, signed_decimal};
ghost use Rattle.nano_toml.specs.Data.{view};
ghost use Rattle.nano_show_answers.specs.Listing.{listed, minus_sign, before_next};
ghost use Rattle.nano_show_answers.specs.Listing.{closed_if_opened, closed_lists};

use nanoserde::{SerJson, SerJsonState, Toml};
use std::alloc::{AllocError, Global};

/// A list whose values are still to be listed.
#[derive(Drop)]
pub(crate) struct OpenList<'a> {
    /// The values that are left.
    values: &'a [Toml],
    /// Whether these are all of its values.
    is_first: bool,
}

/// Appends the value. Lists in lists are held separately, so no depth of them takes stack.
pub(crate) fn append_listed(
    alloc: Global,
    value: &Toml,
    state: &mut SerJsonState,
) -> Result<(), AllocError>
    ensures { OnOk result (string_bytes state.new.out
        ≡ string_bytes state.old.out ++ listed (view value.now)) }
{
    let mut lists = Vec::new(alloc);
    if let Some(values) = append_start(alloc, value, state)? {
        lists.push(OpenList {
            values,
            is_first: true,
        })?;
    }
    'lists: while let Some(list) = lists.pop() {
        append_next(alloc, list, &mut lists, state)?;
    }
    Ok(())
}

/// Appends the next value of a list, or its closing bracket. What is left of it, and the value
/// where that is a list, are put after the lists.
fn append_next<'a>(
    alloc: Global,
    list: OpenList<'a>,
    lists: &mut Vec<OpenList<'a>>,
    state: &mut SerJsonState,
) -> Result<(), AllocError>
    ensures text { OnOk result (string_bytes state.new.out ++ closed_lists lists.new.items []
        ≡ string_bytes state.old.out ++ closed_lists (lists.old.items ++ list.entry ∷ []) []) }
    ensures grows { OnOk result
        (length (string_bytes state.old.out) < length (string_bytes state.new.out)) }
{
    let Some((value, values)) = list.values.split_first() else {
        state.out.push_str("]")?;
        return Ok(());
    };
    state.out.push_str(before_next(list.is_first))?;
    lists.push(OpenList {
        values,
        is_first: false,
    })?;
    if let Some(values) = append_start(alloc, value, state)? {
        lists.push(OpenList {
            values,
            is_first: true,
        })?;
    }
    Ok(())
}

/// What stands before the next value of a list.
fn before_next(is_first: bool) -> &'static str
    ensures { result.now ≡ before_next is_first }
{
    if is_first { "" } else { ", " }
}

/// Appends the value; of a list the opening bracket alone, and answers its values.
fn append_start<'a>(
    alloc: Global,
    value: &'a Toml,
    state: &mut SerJsonState,
) -> Result<Option<&'a [Toml]>, AllocError>
    ensures text { IfOk result (λ values.
        string_bytes state.new.out ++ closed_if_opened (option_map (λ v. v.now) values)
        ≡ string_bytes state.old.out ++ listed (view value.now)) }
    ensures grows { OnOk result
        (length (string_bytes state.old.out) < length (string_bytes state.new.out)) }
{
    match value {
        Toml::Str(text) => text.ser_json(alloc, 0, state)?,
        Toml::Bool(boolean) => boolean.ser_json(alloc, 0, state)?,
        Toml::Num(number) => append_number(alloc, number, state)?,
        Toml::Dec(text) => append_named("dec ", text, state)?,
        Toml::Nan(minus) => append_signed(*minus, "nan", state)?,
        Toml::Inf(minus) => append_signed(*minus, "inf", state)?,
        Toml::Date(text) => append_named("date ", text, state)?,
        Toml::Array(tables) => append_count(alloc, tables.len(), state)?,
        Toml::SimpleArray(values) => {
            state.out.push('[')?;
            return Ok(Some(values.as_slice()));
        }
    }
    Ok(None)
}

/// Appends a number in decimal.
fn append_number(alloc: Global, number: &i128, state: &mut SerJsonState) -> Result<(), AllocError>
    ensures { OnOk result (string_bytes state.new.out
        ≡ string_bytes state.old.out ++ signed_decimal number.now) }
{
    let digits = number.to_string(alloc)?;
    state.out.push_str(&digits)
}

/// Appends how many tables an array has.
fn append_count(alloc: Global, count: usize, state: &mut SerJsonState) -> Result<(), AllocError>
    ensures { OnOk result (string_bytes state.new.out
        ≡ string_bytes state.old.out ++ (codes "tables " ++ decimal count)) }
{
    let digits = count.to_string(alloc)?;
    append_named("tables ", &digits, state)
}

/// Appends a text as it is, after what names it.
fn append_named(name: &str, text: &str, state: &mut SerJsonState) -> Result<(), AllocError>
    ensures { OnOk result (string_bytes state.new.out
        ≡ string_bytes state.old.out ++ (name.now ++ text.now)) }
{
    state.out.push_str(name)?;
    state.out.push_str(text)
}

/// Appends a word, after a minus sign where there is one.
fn append_signed(minus: bool, word: &str, state: &mut SerJsonState) -> Result<(), AllocError>
    ensures { OnOk result (string_bytes state.new.out
        ≡ string_bytes state.old.out ++ (minus_sign minus ++ word.now)) }
{
    if minus {
        state.out.push('-')?;
    }
    state.out.push_str(word)
}
