//! A field with an alias, by the calls of one field.

ghost use Rattle.std.specs.Prelude.{codes, ◌==◌, if◌then◌else◌};

use crate::type_checks::holds;
use nano_ron_schema::RonField;
use nano_schema::{Aliased, Label};
use nanoserde::{
    DeJsonState, DeRonState, DeRonTok, JsonFields, JsonResult, Required, RonFields, RonResult,
};
use std::alloc::Global;
use std::str::Chars;

/// The name `value`, and the alias `old`.
#[derive(Drop)]
struct Names<const I: usize> {}

impl<const I: usize> Label for Names<I> {
    ghost label = { if I == 0 then codes "value"
        else codes "old" };

    fn text() -> &'static str {
        match I {
            0 => "value",
            _ => "old",
        }
    }
}

/// A field with an alias.
type Field = Aliased<Names<1>, Required<Names<0>, i32>>;

/// The value after a name, which has the value of a field in JSON.
fn json_value(alloc: Global, name: &str, text: &str) -> JsonResult<i32> {
    let mut input = text.chars();
    let mut state = DeJsonState::new(alloc);
    state.next(&mut input);
    state.next_tok(alloc, &mut input)?;
    let mut slots = <Field as JsonFields>::empty();
    let _is_known = <Field as JsonFields>::read_field(
        name, &mut slots, alloc, &mut state, &mut input,
    )?;
    <Field as JsonFields>::values(slots, alloc, &state)
}

/// Reads the field whose name is pending, whatever it is.
fn read_value_of<F: RonField>(
    slots: &mut F::Slots,
    alloc: Global,
    state: &mut DeRonState,
    input: &mut Chars<'_>,
) -> RonResult<()> {
    match state.tok {
        DeRonTok::Ident => F::read_value(slots, alloc, state, input),
        _ => Err(state.err_token(alloc, "name")),
    }
}

/// The value of the field that a RON text begins with.
fn ron_value(alloc: Global, text: &str) -> RonResult<i32> {
    let mut input = text.chars();
    let mut state = DeRonState::new(alloc);
    state.next(&mut input);
    state.next_tok(alloc, &mut input)?;
    let mut slots = <Field as RonFields>::empty();
    read_value_of::<Field>(&mut slots, alloc, &mut state, &mut input)?;
    <Field as RonFields>::values(slots, alloc, &state)
}

#[test]
fn a_field_is_read_under_both_names(rt: HostRuntime) {
    let alloc = rt.alloc();
    holds(
        &rt,
        json_value(alloc, "value", "7,").unwrap_or(0) == 7,
        "its name",
    );
    holds(
        &rt,
        json_value(alloc, "old", "7,").unwrap_or(0) == 7,
        "its alias",
    );
    holds(
        &rt,
        json_value(alloc, "other", "7,").is_err(),
        "another name",
    );
    holds(
        &rt,
        ron_value(alloc, "old:7,").unwrap_or(0) == 7,
        "its alias in RON",
    );
    holds(
        &rt,
        ron_value(alloc, "other:7,").unwrap_or(0) == 7,
        "a name that is passed over",
    );
    holds(&rt, ron_value(alloc, "7").is_err(), "no name");
    <Field as JsonFields>::discard(Some(7));
    <Field as RonFields>::discard_values(7);
    holds(
        &rt,
        <Field as Label>::text() == "value",
        "the label of a field",
    );
}
