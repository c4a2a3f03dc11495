//! The laws of fields, of the formats joined and of the answers of `nano_show`, each called once,
//! and a user-defined type that is only read.

use crate::type_checks::holds;
use nano_show_answers::laws as answers;
use nanoserde::records::{Choice, Holder, Item};
use nanoserde::{DeBin, DeJson, ExactEq, laws, normal_bin};
use test_types::Query;

/// What an `Item` holds.
type ItemValues = (i32, Option<String>);

#[test]
fn laws_can_be_called(_rt: HostRuntime) {
    nano_json_schema::laws::the_last_field_counts();
    nano_json_schema::laws::a_missing_name_has_no_field();
    nano_json_schema::laws::other_names_are_seen();
    nano_json_schema::laws::the_last_of_both_names_counts();
    nano_ron_schema::laws::the_last_field_counts();
    nano_ron_schema::laws::a_missing_name_has_no_field();
    nano_ron_schema::laws::other_names_are_seen();
    nano_ron_schema::laws::the_last_of_both_names_counts();
    laws::normal_bytes::<Item>();
    laws::normal_json_texts::<Choice>();
    laws::normal_ron_texts::<Choice>();
    laws::json_as_bytes::<Item>();
    laws::ron_as_bytes::<Holder<Item>>();
    laws::equal_records_mean_the_same::<Item, ItemValues>();
    Item::eq_agrees();
    answers::one_answer();
    answers::answer_or_rejection();
}

/// The text "a", and the option of 5.
const CODE: &[u8] = &[1, 0, 0, 0, 0, 0, 0, 0, 97, 1, 5, 0, 0, 0];

/// Whether a query asks for `a`, at most five times.
fn is_five(query: Option<Query>) -> bool {
    match query {
        Some(query) => query.words.as_str() == "a" && query.limit == Some(5),
        None => false,
    }
}

#[test]
fn queries_and_a_normal_form(rt: HostRuntime) {
    let alloc = rt.alloc();
    let query = Query::deserialize_bin(alloc, CODE).ok();
    holds(&rt, is_five(query), "bytes");
    let query = Query::deserialize_json(alloc, "{\"limit\":5,\"words\":\"a\"}").ok();
    holds(&rt, is_five(query), "JSON");
    match normal_bin::<Choice>(alloc, &[0, 0, 7]) {
        Ok(code) => holds(&rt, code.as_slice() == [0u8, 0].as_slice(), "a choice"),
        Err(_error) => holds(&rt, false, "a choice that is rejected"),
    }
}
