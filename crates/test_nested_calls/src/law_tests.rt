//! The laws of each format, of types that contain themselves: they hold of these as of any type,
//! with no condition of their own.

use crate::checks::holds;
use nano_bin::BothBin;
use nano_json::{BothJson, DeJsonErr};
use nano_ron::{BothRon, DeRonErr};
use std::alloc::Global;
use test_nested::Statement;
use test_nested_defaults::Widget;
use test_nested_derived::{Expression, Tree};
use test_nested_derived_ron::{Menu, Setting};

/// The laws of bytes: exact both ways, one value, and equal values as equal bytes.
fn laws_of_bytes<T: BothBin>(x: &T, y: &T) {
    nano_bin::laws::encoded_is_legal::<T>();
    nano_bin::laws::one_encoding_one_value::<T>();
    nano_bin::laws::no_encoding_begins_another::<T>();
    nano_bin::laws::at_most_one_decodes::<T>();
    nano_bin::laws::same_bytes_same_meaning(x, y);
    nano_bin::laws::same_meaning_same_bytes(x, y);
}

/// The laws of JSON.
fn laws_of_json<T: BothJson>(x: &T, y: &T) {
    nano_json::laws::encoded_is_legal::<T>();
    nano_json::laws::one_encoding_one_value::<T>();
    nano_json::laws::no_encoding_begins_another::<T>();
    nano_json::laws::each_encoding_begins_a_value::<T>();
    nano_json::laws::at_most_one_decodes::<T>();
    nano_json::laws::at_most_one_decodes_whole::<T>();
    nano_json::laws::a_rejected_text_decodes_to_nothing::<T>();
    nano_json::laws::written_text_is_cut_into_its_tokens(x);
    nano_json::laws::same_meaning_same_text(x, y);
    nano_json::laws::written_tokens_encode_a_sound_value(x);
    nano_json::laws::encoded_is_sound(x);
    nano_json::laws::null_stands_alone(x);
}

/// The laws of RON.
fn laws_of_ron<T: BothRon>(x: &T, y: &T) {
    nano_ron::laws::encoded_is_legal::<T>();
    nano_ron::laws::one_encoding_one_value::<T>();
    nano_ron::laws::no_encoding_begins_another::<T>();
    nano_ron::laws::each_encoding_begins_a_value::<T>();
    nano_ron::laws::at_most_one_decodes::<T>();
    nano_ron::laws::at_most_one_decodes_whole::<T>();
    nano_ron::laws::a_rejected_text_decodes_to_nothing::<T>();
    nano_ron::laws::written_text_is_cut_into_its_tokens(x);
    nano_ron::laws::same_meaning_same_text(x, y);
    nano_ron::laws::written_tokens_encode_a_sound_value(x);
    nano_ron::laws::encoded_is_sound(x);
    nano_ron::laws::none_stands_alone(x);
}

/// What was written as bytes is read back.
fn bytes_come_back<T: BothBin>(alloc: Global, x: &T) -> bool {
    match x.serialize_bin(alloc) {
        Ok(bytes) => nano_bin::laws::read_back_whole(alloc, x, &bytes).is_ok(),
        Err(_error) => false,
    }
}

/// What was written as JSON is read back, which may have more after it or not.
fn json_comes_back<T: BothJson>(alloc: Global, x: &T) -> Result<T, DeJsonErr> {
    let _value = nano_json::laws::read_back(alloc, x)?;
    nano_json::laws::read_back_whole(alloc, x)
}

/// The same of RON.
fn ron_comes_back<T: BothRon>(alloc: Global, x: &T) -> Result<T, DeRonErr> {
    let _value = nano_ron::laws::read_back(alloc, x)?;
    nano_ron::laws::read_back_whole(alloc, x)
}

/// Each law is called of the value of a text in JSON, and that it comes back in each format.
fn laws_hold<T: BothBin + BothJson + BothRon>(alloc: Global, text: &str) -> bool {
    let Ok(x) = T::deserialize_json_whole(alloc, text) else {
        return false;
    };
    let Ok(y) = json_comes_back(alloc, &x) else {
        return false;
    };
    laws_of_bytes(&x, &y);
    laws_of_json(&x, &y);
    laws_of_ron(&x, &y);
    bytes_come_back(alloc, &x) && ron_comes_back(alloc, &x).is_ok()
}

#[test]
fn laws_hold_of_a_tree(rt: HostRuntime) {
    let text = "{\"Node\":[[{\"Leaf\":[1]},{\"Node\":[[]]}]]}";
    holds(&rt, laws_hold::<Tree>(rt.alloc(), text), "a tree");
}

#[test]
fn laws_hold_of_an_expression(rt: HostRuntime) {
    let text = "{\"Sum\":[{\"Number\":[-1]},{\"Negated\":[{\"Number\":[2]}]}]}";
    holds(
        &rt,
        laws_hold::<Expression>(rt.alloc(), text),
        "an expression",
    );
}

#[test]
fn laws_hold_of_menus_by_their_names(rt: HostRuntime) {
    let text = "{\"title\":\"m\",\"entries\":{\"a\":{\"title\":\"b\",\"entries\":{}}}}";
    holds(&rt, laws_hold::<Menu>(rt.alloc(), text), "a menu");
    let text = "{\"Table\":[{\"a\":\"Unset\"}]}";
    holds(&rt, laws_hold::<Setting>(rt.alloc(), text), "a setting");
}

#[test]
fn laws_hold_of_types_that_contain_each_other(rt: HostRuntime) {
    let text = "{\"If\":[{\"then\":{\"Block\":[[]]},\"otherwise\":{\"Assign\":[\"x\",3]}}]}";
    holds(&rt, laws_hold::<Statement>(rt.alloc(), text), "a statement");
}

#[test]
fn laws_hold_of_a_widget_with_defaults(rt: HostRuntime) {
    let text = "{\"title\":\"m\",\"entries\":[{\"title\":\"e\"}]}";
    holds(&rt, laws_hold::<Widget>(rt.alloc(), text), "a widget");
}
