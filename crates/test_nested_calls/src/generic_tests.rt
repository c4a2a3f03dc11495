//! Values of types with parameters, in each format, and what holds of them whatever the parameters
//! are.

use crate::checks::holds;
use crate::json_checks::{is_read_back, is_rejected};
use crate::{bin_checks, ron_checks};
use nano_bin::{BothBin, SerBin};
use nano_json::{BothJson, DeJson};
use nano_ron::BothRon;
use std::alloc::Global;
use test_nested_generics::{Plan, Shelf, Tree};

/// What was written of any tree as bytes is read back, and it is its only encoding.
fn tree_comes_back<T: BothBin>(alloc: Global, tree: &Tree<T>) -> bool {
    nano_bin::laws::one_encoding_one_value::<Tree<T>>();
    nano_bin::laws::no_encoding_begins_another::<Tree<T>>();
    match tree.serialize_bin(alloc) {
        Ok(bytes) => nano_bin::laws::read_back_whole(alloc, tree, &bytes).is_ok(),
        Err(_error) => false,
    }
}

/// What was written of any shelf in JSON and in RON is read back.
fn shelf_comes_back<K, V>(alloc: Global, shelf: &Shelf<K, V>) -> bool
where
    K: BothBin + BothJson + BothRon,
    V: BothBin + BothJson + BothRon,
{
    nano_json::laws::at_most_one_decodes::<Shelf<K, V>>();
    nano_ron::laws::at_most_one_decodes::<Shelf<K, V>>();
    let json = nano_json::laws::read_back_whole(alloc, shelf);
    let ron = nano_ron::laws::read_back_whole(alloc, shelf);
    json.is_ok() && ron.is_ok()
}

#[test]
fn trees_hold_what_their_parameter_is(rt: HostRuntime) {
    let alloc = rt.alloc();
    let numbers = "{\"Node\":[[{\"Leaf\":[7]},{\"Node\":[[]]}]]}";
    holds(&rt, is_read_back::<Tree<u8>>(alloc, numbers), "numbers");
    let texts = "{\"Node\":[[{\"Leaf\":[\"a\"]},{\"Leaf\":[\"\"]}]]}";
    holds(&rt, is_read_back::<Tree<String>>(alloc, texts), "texts");
    let lists = "{\"Leaf\":[[1,2]]}";
    holds(&rt, is_read_back::<Tree<Vec<u8>>>(alloc, lists), "lists");
    let trees = "{\"Leaf\":[{\"Leaf\":[true]}]}";
    holds(&rt, is_read_back::<Tree<Tree<bool>>>(alloc, trees), "trees");
    let words = "Value out of range 300>255 ";
    holds(
        &rt,
        is_rejected::<Tree<u8>>(alloc, "{\"Leaf\":[300]}", 13, words),
        "a leaf that is too great",
    );
    let code = [1, 0, 2, 0, 0, 0, 0, 0, 0, 0, 0, 0, 7, 0, 0, 8];
    holds(
        &rt,
        bin_checks::is_read_back::<Tree<u8>>(alloc, &code),
        "bytes",
    );
    let code = [0, 0, 1, 0, 0, 0, 0, 0, 0, 0, 97];
    holds(
        &rt,
        bin_checks::is_read_back::<Tree<String>>(alloc, &code),
        "bytes of a text",
    );
}

#[test]
fn plans_have_variants_of_each_shape(rt: HostRuntime) {
    let alloc = rt.alloc();
    for text in [
        "\"Nothing\"",
        "{\"One\":[1]}",
        "{\"Many\":[[1,2]]}",
        "{\"Both\":[\"Nothing\",3]}",
        "{\"Step\":{\"item\":1,\"next\":[{\"Both\":[{\"One\":[2]},null]}]}}",
    ] {
        holds(&rt, is_read_back::<Plan<i64>>(alloc, text), text);
    }
    let text = "Step(item:1,next:[Both(One(2),None),Many([3])])";
    let written =
        "Step(\n    item:1,\n    next:[\n        Both(One(2), None),\n        Many([\n            3,\n        ]),\n    ],\n)";
    holds(
        &rt,
        ron_checks::is_written_as::<Plan<i64>>(alloc, text, written),
        "RON",
    );
    let code = [3, 0, 1, 0, 5, 1, 6];
    holds(
        &rt,
        bin_checks::is_read_back::<Plan<u8>>(alloc, &code),
        "bytes",
    );
}

#[test]
fn shelves_have_two_parameters(rt: HostRuntime) {
    let alloc = rt.alloc();
    let text =
        "{\"name\":\"a\",\"values\":{\"x\":1},\"best\":2,\"inner\":[{\"name\":\"b\",\"values\":{},\"inner\":[]}]}";
    holds(
        &rt,
        is_read_back::<Shelf<String, u8>>(alloc, text),
        "a shelf",
    );
    let words = "Key not found name";
    holds(
        &rt,
        is_rejected::<Shelf<String, u8>>(alloc, "{\"values\":{},\"inner\":[]}", 24, words),
        "a shelf with no name",
    );
    let Ok(shelf) = Shelf::<String, u8>::deserialize_json_whole(alloc, text) else {
        holds(&rt, false, "the shelf");
        return;
    };
    holds(&rt, shelf_comes_back(alloc, &shelf), "a shelf, by its laws");
}

#[test]
fn each_tree_comes_back(rt: HostRuntime) {
    let alloc = rt.alloc();
    let Ok(tree) = Tree::<bool>::deserialize_json_whole(alloc, "{\"Leaf\":[true]}") else {
        holds(&rt, false, "the tree");
        return;
    };
    holds(&rt, tree_comes_back(alloc, &tree), "a tree, by its laws");
}
