//! What fields that are neither written nor read are made as: nothing of them is in a text, so no table
//! of `conformance_run` can say it.

use nanoserde::{DeBin, DeJson, DeRon};
use test_types::{Draft, Edit};

/// Whether the fields that are not read are what they are made as.
fn is_new(draft: &Draft) -> bool {
    let is_empty = draft.found.is_empty() && draft.places.is_empty();
    is_empty && draft.state.as_str() == "open" && draft.opened == 0
}

#[test]
fn a_skipped_field_is_made_as_its_default(rt: HostRuntime) {
    let alloc = rt.alloc();
    let bytes = [0, 0, 0, 0, 0, 0, 0, 0, 0, 0, 0, 0, 0, 0, 0, 0];
    match Draft::deserialize_bin_whole(alloc, &bytes) {
        Ok(draft) => assert!(rt; is_new(&draft)),
        Err(_error) => assert!(rt; false),
    }
    let json = "{\"title\":\"t\",\"state\":\"shut\",\"found\":[\"a\"],\"opened\":7,\"words\":[]}";
    match Draft::deserialize_json_whole(alloc, json) {
        Ok(draft) => assert!(rt; is_new(&draft)),
        Err(_error) => assert!(rt; false),
    }
    match Draft::deserialize_ron_whole(alloc, "(title:\"t\",words:[])") {
        Ok(draft) => assert!(rt; is_new(&draft)),
        Err(_error) => assert!(rt; false),
    }
}

#[test]
fn a_skipped_field_of_a_variant_is_made_as_its_default(rt: HostRuntime) {
    let json = "{\"Add\":{\"words\":[1],\"seen\":[2]}}";
    match Edit::deserialize_json_whole(rt.alloc(), json) {
        Ok(Edit::Add { words, seen }) => {
            assert!(rt; words.len() == 1 && seen.is_empty());
        }
        _ => assert!(rt; false),
    }
}
