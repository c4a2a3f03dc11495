//! Each type in each format.

use crate::checks::holds;
use crate::{bin_checks, json_checks, ron_checks};
use nano_json::DeJson;
use std::alloc::Global;
use test_nested_parts::{Camp, Mode, Plan, Quest, Route, Scene, Story};

const SCENE: &[u8] = &[
    1, 0, 3, 1, 0, 0, 0, 0, 0, 0, 0, 0, 0, 0, 0, 0, 0, 0, 0, 0, 0,
];

const SCENE_JSON: &str = r#"{"mode":{"Hard":[3]},"scenes":[{"mode":"Easy","scenes":[]}]}"#;

const SCENE_RON: &str = "(
    mode:Hard(3),
    scenes:[
        (
            mode:Easy,
            scenes:[
            ],
        ),
    ],
)";

const QUEST: &[u8] = &[
    2, 0, 1, 0, 0, 0, 0, 0, 0, 0, 0, 0, 0, 0, 1, 0, 0, 0, 0, 0, 0, 0, 1, 0, 2, 0,
];

const QUEST_JSON: &str = r#"{"All":{"quests":[{"Win":["Easy"]}],"modes":[{"Hard":[2]}]}}"#;

const QUEST_RON: &str = "All(
    quests:[
        Win(Easy),
    ],
    modes:[
        Hard(2),
    ],
)";

const BRING: &str = r#"{"Bring":[{"name":"rope","count":2},{"Win":["Easy"]}]}"#;

const FIND: &str = r#"{"Find":[{"a":{"name":"oil"},"b":{"name":"rope","count":0}}]}"#;

const CAMP: &[u8] = &[
    0, 0, 1, 0, 0, 0, 0, 0, 0, 0, 1, 0, 3, 0, 0, 0, 0, 0, 0, 0, 0,
];

const CAMP_JSON: &str = r#"{"weather":"Dry","camps":[{"weather":{"Rain":[3]},"camps":[]}]}"#;

const CAMP_RON: &str = "(
    weather:Dry,
    camps:[
        (
            weather:Rain(3),
            camps:[
            ],
        ),
    ],
)";

const ROUTE: &[u8] = &[1, 0, 1, 0, 9, 0, 0];

const ROUTE_JSON: &str = r#"{"Step":{"weather":{"Rain":[9]},"rest":"End"}}"#;

const ROUTE_RON: &str = "Step(
    weather:Rain(9),
    rest:End,
)";

const PLAN: &[u8] = &[1, 0, 0, 0, 0, 0, 0, 0, 0, 0, 0, 0, 0, 0];

const PLAN_JSON: &str = r#"{"Go":[{"mode":"Easy","scenes":[]},"End"]}"#;

const PLAN_RON: &str = "Choose(
    at:(
        mode:Easy,
        scenes:[
        ],
    ),
    plans:[
        End,
    ],
)";

const STORY_JSON: &str =
    r#"{"title":"a","first":{"mode":"Easy","scenes":[]},"quests":[],"scenes":{"b":{"mode":{"Hard":[1]},"scenes":[]}},"ending":{"Won":[{"Win":["Easy"]},null]}}"#;

const STORY_RON: &str = "(
    title:\"a\",
    first:(
        mode:Easy,
        scenes:[
        ],
    ),
    quests:[
        Win(Easy),
    ],
    scenes:{
    },
    ending:OneOf(
        scenes:[
        ],
    ),
)";

/// A mode as the parts of a scene have it.
fn is_mode(alloc: Global) -> bool {
    match Scene::deserialize_json(alloc, r#"{"scenes":[],"mode":{"Hard":[7]}}"#) {
        Ok(scene) => scene.mode == Mode::Hard(7) && scene.scenes.is_empty(),
        Err(_error) => false,
    }
}

#[test]
fn scenes_are_read_and_written_back(rt: HostRuntime) {
    let alloc = rt.alloc();
    holds(
        &rt,
        bin_checks::is_read_back::<Scene>(alloc, SCENE),
        "bytes",
    );
    holds(
        &rt,
        json_checks::is_read_back::<Scene>(alloc, SCENE_JSON),
        "JSON",
    );
    holds(
        &rt,
        ron_checks::is_read_back::<Scene>(alloc, SCENE_RON),
        "RON",
    );
    holds(&rt, is_mode(alloc), "a mode");
}

#[test]
fn quests_are_read_and_written_back(rt: HostRuntime) {
    let alloc = rt.alloc();
    holds(
        &rt,
        bin_checks::is_read_back::<Quest>(alloc, QUEST),
        "bytes",
    );
    holds(
        &rt,
        json_checks::is_read_back::<Quest>(alloc, QUEST_JSON),
        "JSON",
    );
    holds(
        &rt,
        ron_checks::is_read_back::<Quest>(alloc, QUEST_RON),
        "RON",
    );
    holds(
        &rt,
        json_checks::is_read_back::<Quest>(alloc, BRING),
        "an item",
    );
    holds(
        &rt,
        json_checks::is_read_back::<Quest>(alloc, FIND),
        "a map of items",
    );
}

#[test]
fn camps_and_routes_are_read_and_written_back(rt: HostRuntime) {
    let alloc = rt.alloc();
    holds(&rt, bin_checks::is_read_back::<Camp>(alloc, CAMP), "bytes");
    holds(
        &rt,
        json_checks::is_read_back::<Camp>(alloc, CAMP_JSON),
        "JSON",
    );
    holds(
        &rt,
        ron_checks::is_read_back::<Camp>(alloc, CAMP_RON),
        "RON",
    );
    holds(
        &rt,
        bin_checks::is_read_back::<Route>(alloc, ROUTE),
        "bytes of a route",
    );
    holds(
        &rt,
        json_checks::is_read_back::<Route>(alloc, ROUTE_JSON),
        "JSON of a route",
    );
    holds(
        &rt,
        ron_checks::is_read_back::<Route>(alloc, ROUTE_RON),
        "RON of a route",
    );
}

#[test]
fn plans_and_stories_are_read_and_written_back(rt: HostRuntime) {
    let alloc = rt.alloc();
    holds(&rt, bin_checks::is_read_back::<Plan>(alloc, PLAN), "bytes");
    holds(
        &rt,
        json_checks::is_read_back::<Plan>(alloc, PLAN_JSON),
        "JSON",
    );
    holds(
        &rt,
        ron_checks::is_read_back::<Plan>(alloc, PLAN_RON),
        "RON",
    );
    holds(
        &rt,
        json_checks::is_read_back::<Story>(alloc, STORY_JSON),
        "JSON of a story",
    );
    holds(
        &rt,
        ron_checks::is_read_back::<Story>(alloc, STORY_RON),
        "RON of a story",
    );
}

#[test]
fn other_texts_are_no_scenes(rt: HostRuntime) {
    let alloc = rt.alloc();
    let lost = json_checks::is_rejected::<Scene>(
        alloc,
        r#"{"scenes":[]}"#,
        13,
        "Key not found mode",
    );
    holds(&rt, lost, "a scene without a mode");
    let text = r#"{"scenes":[],"mode":"None"}"#;
    let other = json_checks::is_rejected::<Scene>(alloc, text, 27, "Enum not defined None");
    holds(&rt, other, "another mode");
}
