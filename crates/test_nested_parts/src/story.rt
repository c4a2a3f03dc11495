//! A story, whose parts contain themselves and which does not.

use crate::quest::Quest;
use crate::scene::Scene;
use std::collections::BTreeMap;

/// A story.
// nanoserde: bin json ron
#[derive(PartialEq, Debug, Drop)]
pub struct Story {
    /// What it is called.
    pub title: String,
    /// Where it begins.
    pub first: Scene,
    /// What is to be done.
    pub quests: Vec<Quest>,
    /// The other scenes, by their names.
    pub scenes: BTreeMap<String, Scene>,
    /// How it ends, if that is known.
    pub ending: Option<Ending>,
}

/// How a story ends.
// nanoserde: bin json ron
#[derive(PartialEq, Debug, Drop)]
pub enum Ending {
    /// It is open.
    Open,
    /// In a scene.
    In(Scene),
    /// With a quest that is won in a scene.
    Won(Quest, Option<Scene>),
    /// In one of several scenes.
    OneOf {
        /// The scenes.
        scenes: Vec<Scene>,
    },
}

mod derived;
