//! Types that contain themselves and have parts of other user-defined types, in three formats: a
//! scene with its mode, a quest with modes and items, a plan with scenes. A story has them as its
//! parts.
#![tactic(auto)]

mod camp;
mod item;
mod mode;
mod plan;
mod quest;
mod scene;
mod story;

pub use camp::{Camp, Route, Weather};
pub use item::Item;
pub use mode::Mode;
pub use plan::Plan;
pub use quest::Quest;
pub use scene::Scene;
pub use story::{Ending, Story};
