//! Examples: user-defined types in bytes, in JSON and in RON. Each file is one that a user
//! copies.
//!
//! `Server`, `Event`, `Signal` and `Query` are described once by a schema, and `derive_files` wrote
//! each format from it. So are `Site`, `Clock`, `Notice`, `Moved`, `Change`, `Proxy` and `Profile`,
//! which have attributes, `Tagged`, `Reply` and `Guess`, which have type parameters, `Ranked`,
//! `Wanted`, `Ranks` and `Best`, whose parameters have bounds, `Point`, `Entry`, `Segment` and
//! `Cells`, whose parts have no names, `Draft` and `Edit`, some of whose fields are made and not
//! read, `Measures` and `Sky`, whose names are beyond ASCII, `Marker`, `Empty` and `Count`, of
//! which nothing is read or written, with `Step` and `Trip`, which hold such, and `UserId`,
//! `HallName`, `Role` and `Seat`, which are keys of the maps and items of the set of `Hall`.
//! `Limits` and `Tags` are encoded as their one field. `Command` implements bytes and `Message`
//! implements JSON by hand, without a schema.
#![tactic(auto)]

mod clock;
mod command;
mod draft;
mod empty;
mod entry;
mod event;
mod guess;
mod hall;
mod keys;
mod limits;
mod measures;
mod message;
mod moved;
mod notice;
mod point;
mod profile;
mod proxy;
mod query;
mod ranked;
mod ranks;
mod reply;
mod segment;
mod server;
mod signal;
mod site;
mod tagged;
mod tags;

pub use clock::Clock;
pub use command::Command;
pub use draft::{Draft, Edit};
pub use empty::{Count, Empty, Marker, Step, Trip};
pub use entry::Entry;
pub use event::Event;
pub use guess::Guess;
pub use hall::{Greetings, Hall, Seats, Visits};
pub use keys::{HallName, Role, Seat, UserId};
pub use limits::Limits;
pub use measures::{Measures, Sky};
pub use message::Message;
pub use moved::{Change, Moved};
pub use notice::Notice;
pub use point::Point;
pub use profile::Profile;
pub use proxy::Proxy;
pub use query::Query;
pub use ranked::{Ranked, Wanted};
pub use ranks::{Best, Ranks};
pub use reply::Reply;
pub use segment::{Cells, Segment};
pub use server::Server;
pub use signal::Signal;
pub use site::Site;
pub use tagged::Tagged;
pub use tags::Tags;
