//! Structs of which a text of RON may have more fields than they have.

pub use nano_ron_schema::read_record_ron_open;
