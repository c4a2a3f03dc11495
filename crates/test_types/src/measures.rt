//! Names beyond ASCII, which JSON has.

// nanoserde: bin json
/// What is measured, by its names in three languages.
#[derive(PartialEq, Debug, Drop)]
pub struct Measures {
    /// How large it is.
    // nanoserde: rename = "größe"
    pub size: u32,
    /// How long it is.
    // nanoserde: rename = "長さ", alias = "länge"
    pub length: Option<u32>,
    /// How heavy it is.
    pub weight: u32,
}

// nanoserde: bin json
/// What the sky is like.
#[derive(PartialEq, Debug, Drop)]
pub enum Sky {
    /// Nothing stands in it.
    // nanoserde: rename = "ясно"
    Clear,
    /// So many eighths are covered.
    // nanoserde: rename = "bewölkt"
    Clouded(u8),
    /// It rains.
    Rain {
        /// How much.
        // nanoserde: rename = "höhe"
        depth: u16,
    },
}

mod derived;
