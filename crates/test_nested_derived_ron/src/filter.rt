//! A filter: its schema, and then JSON and RON.

/// A filter.
// nanoserde: json ron
#[derive(PartialEq, Debug, Drop)]
pub enum Filter {
    /// Everything.
    Any,
    /// What another filter leaves out.
    Not(Box<Filter>),
    /// What has so much at least, and passes one of these.
    AtLeast(u8, Vec<Filter>),
    /// What has this in a field, and passes another filter if it is there.
    Has {
        /// The field.
        field: String,
        /// The other filter.
        and: Option<Box<Filter>>,
    },
}

mod derived;
