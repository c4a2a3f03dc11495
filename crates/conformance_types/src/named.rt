//! Tables of names.

/// What stands beside a name in a table.
pub(crate) fn named<T: Copy>(table: &[(&str, T)], name: &str) -> Option<T> {
    for (word, meant) in table {
        if *word == name {
            return Some(*meant);
        }
    }
    None
}

/// The place of a name in a table, where it stands there.
pub fn place_of(names: &[&str], name: &str) -> Option<usize> {
    let mut place = 0usize;
    for word in names {
        if *word == name {
            return Some(place);
        }
        place = place.saturating_add(1);
    }
    None
}
