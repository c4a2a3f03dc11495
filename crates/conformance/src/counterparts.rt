//! Types of the same entries in the other order.

use std::alloc::{AllocError, Global};

/// The type of the same entries, ordered for hashed and hashed for ordered. `None` for a type that
/// is no set and no map.
pub fn counterpart(alloc: Global, kind: &str) -> Result<Option<String>, AllocError> {
    let Some((name, entries)) = kind.split_once('<') else {
        return Ok(None);
    };
    let other = match name {
        "HashSet" => "BTreeSet",
        "BTreeSet" => "HashSet",
        "HashMap" => "BTreeMap",
        "BTreeMap" => "HashMap",
        _ => return Ok(None),
    };
    Ok(Some(format!(in alloc; "{other}<{entries}")?))
}
