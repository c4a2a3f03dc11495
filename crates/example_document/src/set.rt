//! A document with another one in the place that a pointer leads to.

use anyhow::{Result, bail};
use nano_document::Json;
use std::alloc::Global;
use std::mem;

/// The names of a pointer that leads somewhere, without their escapes.
fn names(alloc: Global, pointer: &str) -> Result<Vec<String>> {
    let mut names: Vec<String> = Vec::new(alloc);
    let mut escape = false;
    for c in pointer.chars() {
        if c == '/' {
            names.push(String::new(alloc))?;
            continue;
        }
        let Some(name) = names.last_mut() else {
            bail!("{pointer} begins with no slash");
        };
        if escape {
            name.push(if c == '0' { '~' } else { '/' })?;
        } else if c != '~' {
            name.push(c)?;
        }
        escape = c == '~' && !escape;
    }
    Ok(names)
}

/// The place of the last entry of a name, or the number of entries if none has it.
fn last_place(entries: &[(String, Json)], name: &str) -> usize {
    let mut last = entries.len();
    for (place, entry) in entries.iter().enumerate() {
        if entry.0.as_str() == name {
            last = place;
        }
    }
    last
}

/// The document with a value in the place that names lead to.
fn put(document: Json, names: &[String], value: Json) -> Result<Json> {
    let [name, more @ ..] = names else {
        return Ok(value);
    };
    match document {
        Json::List(mut items) => {
            let place: usize = name.as_str().parse()?;
            let Some(item) = items.get_mut(place) else {
                bail!("no item {name}");
            };
            let inner = mem::replace(item, Json::Null);
            *item = put(inner, more, value)?;
            Ok(Json::List(items))
        }
        Json::Object(mut entries) => {
            let place = last_place(entries.as_slice(), name.as_str());
            let Some(entry) = entries.get_mut(place) else {
                bail!("no entry {name}");
            };
            let inner = mem::replace(&mut entry.1, Json::Null);
            entry.1 = put(inner, more, value)?;
            Ok(Json::Object(entries))
        }
        _ => bail!("nothing at {name}"),
    }
}

/// The document with a value in the place that a pointer leads to, all else as it was. It is an
/// error if it leads nowhere.
pub fn set(alloc: Global, document: Json, pointer: &str, value: Json) -> Result<Json> {
    if document.pointer(pointer).is_none() {
        bail!("nothing at {pointer}");
    }
    put(document, names(alloc, pointer)?.as_slice(), value)
}
