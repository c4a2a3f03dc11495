//! Maps of many keys, which are sorted by words: they come in the order of their keys, whatever
//! these begin with.

use crate::checks::is_so;
use nano_value::{OrderedKey, entries_by_rank};
use std::alloc::{AllocError, Global};
use std::collections::HashMap;
use std::hash::Hash;

/// How many keys a map has.
const MANY: u32 = 1000;

/// Each number below `MANY`, in no order.
fn scattered(i: u32) -> u32 {
    i.wrapping_mul(617) % MANY
}

/// Whether the entries come in the order of their values, which are 0, 1, 2 and so on.
fn come_in_order<K: OrderedKey + Hash>(
    alloc: Global,
    map: &HashMap<K, u32>,
) -> Result<bool, AllocError> {
    let entries = entries_by_rank(alloc, map)?;
    for (place, entry) in entries.iter().enumerate() {
        if *entry.1 as usize != place {
            return Ok(false);
        }
    }
    Ok(entries.len() == MANY as usize)
}

/// Whether many numbers come in order.
fn numbers_come_in_order(alloc: Global) -> Result<bool, AllocError> {
    let mut map = HashMap::new(alloc);
    for i in 0..MANY {
        let number = scattered(i);
        map.insert(number, number)?;
    }
    come_in_order(alloc, &map)
}

/// Whether many texts come in order, each a number after one of two texts: the first for the lower
/// half.
fn texts_come_in_order(alloc: Global, low: &str, high: &str) -> Result<bool, AllocError> {
    let mut map = HashMap::new(alloc);
    for i in 0..MANY {
        let number = scattered(i);
        let half = if number < MANY / 2 { low } else { high };
        let digits = number.saturating_add(MANY);
        map.insert(format!(in alloc; "{half}{digits}")?, number)?;
    }
    come_in_order(alloc, &map)
}

#[test]
fn many_keys_come_in_order(rt: HostRuntime) {
    let alloc = rt.alloc();
    is_so(&rt, numbers_come_in_order(alloc), "numbers");
    is_so(&rt, texts_come_in_order(alloc, "user", "user"), "texts");
    let shared = texts_come_in_order(alloc, "a-and-more-of-it", "b-and-more-of-it");
    is_so(&rt, shared, "texts that share more than a rank");
}
