//! Whether two values are the same.

ghost use Rattle.std.specs.Prelude.{◌≡◌, ◌↔◌, IsTrue};
ghost use Rattle.nano_toml.specs.Data.{view, values_view, tables_view, table_view};

use crate::value::Toml;
use std::collections::HashMap;

// Whether the values are of the same kind with the same content. Of two lists the last values are
// compared by the loop, so that a list in the last place of a list takes no stack.
#[cycle(same)]
pub fn same_value(one: &Toml, other: &Toml) -> bool
    ensures { IsTrue result ↔ (view one.now ≡ view other.now) }
{
    let mut a = one;
    let mut b = other;
    'lists: loop {
        match (a, b) {
            (Toml::SimpleArray(x), Toml::SimpleArray(y)) => {
                let Some((last_x, prefix_x)) = x.as_slice().split_last() else {
                    return y.is_empty();
                };
                let Some((last_y, prefix_y)) = y.as_slice().split_last() else {
                    return false;
                };
                if !same_values(prefix_x, prefix_y) {
                    return false;
                }
                a = last_x;
                b = last_y;
            }
            (Toml::Str(x), Toml::Str(y)) => return x == y,
            (Toml::Bool(x), Toml::Bool(y)) => return x == y,
            (Toml::Num(x), Toml::Num(y)) => return x == y,
            (Toml::Dec(x), Toml::Dec(y)) => return x == y,
            (Toml::Nan(x), Toml::Nan(y)) => return x == y,
            (Toml::Inf(x), Toml::Inf(y)) => return x == y,
            (Toml::Date(x), Toml::Date(y)) => return x == y,
            (Toml::Array(x), Toml::Array(y)) => return same_tables(x, y),
            _ => return false,
        }
    }
}

// Whether the values are the same, in order.
#[cycle(same)]
fn same_values(a: &[Toml], b: &[Toml]) -> bool
    ensures { IsTrue result ↔ (values_view a.now ≡ values_view b.now) }
{
    if a.len() != b.len() {
        return false;
    }
    for i in 0..a.len() {
        if !same_value(&a[i], &b[i]) {
            return false;
        }
    }
    true
}

// Whether the tables are the same, in order.
#[cycle(same)]
fn same_tables(a: &Vec<HashMap<String, Toml>>, b: &Vec<HashMap<String, Toml>>) -> bool
    ensures { IsTrue result ↔ (tables_view a.now.items ≡ tables_view b.now.items) }
{
    if a.len() != b.len() {
        return false;
    }
    for i in 0..a.len() {
        if !same_table(&a[i], &b[i]) {
            return false;
        }
    }
    true
}

// Whether the tables have the same pairs: each pair of a stands in b, and no other key.
#[cycle(same)]
fn same_table(a: &HashMap<String, Toml>, b: &HashMap<String, Toml>) -> bool
    ensures { IsTrue result ↔ (table_view a.now.entries ≡ table_view b.now.entries) }
{
    for (key, value) in a {
        match b.get(key) {
            Some(other) => {
                if !same_value(value, other) {
                    return false;
                }
            }
            None => return false,
        }
    }
    for (key, _) in b {
        if !a.contains_key(key) {
            return false;
        }
    }
    true
}
