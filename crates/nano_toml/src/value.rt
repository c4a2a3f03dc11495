//! A value of a TOML text.

ghost use Rattle.std.specs.Prelude.{◌≡◌, ◌↔◌, IsTrue, IsSome, IfSome, Some, IfOk, string_bytes};
ghost use Rattle.nano_toml.specs.StatementTable.{IsTables, pushed};
ghost use Rattle.nano_toml.specs.Kinds.{as_text, as_boolean, as_number, as_decimal, as_date};
ghost use Rattle.nano_toml.specs.Kinds.{as_tables, as_values, index_of};
ghost use Rattle.nano_toml.specs.Data.{view, values_view, tables_view, table_view};

use crate::same::same_value;
use std::alloc::{AllocError, Global};
use std::collections::HashMap;

/// A value of a TOML text.
///
/// Two values are equal by `==` if they are of the same kind and have the same content: lists in
/// order, tables with the same pairs, decimals with the same text. So `Nan(true) == Nan(true)`, and
/// a `Num` never equals a `Dec`.
///
/// Comparing two values takes no stack for a list in the last place of a list, however deep they
/// are, and some for a list in another place. Dropping a value takes none for lists in lists; while
/// no memory can be had it may.
pub enum Toml {
    /// A text.
    Str(String),
    /// `true` or `false`.
    Bool(bool),
    /// A whole number, from -2^63 to 2^64 - 1 where it was read.
    Num(i128),
    /// A decimal number, as its text: `-` or nothing, digits, `.`, digits.
    Dec(String),
    /// Not a number; `true` with a minus sign.
    Nan(bool),
    /// Infinity; `true` with a minus sign.
    Inf(bool),
    /// A date, as its text.
    Date(String),
    /// The tables of a key's headers `[[key]]`, in order.
    Array(Vec<HashMap<String, Toml>>),
    /// Values between square brackets, in order.
    SimpleArray(Vec<Toml>),
}

impl PartialEq for Toml {
    ghost use Rattle.std.specs.Prelude.{◌≡◌, ◌↔◌, IsTrue};
    ghost use Rattle.nano_toml.specs.Data.{view, view_eq};
    ghost use Rattle.nano_toml.specs.EqImpls.{view_eq_laws};

    ghost eq = { view_eq };

    ghost laws = { view_eq_laws };

    fn eq(&self, other: &Toml) -> bool
        ensures same { IsTrue result ↔ (view self.now ≡ view other.now) }
        ensures value { result ≡ view_eq self.now other.now }
    {
        same_value(self, other)
    }
}

impl Eq for Toml {
    ghost use Rattle.nano_toml.specs.EqImpls.{view_eq_equiv};

    ghost laws = { view_eq_equiv };
}

impl Drop for Toml {
    #[cycle(release)]
    fn drop(self) {
        match self {
            Toml::SimpleArray(values) => Toml::release(values),
            Toml::Str(_) => {}
            Toml::Bool(_) => {}
            Toml::Num(_) => {}
            Toml::Dec(_) => {}
            Toml::Nan(_) => {}
            Toml::Inf(_) => {}
            Toml::Date(_) => {}
            Toml::Array(_) => {}
        }
    }
}

impl Toml {
    // The values of a SimpleArray; any other value is dropped.
    #[cycle(release)]
    fn into_values(self) -> Option<Vec<Toml>>
        ensures { IfSome result (λ values. self ≡ Toml.SimpleArray values) }
    {
        match self {
            Toml::SimpleArray(values) => Some(values),
            Toml::Str(_) => None,
            Toml::Bool(_) => None,
            Toml::Num(_) => None,
            Toml::Dec(_) => None,
            Toml::Nan(_) => None,
            Toml::Inf(_) => None,
            Toml::Date(_) => None,
            Toml::Array(_) => None,
        }
    }

    // Drops the values one after another: those of a list come after those that are left. If
    // there is no space for them, the list is dropped by itself.
    #[cycle(release)]
    fn release(mut left: Vec<Toml>) {
        'values: while let Some(value) = left.pop() {
            if let Some(mut values) = value.into_values() {
                let _ = left.append(&mut values);
            }
        }
    }

    // The Array with one more table at its end.
    pub(crate) fn with_table(self, table: HashMap<String, Toml>) -> Result<Toml, AllocError>
        requires { IsTables (view self) }
        ensures { IfOk result
            (λ array. view array ≡ pushed (Some (view self)) (table_view table.entries)) }
    {
        match self {
            Toml::Array(mut tables) => {
                tables.push(table)?;
                Ok(Toml::Array(tables))
            }
            _ => unreachable!(),
        }
    }

    /// The number of a `Num`; the caller knows that it is one.
    pub fn num(&self) -> i128
        requires { IsSome (as_number (view self.now)) }
        ensures { as_number (view self.now) ≡ Some result }
    {
        match self {
            Toml::Num(num) => *num,
            _ => unreachable!(),
        }
    }

    /// The text of a `Str`; the caller knows that it is one.
    pub fn str(&self) -> &str
        requires { IsSome (as_text (view self.now)) }
        ensures { as_text (view self.now) ≡ Some result.now }
    {
        match self {
            Toml::Str(string) => string.as_str(),
            _ => unreachable!(),
        }
    }

    /// The boolean of a `Bool`; the caller knows that it is one.
    pub fn boolean(&self) -> bool
        requires { IsSome (as_boolean (view self.now)) }
        ensures { as_boolean (view self.now) ≡ Some result }
    {
        match self {
            Toml::Bool(boolean) => *boolean,
            _ => unreachable!(),
        }
    }

    /// A copy of the text of a `Date`; the caller knows that it is one. The error is want of
    /// memory.
    pub fn date(&self, alloc: Global) -> Result<String, AllocError>
        requires { IsSome (as_date (view self.now)) }
        ensures { IfOk result (λ text. as_date (view self.now) ≡ Some (string_bytes text)) }
    {
        match self {
            Toml::Date(date) => String::from_str(alloc, date.as_str()),
            _ => unreachable!(),
        }
    }

    /// The tables of an `Array`, in order; the caller knows that it is one.
    pub fn arr(&self) -> &Vec<HashMap<String, Toml>>
        requires { IsSome (as_tables (view self.now)) }
        ensures { as_tables (view self.now) ≡ Some (tables_view result.now.items) }
    {
        match self {
            Toml::Array(array) => array,
            _ => unreachable!(),
        }
    }

    /// The values of a `SimpleArray`, in order; the caller knows that it is one.
    pub fn simple_arr(&self) -> &Vec<Toml>
        requires { IsSome (as_values (view self.now)) }
        ensures { as_values (view self.now) ≡ Some (values_view result.now.items) }
    {
        match self {
            Toml::SimpleArray(array) => array,
            _ => unreachable!(),
        }
    }

    /// The table at a place of an `Array`, counted from 0; the caller knows that the value is one
    /// and has that many.
    pub fn index(&self, i: usize) -> &HashMap<String, Toml>
        requires { IsSome (index_of (view self.now) i) }
        ensures { index_of (view self.now) i ≡ Some (table_view result.now.entries) }
    {
        match self {
            Toml::Array(array) => &array[i],
            _ => unreachable!(),
        }
    }

    /// The text of a `Str`, taken out; the caller knows that it is one.
    pub fn into_str(self) -> String
        requires { IsSome (as_text (view self)) }
        ensures { as_text (view self) ≡ Some (string_bytes result) }
    {
        match self {
            Toml::Str(text) => text,
            _ => unreachable!(),
        }
    }

    /// The text of a `Dec`, taken out; the caller knows that it is one.
    pub fn into_dec(self) -> String
        requires { IsSome (as_decimal (view self)) }
        ensures { as_decimal (view self) ≡ Some (string_bytes result) }
    {
        match self {
            Toml::Dec(text) => text,
            _ => unreachable!(),
        }
    }

    /// The text of a `Date`, taken out; the caller knows that it is one.
    pub fn into_date(self) -> String
        requires { IsSome (as_date (view self)) }
        ensures { as_date (view self) ≡ Some (string_bytes result) }
    {
        match self {
            Toml::Date(text) => text,
            _ => unreachable!(),
        }
    }

    /// The tables of an `Array`, in order, taken out; the caller knows that it is one.
    pub fn into_arr(self) -> Vec<HashMap<String, Toml>>
        requires { IsSome (as_tables (view self)) }
        ensures { as_tables (view self) ≡ Some (tables_view result.items) }
    {
        match self {
            Toml::Array(tables) => tables,
            _ => unreachable!(),
        }
    }

    /// The values of a `SimpleArray`, in order, taken out; the caller knows that it is one.
    pub fn into_simple_arr(self) -> Vec<Toml>
        requires { IsSome (as_values (view self)) }
        ensures { as_values (view self) ≡ Some (values_view result.items) }
    {
        match self {
            Toml::SimpleArray(values) => values,
            _ => unreachable!(),
        }
    }
}
