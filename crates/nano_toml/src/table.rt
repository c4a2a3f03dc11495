//! The table of statements, built one statement after another.

ghost use Rattle.std.specs.Prelude.{◌≡◌, ◌≢◌, ◌↔◌, ℕ, List, [], ◌∷◌, ◌++◌, IsTrue, Some, OnOk};
ghost use Rattle.std.specs.Prelude.{IfOk, IfErr, string_bytes};
ghost use Rattle.nano_toml.specs.StatementTable.{IsBuilt, IsWhole, IsPlain, IsTables, CanPush};
ghost use Rattle.nano_toml.specs.StatementTable.{Puts, pushed, IsLawful, IsTableOf};
ghost use Rattle.nano_toml.specs.StatementTable.{full_key as key_in};
ghost use Rattle.nano_toml.specs.Data.{at, view, table_view};
ghost use Rattle.nano_toml.specs.Outcomes.{IsOtherKind, OnFault};
ghost use Rattle.nano_toml.specs.Reading.{statement_view};
ghost use Rattle.nano_toml.specs.Statements.{Statement as Stated, element, pair};
ghost use Rattle.nano_toml.specs.declared.fault.Fault.TheVariants.{Memory};

use crate::fault::Fault;
use crate::statements::Statement;
use crate::value::Toml;
use std::alloc::{AllocError, Global};
use std::collections::HashMap;
use std::mem;

/// Keys and their values.
pub(crate) type Table = HashMap<String, Toml>;

/// The table of the statements so far.
#[derive(Drop)]
pub(crate) struct Builder<'a> {
    pub(crate) root: Table,
    /// The key of the last header `[[key]]`, whose table is not in the root yet.
    pub(crate) key: Option<&'a str>,
    /// That table.
    pub(crate) table: Table,
    /// The name of the last header `[name]`.
    pub(crate) scope: String,
}

// Whether the value is an Array.
fn is_array(value: &Toml) -> bool
    ensures { IsTrue result ↔ IsTables (view value.now) }
{
    match value {
        Toml::Array(_) => true,
        _ => false,
    }
}

// Whether the table has an Array or nothing at the key.
fn is_free(table: &Table, key: &str) -> bool
    ensures { IsTrue result ↔ CanPush (at key.now (table_view table.now.entries)) }
{
    match table.get(key) {
        Some(value) => is_array(value),
        None => true,
    }
}

// Puts the value at the key.
fn put(table: &mut Table, key: String, value: Toml) -> Result<(), AllocError>
    ensures { OnOk result
        (Puts (table_view table.old.entries) (string_bytes key) (view value)
        (table_view table.new.entries)) }
{
    table.insert(key, value)?;
    Ok(())
}

// Adds a table at the end of an Array.
fn push_into(value: &mut Toml, table: Table) -> Result<(), AllocError>
    requires { IsTables (view value.old) }
    ensures { OnOk result
        (view value.new ≡ pushed (Some (view value.old)) (table_view table.entries)) }
{
    let array = mem::replace(value, Toml::Bool(false)).with_table(table)?;
    *value = array;
    Ok(())
}

// Adds a table at the end of the Array at a key.
fn push_table(alloc: Global, root: &mut Table, key: &str, table: Table) -> Result<(), AllocError>
    requires { CanPush (at key.now (table_view root.old.entries)) }
    ensures { OnOk result
        (let there = at key.now (table_view root.old.entries) in
        Puts (table_view root.old.entries) key.now
        (pushed there (table_view table.entries)) (table_view root.new.entries)) }
{
    match root.get_mut(key) {
        Some(value) => push_into(value, table),
        None => {
            let mut tables = Vec::new(alloc);
            tables.push(table)?;
            let key = String::from_str(alloc, key)?;
            put(root, key, Toml::Array(tables))
        }
    }
}

// The key of a name in a scope. In the empty scope it is the name itself.
fn full_key(alloc: Global, scope: &str, name: &str) -> Result<String, AllocError>
    ensures { IfOk result (λ key. string_bytes key ≡ key_in scope.now name.now) }
{
    if scope.is_empty() {
        return String::from_str(alloc, name);
    }
    let capacity = scope.len().saturating_add(1).saturating_add(name.len());
    let mut key = String::with_capacity(alloc, capacity)?;
    key.push_str(scope)?;
    key.push('.')?;
    key.push_str(name)?;
    Ok(key)
}

impl<'a> Builder<'a> {
    /// Nothing yet.
    pub(crate) fn new(alloc: Global) -> Builder<'a>
        ensures { IsBuilt [] result }
    {
        Builder {
            root: HashMap::new(alloc),
            key: None,
            table: HashMap::new(alloc),
            scope: String::new(alloc),
        }
    }

    // Moves the table of the last element into the root.
    fn end_element(&mut self, alloc: Global) -> Result<(), AllocError>
        requires { (done : List Stated) × IsBuilt done self.old }
        ensures { (done : List Stated) → IsBuilt done self.old
            → OnOk result (IsWhole done self.new) }
    {
        if let Some(key) = self.key.take() {
            let table = mem::replace(&mut self.table, HashMap::new(alloc));
            push_table(alloc, &mut self.root, key, table)?;
        }
        Ok(())
    }

    // Begins a new element. The key has no value of another kind.
    fn start_element(&mut self, alloc: Global, key: &'a str) -> Result<(), Fault>
        requires { (done : List Stated) × IsBuilt done self.old }
        ensures built { (done : List Stated) → IsBuilt done self.old
            → OnOk result (IsBuilt (done ++ element key.now ∷ []) self.new) }
        ensures rejected { (done : List Stated) → IsBuilt done self.old
            → OnFault result
            ((more : List Stated) → IsLawful (done ++ element key.now ∷ more) → ⊥) }
        ensures reported { IfErr result (λ e. e ≢ Memory → IsOtherKind e key.now) }
    {
        self.end_element(alloc)?;
        if !is_free(&self.root, key) {
            return Err(Fault::OtherKind(String::from_str(alloc, key)?));
        }
        self.key = Some(key);
        Ok(())
    }

    /// Adds a pair to the element, or to the root where there is none.
    pub(crate) fn add_pair(
        &mut self,
        alloc: Global,
        name: &str,
        value: Toml,
    ) -> Result<(), AllocError>
        requires { (done : List Stated) × IsBuilt done self.old }
        ensures { (done : List Stated) → IsBuilt done self.old
            → IsPlain (pair name.now (view value))
            → OnOk result (IsBuilt (done ++ pair name.now (view value) ∷ []) self.new) }
    {
        let key = full_key(alloc, self.scope.as_str(), name)?;
        if self.key.is_some() {
            put(&mut self.table, key, value)
        } else {
            put(&mut self.root, key, value)
        }
    }

    /// Adds a statement. A fault other than out of memory is a header that names a key which a
    /// pair gave.
    pub(crate) fn add(&mut self, alloc: Global, statement: Statement<'a>) -> Result<(), Fault>
        requires { (done : List Stated) × IsBuilt done self.old }
        ensures built { (done : List Stated) → IsBuilt done self.old
            → IsPlain (statement_view statement.entry)
            → OnOk result (IsBuilt (done ++ statement_view statement.entry ∷ []) self.new) }
        ensures rejected { (done : List Stated) → IsBuilt done self.old
            → OnFault result
            ((more : List Stated) → IsLawful (done ++ statement_view statement.entry ∷ more) → ⊥) }
        ensures reported { OnFault result
            ((key : List ℕ) × (statement_view statement.entry ≡ element key)) }
    {
        match statement {
            Statement::Scope(name) => {
                self.scope.clear();
                self.scope.push_str(name.as_str())?;
                Ok(())
            }
            Statement::Element(key) => self.start_element(alloc, key),
            Statement::Pair(name, value) => {
                self.add_pair(alloc, name.as_str(), value)?;
                Ok(())
            }
        }
    }

    /// The table of the statements that were added.
    pub(crate) fn finish(mut self, alloc: Global) -> Result<Table, AllocError>
        requires { (done : List Stated) × IsBuilt done self }
        ensures { (done : List Stated) → IsBuilt done self.entry
            → IfOk result (λ table. IsTableOf done (table_view table.entries)) }
    {
        self.end_element(alloc)?;
        Ok(self.root)
    }
}
