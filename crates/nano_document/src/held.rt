//! What a document holds: its items, its entries, and the last entry of a name.

ghost use Rattle.std.specs.Prelude.{◌≡◌, ◌+◌, ◌↔◌, [], length, IsTrue, MatchOption};
ghost use Rattle.std.specs.Slice.Iter.{iter_rest};
ghost use Rattle.nano_document.specs.Held.{items, entries, HasNone, IsLast};

use crate::json::Json;
use std::slice;

/// The calls that look into lists and objects.
impl Json {
    /// The documents of a list, in order; none of any other document.
    pub fn items(&self) -> &[Json]
        ensures { result.now ≡ items self.now }
    {
        match self {
            Json::List(items) => items.as_slice(),
            _ => &[],
        }
    }

    /// The names of an object with their documents, in order; none of any other document.
    pub fn entries(&self) -> &[(String, Json)]
        ensures { result.now ≡ entries self.now }
    {
        match self {
            Json::Object(entries) => entries.as_slice(),
            _ => &[],
        }
    }

    /// Goes over the names of an object with their documents, in order; over none of any other
    /// document.
    pub fn iter(&self) -> slice::Iter<'_, (String, Json)>
        ensures { iter_rest result ≡ entries self.now }
    {
        self.entries().iter()
    }

    /// How many documents a list or an object directly holds; 0 of any other document.
    pub fn len(&self) -> usize
        ensures { result ≡ length (items self.now) + length (entries self.now) }
    {
        match self {
            Json::List(items) => items.len(),
            Json::Object(entries) => entries.len(),
            _ => 0,
        }
    }

    /// Whether it holds no document, as every document does that is no list and no object.
    pub fn is_empty(&self) -> bool
        ensures { IsTrue result ↔ (items self.now ≡ []) × (entries self.now ≡ []) }
    {
        match self {
            Json::List(items) => items.is_empty(),
            Json::Object(entries) => entries.is_empty(),
            _ => true,
        }
    }

    /// The document of the last entry of a name, if an object has one.
    pub fn get(&self, name: &str) -> Option<&Json>
        ensures { MatchOption result (HasNone (λ n. n ≡ name.now) (entries self.now))
            (λ value. IsLast (λ n. n ≡ name.now) (entries self.now) value.now) }
    {
        last_named(self.entries(), name)
    }
}

/// The document of the last entry of a name.
fn last_named<'a>(entries: &'a [(String, Json)], name: &str) -> Option<&'a Json>
    ensures { MatchOption result (HasNone (λ n. n ≡ name.now) entries.now)
        (λ value. IsLast (λ n. n ≡ name.now) entries.now value.now) }
{
    let mut end = entries.len();
    'entries: while end > 0 {
        end -= 1;
        let entry = &entries[end];
        if entry.0.as_str() == name {
            return Some(&entry.1);
        }
    }
    None
}
