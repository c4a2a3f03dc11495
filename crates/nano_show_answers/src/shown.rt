//! The types that are shown, and what their names stand for.

ghost use Rattle.nano_show_answers.specs.Shown.{Shown, IsAgreed, OfEachKind};

use nanoserde::records::{Choice, Item};
use nanoserde::{BothBin, BothJson, BothRon};
use std::collections::{BTreeMap, HashMap, HashSet};

/// A type with all three formats.
pub trait Show: BothBin + BothJson + BothRon {
    /// Its values and its formats.
    ghost shown: { Shown };
}

impl<T: BothBin + BothJson + BothRon> Show for T {
    ghost use Rattle.nano_show_answers.specs.Shown.{shown_as};

    ghost shown = { shown_as T.means T.legal T.bin T.json T.ron };
}

/// What the names of types stand for.
pub trait Named {
    ghost use Rattle.nano_show_answers.specs.declared.words.Kind.{Kind};

    /// The type that a name stands for.
    ghost types: { Kind → Shown };
}

/// The types of the program.
pub struct Types;

impl Named for Types {
    ghost use Rattle.nano_show_answers.specs.Shown.{by_kind};

    ghost types = { by_kind ⟦<u8 as Show>⟧.shown ⟦<u32 as Show>⟧.shown ⟦<u64 as Show>⟧.shown
        ⟦<i32 as Show>⟧.shown ⟦<i64 as Show>⟧.shown ⟦<bool as Show>⟧.shown
        ⟦<String as Show>⟧.shown ⟦<Vec<u8> as Show>⟧.shown ⟦<HashSet<i32> as Show>⟧.shown
        ⟦<HashMap<String, i32> as Show>⟧.shown ⟦<BTreeMap<String, i32> as Show>⟧.shown
        ⟦<Item as Show>⟧.shown ⟦<Choice as Show>⟧.shown };
}

/// The formats of a type are of its values.
fn agreed<T: BothBin + BothJson + BothRon>()
    ensures { IsAgreed ⟦<T as Show>⟧.shown }
{}

/// The formats of each type are of its values.
pub(crate) fn all_agreed()
    ensures { OfEachKind (λ kind. IsAgreed (⟦<Types as Named>⟧.types kind)) }
{
    agreed::<u8>();
    agreed::<u32>();
    agreed::<u64>();
    agreed::<i32>();
    agreed::<i64>();
    agreed::<bool>();
    agreed::<String>();
    agreed::<Vec<u8>>();
    agreed::<HashSet<i32>>();
    agreed::<HashMap<String, i32>>();
    agreed::<BTreeMap<String, i32>>();
    agreed::<Item>();
    agreed::<Choice>();
}
