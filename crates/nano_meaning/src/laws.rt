//! What orders of entries are, as the contract of a function that does nothing.
ghost use Rattle.std.specs.Prelude.{◌≡◌, ◌↔◌, List};
ghost use Rattle.std.specs.List.{IsDistinct};
ghost use Rattle.std.specs.Map.{keys_of};
ghost use Rattle.nano_meaning.specs.Tables.{ascending, IsInOrder};

/// Of entries with different keys, the ascending list is the one that strictly ascends and has the
/// same entries.
pub fn ascending_is_in_order<K: Ord, V>()
    ensures { (entries sorted : List (K × V)) →
        IsDistinct K.eq (keys_of entries) →
        (sorted ≡ ascending K.cmp entries) ↔ IsInOrder K.cmp entries sorted }
{}
