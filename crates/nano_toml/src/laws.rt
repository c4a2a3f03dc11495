//! Laws of the values and of the definitions. The functions do nothing: what counts is what they
//! ensure.

ghost use Rattle.std.specs.Prelude.{ℕ, List};
ghost use Rattle.nano_toml.specs.Cut.{IsCutInOneWay};
ghost use Rattle.nano_toml.specs.FirstError.{HasOneFirstError, IsFirstError};
ghost use Rattle.nano_toml.specs.StatementTable.{HasOneTable, EncodesOneTable, EncodesOneList};
ghost use Rattle.nano_toml.specs.StatementTable.{EncodesNoTable};
ghost use Rattle.nano_toml.specs.Data.{EqIsReflexive, EqIsSymmetric, EqIsTransitive};
ghost use Rattle.nano_toml.specs.Statements.{Statement};

/// Each value equals itself by `==`, `Nan` included.
pub fn eq_is_reflexive()
    ensures { EqIsReflexive }
{}

/// Where one value equals another by `==`, the other equals the one.
pub fn eq_is_symmetric()
    ensures { EqIsSymmetric }
{}

/// Where one value equals a second by `==`, and the second a third, the first equals the third.
pub fn eq_is_transitive()
    ensures { EqIsTransitive }
{}

/// A text is cut in one way: into one token and one rest, or to its end.
pub fn text_is_cut_in_one_way()
    ensures { (text : List ℕ) → IsCutInOneWay text }
{}

/// A text encodes at most one list of statements.
pub fn text_encodes_one_list()
    ensures { (text : List ℕ) → EncodesOneList text }
{}

/// A list of statements has one table at most: two tables of it have the same value.
pub fn list_has_one_table()
    ensures { (statements : List Statement) → HasOneTable statements }
{}

/// A text encodes at most one table: two results of `parse` for one text have the same value.
pub fn text_encodes_one_table()
    ensures { (text : List ℕ) → EncodesOneTable text }
{}

/// A text has one first error at most: so the place that `parse` tells is one place.
pub fn text_has_one_first_error()
    ensures { (text : List ℕ) → HasOneFirstError text }
{}

/// A text that has a first error encodes no table.
pub fn text_with_an_error_encodes_no_table()
    ensures { (text remaining : List ℕ) → IsFirstError text remaining → EncodesNoTable text }
{}
