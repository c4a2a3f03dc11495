//! Laws of the definitions that the contracts cite: each function does nothing, and its contract is
//! the law.
ghost use Rattle.nano_json_schema.specs.Outcomes.{LastFieldCounts, MissingNameHasNoField};
ghost use Rattle.nano_json_schema.specs.Outcomes.{OtherNamesAreSeen, LastOfBothNamesCounts};

/// Of the fields with one name, the last counts.
pub fn the_last_field_counts()
    ensures { LastFieldCounts }
{}

/// Of the fields with a name or its alias, the last counts, as of one name.
pub fn the_last_of_both_names_counts()
    ensures { LastOfBothNamesCounts }
{}

/// A name is missing where no field has it.
pub fn a_missing_name_has_no_field()
    ensures { MissingNameHasNoField }
{}

/// Of fields and more fields, the second see the last field of each name that the first do not
/// know. So where no name stands twice, each field has the last value of its name.
pub fn other_names_are_seen()
    ensures { OtherNamesAreSeen }
{}
