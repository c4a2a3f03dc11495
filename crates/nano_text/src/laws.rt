//! Laws of the definitions that the contracts cite: each function does nothing, and its contract is
//! the law.
ghost use Rattle.nano_text.specs.Promises.{BeginsWithOneNumber, BeginsWithOneString, NumberBreaksOnce};
ghost use Rattle.nano_text.specs.Promises.{StringBreaksOnce};

/// A text begins with one number lexeme at most, which leaves one rest.
pub fn a_text_begins_with_one_number()
    ensures { BeginsWithOneNumber }
{}

/// A text begins with one string lexeme at most, which leaves one rest.
pub fn a_text_begins_with_one_string()
    ensures { BeginsWithOneString }
{}

/// Where a number goes wrong, a reader leaves one rest.
pub fn a_number_breaks_at_one_place()
    ensures { NumberBreaksOnce }
{}

/// Where a string goes wrong, a reader leaves one rest.
pub fn a_string_breaks_at_one_place()
    ensures { StringBreaksOnce }
{}
