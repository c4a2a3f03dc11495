//! Laws of how a text is cut: each function does nothing, and its contract is the law.
ghost use Rattle.nano_json_tokens.specs.Promises.{CutsOneWay, EndsInWhiteSpace, TakenTokensBegin};
ghost use Rattle.nano_json_tokens.specs.Promises.{SkippedFieldsAreApart};
ghost use Rattle.nano_json_tokens.specs.Promises.{BreaksOnce, BreaksOrCuts};

/// A text is cut in one way: it begins with one token at most, and leaves one rest.
pub fn a_text_is_cut_in_one_way()
    ensures { CutsOneWay }
{}

/// The end is cut from white space alone, and leaves nothing.
pub fn the_end_follows_white_space()
    ensures { EndsInWhiteSpace }
{}

/// To take tokens up to another one is the same as to begin with them and that one.
pub fn taken_tokens_begin_the_text()
    ensures { TakenTokensBegin }
{}

/// No skipped field is a proper beginning of another, so there is one at most where it begins.
pub fn skipped_fields_are_apart()
    ensures { SkippedFieldsAreApart }
{}

/// Where a text begins with no token, a reader leaves one rest.
pub fn a_text_breaks_at_one_place()
    ensures { BreaksOnce }
{}

/// No token is cut from a text that begins with none.
pub fn a_text_breaks_or_is_cut()
    ensures { BreaksOrCuts }
{}
