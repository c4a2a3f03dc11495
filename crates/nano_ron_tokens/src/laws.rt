//! Laws of how a text is cut: each function does nothing, and its contract is the law.
ghost use Rattle.nano_ron_tokens.specs.Promises.{CutsOneWay, EndsAfterGaps, GapsAreSkipped};
ghost use Rattle.nano_ron_tokens.specs.Promises.{TakenTokensBegin, SkippedFieldsGoOn};
ghost use Rattle.nano_ron_tokens.specs.Promises.{BreaksOnce, BreaksOrCuts};

/// A text is cut in one way: it begins with one token at most, and leaves one rest.
pub fn a_text_is_cut_in_one_way()
    ensures { CutsOneWay }
{}

/// White space and comments before a token change nothing.
pub fn gaps_are_skipped()
    ensures { GapsAreSkipped }
{}

/// The end is cut where white space and comments are the whole text, the last of which may have no
/// end, and leaves nothing.
pub fn the_end_follows_gaps()
    ensures { EndsAfterGaps }
{}

/// To take tokens up to another one is the same as to begin with them and that one.
pub fn taken_tokens_begin_the_text()
    ensures { TakenTokensBegin }
{}

/// Where a skipped field is a proper beginning of another, it is a word, and the token after it an
/// opening parenthesis.
pub fn a_skipped_field_goes_on_with_a_parenthesis()
    ensures { SkippedFieldsGoOn }
{}

/// Where a text begins with no token, a reader leaves one rest.
pub fn a_text_breaks_at_one_place()
    ensures { BreaksOnce }
{}

/// No token is cut from a text that begins with none.
pub fn a_text_breaks_or_is_cut()
    ensures { BreaksOrCuts }
{}
