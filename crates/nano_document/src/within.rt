//! Documents that are read with a limit of levels which the caller sets.

ghost use Rattle.nano_document.specs.FirstFaults.{ReadsOrFirstError, WholeOrFirstError};
ghost use Rattle.nano_document.specs.Documents.{json_means};
ghost use Rattle.nano_document.specs.DocumentCodecs.{level_codec};

use crate::json::Json;
use crate::read::read_json;
use nano_json::{DeJsonErr, DeJsonState};
use nano_json_tokens::{as_value_error, expect_end};
use std::alloc::Global;

/// The calls that read a document with a limit of levels: of 0 nothing is read, of 1 what holds no
/// other, as `1` or `[]`, and each list or object around it is one more. Those of `DeJson` have a
/// limit of 128.
impl Json {
    /// Reads the document of at most so many levels that begins the text, which ends before its
    /// first NUL. More may follow: of that, one token is read.
    ///
    /// Each level takes stack, so a limit that is too high for the stack ends the program where a
    /// text has that many.
    ///
    /// # Errors
    ///
    /// No such document is encoded at the beginning of the text with one more token or the end
    /// after it, or memory ran out (`memory`). Any other error is the first one of the text: what
    /// stands before it can begin such a document. The message is `Value out of range
    /// levels>{levels} ` at a document inside so many others, and at a name there.
    pub fn deserialize_json_within(
        alloc: Global,
        levels: usize,
        input: &str,
    ) -> Result<Json, DeJsonErr>
        ensures { ReadsOrFirstError (level_codec levels).encoding.encodes input.now json_means result }
    {
        let mut state = DeJsonState::new(alloc);
        let mut chars = input.chars();
        state.next(&mut chars);
        state.next_tok(alloc, &mut chars)?;
        read_json(alloc, levels, levels, &mut state, &mut chars)
    }

    /// Reads the document of at most so many levels that is the whole input: no token follows it,
    /// and no NUL stands anywhere. White space may stand around it and inside it.
    ///
    /// Each level takes stack, so a limit that is too high for the stack ends the program where a
    /// text has that many.
    ///
    /// # Errors
    ///
    /// Where the beginning of the text decodes to such a document, and another token or a NUL
    /// follows it, the message of the error is `Cannot parse end `, or the error is out of memory.
    /// Nothing else is rejected so. Any other error except out of memory reports that no such
    /// document is encoded at the beginning of the text, with one more token or the end after it,
    /// and is the first one of the text: what stands before it can begin such a document. The
    /// message is `Value out of range levels>{levels} ` at a document inside so many others, and at
    /// a name there.
    ///
    /// # Examples
    ///
    /// ```
    /// Some(levels) => Json::deserialize_json_whole_within(alloc, levels, text),
    /// ```
    pub fn deserialize_json_whole_within(
        alloc: Global,
        levels: usize,
        input: &str,
    ) -> Result<Json, DeJsonErr>
        ensures { WholeOrFirstError (level_codec levels).encoding.encodes input.now json_means result }
    {
        let mut state = DeJsonState::new(alloc);
        let mut characters = input.chars();
        state.next(&mut characters);
        if let Err(error) = state.next_tok(alloc, &mut characters) {
            return Err(as_value_error(error));
        }
        match read_json(alloc, levels, levels, &mut state, &mut characters) {
            Ok(document) => {
                expect_end(alloc, &state, input)?;
                Ok(document)
            }
            Err(error) => Err(as_value_error(error)),
        }
    }
}
