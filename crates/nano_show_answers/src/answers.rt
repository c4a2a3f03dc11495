//! From words and input to the answer that is written.

ghost use Rattle.std.specs.Prelude.{◌⊎◌, ◌≡◌, ◌≢◌, ◌↔◌, ℕ, List, All, map, option_map, IfSome};
ghost use Rattle.std.specs.Prelude.{IfOk, IfErr, OnOk, OnErr, IsErrOf};
ghost use Rattle.std.specs.Io.KnownBytes.{Appends, IsAtEnd};
ghost use Rattle.std.specs.Str.Parse.{digits_value};
ghost use Rattle.nano_bin.specs.Scalars.{little_endian};
ghost use Rattle.nano_bin.specs.Containers.{written_list, written_option, written_text};
ghost use Rattle.nano_show_answers.specs.Requests.{texts, IsU16, AskForNothing, AskForNoInput};
ghost use Rattle.nano_show_answers.specs.Requests.{request_of, IsSound, TakesNoInput};
ghost use Rattle.nano_show_answers.specs.Answer.{IsAnswerTo, HasNoAnswerTo, IsFaultOf, HasNoAnswer};
ghost use Rattle.nano_show_answers.specs.Answer.{WritesAnswer, WritesUpTo, WritesBeginning};
ghost use Rattle.nano_show_answers.specs.Listing.{hex_pairs, line};

use crate::fault::ShowFault;
use crate::listing::listing_of;
use crate::normal::normal_line;
use crate::pairs::hex_line;
use crate::shown::{Named, Types};
use crate::words::{Command, numbers};
use nanoserde::SerBin;
use std::alloc::{AllocError, Global};
use std::io::{ErrorKind, Read, Write};

/// Writes the answer to the words and the input, with a line feed after each line.
///
/// | Words | Input | Written |
/// |---|---|---|
/// | `code u16s N..` | not read | the code of the numbers as a `Vec<u16>`, in pairs |
/// | `code text [WORD]` | not read | that of `Some(WORD)`, or `None` without a word, in pairs |
/// | `json TYPE`, `ron TYPE` | a text | the normal form of the value that it begins with |
/// | `bin TYPE` | bytes | that of the value that they begin with, in pairs |
/// | `toml` | a text | the listing of the table that it encodes |
/// | `json-whole TYPE`, `ron-whole TYPE` | a text | the normal form of the value that it is |
/// | `bin-whole TYPE` | bytes | that of the value that they are, in pairs |
///
/// Bytes are shown in pairs of lower-case hexadecimal digits, with one space between. `N` is
/// one or more ASCII digits of value 0 to 65535; there may be none. `TYPE` is `u8`, `u32`,
/// `u64`, `i32`, `i64`, `bool`, `string`, `bytes` (`Vec<u8>`), `set` (`HashSet<i32>`), `map`
/// (`HashMap<String, i32>`), `tree` (`BTreeMap<String, i32>`), or `item` or `choice` of
/// `nanoserde::records`. An input is read to its end, with no limit but memory.
///
/// A text ends before its first NUL. After the value that it begins with, one more token or the
/// end is cut, so `json u32` answers `42` to `42 43`. A text that is a value holds no NUL, and
/// the end comes after the value; bytes that are one are used up.
///
/// A listing has a line `KEY = VALUE` for each key of the table, in ascending order of their
/// bytes; an empty table has none. A key and a text are written as JSON strings, a whole number
/// in decimal, a decimal as `dec TEXT`, a date as `date TEXT`, the others as `true`, `false`,
/// `nan`, `-nan`, `inf`, `-inf`, and a list as its values between `[` and `]`, with `, `
/// between them. Tables in an array are `tables COUNT`. After that line come those of each
/// table in order, as `KEY[I] SUBKEY = VALUE` with `I` from 0 on.
///
/// Faults are found in this order: `Usage` for words that are in no row, `Stream` for a read
/// that fails, `Refused` for a text that is not UTF-8 and then for an input that begins with no
/// value of the type, is none, or encodes no table, `Stream` for a write that fails or takes
/// nothing. `Memory` may come instead of an answer at any step before the first write. Nothing
/// is written before the answer is whole, so only after `Stream` something may have been
/// written: a prefix of the answer. A read or a write that was interrupted is tried again.
/// `output` is not flushed.
pub fn run<R: Read, W: Write>(
    alloc: Global,
    words: &[String],
    input: &mut R,
    output: &mut W,
) -> Result<(), ShowFault>
    ensures answered { OnOk result (WritesAnswer ⟦<Types as Named>⟧.types (texts words.now)
        (R.remaining input.old) (W.contents output.old) (W.contents output.new)) }
    ensures begun { IsErrOf result ShowFault.Stream → (output.new ≡ output.old)
        ⊎ WritesBeginning ⟦<Types as Named>⟧.types (texts words.now) (R.remaining input.old)
        (R.remaining input.new) (W.contents output.old) (W.contents output.new) }
    ensures rejected { IfErr result (λ fault. (reason : _) → fault ≡ ShowFault.Refused reason
        → HasNoAnswer ⟦<Types as Named>⟧.types (texts words.now) (R.remaining input.old)) }
    ensures usage { IsErrOf result ShowFault.Usage ↔ AskForNothing (texts words.now) }
    ensures unwritten { IfErr result (λ fault. fault ≢ ShowFault.Stream → output.new ≡ output.old) }
    ensures unread { AskForNoInput (texts words.now) → input.new ≡ input.old }
{
    let command = Command::parse(words).ok_or(ShowFault::Usage)?;
    let answer = answer(alloc, command, input)?;
    write_whole(output, &answer)
}

/// The answer to a command, whole. A command that takes input reads it to its end.
fn answer<R: Read>(alloc: Global, command: Command<'_>, input: &mut R) -> Result<Vec<u8>, ShowFault>
    requires { IsSound command }
    ensures answered { IfOk result (λ answer.
        IsAnswerTo ⟦<Types as Named>⟧.types (request_of command.entry) (R.remaining input.old)
        answer.items) }
    ensures fault { IfErr result (IsFaultOf
        (HasNoAnswerTo ⟦<Types as Named>⟧.types (request_of command.entry)
        (R.remaining input.old))) }
    ensures ended { OnOk result
        ((TakesNoInput command.entry → ⊥) → IsAtEnd (R.remaining input.new)) }
    ensures unread { TakesNoInput command.entry → input.new ≡ input.old }
{
    match command {
        Command::CodeU16s(numerals) => Ok(u16s_line(alloc, numerals)?),
        Command::CodeText(text) => Ok(text_line(alloc, text)?),
        Command::Normal(form, kind) => {
            let bytes = read_whole(alloc, input)?;
            normal_line(alloc, form, kind, &bytes)
        }
        Command::Listing => {
            let bytes = read_whole(alloc, input)?;
            listing_of(alloc, &bytes)
        }
    }
}

/// The code of the numbers that these numerals write, in pairs.
fn u16s_line(alloc: Global, numerals: &[String]) -> Result<Vec<u8>, AllocError>
    requires { All IsU16 (texts numerals.now) }
    ensures { IfOk result (λ answer. answer.items ≡ line (hex_pairs
        (written_list (little_endian 2) (map (digits_value 10) (texts numerals.now))))) }
{
    let code = numbers(alloc, numerals)?.serialize_bin(alloc)?;
    hex_line(alloc, &code)
}

/// The code of a text that may be absent, in pairs.
fn text_line(alloc: Global, text: Option<&str>) -> Result<Vec<u8>, AllocError>
    ensures { IfOk result (λ answer. answer.items ≡ line (hex_pairs
        (written_option written_text (option_map (λ word. word.now) text.entry)))) }
{
    let code = match text {
        Some(text) => Some(String::from_str(alloc, text)?).serialize_bin(alloc)?,
        None => None::<String>.serialize_bin(alloc)?,
    };
    hex_line(alloc, &code)
}

/// The input up to its end. A read that was interrupted is tried again.
fn read_whole<R: Read>(alloc: Global, input: &mut R) -> Result<Vec<u8>, ShowFault>
    ensures bytes { IfOk result (λ bytes.
        IfSome (R.remaining input.old) (λ known. bytes.items ≡ known)) }
    ensures ended { OnOk result (IsAtEnd (R.remaining input.new)) }
    ensures fault { IfErr result (IsFaultOf ⊥) }
{
    let mut bytes = Vec::new(alloc);
    match input.read_to_end(&mut bytes) {
        Ok(_) => Ok(bytes),
        Err(error) if error.kind() == ErrorKind::OutOfMemory => Err(ShowFault::Memory),
        Err(_) => Err(ShowFault::Stream),
    }
}

/// Writes all of the bytes, in as many writes as it takes. After a fault, a prefix of them was
/// written.
fn write_whole<W: Write>(output: &mut W, bytes: &[u8]) -> Result<(), ShowFault>
    ensures ok { OnOk result
        (Appends (W.contents output.old) (W.contents output.new) bytes.now) }
    ensures err { OnErr result ((rest : List ℕ)
        × WritesUpTo rest (W.contents output.old) (W.contents output.new) bytes.now) }
    ensures stream { IfErr result (λ fault. fault ≡ ShowFault.Stream) }
{
    let mut rest = bytes;

    // Each write may be interrupted anew, so the tries are counted.
    'writes: for _ in 0..u64::MAX {
        if rest.is_empty() {
            return Ok(());
        }
        match output.write(rest) {
            Ok(0) => return Err(ShowFault::Stream),
            Ok(count) => rest = &rest[count..],
            Err(error) => {
                if error.kind() != ErrorKind::Interrupted {
                    return Err(ShowFault::Stream);
                }
            }
        }
    }
    Err(ShowFault::Stream)
}
