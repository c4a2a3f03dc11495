//! Which words ask for what.

ghost use Rattle.std.specs.Prelude.{◌≡◌, ◌≢◌, ◌↔◌, ℕ, List, [], ◌∷◌, map, All, IsTrue, IfOk};
ghost use Rattle.std.specs.Prelude.{IfSome, IfNone, codes};
ghost use Rattle.std.specs.Option.{SomeIff};
ghost use Rattle.std.specs.Str.Parse.{digits_value};
ghost use Rattle.nano_show_answers.specs.Requests.{texts, IsU16, AskFor, AskForNothing, form_name};
ghost use Rattle.nano_show_answers.specs.Requests.{kind_name, request_of, IsSound};

use std::alloc::{AllocError, Global};

/// A format that normal forms are shown in, and how much of the input is to be a value.
#[derive(Clone, Copy)]
pub enum Form {
    /// JSON, whose beginning is a value.
    Json,
    /// RON, whose beginning is a value.
    Ron,
    /// Bytes, of which a prefix is a value.
    Bin,
    /// JSON that is one value and nothing else.
    JsonWhole,
    /// RON that is one value and nothing else.
    RonWhole,
    /// Bytes that are one value and nothing else.
    BinWhole,
}

/// A type whose values are shown.
#[derive(Clone, Copy)]
pub enum Kind {
    /// `u8`.
    U8,
    /// `u32`.
    U32,
    /// `u64`.
    U64,
    /// `i32`.
    I32,
    /// `i64`.
    I64,
    /// `bool`.
    Bool,
    /// `String`.
    Text,
    /// `Vec<u8>`.
    Bytes,
    /// `HashSet<i32>`.
    Set,
    /// `HashMap<String, i32>`.
    Map,
    /// `BTreeMap<String, i32>`.
    Tree,
    /// `Item` of `nanoserde::records`.
    Item,
    /// `Choice` of `nanoserde::records`.
    Choice,
}

impl Form {
    /// The format of this name.
    fn of(word: &str) -> Option<Form>
        ensures some { IfSome result (λ form. word.now ≡ form_name form) }
        ensures none { IfNone result ((form : _) → word.now ≢ form_name form) }
    {
        match word {
            "json" => Some(Form::Json),
            "ron" => Some(Form::Ron),
            "bin" => Some(Form::Bin),
            "json-whole" => Some(Form::JsonWhole),
            "ron-whole" => Some(Form::RonWhole),
            "bin-whole" => Some(Form::BinWhole),
            _ => None,
        }
    }
}

impl Kind {
    /// The type of this name.
    fn of(word: &str) -> Option<Kind>
        ensures some { IfSome result (λ kind. word.now ≡ kind_name kind) }
        ensures none { IfNone result ((kind : _) → word.now ≢ kind_name kind) }
    {
        match word {
            "u8" => Some(Kind::U8),
            "u32" => Some(Kind::U32),
            "u64" => Some(Kind::U64),
            "i32" => Some(Kind::I32),
            "i64" => Some(Kind::I64),
            "bool" => Some(Kind::Bool),
            "string" => Some(Kind::Text),
            "bytes" => Some(Kind::Bytes),
            "set" => Some(Kind::Set),
            "map" => Some(Kind::Map),
            "tree" => Some(Kind::Tree),
            "item" => Some(Kind::Item),
            "choice" => Some(Kind::Choice),
            _ => None,
        }
    }
}

/// Words that were understood.
#[derive(Clone, Copy)]
pub(crate) enum Command<'a> {
    /// The code of the numbers that these numerals write.
    CodeU16s(&'a [String]),
    /// The code of this text, or of none.
    CodeText(Option<&'a str>),
    /// The normal form of the input, in this format and of this type.
    Normal(Form, Kind),
    /// The listing of the table that the input encodes.
    Listing,
}

impl<'a> Command<'a> {
    /// What the words ask for, or `None` where the program does not know them. It takes no
    /// memory, so wrong words are found before an allocation can fail.
    pub(crate) fn parse(words: &'a [String]) -> Option<Command<'a>>
        ensures known { IfSome result (λ command. AskFor (texts words.now) (request_of command)) }
        ensures sound { IfSome result IsSound }
        ensures unknown { IfNone result (AskForNothing (texts words.now)) }
    {
        if let Some(rest) = following(words, "code") {
            return Command::parse_code(rest);
        }
        match words {
            [word] => Command::parse_one(word.as_str()),
            [form, kind] => {
                let form = Form::of(form.as_str())?;
                let kind = Kind::of(kind.as_str())?;
                Some(Command::Normal(form, kind))
            }
            _ => None,
        }
    }

    /// What this word alone asks for.
    fn parse_one(word: &str) -> Option<Command<'a>>
        ensures known { IfSome result (λ command. AskFor (word.now ∷ []) (request_of command)) }
        ensures sound { IfSome result IsSound }
        ensures unknown { IfNone result (word.now ≢ codes "toml") }
    {
        match word {
            "toml" => Some(Command::Listing),
            _ => None,
        }
    }

    /// What `code` and these words after it ask for.
    fn parse_code(words: &'a [String]) -> Option<Command<'a>>
        ensures known { IfSome result (λ command.
            AskFor (codes "code" ∷ texts words.now) (request_of command)) }
        ensures sound { IfSome result IsSound }
        ensures unknown { IfNone result (AskForNothing (codes "code" ∷ texts words.now)) }
    {
        if let Some(numerals) = following(words, "u16s") {
            if are_u16s(numerals) {
                return Some(Command::CodeU16s(numerals));
            }
            return None;
        }
        match following(words, "text")? {
            [] => Some(Command::CodeText(None)),
            [text] => Some(Command::CodeText(Some(text.as_str()))),
            _ => None,
        }
    }
}

/// The words after the first one, where that is `word`.
fn following<'a>(words: &'a [String], word: &str) -> Option<&'a [String]>
    ensures some { IfSome result (λ rest. texts words.now ≡ word.now ∷ texts rest.now) }
    ensures none { IfNone result ((rest : List (List ℕ)) → texts words.now ≢ word.now ∷ rest) }
{
    let (first, rest) = words.split_first()?;
    if first.as_str() == word {
        Some(rest)
    } else {
        None
    }
}

/// Whether each word is a numeral of a `u16`.
fn are_u16s(words: &[String]) -> bool
    ensures { IsTrue result ↔ All IsU16 (texts words.now) }
{
    for word in words {
        if number(word.as_str()).is_none() {
            return false;
        }
    }
    true
}

/// The numbers that the numerals write.
pub(crate) fn numbers(alloc: Global, numerals: &[String]) -> Result<Vec<u16>, AllocError>
    requires { All IsU16 (texts numerals.now) }
    ensures { IfOk result (λ numbers. numbers.items ≡ map (digits_value 10) (texts numerals.now)) }
{
    let mut numbers = Vec::with_capacity(alloc, numerals.len())?;
    for numeral in numerals {
        let number = number(numeral.as_str()).unwrap();
        numbers.push(number)?;
    }
    Ok(numbers)
}

/// The number that a numeral writes, where a `u16` has it. A sign is no part of a numeral.
fn number(word: &str) -> Option<u16>
    ensures { SomeIff result (IsU16 word.now) (digits_value 10 word.now) }
{
    // `parse` takes a plus.
    if word.starts_with('+') {
        return None;
    }
    word.parse().ok()
}
