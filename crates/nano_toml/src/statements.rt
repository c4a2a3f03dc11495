//! Reads statements, token by token.

ghost use Rattle.std.specs.Prelude.{◌≡◌, ◌≢◌, ◌<◌, IfOk, IfErr, IfSome, OnOk, option_map, length};
ghost use Rattle.nano_toml.specs.StatementTable.{IsPlain};
ghost use Rattle.nano_toml.specs.Cut.{Cut, CutsNothing};
ghost use Rattle.nano_toml.specs.Place.{Parses, ParsesNothing, ClosesNothing, close_prefix};
ghost use Rattle.nano_toml.specs.Place.{pair_prefix, scope_prefix, element_prefix, header_prefix};
ghost use Rattle.nano_toml.specs.Place.{statement_prefix, remaining, remaining_text};
ghost use Rattle.nano_toml.specs.Outcomes.{OnFault, ParsesStatement};
ghost use Rattle.nano_toml.specs.Reading.{name_view, statement_view, IsNext, EncodesNothing};
ghost use Rattle.nano_toml.specs.Reading.{token_of, Took};
ghost use Rattle.nano_toml.specs.Stops.{Breaks, Rejects, StandsNext, StopsAt};
ghost use Rattle.nano_toml.specs.Token.{close_bracket};
ghost use Rattle.nano_toml.specs.declared.fault.Fault.TheVariants.{Memory};

use crate::fault::Fault;
use crate::state::Cursor;
use crate::token::TomlTok;
use crate::value::Toml;
use std::alloc::Global;

/// A name of a text.
#[derive(Drop)]
pub(crate) enum Name<'a> {
    /// A word of the text.
    Word(&'a str),
    /// The characters of a string.
    Quoted(String),
}

impl<'a> Name<'a> {
    /// Its characters.
    pub(crate) fn as_str(&self) -> &str
        ensures { result.now ≡ name_view self.now }
    {
        match self {
            Name::Word(word) => *word,
            Name::Quoted(text) => text.as_str(),
        }
    }
}

/// A statement of a text.
#[derive(Drop)]
pub(crate) enum Statement<'a> {
    /// `[name]`
    Scope(Name<'a>),
    /// `[[key]]`
    Element(&'a str),
    /// `name = value`
    Pair(Name<'a>, Toml),
}

/// A text as far as it was read.
#[derive(Drop)]
pub(crate) struct Reader<'a> {
    pub(crate) alloc: Global,
    pub(crate) cursor: Cursor<'a>,
}

impl<'a> Reader<'a> {
    /// A reader at the start of a text.
    pub(crate) fn new(alloc: Global, input: &'a str) -> Reader<'a>
        ensures { remaining result.cursor ≡ remaining_text input.now }
    {
        Reader {
            alloc,
            cursor: Cursor::new(input),
        }
    }

    // The next token, or the end.
    pub(crate) fn read_token(&mut self) -> Result<TomlTok, Fault>
        ensures cut { IfOk result
            (λ t. Took (remaining self.old.cursor) (token_of t) (remaining self.new.cursor)) }
        ensures rejected { OnFault result (CutsNothing (remaining self.old.cursor)) }
        ensures broken { IfErr result
            (λ e. e ≢ Memory → Breaks e (remaining self.old.cursor) (remaining self.new.cursor)) }
    {
        self.cursor.next_tok(self.alloc)
    }

    // The fault of a text in which something else was expected here. It is a separate, cold
    // function, so that no space is reserved for it where nothing is wrong.
    #[cold]
    #[inline(never)]
    fn unexpected(&mut self) -> Fault
        ensures { StandsNext result (remaining self.old.cursor) (remaining self.new.cursor) }
    {
        match self.read_token() {
            Ok(tok) => Fault::Unexpected(tok),
            Err(fault) => fault,
        }
    }

    // A closing bracket.
    fn read_close_bracket(&mut self) -> Result<(), Fault>
        ensures cut { OnOk result
            (Cut (remaining self.old.cursor) close_bracket (remaining self.new.cursor)) }
        ensures rejected { OnFault result (ClosesNothing (remaining self.old.cursor)) }
        ensures rejects { IfErr result (λ e. e ≢ Memory
            → Rejects close_prefix e (remaining self.old.cursor) (remaining self.new.cursor)) }
    {
        if !self.cursor.next_separator(b']') {
            return Err(self.unexpected());
        }
        Ok(())
    }

    // The rest of a pair after its name.
    fn read_pair(&mut self, name: Name<'a>) -> Result<Statement<'a>, Fault>
        ensures found { ParsesStatement result (pair_prefix (name_view name.entry))
            (remaining self.old.cursor) (remaining self.new.cursor) }
        ensures rejected { OnFault result
            (ParsesNothing (pair_prefix (name_view name.entry)) (remaining self.old.cursor)) }
        ensures stops { StopsAt result (pair_prefix (name_view name.entry))
            (remaining self.old.cursor) (remaining self.new.cursor) }
    {
        if !self.cursor.next_separator(b'=') {
            return Err(self.unexpected());
        }
        let value = self.read_value()?;
        Ok(Statement::Pair(name, value))
    }

    // The rest of a scope after its name.
    fn read_scope(&mut self, name: Name<'a>) -> Result<Statement<'a>, Fault>
        ensures found { ParsesStatement result (scope_prefix (name_view name.entry))
            (remaining self.old.cursor) (remaining self.new.cursor) }
        ensures rejected { OnFault result
            (ParsesNothing (scope_prefix (name_view name.entry)) (remaining self.old.cursor)) }
        ensures stops { StopsAt result (scope_prefix (name_view name.entry))
            (remaining self.old.cursor) (remaining self.new.cursor) }
    {
        self.read_close_bracket()?;
        Ok(Statement::Scope(name))
    }

    // The rest of an element's header after its two brackets.
    fn read_element(&mut self) -> Result<Statement<'a>, Fault>
        ensures found { ParsesStatement result element_prefix
            (remaining self.old.cursor) (remaining self.new.cursor) }
        ensures rejected { OnFault result
            (ParsesNothing element_prefix (remaining self.old.cursor)) }
        ensures stops { StopsAt result element_prefix
            (remaining self.old.cursor) (remaining self.new.cursor) }
    {
        let Some(key) = self.cursor.next_name() else {
            return Err(Fault::Unexpected(self.read_token()?));
        };
        self.read_close_bracket()?;
        self.read_close_bracket()?;
        Ok(Statement::Element(key))
    }

    // The rest of a header after its first bracket.
    fn read_header(&mut self) -> Result<Statement<'a>, Fault>
        ensures found { ParsesStatement result header_prefix
            (remaining self.old.cursor) (remaining self.new.cursor) }
        ensures rejected { OnFault result
            (ParsesNothing header_prefix (remaining self.old.cursor)) }
        ensures stops { StopsAt result header_prefix
            (remaining self.old.cursor) (remaining self.new.cursor) }
    {
        if let Some(name) = self.cursor.next_name() {
            return self.read_scope(Name::Word(name));
        }
        if self.cursor.next_separator(b'[') {
            return self.read_element();
        }
        match self.read_token()? {
            TomlTok::Str(name) => self.read_scope(Name::Quoted(name)),
            tok => Err(Fault::Unexpected(tok)),
        }
    }

    /// The next statement, or none at the end of the text.
    pub(crate) fn read_statement(&mut self) -> Result<Option<Statement<'a>>, Fault>
        ensures found { IfOk result (λ s. IsNext
            (remaining self.old.cursor) (option_map statement_view s) (remaining self.new.cursor)) }
        ensures rejected { OnFault result (EncodesNothing (remaining self.old.cursor)) }
        ensures stops { StopsAt result statement_prefix
            (remaining self.old.cursor) (remaining self.new.cursor) }
        ensures reads { IfOk result (λ s. IfSome s (λ s. Parses statement_prefix
            (remaining self.old.cursor) (statement_view s) (remaining self.new.cursor))) }
        ensures plain { IfOk result (λ s. IfSome s (λ s. IsPlain (statement_view s))) }
        ensures shorter { IfOk result (λ s. IfSome s
            (λ _. length (remaining self.new.cursor) < length (remaining self.old.cursor))) }
    {
        if let Some(name) = self.cursor.next_name() {
            return Ok(Some(self.read_pair(Name::Word(name))?));
        }
        if self.cursor.next_separator(b'[') {
            return Ok(Some(self.read_header()?));
        }
        match self.read_token()? {
            TomlTok::Eof => Ok(None),
            TomlTok::Str(name) => Ok(Some(self.read_pair(Name::Quoted(name))?)),
            tok => Err(Fault::Unexpected(tok)),
        }
    }
}
