//! Reads values: scalars and arrays.

ghost use Rattle.std.specs.Prelude.{◌≡◌, [], IfOk, IfErr, Some, None};
ghost use Rattle.nano_toml.specs.Data.{no_values, view, values_view};
ghost use Rattle.nano_toml.specs.Place.{ParsesNothing, close_all, array_prefix, value_prefix};
ghost use Rattle.nano_toml.specs.Place.{remaining};
ghost use Rattle.nano_toml.specs.Outcomes.{OnFault, ParsesValue};
ghost use Rattle.nano_toml.specs.Reading.{scalar_at, arrays_view, token_of};
ghost use Rattle.nano_toml.specs.Stops.{StopsAt};

use crate::fault::Fault;
use crate::statements::Reader;
use crate::token::TomlTok;
use crate::value::Toml;
use std::alloc::AllocFailed;
use std::mem;

// The value that is one token, or the token again.
fn scalar(tok: TomlTok) -> Result<Toml, TomlTok>
    ensures found { IfOk result (λ value. scalar_at (token_of tok) ≡ Some (view value)) }
    ensures rejected { IfErr result (λ _. scalar_at (token_of tok) ≡ None) }
    ensures same { IfErr result (λ again. again ≡ tok) }
{
    match tok {
        TomlTok::Str(text) => Ok(Toml::Str(text)),
        TomlTok::U64(number) => Ok(Toml::Num(i128::from(number))),
        TomlTok::I64(number) => Ok(Toml::Num(i128::from(number))),
        TomlTok::F64(text) => Ok(Toml::Dec(text)),
        TomlTok::Bool(value) => Ok(Toml::Bool(value)),
        TomlTok::Nan(minus) => Ok(Toml::Nan(minus)),
        TomlTok::Inf(minus) => Ok(Toml::Inf(minus)),
        TomlTok::Date(text) => Ok(Toml::Date(text)),
        tok => Err(tok),
    }
}

// Closes the arrays around an array, the innermost first.
fn close_all(mut outer: Vec<Vec<Toml>>, mut here: Vec<Toml>) -> Result<Toml, AllocFailed<Toml>>
    ensures { IfOk result
        (λ value. view value ≡ close_all (arrays_view outer.items []) (values_view here.items)) }
{
    'arrays: while let Some(mut around) = outer.pop() {
        around.push(Toml::SimpleArray(here))?;
        here = around;
    }
    Ok(Toml::SimpleArray(here))
}

impl<'a> Reader<'a> {
    // The rest of an array after its bracket. The arrays that are still open stand in a vector, so
    // that depth takes memory and no stack.
    fn read_array(&mut self) -> Result<Toml, Fault>
        ensures found { ParsesValue result (array_prefix [] no_values)
            (remaining self.old.cursor) (remaining self.new.cursor) }
        ensures rejected { OnFault result
            (ParsesNothing (array_prefix [] no_values) (remaining self.old.cursor)) }
        ensures stops { StopsAt result (array_prefix [] no_values)
            (remaining self.old.cursor) (remaining self.new.cursor) }
    {
        let mut outer: Vec<Vec<Toml>> = Vec::new(self.alloc);
        let mut here: Vec<Toml> = Vec::new(self.alloc);
        'tokens: loop {
            match self.read_token()? {
                TomlTok::Comma => {}
                TomlTok::BlockOpen => {
                    outer.push(mem::replace(&mut here, Vec::new(self.alloc)))?;
                }
                TomlTok::BlockClose => match outer.pop() {
                    None => return Ok(Toml::SimpleArray(here)),
                    Some(mut around) => {
                        around.push(Toml::SimpleArray(here))?;
                        here = around;
                    }
                },
                TomlTok::Eof => return Ok(close_all(outer, here)?),
                tok => match scalar(tok) {
                    Ok(value) => here.push(value)?,
                    Err(tok) => return Err(Fault::Unexpected(tok)),
                },
            }
        }
    }

    // A value.
    pub(crate) fn read_value(&mut self) -> Result<Toml, Fault>
        ensures found { ParsesValue result value_prefix
            (remaining self.old.cursor) (remaining self.new.cursor) }
        ensures rejected { OnFault result (ParsesNothing value_prefix (remaining self.old.cursor)) }
        ensures stops { StopsAt result value_prefix
            (remaining self.old.cursor) (remaining self.new.cursor) }
    {
        match self.read_token()? {
            TomlTok::BlockOpen => self.read_array(),
            tok => match scalar(tok) {
                Ok(value) => Ok(value),
                Err(tok) => Err(Fault::Unexpected(tok)),
            },
        }
    }
}
