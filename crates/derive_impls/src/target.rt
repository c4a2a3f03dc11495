//! The type whose impls are written.

use crate::agreement::{Agreement, agreed, agreement_of};
use crate::bounds::opening;
use crate::fields::are_skipped;
use crate::held::are_deep;
use crate::parameters::{bounds, shape_types};
use crate::rows::NO_ROW;
use crate::sheet::Sheet;
use derive_syntax::{Attributes, Definition, Fault, Holes, Shape, Token, Type};
use std::alloc::{AllocError, Global};

/// The type whose impls are written.
#[derive(Drop)]
pub struct Target<'a> {
    /// Its name, with its parameters.
    pub full: String,
    /// The name of its row of fields or variants, with its parameters, or of the row of no fields.
    pub row: String,
    /// The name of the type of the values of its fields or of the content of its variants, with
    /// its parameters.
    pub values: String,
    /// The name of the type of references to that content, with a lifetime and its parameters.
    pub refs: String,
    /// The module that declares it, as ghost names say it.
    pub module: &'a str,
    /// Its name.
    pub name: Token<'a>,
    /// Its parameters, each alone.
    pub parameters: Vec<Token<'a>>,
    /// What opens each of its impls: its bounds, and a bracket.
    pub open: String,
    /// What stands above it.
    pub attributes: Attributes<'a>,
    /// The types that it contains and that contain it, with itself, if it contains itself.
    pub cycle: Vec<Token<'a>>,
    /// The one of them that each way back to it leads through, or itself.
    pub root: Token<'a>,
    /// What stands above that one.
    pub counted: Attributes<'a>,
    /// Whether a type parameter stands deep in what it is made of.
    pub(crate) is_deep: bool,
    /// The ghost terms for its codecs.
    pub(crate) agreement: Agreement,
}

impl<'a> Target<'a> {
    /// The type of a definition.
    pub fn new(
        sheet: &mut Sheet,
        module: &'a str,
        definition: &Definition<'a>,
    ) -> Result<Target<'a>, Fault> {
        Target::of(sheet, module, definition, false)
    }

    /// The type of a definition that contains itself: definitions of its own say its codecs.
    pub fn nested(
        sheet: &mut Sheet,
        module: &'a str,
        definition: &Definition<'a>,
    ) -> Result<Target<'a>, Fault> {
        Target::of(sheet, module, definition, true)
    }

    /// The type of a definition, which contains itself or does not.
    fn of(
        sheet: &mut Sheet,
        module: &'a str,
        definition: &Definition<'a>,
        is_nested: bool,
    ) -> Result<Target<'a>, Fault> {
        let alloc = sheet.alloc;
        let name = definition.name.text;
        let arguments = sheet.made(bounds(alloc, "", &definition.parameters, ""));
        let full = sheet.made(format!(in alloc; "{name}{arguments}"));
        let borrowed = sheet.made(bounds(alloc, "<'a", &definition.parameters, ""));
        Ok(Target {
            row: row_name(sheet, definition, arguments.as_str())?,
            values: type_name(sheet, name, "Values", arguments.as_str())?,
            refs: type_name(sheet, name, "Refs", borrowed.as_str())?,
            agreement: if is_nested {
                agreed(alloc)?
            } else {
                agreement_of(sheet, definition, full.as_str())?
            },
            parameters: definition.parameters.clone()?,
            open: opening(alloc, &definition.bounds)?,
            is_deep: are_deep(
                &definition.parameters,
                &shape_types(alloc, &definition.shape)?,
            ),
            full,
            module,
            name: definition.name,
            attributes: definition.attributes,
            cycle: Vec::new(alloc),
            root: definition.name,
            counted: definition.attributes,
        })
    }

    /// Whether a type holds values of it, or of one that each way back to it leads through.
    pub fn is_within(&self, of: Type<'a>) -> bool {
        of.parameter_of(&self.cycle).is_some()
    }

    /// Whether it is one of several types that contain each other.
    pub fn is_one_of_several(&self) -> bool {
        self.cycle.len() > 1
    }

    /// Whether each way back to it leads through another type.
    pub fn is_around(&self) -> bool {
        self.root.text != self.name.text
    }

    /// The holes that its names stand in.
    pub fn holes(&self, alloc: Global) -> Holes {
        let mut holes = Holes::new(alloc);
        holes.put("FULL", self.full.as_str());
        holes.put("TYPE", self.name.text);
        holes.put("ROW", self.row.as_str());
        holes.put("VALUES", self.values.as_str());
        holes.put("REFS", self.refs.as_str());
        holes.put("OPEN", self.open.as_str());
        holes
    }

    /// The holes that its names and its parameters stand in, each of which is a `Value`.
    pub(crate) fn bounded_holes(&self, sheet: &mut Sheet) -> Result<Holes, AllocError> {
        let mut holes = self.holes(sheet.alloc);
        let bound = sheet.short(": nano_schema::Value");
        let bounds = self.bounds(sheet.alloc, bound.as_str())?;
        holes.put("BOUNDS", bounds.as_str());
        let bound = sheet.short(": nano_schema::Value + 'a");
        let borrowed = self.borrowed_bounds(sheet.alloc, bound.as_str())?;
        holes.put("LIFETIME", borrowed.as_str());
        Ok(holes)
    }

    /// Its parameters with a bound each, in angle brackets, if there are any.
    pub(crate) fn bounds(&self, alloc: Global, bound: &str) -> Result<String, AllocError> {
        bounds(alloc, "", &self.parameters, bound)
    }

    /// A lifetime `'a` and its parameters with a bound each, in angle brackets.
    pub(crate) fn borrowed_bounds(&self, alloc: Global, bound: &str) -> Result<String, AllocError> {
        bounds(alloc, "<'a", &self.parameters, bound)
    }
}

/// The name of the row of a definition with these arguments, or of the one that has nothing.
fn row_name<'a>(
    sheet: &mut Sheet,
    definition: &Definition<'a>,
    arguments: &str,
) -> Result<String, AllocError> {
    let end = match &definition.shape {
        Shape::Variants(_) => "Variants",
        Shape::Fields(fields) if are_skipped(fields) => return Ok(sheet.short(NO_ROW)),
        _ => "Fields",
    };
    type_name(sheet, definition.name.text, end, arguments)
}

/// A free name that begins and ends so, with arguments.
fn type_name(
    sheet: &mut Sheet,
    name: &str,
    end: &str,
    arguments: &str,
) -> Result<String, AllocError> {
    let alloc = sheet.alloc;
    let wanted = sheet.made(format!(in alloc; "{name}{end}"));
    let mut text = sheet.names.take(alloc, wanted.as_str())?;
    sheet.add(&mut text, arguments);
    Ok(text)
}
