//! Lines as `rt fmt` leaves them: a list that fits stands on one line, and any other has a line
//! for each of its items.

use std::alloc::{AllocError, Global};

/// How many columns a line has.
pub const COLUMNS: usize = 100;
/// How many columns an argument has that need not stand on a line of its own.
const SHORT: usize = 10;
/// How far a line is indented within another.
const STEP: usize = 4;

/// A part of a program.
#[derive(Drop)]
pub struct Piece {
    /// On one line.
    pub flat: String,
    /// As it stands where the list around it has a line for each item.
    pub laid: String,
}

/// What the items of a list are.
#[derive(Clone, Copy, PartialEq)]
pub enum Items {
    /// Values of a tuple, or arguments of a call.
    Values,
    /// Types of a tuple.
    Types,
    /// Patterns, or arguments of a type.
    Patterns,
    /// Fields of a struct.
    Fields,
}

impl Items {
    /// How many columns they have on one line.
    fn most(self) -> usize {
        match self {
            Items::Values | Items::Types => 60,
            Items::Patterns => COLUMNS,
            Items::Fields => 18,
        }
    }
}

/// What stands around a list, and where.
#[derive(Clone, Copy)]
pub struct Brackets<'a> {
    /// What opens it.
    pub open: &'a str,
    /// What closes it.
    pub close: &'a str,
    /// What its items are.
    pub items: Items,
    /// How far the line is indented on which it begins.
    pub indent: usize,
    /// How many columns of that line come before it.
    pub before: usize,
    /// How many columns follow it on its last line.
    pub after: usize,
}

impl Piece {
    /// A part that stands on one line.
    pub fn of(alloc: Global, text: &str) -> Result<Piece, AllocError> {
        Ok(Piece {
            flat: String::from_str(alloc, text)?,
            laid: String::from_str(alloc, text)?,
        })
    }
}

/// A list: each item was laid for a line that is indented by one step more.
pub fn list(alloc: Global, brackets: Brackets<'_>, items: &[Piece]) -> Result<Piece, AllocError> {
    let flat = in_line(alloc, brackets, items)?;
    let width = width(flat.as_str());
    let around = width_of_brackets(brackets);
    let whole = width
        .saturating_add(brackets.before)
        .saturating_add(brackets.after);
    let laid = if width.saturating_sub(around) <= brackets.items.most() && whole <= COLUMNS {
        flat.clone()?
    } else if brackets.items == Items::Values && are_short(items) {
        filled(alloc, brackets, items, COLUMNS)?
    } else {
        in_lines(alloc, brackets, items)?
    };
    Ok(Piece { flat, laid })
}

/// How many columns a line of text has.
pub fn width(text: &str) -> usize {
    text.chars().count()
}

fn width_of_brackets(brackets: Brackets<'_>) -> usize {
    let spaces = if brackets.items == Items::Fields {
        2
    } else {
        0
    };
    width(brackets.open)
        .saturating_add(width(brackets.close))
        .saturating_add(spaces)
}

/// The list on one line.
pub(crate) fn in_line(
    alloc: Global,
    brackets: Brackets<'_>,
    items: &[Piece],
) -> Result<String, AllocError> {
    let space = if brackets.items == Items::Fields && !items.is_empty() {
        " "
    } else {
        ""
    };
    let mut output = String::from_str(alloc, brackets.open)?;
    output.push_str(space)?;
    let mut comma = "";
    for item in items {
        output.push_str(comma)?;
        output.push_str(item.flat.as_str())?;
        comma = ", ";
    }
    output.push_str(space)?;
    output.push_str(brackets.close)?;
    Ok(output)
}

/// The list with a line for each item.
fn in_lines(alloc: Global, brackets: Brackets<'_>, items: &[Piece]) -> Result<String, AllocError> {
    let mut output = String::from_str(alloc, brackets.open)?;
    for item in items {
        start_line(&mut output, brackets.indent.saturating_add(STEP))?;
        output.push_str(item.laid.as_str())?;
        output.push(',')?;
    }
    start_line(&mut output, brackets.indent)?;
    output.push_str(brackets.close)?;
    Ok(output)
}

/// Whether each item is so short that several stand on a line.
fn are_short(items: &[Piece]) -> bool {
    for item in items {
        if width(item.flat.as_str()) > SHORT {
            return false;
        }
    }
    items.len() > 1
}

/// The list with as many items on a line of so many columns as it has space for. The last item may
/// end where any line does.
pub(crate) fn filled(
    alloc: Global,
    brackets: Brackets<'_>,
    items: &[Piece],
    columns: usize,
) -> Result<String, AllocError> {
    let indent = brackets.indent.saturating_add(STEP);
    let mut output = String::from_str(alloc, brackets.open)?;
    let mut used = COLUMNS;
    for (i, item) in items.iter().enumerate() {
        let is_last = i.saturating_add(1) == items.len();
        let most = if is_last { COLUMNS } else { columns };
        let width = width(item.flat.as_str()).saturating_add(1);
        if used.saturating_add(width) >= most {
            start_line(&mut output, indent)?;
            used = indent.saturating_add(width);
        } else {
            output.push(' ')?;
            used = used.saturating_add(width).saturating_add(1);
        }
        output.push_str(item.flat.as_str())?;
        output.push(',')?;
    }
    start_line(&mut output, brackets.indent)?;
    output.push_str(brackets.close)?;
    Ok(output)
}

/// Begins a line.
pub(crate) fn start_line(output: &mut String, indent: usize) -> Result<(), AllocError> {
    output.push('\n')?;
    for _column in 0..indent {
        output.push(' ')?;
    }
    Ok(())
}
