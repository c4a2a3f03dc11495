//! Rows of fields, nested in pairs so that the way to none of them is long.

use crate::layout::{Brackets, COLUMNS, Items, Piece, list, start_line, width};
use crate::sheet::Sheet;
use std::alloc::{AllocError, Global};

/// What stands around an item: a list of a label and the item.
#[derive(Drop)]
pub struct Around {
    /// What opens the list.
    pub open: String,
    /// The label.
    pub label: String,
}

/// One item of a row: a text, or a list between brackets.
#[derive(Drop)]
pub struct Leaf {
    /// What opens the list, or nothing.
    pub open: String,
    /// The text, or the items of the list.
    pub texts: Vec<String>,
    /// What closes the list, or nothing.
    pub close: &'static str,
    /// What stands around the list, from within.
    pub around: Vec<Around>,
}

impl Leaf {
    /// A text.
    pub fn of(alloc: Global, text: String) -> Result<Leaf, AllocError> {
        let mut texts = Vec::new(alloc);
        texts.push(text)?;
        Ok(Leaf {
            open: String::new(alloc),
            texts,
            close: "",
            around: Vec::new(alloc),
        })
    }

    /// It as it stands on a line that is indented so far, after so many columns of it.
    pub fn piece(&self, alloc: Global, indent: usize, before: usize) -> Result<Piece, AllocError> {
        let mut pieces = Vec::new(alloc);
        for text in &self.texts {
            pieces.push(Piece::of(alloc, text.as_str())?)?;
        }
        if self.open.is_empty() {
            if let Some(piece) = pieces.pop() {
                return Ok(piece);
            }
        }
        let mut level = self.around.len();
        let brackets = Brackets {
            open: self.open.as_str(),
            close: self.close,
            ..within(level, indent, before)
        };
        let mut piece = list(alloc, brackets, &pieces)?;
        for around in &self.around {
            level = level.saturating_sub(1);
            let brackets = Brackets {
                open: around.open.as_str(),
                ..within(level, indent, before)
            };
            let label = Piece::of(alloc, around.label.as_str())?;
            piece = list(alloc, brackets, &[label, piece])?;
        }
        Ok(piece)
    }
}

/// What stands around the arguments of a type, so many lists within one that begins after so many
/// columns of a line that is indented so far.
fn within<'a>(level: usize, indent: usize, before: usize) -> Brackets<'a> {
    let inner = indent.saturating_add(level.saturating_mul(4));
    Brackets {
        open: "<",
        close: ">",
        items: Items::Patterns,
        indent: inner,
        before: if level == 0 { before } else { inner },
        after: 1,
    }
}

/// The row of no fields.
pub(crate) const NO_ROW: &str = "nano_schema::Unit";

/// Appends the name of a type that is nested pairs of these, if there are any.
pub fn append_row(sheet: &mut Sheet, name: &str, leaves: &[Leaf]) -> Result<(), AllocError> {
    if leaves.is_empty() {
        return Ok(());
    }
    let before = name.len().saturating_add("type  = ".len());
    let row = pairs(sheet.alloc, leaves, Items::Types, 0, before)?;
    sheet.alias(name, row.laid.as_str());
    Ok(())
}

/// Texts as nested pairs, on a line that is indented so far, after so many columns of it.
pub fn paired(
    alloc: Global,
    texts: Vec<String>,
    items: Items,
    indent: usize,
    before: usize,
) -> Result<Piece, AllocError> {
    let mut leaves = Vec::new(alloc);
    for text in texts {
        leaves.push(Leaf::of(alloc, text)?)?;
    }
    pairs(alloc, &leaves, items, indent, before)
}

/// The leaves as nested pairs: half of them, and the other half. They begin a line that is indented
/// so far, after so many columns of it.
fn pairs(
    alloc: Global,
    leaves: &[Leaf],
    items: Items,
    indent: usize,
    before: usize,
) -> Result<Piece, AllocError> {
    if let [leaf] = leaves {
        return leaf.piece(alloc, indent, before);
    }
    let (first, second) = leaves.split_at(leaves.len() / 2);
    if leaves.is_empty() {
        return Piece::of(alloc, "()");
    }
    let inner = indent.saturating_add(4);
    let halves = [
        pairs(alloc, first, items, inner, inner)?,
        pairs(alloc, second, items, inner, inner)?,
    ];
    let brackets = Brackets {
        open: "(",
        close: ")",
        items,
        indent,
        before,
        after: 1,
    };
    list(alloc, brackets, &halves)
}

/// The texts as nested pairs of a ghost term: each pair with something before it, and something
/// between its two.
pub(crate) fn ghost_pairs(
    alloc: Global,
    texts: &[String],
    before: &str,
    between: &str,
) -> Result<String, AllocError> {
    if let [text] = texts {
        return text.clone();
    }
    let (first, second) = texts.split_at(texts.len() / 2);
    if texts.is_empty() {
        return String::from_str(alloc, "tt");
    }
    let first = ghost_pairs(alloc, first, before, between)?;
    let second = ghost_pairs(alloc, second, before, between)?;
    format!(in alloc; "({before}{first}{between}{second})")
}

/// The texts as nested pairs of a ghost term, after so many columns of a line that is indented so
/// far and before some more. A pair that does not fit has a line for each of its two.
pub(crate) fn laid_pairs(
    alloc: Global,
    texts: &[String],
    indent: usize,
    (before, after): (usize, usize),
) -> Result<String, AllocError> {
    let flat = ghost_pairs(alloc, texts, "", ", ")?;
    let used = before.saturating_add(width(flat.as_str()));
    if texts.len() < 2 || used.saturating_add(after) <= COLUMNS {
        return Ok(flat);
    }
    let (first, second) = texts.split_at(texts.len() / 2);
    let inner = indent.saturating_add(2);
    let first = laid_pairs(alloc, first, inner, (inner, 1))?;
    let second = laid_pairs(alloc, second, inner, (inner, 1))?;
    in_lines(alloc, &[first, second], indent)
}

/// A tuple of a ghost term with a line for each item, on a line that is indented so far.
fn in_lines(alloc: Global, items: &[String], indent: usize) -> Result<String, AllocError> {
    let mut text = String::from_str(alloc, "(")?;
    for item in items {
        start_line(&mut text, indent.saturating_add(2))?;
        text.push_str(item.as_str())?;
        text.push(',')?;
    }
    start_line(&mut text, indent)?;
    text.push(')')?;
    Ok(text)
}
