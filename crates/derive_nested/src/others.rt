//! Other user-defined types within one that contains itself: what is said of a value of such a type
//! is what its impls say.

use crate::bodies::{Body, File};
use crate::cycle::snake_of;
use crate::held::Held;
use crate::nested::Nested;
use derive_pen::Pen;
use derive_syntax::{Holes, Source, crate_of};

/// Another user-defined type.
#[derive(Drop)]
pub(crate) struct Other {
    /// Its name.
    name: String,
    /// The same in snake case, with which the names of what is said of it begin.
    snake: String,
    /// Its module in the crate, with a period before each step.
    module: String,
}

/// What brings in the ghost members of an impl of another type: the trait, and what these are
/// called after the name of the type.
#[derive(Clone, Copy)]
pub(crate) struct Said {
    /// The name of the trait.
    pub(crate) by: &'static str,
    /// What the members are called.
    pub(crate) called: &'static str,
}

/// What its values mean, and which are legal.
pub(crate) const VALUE: Said = Said {
    by: "Value",
    called: "value",
};

/// Its codec of bytes.
pub(crate) const BIN: Said = Said {
    by: "BinCodec",
    called: "bin",
};

/// Adds the other types within a type of a module that are not there yet.
pub(crate) fn add_others_of<'a>(
    pen: &Pen,
    module: &str,
    source: &Source<'a>,
    nested: &Nested<'a>,
    others: &mut Vec<Other>,
) {
    for held in &nested.contents {
        add_others(pen, module, source, held, others);
    }
}

/// Adds the other types among some parts that are not there yet.
fn add_others<'a>(
    pen: &Pen,
    module: &str,
    source: &Source<'a>,
    held: &Held<'a>,
    others: &mut Vec<Other>,
) {
    for leaf in &held.leaves {
        for name in &leaf.nested.others {
            if !has(others, *name) {
                pen.push(others, other_of(pen, module, source, *name));
            }
        }
    }
}

/// Another type of this name, within a type of a module.
fn other_of(pen: &Pen, module: &str, source: &Source<'_>, name: &str) -> Other {
    Other {
        name: pen.copy(name),
        snake: snake_of(pen, name),
        module: module_of_other(pen, module, source, name),
    }
}

/// The module of another type, by a line that brings it in, or the one of the file.
fn module_of_other(pen: &Pen, module: &str, source: &Source<'_>, name: &str) -> String {
    if let Some(Some(brought)) = pen.made(source.module_of_type(pen.alloc(), name)) {
        return brought;
    }
    let (_library, path) = crate_of(module);
    pen.copy(path)
}

/// Whether a type of this name is among some.
fn has(others: &[Other], name: &str) -> bool {
    for other in others {
        if other.name.as_str() == name {
            return true;
        }
    }
    false
}

/// Appends the codecs of other types in a format, which stand before those around them.
pub(crate) fn append_codecs_of(
    pen: &Pen,
    module: &str,
    others: &[Other],
    said: &Said,
    body: &mut Body,
) {
    for other in others {
        let mut holes = Holes::new(pen.alloc());
        holes.put("NAME", other.name.as_str());
        holes.put("SNAKE", other.snake.as_str());
        holes.put("CALLED", said.called);
        let codec = pen.whole(holes.fill(CODEC));
        add(pen, &mut body.text, codec.as_str());
        add(
            pen,
            &mut body.brought,
            said_line(pen, module, other, said).as_str(),
        );
    }
}

const CODEC: &str = "
-- the codec of `$NAME`
abbrev pub $SNAKE_part : Codec $NAME
$SNAKE_part = $SNAKE_$CALLED.$CALLED
";

/// Appends the lines that bring in what a text cites of other types.
pub(crate) fn append_others(pen: &Pen, module: &str, others: &[Other], body: &mut Body) {
    for other in others {
        if body.text.contains(other.name.as_str()) {
            add(
                pen,
                &mut body.brought,
                declared_line(pen, module, other).as_str(),
            );
        }
        let value = pen.one("{}_value", other.snake.as_str());
        if body.text.contains(value.as_str()) {
            add(
                pen,
                &mut body.brought,
                said_line(pen, module, other, &VALUE).as_str(),
            );
        }
    }
}

/// Appends the lines that bring in the codecs of other types that a text cites, from the file of
/// definitions.
pub(crate) fn append_cited(pen: &Pen, file: File<'_>, others: &[Other], body: &mut Body) {
    let (library, _path) = crate_of(file.module);
    let file = file.name;
    for other in others {
        let codec = pen.one("{}_part", other.snake.as_str());
        if body.text.contains(codec.as_str()) {
            let line = pen.three(
                "use Rattle.{}.specs.{}.{{}}\n",
                library,
                file,
                codec.as_str(),
            );
            add(pen, &mut body.brought, line.as_str());
        }
    }
}

/// The line that brings in another type.
fn declared_line(pen: &Pen, module: &str, other: &Other) -> String {
    let (library, _path) = crate_of(module);
    let Other { name, module, .. } = other;
    pen.four(
        "use Rattle.{}.specs.declared{}.{}.{{}}\n",
        library,
        module,
        name.as_str(),
        name.as_str(),
    )
}

/// The line that brings in the ghost members of an impl of another type.
fn said_line(pen: &Pen, module: &str, other: &Other, said: &Said) -> String {
    let (library, _path) = crate_of(module);
    let mut holes = Holes::new(pen.alloc());
    holes.put("LIBRARY", library);
    holes.put("MODULE", other.module.as_str());
    holes.put("NAME", other.name.as_str());
    holes.put("SNAKE", other.snake.as_str());
    holes.put("BY", said.by);
    holes.put("CALLED", said.called);
    pen.whole(holes.fill(SAID))
}

const SAID: &str = "use Rattle.$LIBRARY.specs.contracts$MODULE.derived.$NAME$BY.TheImpl\
    .{ghosts as $SNAKE_$CALLED}\n";

/// Appends a text to one that does not have it yet.
fn add(pen: &Pen, text: &mut String, more: &str) {
    if text.contains(more) {
        return;
    }
    pen.add(text, more);
}
