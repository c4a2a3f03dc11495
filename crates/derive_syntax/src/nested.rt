//! Types that contain themselves or each other: what their parts are made of.

use crate::containers::{Container, between, container_of, keyed};
use crate::cycle::Cycle;
use crate::syntax::Type;
use crate::token::{Token, TokenKind};
use derive_source::Fault;
use std::alloc::{AllocError, Global};

/// A type of the library that a part of a type that contains itself may stand in.
#[derive(Clone, Copy, PartialEq)]
pub enum Holder<'a> {
    /// `BTreeMap` from keys of a type of Rust's, by its name.
    BTreeMap(&'a str),
    /// `Box`.
    Box,
    /// `Option`.
    Option,
    /// `Vec`.
    Vec,
}

/// What a part is, within all types that it stands in.
#[derive(Clone, Copy, PartialEq)]
pub enum Core<'a> {
    /// The type itself, or the one that it leads back to itself through.
    Itself,
    /// Another type that leads back to itself through the same one, by its name.
    Around(&'a str),
    /// A type of Rust's, by its name.
    Plain(&'a str),
    /// Another user-defined type, by its name.
    Other(&'a str),
    /// A type parameter, by its name.
    Parameter(&'a str),
    /// Another type of the library, which holds no values of the type itself.
    Container(Container<'a>),
}

/// A part of a type that contains itself.
#[derive(Drop)]
pub struct NestedPart<'a> {
    /// What it stands in, from without.
    pub holders: Vec<Holder<'a>>,
    /// What it is in there.
    pub core: Core<'a>,
    /// What that holds, if it is another type of the library.
    pub parts: Vec<NestedPart<'a>>,
    /// How deep such types stand in one another.
    pub depth: usize,
    /// The names of the other user-defined types in it.
    pub others: Vec<&'a str>,
}

impl NestedPart<'_> {
    /// Whether it holds values of the type itself.
    pub fn is_within(&self) -> bool {
        matches!(self.core, Core::Itself | Core::Around(_))
    }
}

const PLAIN: [&str; 14] = [
    "bool", "u8", "u16", "u32", "u64", "u128", "usize", "i8", "i16", "i32", "i64", "i128",
    "String", "()",
];

const NO_PART: &str = "stands in a type that contains itself: a part of one is an integer, `bool`, \
    `()`, a `String`, the type itself or another one by its name, or a type of the library that \
    holds such";

const NO_HOLDER: &str = "leads to the type itself within a tuple, an array or another collection: \
    around it stand `Vec`, `Option`, `Box` and `BTreeMap` alone";

const NO_PARAMETER: &str = "leads to a type parameter within a tuple, an array or another \
    collection: in a type that contains itself one stands within `Vec`, `Option`, `Box` and \
    `BTreeMap` alone";

const NO_SAME: &str = "stands in itself with other types in place of its type parameters";

const ENDLESS: &str = "stands in itself with no `Box`, no `Vec` and no `BTreeMap` around it";

const INNER: &str = "has an `Option` of the type that contains itself within it: such an `Option` \
    is the whole of a part";

/// What the type of a part is made of, in one of these types.
///
/// # Errors
///
/// The part is made of other types, or is the type itself with nothing that ends it, or an
/// allocation fails.
pub fn nested_part<'a>(
    alloc: Global,
    cycle: &Cycle<'a>,
    of: Type<'a>,
) -> Result<NestedPart<'a>, Fault> {
    let part = part_within(alloc, cycle, of, of.0.len())?;
    check_ends(alloc, cycle, of, &part)?;
    Ok(part)
}

/// An error where a part is the type itself and nothing ends it, or an `Option` of it is not the
/// whole of the part.
fn check_ends<'a>(
    alloc: Global,
    cycle: &Cycle<'a>,
    of: Type<'a>,
    part: &NestedPart<'a>,
) -> Result<(), Fault> {
    let held = part.holders.get(1..).unwrap_or(&[]);
    if part.is_within() && held.contains(&Holder::Option) {
        return Err(fault_at(of, INNER));
    }
    if cycle.is_one() && part.is_within() && !has_end(&part.holders) {
        let (_holders, inner) = holders_of(alloc, of)?;
        return Err(fault_at(inner, ENDLESS));
    }
    Ok(())
}

/// What a type is made of, in which types stand in one another so deep at most.
fn part_within<'a>(
    alloc: Global,
    cycle: &Cycle<'a>,
    of: Type<'a>,
    depth: usize,
) -> Result<NestedPart<'a>, Fault> {
    let (holders, inner) = holders_of(alloc, of)?;
    if let Some(core) = core_of(cycle, inner) {
        return Ok(single(alloc, holders, core)?);
    }
    let Some((container, types)) = container_of(alloc, inner)? else {
        return Err(no_part(cycle, inner));
    };
    let mut parts = Vec::new(alloc);
    for held in &types {
        if depth == 0 {
            return Err(no_part(cycle, inner));
        }
        let part = part_within(alloc, cycle, *held, depth - 1)?;
        check_held(*held, &part)?;
        parts.push(part)?;
    }
    Ok(collected(alloc, holders, container, parts)?)
}

/// A part that is no collection, in these types of the library.
fn single<'a>(
    alloc: Global,
    holders: Vec<Holder<'a>>,
    core: Core<'a>,
) -> Result<NestedPart<'a>, AllocError> {
    let mut others = Vec::new(alloc);
    if let Core::Other(name) = core {
        others.push(name)?;
    }
    Ok(NestedPart {
        holders,
        core,
        parts: Vec::new(alloc),
        depth: 0,
        others,
    })
}

/// A part that is a collection of these, in these types of the library.
fn collected<'a>(
    alloc: Global,
    holders: Vec<Holder<'a>>,
    container: Container<'a>,
    parts: Vec<NestedPart<'a>>,
) -> Result<NestedPart<'a>, AllocError> {
    let mut others = Vec::new(alloc);
    let mut depth = 0usize;
    for part in &parts {
        depth = depth.max(part.depth);
        for name in &part.others {
            others.push(*name)?;
        }
    }
    Ok(NestedPart {
        holders,
        core: Core::Container(container),
        parts,
        depth: depth.saturating_add(1),
        others,
    })
}

/// An error where a collection holds the type itself, or a type parameter.
fn check_held(of: Type<'_>, part: &NestedPart<'_>) -> Result<(), Fault> {
    match part.core {
        Core::Itself | Core::Around(_) => Err(fault_at(of, NO_HOLDER)),
        Core::Parameter(_) => Err(fault_at(of, NO_PARAMETER)),
        _ => Ok(()),
    }
}

/// What a type stands in, from without, and the type in there.
fn holders_of<'a>(alloc: Global, of: Type<'a>) -> Result<(Vec<Holder<'a>>, Type<'a>), Fault> {
    let mut holders = Vec::new(alloc);
    let mut inner = of;
    for _turn in of.0 {
        let Some((holder, held)) = held_in(inner)? else {
            break;
        };
        holders.push(holder)?;
        inner = held;
    }
    Ok((holders, inner))
}

/// What is wrong with a type that is no part.
fn no_part<'a>(cycle: &Cycle<'a>, of: Type<'a>) -> Fault {
    let words = if is_other_itself(cycle, of) {
        NO_SAME
    } else {
        NO_PART
    };
    fault_at(of, words)
}

/// A fault at the first token of a type.
fn fault_at(of: Type<'_>, words: &'static str) -> Fault {
    match of.0.first() {
        Some(token) => token.fault(words),
        None => Fault::place(0, words),
    }
}

/// The type of the library that a type is, and what stands in it.
///
/// # Errors
///
/// It is a map, and its keys are of another type than keys may have.
fn held_in<'a>(of: Type<'a>) -> Result<Option<(Holder<'a>, Type<'a>)>, Fault> {
    let (Some(word), Some(held)) = (of.0.first(), between(of)) else {
        return Ok(None);
    };
    let holder = match word.text {
        "Box" => Holder::Box,
        "Option" => Holder::Option,
        "Vec" => Holder::Vec,
        "BTreeMap" => match keyed(held)? {
            Some((key, value)) => return Ok(Some((Holder::BTreeMap(key), value))),
            None => return Ok(None),
        },
        _ => return Ok(None),
    };
    Ok(Some((holder, held)))
}

/// What a type is that stands in no other: one of these types, one of Rust's, or another one.
fn core_of<'a>(cycle: &Cycle<'a>, of: Type<'a>) -> Option<Core<'a>> {
    match of.0 {
        [word, arguments @ ..]
            if cycle.is_root(*word) && are_parameters(arguments, &cycle.parameters) => {
            Some(Core::Itself)
        }
        [word, ..] if cycle.is_root(*word) => None,
        [word] if word.is_among(&cycle.parameters) => Some(Core::Parameter(word.text)),
        [word] if word.is_among(&cycle.names) && !cycle.is_one() => Some(Core::Around(word.text)),
        [word] if PLAIN.contains(&word.text) => Some(Core::Plain(word.text)),
        [word] if word.kind == TokenKind::Word => Some(Core::Other(word.text)),
        [open, close] if open.is("(") && close.is(")") => Some(Core::Plain("()")),
        _ => None,
    }
}

/// Whether these tokens are type parameters in their order: between angle brackets, with a comma
/// after each but the last one; or nothing, where there are none.
fn are_parameters<'a>(arguments: &[Token<'a>], parameters: &[Token<'a>]) -> bool {
    let mut rest = arguments;
    for (i, parameter) in parameters.iter().enumerate() {
        let before = if i == 0 { "<" } else { "," };
        match rest {
            [punctuator, word, later @ ..]
                if punctuator.is(before) && word.text == parameter.text => {
                rest = later;
            }
            _ => return false,
        }
    }
    match rest {
        [] => parameters.is_empty(),
        [close] => close.is(">") && !parameters.is_empty(),
        [comma, close] => comma.is(",") && close.is(">") && !parameters.is_empty(),
        _ => false,
    }
}

/// Whether a type is the one that contains itself, with other arguments than its parameters.
fn is_other_itself<'a>(cycle: &Cycle<'a>, of: Type<'a>) -> bool {
    match of.0.first() {
        Some(word) => cycle.is_root(*word),
        None => false,
    }
}

/// Whether values of a type may end in one of these.
fn has_end(holders: &[Holder<'_>]) -> bool {
    for holder in holders {
        if *holder != Holder::Option {
            return true;
        }
    }
    false
}
