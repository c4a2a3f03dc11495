//! Enums: their schema, and then each format.

use crate::chains::append_chains;
use crate::codecs::append_codecs;
use crate::ensured::of_variants;
use crate::fields::{append_fields, are_skipped, row_fields};
use crate::forms::CHOICE;
use crate::labels::{append_labels, name_of, variant_names};
use crate::layout::Items;
use crate::making::making;
use crate::names::in_type_name;
use crate::parameters::{bounds, content_types, parameters_in};
use crate::rows::{Leaf, append_row};
use crate::sheet::Sheet;
use crate::target::Target;
use crate::tuples::part_types;
use crate::variants::{arms, tuple_of};
use crate::views::{cases, variant_imports};
use derive_syntax::{Content, Type, Variant};
use std::alloc::AllocError;

/// Appends the impls of an enum.
pub(crate) fn append_choice<'a>(
    sheet: &mut Sheet,
    target: &Target<'a>,
    variants: &[Variant<'a>],
) -> Result<(), AllocError> {
    let names = variant_names(sheet, variants, target.attributes.case);
    let labels = append_labels(sheet, target.name.text, &names)?;
    let mut schemas = Vec::new(sheet.alloc);
    for (variant, label) in variants.iter().zip(labels) {
        schemas.push(append_variant(sheet, target, variant, label)?)?;
    }
    append_chains(sheet, target, variants, &schemas)?;
    append_view(sheet, target, variants)?;
    append_references(sheet, target, variants)?;
    append_codecs(sheet, target, &CHOICE, &CHOICE)
}

/// Appends the type of what a variant of this label holds, and returns the variant's schema.
fn append_variant<'a>(
    sheet: &mut Sheet,
    target: &Target<'a>,
    variant: &Variant<'a>,
    label: String,
) -> Result<Leaf, AllocError> {
    let content = append_content(sheet, target, variant)?;
    let mut texts = Vec::new(sheet.alloc);
    sheet.push(&mut texts, label);
    sheet.push(&mut texts, content);
    Ok(Leaf {
        open: sheet.short("nano_schema::Variant<"),
        texts,
        close: ">",
        around: Vec::new(sheet.alloc),
    })
}

/// Appends the type of what a variant holds, and returns its schema.
fn append_content<'a>(
    sheet: &mut Sheet,
    target: &Target<'a>,
    variant: &Variant<'a>,
) -> Result<String, AllocError> {
    let alloc = sheet.alloc;
    let mut owner = sheet.made(String::from_str(alloc, target.name.text));
    sheet.add_made(&mut owner, in_type_name(alloc, variant.name.text));
    let kind = match &variant.content {
        Content::Nothing => return Ok(sheet.short("nano_schema::Unit")),
        Content::Parts(parts) if parts.len() == 1 => "nano_schema::Newtype",
        Content::Parts(_) => "nano_schema::Tuple",
        Content::Fields(fields) if are_skipped(fields) => return Ok(sheet.short(EMPTY)),
        Content::Fields(_) => "nano_schema::Struct",
    };
    let kind = sheet.short(kind);
    let types = content_types(alloc, &variant.content)?;
    let parameters = parameters_in(alloc, &target.parameters, &types)?;
    let mut held = name_of(sheet, owner.as_str(), "Parts")?;
    sheet.add_made(&mut held, bounds(alloc, "", &parameters, ""));
    match &variant.content {
        Content::Nothing => {}
        Content::Parts(parts) => append_parts(sheet, held.as_str(), parts)?,
        Content::Fields(fields) => {
            let fields = row_fields(alloc, fields)?;
            let leaves = append_fields(sheet, owner.as_str(), &fields, None)?;
            append_row(sheet, held.as_str(), &leaves)?;
        }
    }
    format!(in alloc; "{kind}<{held}>")
}

/// The schema of a struct variant of which no field stands in the schema.
const EMPTY: &str = "nano_schema::Struct<nano_schema::Unit>";

/// Appends the type of the parts of a tuple variant.
fn append_parts<'a>(sheet: &mut Sheet, held: &str, parts: &[Type<'a>]) -> Result<(), AllocError> {
    let alloc = sheet.alloc;
    let types = part_types(alloc, parts, "$TYPE")?;
    let before = held.len().saturating_add("type  = ".len());
    let row = sheet.made(tuple_of(alloc, &types, Items::Types, (0, before)));
    sheet.alias(held, row.as_str());
    Ok(())
}

const VIEW: &str = "
impl$BOUNDS nano_schema::EnumSchema for $FULL$OPEN
$IMPORTS
    type Values = $VALUES;

    ghost view = { λ x. elim x [
$CASES    ] };

    fn make(values: Self::Values) -> Self$ENSURED
$MAKING    }
}
";

/// Appends the impl that splits an enum into the content of its variant, and makes it of that.
fn append_view<'a>(
    sheet: &mut Sheet,
    target: &Target<'a>,
    variants: &[Variant<'a>],
) -> Result<(), AllocError> {
    let alloc = sheet.alloc;
    if variants.len() > 1 {
        sheet.import(EITHER);
    }
    let imports = sheet.made(variant_imports(alloc, target, variants));
    let cases = sheet.made(cases(alloc, variants));
    let making = sheet.made(making(alloc, variants));
    let making = sheet.short(making.as_str());
    let ensured = of_variants(sheet, target, variants)?;
    let mut holes = target.bounded_holes(sheet)?;
    holes.put("IMPORTS", imports.as_str());
    holes.put("CASES", cases.as_str());
    holes.put("ENSURED", ensured.as_str());
    holes.put("MAKING", making.as_str());
    sheet.write(VIEW, &holes);
    Ok(())
}

const EITHER: &str =
    "ghost use Rattle.nano_schema.specs.declared.choices.Either.TheVariants.{First, Later};";

const REFERENCES: &str = "impl$LIFETIME nano_schema::VariantRefs<'a> for $FULL$OPEN
    type Refs = $REFS;

    ghost values = { ⟦<$ROW as nano_schema::BorrowedChoices<'a>>⟧.values };

    fn as_refs(&'a self) -> Self::Refs {
$EITHER        match self {
$ARMS        }
    }
}

impl$BOUNDS nano_schema::Value for $FULL$OPEN
    ghost means = { λ x. ⟦<$ROW as nano_schema::Choices>⟧.means 0 \
        (⟦<$FULL as nano_schema::EnumSchema>⟧.view x) };

    ghost legal = { LegalVariant ⟦<$ROW as nano_schema::Choices>⟧.legals };

    fn known(&self) {
        nano_schema::known_variant::<Self, $ROW>(self);
    }
}";

/// Appends the impl that has references to the content of the variant, and the one that says what
/// an enum means.
fn append_references<'a>(
    sheet: &mut Sheet,
    target: &Target<'a>,
    variants: &[Variant<'a>],
) -> Result<(), AllocError> {
    let alloc = sheet.alloc;
    let arms = sheet.made(arms(alloc, variants));
    let either = match variants.len() {
        1 => "",
        _ => import_of_either(sheet),
    };
    sheet.import("ghost use Rattle.nano_schema.specs.UserTypes.{LegalVariant};");
    let mut holes = target.bounded_holes(sheet)?;
    holes.put("EITHER", either);
    holes.put("ARMS", arms.as_str());
    sheet.write(REFERENCES, &holes);
    Ok(())
}

/// What brings `Either` into a body, where the module cannot bring it in.
fn import_of_either(sheet: &mut Sheet) -> &'static str {
    let name = sheet.short("nano_schema::Either");
    match name.as_str() {
        "Either" => "",
        _ => "        use nano_schema::Either;\n\n",
    }
}
