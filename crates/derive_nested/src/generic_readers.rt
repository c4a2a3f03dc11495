//! The answers to what is to be proved of the readers of a type with parameters: in each format but
//! the first, what a value means is said as the first one says it.

use crate::answers::{Answers, HEAD, Place};
use crate::nested::Nested;
use crate::parameters::{Format, coded_by};
use crate::text_codec::TextTerms;
use derive_pen::Pen;

/// The answers for the reader of a type with parameters in a format of texts, if another format
/// comes before it.
pub(crate) fn later_reader(
    pen: &Pen,
    nested: &Nested<'_>,
    format: &TextTerms,
    (first, place): (Format, &Place<'_>),
) -> Option<Answers> {
    if !nested.is_generic() || first.name == format.name {
        return None;
    }
    let own = coded_by(format.name);
    let mut paths = pen.empty();
    for names in &nested.parameters {
        let (name, here, there) = (names.of.as_str(), own.of, first.of);
        let path = pen.four(
            " ((between g.met.{}.{}.agrees g.met.{}.{}.agrees).means_is i)",
            name,
            there,
            name,
            here,
        );
        pen.add(&mut paths, path.as_str());
    }
    let name = nested.names.of.as_str();
    let mut holes = nested.holes(pen);
    holes.put("HEAD", HEAD);
    holes.put("LIBRARY", place.library);
    holes.put("STEM", place.stem.as_str());
    holes.put("WORD", format.word);
    holes.put("END", format.name);
    holes.put("GOALS", place.goals.as_str());
    holes.put("PATHS", paths.as_str());
    let (folder, word, end) = (place.folder.as_str(), format.word, format.name);
    Some(Answers {
        path: pen.four("{}/{}De{}/de_{}/Answers.antt", folder, name, word, end),
        text: pen.whole(holes.fill(READER)),
    })
}

const READER: &str = "\
$HEAD
use Rattle.std.proofs.Common.{subst}
use Rattle.nano_$END.specs.Outcomes.{position, ReadsOrEnds}
use Rattle.nano_schema_levels.proofs.LegalLevelsLaws.{between}
use Rattle.$LIBRARY.specs.$STEMCodecs.{$SNAKE_means}
use Rattle.$LIBRARY.specs.$STEM$WORDCodecs.{$SNAKE_$END}
use $GOALS.$NAMEDe$WORD.de_$END.Goals as goal

pub returns : goal.returns
returns c =
    subst (λ m. ReadsOrEnds $SNAKE_$END.encoding.encodes m
    (position c.args.state.now c.args.input.now)
    (position c.read_$END.new.state c.read_$END.new.input) c.read_$END.result)
    (λ i. ^$SNAKE_means$PATHS) c.read_$END.ensures
";
