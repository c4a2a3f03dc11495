//! Two, three or four elements of a tuple, as the content of a variant.

ghost use Rattle.std.specs.Prelude.{refl};
ghost use Rattle.nano_ron.specs.ContainerCodecs.{pair_codec, triple_codec, quadruple_codec};
ghost use Rattle.nano_ron_schema.specs.VariantCodecs.{content_as};

use crate::contents::{ReadContent, RonContent, WriteContent};
use crate::part::Part;
use crate::variant_writer::write_variant;
use crate::variants::read_content;
use nano_ron::{DeRon, DeRonErr, DeRonState, RonCodec, SerRon, SerRonState};
use nano_schema::Tuple;
use std::alloc::{AllocError, Global};
use std::str::Chars;

// ---- two parts

impl<A: RonCodec, B: RonCodec> RonContent for Tuple<(A, B)> {
    type Values = (A, B);

    ghost content = { content_as (pair_codec A.ron B.ron) (λ x d. refl) };
}

impl<A: DeRon, B: DeRon> ReadContent for Tuple<(A, B)> {
    type Values = (A, B);

    ghost content = { content_as (pair_codec A.ron B.ron) (λ x d. refl) };

    ghost means = { ⟦<(A, B) as RonCodec>⟧.ron.canonical.means };

    fn stands_alone() -> bool {
        false
    }

    fn read(
        alloc: Global,
        state: &mut DeRonState,
        input: &mut Chars<'_>,
    ) -> Result<(A, B), DeRonErr> {
        read_content(alloc, state, input)
    }
}

impl<'a, A: SerRon + 'a, B: SerRon + 'a> WriteContent<'a> for Tuple<(A, B)> {
    type Values = (A, B);

    type Refs = (&'a A, &'a B);

    ghost values = { λ r. (r.0.now, r.1.now) };

    ghost content = { content_as (pair_codec A.ron B.ron) (λ x d. refl) };

    fn write(
        name: &str,
        refs: &(&'a A, &'a B),
        alloc: Global,
        d: usize,
        s: &mut SerRonState,
    ) -> Result<(), AllocError> {
        let parts = (Part { of: refs.0 }, Part { of: refs.1 });
        write_variant(alloc, name, &parts, d, s)
    }
}

// ---- three parts

impl<A: RonCodec, B: RonCodec, C: RonCodec> RonContent for Tuple<(A, B, C)> {
    type Values = (A, B, C);

    ghost content = { content_as (triple_codec A.ron B.ron C.ron) (λ x d. refl) };
}

impl<A: DeRon, B: DeRon, C: DeRon> ReadContent for Tuple<(A, B, C)> {
    type Values = (A, B, C);

    ghost content = { content_as (triple_codec A.ron B.ron C.ron) (λ x d. refl) };

    ghost means = { ⟦<(A, B, C) as RonCodec>⟧.ron.canonical.means };

    fn stands_alone() -> bool {
        false
    }

    fn read(
        alloc: Global,
        state: &mut DeRonState,
        input: &mut Chars<'_>,
    ) -> Result<(A, B, C), DeRonErr> {
        read_content(alloc, state, input)
    }
}

impl<'a, A: SerRon + 'a, B: SerRon + 'a, C: SerRon + 'a> WriteContent<'a> for Tuple<(A, B, C)> {
    type Values = (A, B, C);

    type Refs = (&'a A, &'a B, &'a C);

    ghost values = { λ r. (r.0.now, r.1.now, r.2.now) };

    ghost content = { content_as (triple_codec A.ron B.ron C.ron) (λ x d. refl) };

    fn write(
        name: &str,
        refs: &(&'a A, &'a B, &'a C),
        alloc: Global,
        d: usize,
        s: &mut SerRonState,
    ) -> Result<(), AllocError> {
        let parts = (
            Part { of: refs.0 },
            Part { of: refs.1 },
            Part { of: refs.2 },
        );
        write_variant(alloc, name, &parts, d, s)
    }
}

// ---- four parts

impl<A: RonCodec, B: RonCodec, C: RonCodec, D: RonCodec> RonContent for Tuple<(A, B, C, D)> {
    type Values = (A, B, C, D);

    ghost content = { content_as (quadruple_codec A.ron B.ron C.ron D.ron) (λ x d. refl) };
}

impl<A: DeRon, B: DeRon, C: DeRon, D: DeRon> ReadContent for Tuple<(A, B, C, D)> {
    type Values = (A, B, C, D);

    ghost content = { content_as (quadruple_codec A.ron B.ron C.ron D.ron) (λ x d. refl) };

    ghost means = { ⟦<(A, B, C, D) as RonCodec>⟧.ron.canonical.means };

    fn stands_alone() -> bool {
        false
    }

    fn read(
        alloc: Global,
        state: &mut DeRonState,
        input: &mut Chars<'_>,
    ) -> Result<(A, B, C, D), DeRonErr> {
        read_content(alloc, state, input)
    }
}

impl<'a, A: SerRon + 'a, B: SerRon + 'a, C: SerRon + 'a, D: SerRon + 'a> WriteContent<'a>
    for Tuple<(A, B, C, D)> {
    type Values = (A, B, C, D);

    type Refs = (&'a A, &'a B, &'a C, &'a D);

    ghost values = { λ r. (r.0.now, r.1.now, r.2.now, r.3.now) };

    ghost content = { content_as (quadruple_codec A.ron B.ron C.ron D.ron) (λ x d. refl) };

    fn write(
        name: &str,
        refs: &(&'a A, &'a B, &'a C, &'a D),
        alloc: Global,
        d: usize,
        s: &mut SerRonState,
    ) -> Result<(), AllocError> {
        let parts = (
            Part { of: refs.0 },
            Part { of: refs.1 },
            Part { of: refs.2 },
            Part { of: refs.3 },
        );
        write_variant(alloc, name, &parts, d, s)
    }
}
