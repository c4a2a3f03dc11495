//! A variant with two, three or four parts, in JSON: a tuple between square brackets.

ghost use Rattle.nano_json_schema.specs.VariantCodecs.{content_as};

use crate::contents::{JsonContent, ReadContent, WriteContent};
use crate::part::Part;
use crate::variant_writer::write_variant;
use crate::variants::read_content;
use nano_json::{DeJson, DeJsonErr, DeJsonState, JsonCodec, SerJson, SerJsonState};
use nano_schema::Tuple;
use std::alloc::{AllocError, Global};
use std::str::Chars;

impl<P: JsonCodec> JsonContent for Tuple<P> {
    type Values = P;

    ghost content = { content_as P.json };
}

impl<P: DeJson> ReadContent for Tuple<P> {
    type Values = P;

    ghost content = { content_as P.json };

    ghost means = { P.json.canonical.means };

    fn stands_alone() -> bool {
        false
    }

    fn read(alloc: Global, state: &mut DeJsonState, input: &mut Chars<'_>) -> Result<P, DeJsonErr> {
        read_content(alloc, state, input)
    }
}

impl<'a, A: SerJson + 'a, B: SerJson + 'a> WriteContent<'a> for Tuple<(A, B)> {
    type Values = (A, B);

    type Refs = (&'a A, &'a B);

    ghost values = { λ r. (r.0.now, r.1.now) };

    ghost content = { content_as ⟦<(A, B) as JsonCodec>⟧.json };

    fn write(
        name: &str,
        refs: &(&'a A, &'a B),
        alloc: Global,
        d: usize,
        s: &mut SerJsonState,
    ) -> Result<(), AllocError> {
        let parts = (Part { of: refs.0 }, Part { of: refs.1 });
        write_variant(alloc, name, &parts, d, s)
    }
}

impl<'a, A: SerJson + 'a, B: SerJson + 'a, C: SerJson + 'a> WriteContent<'a> for Tuple<(A, B, C)> {
    type Values = (A, B, C);

    type Refs = (&'a A, &'a B, &'a C);

    ghost values = { λ r. (r.0.now, r.1.now, r.2.now) };

    ghost content = { content_as ⟦<(A, B, C) as JsonCodec>⟧.json };

    fn write(
        name: &str,
        refs: &(&'a A, &'a B, &'a C),
        alloc: Global,
        d: usize,
        s: &mut SerJsonState,
    ) -> Result<(), AllocError> {
        let parts = (
            Part { of: refs.0 },
            Part { of: refs.1 },
            Part { of: refs.2 },
        );
        write_variant(alloc, name, &parts, d, s)
    }
}

impl<'a, A: SerJson + 'a, B: SerJson + 'a, C: SerJson + 'a, D: SerJson + 'a> WriteContent<'a>
    for Tuple<(A, B, C, D)> {
    type Values = (A, B, C, D);

    type Refs = (&'a A, &'a B, &'a C, &'a D);

    ghost values = { λ r. (r.0.now, r.1.now, r.2.now, r.3.now) };

    ghost content = { content_as ⟦<(A, B, C, D) as JsonCodec>⟧.json };

    fn write(
        name: &str,
        refs: &(&'a A, &'a B, &'a C, &'a D),
        alloc: Global,
        d: usize,
        s: &mut SerJsonState,
    ) -> Result<(), AllocError> {
        let parts = (
            Part { of: refs.0 },
            Part { of: refs.1 },
            Part { of: refs.2 },
            Part { of: refs.3 },
        );
        write_variant(alloc, name, &parts, d, s)
    }
}
