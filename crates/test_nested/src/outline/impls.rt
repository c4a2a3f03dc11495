//! The impls of the type of the module above, written by hand: its schema, and its bytes.

ghost use Rattle.std.specs.Prelude.{refl};
ghost use Rattle.nano_schema.specs.UserTypes.{agreed};
ghost use Rattle.test_nested.specs.OutlineCodecs.{outline_view, outline_means, outline_codec};

use super::*;
use nano_bin_nested::{
    BinCodec, DeBin, DeBinErr, Levels, ReadsBin, SerBin, Within, WritesBin, append_part_within,
    no_memory, read_record_within,
};
use nano_schema::{Required, StructSchema, Value};
use std::alloc::{AllocError, Global};

struct OutlineNames<const I: usize> {}

type OutlineFields = (
    Within<Required<OutlineNames<0>, Vec<(String, Outline)>>>,
    Within<Required<OutlineNames<1>, LinkedList<Outline>>>,
);

impl StructSchema for Outline {
    type Values = (Vec<(String, Outline)>, LinkedList<Outline>);

    ghost view = { outline_view };

    fn make(values: Self::Values) -> Self {
        let (sections, notes) = values;
        Outline { sections, notes }
    }
}

impl Value for Outline {
    ghost means = { outline_means };

    ghost legal = { outline_codec.encoding.legal };

    fn known(&self) {
        self.sections.known();
        self.notes.known();
    }
}

// ---- bytes

impl BinCodec for Outline {
    ghost bin = { outline_codec };

    ghost agrees = { agreed };
}

impl WritesBin for Outline {
    fn write_bin(&self, alloc: Global, output: &mut Vec<u8>) -> Result<(), AllocError> {
        let start = output.len();
        self.sections.write_bin(alloc, output)?;
        append_part_within(alloc, &self.notes, output, start)
    }
}

impl SerBin for Outline {
    fn ser_bin(&self, alloc: Global, output: &mut Vec<u8>) -> Result<(), AllocError> {
        self.write_bin(alloc, output)
    }
}

impl ReadsBin<Outline> for Levels {
    #[cycle(read)]
    fn read_bin(
        &self,
        alloc: Global,
        offset: &mut usize,
        bytes: &[u8],
    ) -> Result<Outline, DeBinErr> {
        let Levels::More(below) = self else {
            return Err(no_memory(*offset, bytes));
        };
        match below.first() {
            Some(below) => read_record_within::<Levels, Outline, OutlineFields>(
                below, alloc, offset, bytes,
            ),
            None => Err(no_memory(*offset, bytes)),
        }
    }
}

impl DeBin for Outline {
    ghost is_decodable = { refl };

    fn de_bin(alloc: Global, offset: &mut usize, bytes: &[u8]) -> Result<Outline, DeBinErr> {
        Levels::most().read_bin(alloc, offset, bytes)
    }
}
