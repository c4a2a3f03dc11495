//! Texts: the length, and the bytes.
//! Reader and writer are inlined, so a value that is read passes through no result with space
//! for an error.

ghost use Rattle.std.specs.Prelude.{refl, string_bytes, IfOk, IfErr};
ghost use Rattle.nano_value.specs.Meaning.{text};
ghost use Rattle.nano_meaning.proofs.AgreesLaws.{agreed};
ghost use Rattle.nano_bin_bytes.specs.Reading.{Decodes, ReadsNoString};
ghost use Rattle.nano_bin_bytes.specs.Containers.{EncodesString};
ghost use Rattle.nano_bin.specs.ScalarCodecs.{string_codec};

use crate::append::append_count;
use crate::read::read_count;
use crate::text_lists::append_texts;
use crate::traits::{BinCodec, DeBin, SerBin};
use nano_bin_bytes::{DeBinErr, append_bytes_after, read_utf8};
use std::alloc::{AllocError, Global};

impl BinCodec for String {
    ghost bin = { string_codec };

    ghost agrees = { agreed };
}

impl SerBin for String {
    #[inline(always)]
    fn ser_bin(&self, alloc: Global, output: &mut Vec<u8>) -> Result<(), AllocError> {
        let start = output.len();
        append_count(alloc, self.len(), output)?;
        append_bytes_after(self.as_bytes(), output, start)
    }

    fn ser_bin_items(
        alloc: Global,
        items: &[String],
        output: &mut Vec<u8>,
    ) -> Result<(), AllocError> {
        append_texts(items, output)
    }
}

impl DeBin for String {
    ghost is_decodable = { refl };

    /// An error other than out of memory reports which bytes are missing, or are not UTF-8.
    #[inline(always)]
    fn de_bin(alloc: Global, offset: &mut usize, bytes: &[u8]) -> Result<String, DeBinErr>
        ensures ok { IfOk result (λ value.
            Decodes EncodesString bytes.now offset.old (text (string_bytes value)) offset.new) }
        ensures err { IfErr result (ReadsNoString bytes.now offset.old offset.new) }
    {
        let mut at = *offset;
        let count = read_count(alloc, &mut at, bytes)?;
        let text = read_utf8(alloc, count, &mut at, bytes)?;
        *offset = at;
        Ok(text)
    }
}
