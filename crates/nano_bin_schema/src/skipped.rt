//! A field that is neither written nor read.

ghost use Rattle.std.specs.Prelude.{◌≡◌, IfOk, IfErr};
ghost use Rattle.nano_bin_bytes.specs.Reading.{Decodes, ReadsNone};
ghost use Rattle.nano_bin.specs.ScalarCodecs.{unit_codec};

use crate::fields::{BinFields, BinRefs, BinShape};
use nano_bin::{DeBin, DeBinErr};
use nano_bin_bytes::no_memory;
use nano_schema::{DefaultOf, Skipped};
use nano_value::Value;
use std::alloc::{AllocError, Global};

impl<T, D> BinShape for Skipped<T, D> {
    type Values = T;

    ghost codec = { unit_codec };
}

impl<T: Value + Drop, D: DefaultOf<T>> BinFields for Skipped<T, D> {
    type Values = T;

    ghost codec = { unit_codec };

    fn read(alloc: Global, offset: &mut usize, bytes: &[u8]) -> Result<T, DeBinErr>
        ensures ok { IfOk result (λ values. Decodes (unit_codec {A = T}).encoding.encodes
            bytes.now offset.old ((unit_codec {A = T}).canonical.means values) offset.new) }
        ensures err { IfErr result
            (ReadsNone (unit_codec {A = T}).encoding.encodes bytes.now offset.old offset.new) }
        ensures made { IfOk result (λ value. T.means value ≡ D.missing) }
    {
        match D::default(alloc) {
            Ok(value) => {
                <()>::de_bin(alloc, offset, bytes)?;
                Ok(value)
            }
            Err(_error) => Err(no_memory(*offset, bytes)),
        }
    }

    fn discard(_values: T) {}
}

impl<'a, T: 'a, D> BinRefs<'a> for Skipped<T, D> {
    type Values = T;

    type Refs = &'a T;

    ghost values = { λ r. r.now };

    ghost codec = { unit_codec };

    fn write(_refs: &&'a T, _alloc: Global, _output: &mut Vec<u8>) -> Result<(), AllocError> {
        Ok(())
    }
}
