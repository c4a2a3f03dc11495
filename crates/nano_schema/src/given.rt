//! Numbers and booleans that are defaults of fields.

ghost use Rattle.nano_value.specs.Meaning.{number, truth, whole};

use crate::defaults::DefaultOf;
use std::alloc::{AllocError, Global};

/// This `u8` as a default.
#[derive(Drop)]
pub struct DefaultU8<const N: u8> {}

impl<const N: u8> DefaultOf<u8> for DefaultU8<N> {
    ghost missing = { whole N };

    fn default(_alloc: Global) -> Result<u8, AllocError> {
        Ok(N)
    }
}

/// This `u16` as a default.
#[derive(Drop)]
pub struct DefaultU16<const N: u16> {}

impl<const N: u16> DefaultOf<u16> for DefaultU16<N> {
    ghost missing = { whole N };

    fn default(_alloc: Global) -> Result<u16, AllocError> {
        Ok(N)
    }
}

/// This `u32` as a default.
#[derive(Drop)]
pub struct DefaultU32<const N: u32> {}

impl<const N: u32> DefaultOf<u32> for DefaultU32<N> {
    ghost missing = { whole N };

    fn default(_alloc: Global) -> Result<u32, AllocError> {
        Ok(N)
    }
}

/// This `u64` as a default.
#[derive(Drop)]
pub struct DefaultU64<const N: u64> {}

impl<const N: u64> DefaultOf<u64> for DefaultU64<N> {
    ghost missing = { whole N };

    fn default(_alloc: Global) -> Result<u64, AllocError> {
        Ok(N)
    }
}

/// This `usize` as a default.
#[derive(Drop)]
pub struct DefaultUsize<const N: usize> {}

impl<const N: usize> DefaultOf<usize> for DefaultUsize<N> {
    ghost missing = { whole N };

    fn default(_alloc: Global) -> Result<usize, AllocError> {
        Ok(N)
    }
}

/// This `i8` as a default.
#[derive(Drop)]
pub struct DefaultI8<const N: i8> {}

impl<const N: i8> DefaultOf<i8> for DefaultI8<N> {
    ghost missing = { number N };

    fn default(_alloc: Global) -> Result<i8, AllocError> {
        Ok(N)
    }
}

/// This `i16` as a default.
#[derive(Drop)]
pub struct DefaultI16<const N: i16> {}

impl<const N: i16> DefaultOf<i16> for DefaultI16<N> {
    ghost missing = { number N };

    fn default(_alloc: Global) -> Result<i16, AllocError> {
        Ok(N)
    }
}

/// This `i32` as a default.
#[derive(Drop)]
pub struct DefaultI32<const N: i32> {}

impl<const N: i32> DefaultOf<i32> for DefaultI32<N> {
    ghost missing = { number N };

    fn default(_alloc: Global) -> Result<i32, AllocError> {
        Ok(N)
    }
}

/// This `i64` as a default.
#[derive(Drop)]
pub struct DefaultI64<const N: i64> {}

impl<const N: i64> DefaultOf<i64> for DefaultI64<N> {
    ghost missing = { number N };

    fn default(_alloc: Global) -> Result<i64, AllocError> {
        Ok(N)
    }
}

/// This boolean as a default.
#[derive(Drop)]
pub struct DefaultBool<const B: bool> {}

impl<const B: bool> DefaultOf<bool> for DefaultBool<B> {
    ghost missing = { truth B };

    fn default(_alloc: Global) -> Result<bool, AllocError> {
        Ok(B)
    }
}
