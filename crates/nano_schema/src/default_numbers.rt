//! The default of each type of integers: zero.

ghost use Rattle.std.specs.Prelude.{pos};
ghost use Rattle.nano_value.specs.Meaning.{number, whole};

use crate::defaults::{DefaultOf, TypeDefault};
use std::alloc::{AllocError, Global};

impl DefaultOf<u8> for TypeDefault {
    ghost missing = { whole 0 };

    fn default(_alloc: Global) -> Result<u8, AllocError> {
        Ok(0)
    }
}

impl DefaultOf<u16> for TypeDefault {
    ghost missing = { whole 0 };

    fn default(_alloc: Global) -> Result<u16, AllocError> {
        Ok(0)
    }
}

impl DefaultOf<u32> for TypeDefault {
    ghost missing = { whole 0 };

    fn default(_alloc: Global) -> Result<u32, AllocError> {
        Ok(0)
    }
}

impl DefaultOf<u64> for TypeDefault {
    ghost missing = { whole 0 };

    fn default(_alloc: Global) -> Result<u64, AllocError> {
        Ok(0)
    }
}

impl DefaultOf<u128> for TypeDefault {
    ghost missing = { whole 0 };

    fn default(_alloc: Global) -> Result<u128, AllocError> {
        Ok(0)
    }
}

impl DefaultOf<usize> for TypeDefault {
    ghost missing = { whole 0 };

    fn default(_alloc: Global) -> Result<usize, AllocError> {
        Ok(0)
    }
}

impl DefaultOf<i8> for TypeDefault {
    ghost missing = { number (pos 0) };

    fn default(_alloc: Global) -> Result<i8, AllocError> {
        Ok(0)
    }
}

impl DefaultOf<i16> for TypeDefault {
    ghost missing = { number (pos 0) };

    fn default(_alloc: Global) -> Result<i16, AllocError> {
        Ok(0)
    }
}

impl DefaultOf<i32> for TypeDefault {
    ghost missing = { number (pos 0) };

    fn default(_alloc: Global) -> Result<i32, AllocError> {
        Ok(0)
    }
}

impl DefaultOf<i64> for TypeDefault {
    ghost missing = { number (pos 0) };

    fn default(_alloc: Global) -> Result<i64, AllocError> {
        Ok(0)
    }
}

impl DefaultOf<i128> for TypeDefault {
    ghost missing = { number (pos 0) };

    fn default(_alloc: Global) -> Result<i128, AllocError> {
        Ok(0)
    }
}
