//! What the tests of bytes share.

use nano_bin::{BothBin, DeBin, DeBinKind};
use std::alloc::{AllocError, Global};

/// What stands before the value inside another, of which it is the last part, and the innermost
/// value.
pub(crate) struct Deep {
    pub around: &'static [u8],
    pub inner: &'static [u8],
}

/// All of the bytes are a value, and are what is written of it.
pub(crate) fn is_read_back<T: BothBin>(alloc: Global, bytes: &[u8]) -> bool {
    let Ok(value) = T::deserialize_bin_whole(alloc, bytes) else {
        return false;
    };
    match value.serialize_bin(alloc) {
        Ok(written) => written.as_slice() == bytes,
        Err(_error) => false,
    }
}

/// No value begins the bytes: that is found at this place, by the levels or not.
pub(crate) fn is_rejected<T: DeBin>(
    alloc: Global,
    bytes: &[u8],
    place: usize,
    is_too_deep: bool,
) -> bool {
    match T::deserialize_bin(alloc, bytes) {
        Ok(_value) => false,
        Err(error) => error.o == place && (error.kind == DeBinKind::Memory) == is_too_deep,
    }
}

/// No prefix of the bytes is a value.
fn no_prefix_is_read<T: DeBin>(alloc: Global, bytes: &[u8]) -> bool {
    for count in 0..bytes.len() {
        if T::deserialize_bin(alloc, &bytes[..count]).is_ok() {
            return false;
        }
    }
    true
}

/// Each is a value, written as the same bytes, and no prefix of it is one.
pub(crate) fn are_values<T: BothBin>(alloc: Global, rows: &[&[u8]]) -> bool {
    for bytes in rows {
        if !is_read_back::<T>(alloc, bytes) || !no_prefix_is_read::<T>(alloc, bytes) {
            return false;
        }
    }
    true
}

/// Values one in the other, so many.
fn nested(alloc: Global, deep: &Deep, count: usize) -> Result<Vec<u8>, AllocError> {
    let mut bytes = Vec::new(alloc);
    for _ in 1..count {
        bytes.extend_from_slice(deep.around)?;
    }
    bytes.extend_from_slice(deep.inner)?;
    Ok(bytes)
}

/// So many values one in the other are read, and of one more the levels run out at this place.
pub(crate) fn ends_after<T: BothBin>(
    alloc: Global,
    deep: &Deep,
    levels: usize,
    place: usize,
) -> bool {
    let Ok(most) = nested(alloc, deep, levels) else {
        return false;
    };
    let Ok(more) = nested(alloc, deep, levels.saturating_add(1)) else {
        return false;
    };
    is_read_back::<T>(alloc, &most) && is_rejected::<T>(alloc, &more, place, true)
}
