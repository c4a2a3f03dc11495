//! The widths of the integers.

ghost use Rattle.std.specs.Prelude.{◌≡◌};
ghost use Rattle.std.specs.Int.{w8, w16, w32, w64, w128};
ghost use Rattle.nano_bin_bytes.specs.Scalars.{little_endian, little_value, EncodesUnsigned};
ghost use Rattle.nano_bin_bytes.specs.Scalars.{EncodesSigned, written_signed, signed_value};
ghost use Rattle.nano_bin_bytes.specs.NumberImpls.{unsigned_width, signed_width};

use nano_value::Value;

/// An integer with a fixed encoding of `N` bytes; all `N` bytes decode.
pub trait FixedWidth<const N: usize>: Value + Drop {
    ghost use Rattle.std.specs.Prelude.{◌≡◌, ℕ, List};
    ghost use Rattle.nano_value.specs.Meaning.{Meaning};
    ghost use Rattle.nano_bin_bytes.specs.Scalars.{HasWidth};

    /// The bytes of a number.
    ghost as_bytes: { Self → List ℕ };

    /// Which bytes encode which number.
    ghost encodes: { List ℕ → Meaning → Type 0 };

    /// The number that bytes stand for.
    ghost of_bytes: { List ℕ → Self };

    /// The bytes of the number. It takes no memory.
    fn to_bytes(&self) -> [u8; N]
        ensures { result ≡ as_bytes self.now };

    /// The number of the bytes: there is one for any `N` bytes.
    fn from_bytes(bytes: &[u8; N]) -> Self
        ensures { result ≡ of_bytes bytes.now };

    /// Exactly this many bytes encode the number that they stand for.
    ghost has_width: { HasWidth N encodes (λ bytes. Self.means (of_bytes bytes)) };
}

impl FixedWidth<1> for u8 {
    ghost as_bytes = { little_endian 1 };

    ghost encodes = { EncodesUnsigned 1 };

    ghost of_bytes = { little_value };

    #[tactic(auto, using(crate::proofs::ScalarsLaws::little_byte))]
    fn to_bytes(&self) -> [u8; 1] {
        [*self]
    }

    #[tactic(auto, using(crate::proofs::ScalarsLaws::from_le_bytes_8))]
    fn from_bytes(bytes: &[u8; 1]) -> u8 {
        u8::from_le_bytes(*bytes)
    }

    ghost has_width = { unsigned_width 1 };
}

impl FixedWidth<2> for u16 {
    ghost as_bytes = { little_endian 2 };

    ghost encodes = { EncodesUnsigned 2 };

    ghost of_bytes = { little_value };

    #[tactic(auto, using(crate::proofs::ScalarsLaws::to_le_bytes_16))]
    fn to_bytes(&self) -> [u8; 2] {
        u16::to_le_bytes(*self)
    }

    #[tactic(auto, using(crate::proofs::ScalarsLaws::from_le_bytes_16))]
    fn from_bytes(bytes: &[u8; 2]) -> u16 {
        u16::from_le_bytes(*bytes)
    }

    ghost has_width = { unsigned_width 2 };
}

impl FixedWidth<4> for u32 {
    ghost as_bytes = { little_endian 4 };

    ghost encodes = { EncodesUnsigned 4 };

    ghost of_bytes = { little_value };

    #[tactic(auto, using(crate::proofs::ScalarsLaws::to_le_bytes_32))]
    fn to_bytes(&self) -> [u8; 4] {
        u32::to_le_bytes(*self)
    }

    #[tactic(auto, using(crate::proofs::ScalarsLaws::from_le_bytes_32))]
    fn from_bytes(bytes: &[u8; 4]) -> u32 {
        u32::from_le_bytes(*bytes)
    }

    ghost has_width = { unsigned_width 4 };
}

impl FixedWidth<8> for u64 {
    ghost as_bytes = { little_endian 8 };

    ghost encodes = { EncodesUnsigned 8 };

    ghost of_bytes = { little_value };

    #[tactic(auto, using(crate::proofs::ScalarsLaws::to_le_bytes_64))]
    fn to_bytes(&self) -> [u8; 8] {
        u64::to_le_bytes(*self)
    }

    #[tactic(auto, using(crate::proofs::ScalarsLaws::from_le_bytes_64))]
    fn from_bytes(bytes: &[u8; 8]) -> u64 {
        u64::from_le_bytes(*bytes)
    }

    ghost has_width = { unsigned_width 8 };
}

impl FixedWidth<8> for usize {
    ghost as_bytes = { little_endian 8 };

    ghost encodes = { EncodesUnsigned 8 };

    ghost of_bytes = { little_value };

    #[tactic(auto, using(crate::proofs::ScalarsLaws::to_le_bytes_64))]
    fn to_bytes(&self) -> [u8; 8] {
        usize::to_le_bytes(*self)
    }

    #[tactic(auto, using(crate::proofs::ScalarsLaws::from_le_bytes_64))]
    fn from_bytes(bytes: &[u8; 8]) -> usize {
        usize::from_le_bytes(*bytes)
    }

    ghost has_width = { unsigned_width 8 };
}

impl FixedWidth<16> for u128 {
    ghost as_bytes = { little_endian 16 };

    ghost encodes = { EncodesUnsigned 16 };

    ghost of_bytes = { little_value };

    #[tactic(auto, using(crate::proofs::ScalarsLaws::to_le_bytes_128))]
    fn to_bytes(&self) -> [u8; 16] {
        u128::to_le_bytes(*self)
    }

    #[tactic(auto, using(crate::proofs::ScalarsLaws::from_le_bytes_128))]
    fn from_bytes(bytes: &[u8; 16]) -> u128 {
        u128::from_le_bytes(*bytes)
    }

    ghost has_width = { unsigned_width 16 };
}

impl FixedWidth<1> for i8 {
    ghost as_bytes = { written_signed w8 1 };

    ghost encodes = { EncodesSigned w8 1 };

    ghost of_bytes = { signed_value w8 };

    fn to_bytes(&self) -> [u8; 1] {
        u8::to_bytes(&self.cast_unsigned())
    }

    fn from_bytes(bytes: &[u8; 1]) -> i8 {
        u8::from_bytes(bytes).cast_signed()
    }

    ghost has_width = { signed_width 1 w8 (λ n h. record { fits = h }) };
}

impl FixedWidth<2> for i16 {
    ghost as_bytes = { written_signed w16 2 };

    ghost encodes = { EncodesSigned w16 2 };

    ghost of_bytes = { signed_value w16 };

    fn to_bytes(&self) -> [u8; 2] {
        u16::to_bytes(&self.cast_unsigned())
    }

    fn from_bytes(bytes: &[u8; 2]) -> i16 {
        u16::from_bytes(bytes).cast_signed()
    }

    ghost has_width = { signed_width 2 w16 (λ n h. record { fits = h }) };
}

impl FixedWidth<4> for i32 {
    ghost as_bytes = { written_signed w32 4 };

    ghost encodes = { EncodesSigned w32 4 };

    ghost of_bytes = { signed_value w32 };

    fn to_bytes(&self) -> [u8; 4] {
        u32::to_bytes(&self.cast_unsigned())
    }

    fn from_bytes(bytes: &[u8; 4]) -> i32 {
        u32::from_bytes(bytes).cast_signed()
    }

    ghost has_width = { signed_width 4 w32 (λ n h. record { fits = h }) };
}

impl FixedWidth<8> for i64 {
    ghost as_bytes = { written_signed w64 8 };

    ghost encodes = { EncodesSigned w64 8 };

    ghost of_bytes = { signed_value w64 };

    fn to_bytes(&self) -> [u8; 8] {
        u64::to_bytes(&self.cast_unsigned())
    }

    fn from_bytes(bytes: &[u8; 8]) -> i64 {
        u64::from_bytes(bytes).cast_signed()
    }

    ghost has_width = { signed_width 8 w64 (λ n h. record { fits = h }) };
}

impl FixedWidth<16> for i128 {
    ghost as_bytes = { written_signed w128 16 };

    ghost encodes = { EncodesSigned w128 16 };

    ghost of_bytes = { signed_value w128 };

    fn to_bytes(&self) -> [u8; 16] {
        u128::to_bytes(&self.cast_unsigned())
    }

    fn from_bytes(bytes: &[u8; 16]) -> i128 {
        u128::from_bytes(bytes).cast_signed()
    }

    ghost has_width = { signed_width 16 w128 (λ n h. record { fits = h }) };
}
