//! What is said of a format in the impls of a type.

/// A format.
pub(crate) struct Codec {
    /// Its name in those of modules and functions.
    pub(crate) module: &'static str,
    /// Its name in those of traits.
    pub(crate) name: &'static str,
    /// The proof about the fields' names that a struct's codec takes, after a space.
    pub(crate) proof: &'static str,
    /// The member of a row of variants, and the proofs about their names that an enum's codec
    /// takes.
    pub(crate) chosen: &'static str,
    /// The impl that writes, and the arguments of its method after the value.
    pub(crate) writer: (&'static str, &'static str),
    /// The impl that reads, and the arguments of its method.
    pub(crate) reader: (&'static str, &'static str),
    /// The ghost terms that an impl that reads cites.
    pub(crate) says_decodable: bool,
    /// Whether values that stand plainly are taken at once.
    pub(crate) takes_plainly: bool,
}

/// Bytes.
pub(crate) const BIN: Codec = Codec {
    module: "bin",
    name: "Bin",
    proof: "",
    chosen: "chosen refl",
    writer: (BYTES_WRITER, "alloc, output"),
    reader: (BYTES_READER, "alloc, offset, bytes"),
    says_decodable: true,
    takes_plainly: false,
};

/// JSON.
pub(crate) const JSON: Codec = Codec {
    module: "json",
    name: "Json",
    proof: " refl",
    chosen: "codec refl refl refl",
    writer: (TEXT_WRITER, "alloc, d, s"),
    reader: (TEXT_READER, "alloc, state, input"),
    says_decodable: false,
    takes_plainly: true,
};

/// RON.
pub(crate) const RON: Codec = Codec {
    module: "ron",
    name: "Ron",
    proof: " refl",
    chosen: "codec refl refl refl",
    writer: (TEXT_WRITER, "alloc, d, s"),
    reader: (TEXT_READER, "alloc, state, input"),
    says_decodable: false,
    takes_plainly: false,
};

/// The impl that says how values are encoded.
pub(crate) const DEFINITION: &str = "
impl$BOUNDS nano_$MODULE_schema::$NAMECodec for $FULL$OPEN
    ghost $MODULE = { $BODY };

    ghost agrees = { $AGREES };
}";

const BYTES_WRITER: &str = "
impl$BOUNDS nano_bin_schema::SerBin for $FULL$OPEN
    fn ser_bin(&self, alloc: std::alloc::Global, output: &mut Vec<u8>) \
        -> Result<(), std::alloc::AllocError> {
$BODY
    }
}";

const BYTES_READER: &str = "
impl$BOUNDS nano_bin_schema::DeBin for $FULL$OPEN
    ghost is_decodable = { $DECODABLE };

    fn de_bin(alloc: std::alloc::Global, offset: &mut usize, bytes: &[u8]) \
        -> Result<Self, nano_bin_schema::DeBinErr> {
$BODY
    }
}";

const TEXT_WRITER: &str = "
impl$BOUNDS nano_$MODULE_schema::Ser$NAME for $FULL$OPEN
    fn ser_$MODULE(&self, alloc: std::alloc::Global, d: usize, \
        s: &mut nano_$MODULE_schema::Ser$NAMEState) -> Result<(), std::alloc::AllocError> {
$BODY
    }
}";

const TEXT_READER: &str = "
impl$BOUNDS nano_$MODULE_schema::De$NAME for $FULL$OPEN
    fn de_$MODULE(alloc: std::alloc::Global, state: &mut nano_$MODULE_schema::De$NAMEState, \
        input: &mut std::str::Chars<'_>) -> nano_$MODULE_schema::$NAMEResult<Self> {
$BODY
    }$TAKER
}";
