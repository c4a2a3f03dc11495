//! Names of fields between quotes, with a colon. Most are known where they are written, and short:
//! what is written then is known too, and is copied at once.

ghost use Rattle.std.specs.Prelude.{◌≡◌, ◌+◌, ◌≤◌, ◌++◌, OnOk, OnErr, codes, length, string_bytes};
ghost use Rattle.std.specs.Prelude.{take};
ghost use Rattle.nano_text.specs.Outcomes.{Unchanged};

use std::alloc::AllocError;
use std::str;

/// A name of at most so many bytes is short.
pub(crate) const SHORT_NAME: usize = 28;
/// There is space for a short name, two quotes and a colon.
const QUOTED_LEN: usize = 32;

/// A short name between quotes, and a colon. More quotes follow. The bytes are put one by one:
/// where the name is known, so is all of them.
#[inline(always)]
fn quoted(name: &str) -> [u8; QUOTED_LEN]
    requires { length name.now ≤ SHORT_NAME }
    ensures { take (length name.now + 3) result ≡ codes "\"" ++ (name.now ++ codes "\":") }
{
    let text = name.as_bytes();
    let mut bytes = [b'"'; QUOTED_LEN];
    for (at, byte) in text.iter().enumerate() {
        bytes[at + 1] = *byte;
    }
    bytes[text.len() + 2] = b':';
    bytes
}

/// Appends a short name between quotes, and a colon. If the allocation fails, `out` is unchanged.
#[inline(always)]
pub(crate) fn append_short_name(out: &mut String, name: &str) -> Result<(), AllocError>
    requires { length name.now ≤ SHORT_NAME }
    ensures ok { OnOk result (string_bytes out.new
        ≡ string_bytes out.old ++ (codes "\"" ++ (name.now ++ codes "\":"))) }
    ensures err { OnErr result (Unchanged out.old out.new) }
{
    let bytes = quoted(name);
    // A name is UTF-8, and so are the quotes: nothing is left to be tested.
    out.push_str(unsafe { str::from_utf8_unchecked(&bytes[..name.len() + 3]) })
}
