//! The line that names the module of the impls, and the marker in whose place it is written.

ghost use Rattle.std.specs.Prelude.{IfOk, IfSome};
ghost use Rattle.derive_source.specs.Below.{marker, module_line, StandsAbove};

use crate::fault::Fault;

/// The line that ends a file with user-defined types: it names the module of their impls.
pub const MODULE_LINE: &str = "mod derived;";

/// The line that, with what stands below it, `MODULE_LINE` takes the place of.
pub const MARKER: &str = "// ---- written by derive_files";

/// What stands above the line that names the module, if that line ends the source.
pub(crate) fn above_module(source: &str) -> Option<&str>
    ensures { IfSome result (λ above. StandsAbove module_line source.now above.now) }
{
    let (above, below) = source.rsplit_once(MODULE_LINE)?;
    if is_line_end(above) && below.trim().is_empty() {
        Some(above)
    } else {
        None
    }
}

/// What stands above the marker of a source that does not end in the line that names the module.
pub(crate) fn above_marker(source: &str) -> Result<&str, Fault>
    ensures { IfOk result (λ above. StandsAbove marker source.now above.now) }
{
    let Some((above, below)) = source.split_once(MARKER) else {
        return Err(without_module(source));
    };
    if !is_line_end(above) || !is_line_start(below) {
        return Err(Fault::place(
            above.len(),
            "the marker `// ---- written by derive_files` stands alone on its line",
        ));
    }
    match below.find(MARKER) {
        Some(again) => Err(Fault::place(
            source
                .len()
                .saturating_sub(below.len())
                .saturating_add(again),
            "the marker stands a second time",
        )),
        None => Ok(above),
    }
}

/// What stands above the line that names the module, or above the marker of a source that does not
/// end in that line.
///
/// # Errors
///
/// The source does not end in that line, and has no marker or two.
pub fn text_above(source: &str) -> Result<&str, Fault> {
    match above_module(source) {
        Some(above) => Ok(above),
        None => above_marker(source),
    }
}

/// The fault of a source that does not end in the line that names the module.
fn without_module(source: &str) -> Fault {
    match source.rfind(MODULE_LINE) {
        Some(at) => Fault::place(
            at,
            "`mod derived;` stands alone on the last line: the impls stand in that module",
        ),
        None => Fault::place(
            source.len(),
            "no line is `mod derived;`: it ends the file, and the impls stand in that module",
        ),
    }
}

/// Whether a line begins after the text.
fn is_line_end(text: &str) -> bool {
    text.is_empty() || text.ends_with('\n')
}

/// Whether a line ends before the text.
fn is_line_start(text: &str) -> bool {
    text.is_empty() || text.starts_with('\n') || text.starts_with("\r\n")
}
