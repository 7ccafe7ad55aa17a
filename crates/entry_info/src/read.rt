//! A complete text as changes.

ghost use Rattle.std.specs.Prelude.{◌≡◌, ◌==◌, IfOk, IfErr, map};
ghost use Rattle.std.specs.List.{after_first, before_first};
ghost use Rattle.entry_info.specs.Text.{AreSaid, InfoTextCause, change_value, end_of, line_value};

use crate::error::Error;
use crate::head::place_of;
use crate::line::{Line, line_of};
use entry_edit::change::Change;
use index_parts::hash::Kind;
use std::alloc::{AllocError, Global};

/// Returns the byte that ends a line.
fn end_of(nul: bool) -> u8
    ensures { result ≡ end_of nul }
{
    if nul { 0 } else { b'\n' }
}

/// Returns the first line of a text without its end, and the text after that end. If the text has no end, these are all
/// of it and nothing.
fn first_line(text: &[u8], end: u8) -> (&[u8], &[u8])
    ensures line { result.0.now ≡ before_first (λ b. b == end) text.now }
    ensures rest { result.1.now ≡ after_first (λ b. b == end) text.now }
{
    match place_of(text, end) {
        Some(place) => (&text[..place], &text[place + 1..]),
        None => (text, &[]),
    }
}

/// Reads the lines of a text, in order. Each is one of
///
/// mode SP type SP id TAB path mode SP id SP stage TAB path mode SP id TAB path
///
/// A line stages an entry without stat numbers, with the mode that git stores for its mode. With the mode 0 it removes
/// the path. An id is of the hash algorithm `kind`.
///
/// Lines end in a newline, and a path that begins with a double quote is quoted as git quotes paths. With `nul` lines
/// end in a NUL, and no path is quoted. The last line needs no end.
///
/// [`Error::Line`] has the first line that is wrong, and its error. [`Error::Memory`]: there is no memory for the
/// lines.
pub fn read(alloc: Global, nul: bool, kind: Kind, text: &[u8]) -> Result<Vec<Line<'_>>, Error>
    ensures said { IfOk result
        (λ lines. AreSaid nul kind text.now (map line_value lines.items)) }
    ensures fault { IfErr result (InfoTextCause nul kind text.now) }
{
    let end = end_of(nul);
    let mut lines = Vec::new(alloc);
    let mut rest = text;
    while !rest.is_empty() {
        let (line, behind) = first_line(rest, end);
        match line_of(alloc, nul, kind, line)? {
            Ok(line) => lines.push(line)?,
            Err(fault) => {
                let number = lines.len() + 1;
                return Err(Error::Line { number, fault });
            }
        }
        rest = behind;
    }
    Ok(lines)
}

/// Returns the changes that these lines request. Their paths are borrowed from the lines.
pub fn changes<'a>(alloc: Global, lines: &'a [Line<'_>]) -> Result<Vec<Change<'a>>, AllocError>
    ensures { IfOk result (λ cs. map change_value cs.items ≡ map line_value lines.now) }
{
    let mut changes = Vec::with_capacity(alloc, lines.len())?;
    for line in lines {
        changes.push(line.change())?;
    }
    Ok(changes)
}
