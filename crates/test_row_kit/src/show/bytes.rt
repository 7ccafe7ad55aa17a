//! Formats bytes as digits and as text.

use std::fmt::{self, Display, Write};

/// The smallest number of equal bytes that is shown as one byte and a count.
const LONG: usize = 8;

/// Displays bytes as digits of base 16, in pieces joined by `,`. A run of at least `LONG` equal bytes is a piece
/// `XX*N`. No bytes are `-`.
#[derive(Clone, Copy)]
pub struct Bytes<'a>(pub &'a [u8]);

impl Display for Bytes<'_> {
    fn fmt<W: fmt::Write>(&self, f: &mut fmt::Formatter<W>) -> fmt::Result {
        if self.0.is_empty() {
            return write!(f, "-");
        }
        let mut was_long = None;
        for run in self.0.chunk_by(|byte, next| byte == next) {
            let is_long = run.len() >= LONG;
            if was_long == Some(true) || (is_long && was_long.is_some()) {
                write!(f, ",")?;
            }
            digits(f, run)?;
            was_long = Some(is_long);
        }
        Ok(())
    }
}

/// Writes a run of equal bytes as digits.
fn digits<W: Write>(f: &mut fmt::Formatter<W>, run: &[u8]) -> fmt::Result {
    let Some(byte) = run.first() else {
        return Ok(());
    };
    if run.len() >= LONG {
        return write!(f, "{byte:02x}*{}", run.len());
    }
    for byte in run {
        write!(f, "{byte:02x}")?;
    }
    Ok(())
}

/// Displays bytes as text. Letters, digits and signs of ASCII are written as they are, except `\`, `{`, `}`, `:` and
/// `;`. Each other byte is a backslash and two digits. A run of at least `LONG` equal bytes is one byte and `{N}`. No
/// bytes are `{}`.
#[derive(Clone, Copy)]
pub struct Text<'a>(pub &'a [u8]);

impl Display for Text<'_> {
    fn fmt<W: fmt::Write>(&self, f: &mut fmt::Formatter<W>) -> fmt::Result {
        if self.0.is_empty() {
            return write!(f, "{{}}");
        }
        for run in self.0.chunk_by(|byte, next| byte == next) {
            signs(f, run)?;
        }
        Ok(())
    }
}

/// Writes a run of equal bytes as text.
fn signs<W: Write>(f: &mut fmt::Formatter<W>, run: &[u8]) -> fmt::Result {
    let is_long = run.len() >= LONG;
    let shown = if is_long { 1 } else { run.len() };
    for byte in run.iter().take(shown) {
        sign(f, *byte)?;
    }
    if is_long {
        write!(f, "{{{}}}", run.len())?;
    }
    Ok(())
}

fn sign<W: Write>(f: &mut fmt::Formatter<W>, byte: u8) -> fmt::Result {
    if byte.is_ascii_graphic() && !b"\\{}:;".contains(&byte) {
        write!(f, "{}", byte as char)
    } else {
        write!(f, "\\{byte:02x}")
    }
}
