//! Lines for people. Each has a maximum length and is written by one call, so that lines of two programs don't mix.

ghost use Rattle.std.specs.Prelude.{◌≤◌};

use std::fmt::Write as _;
use std::{fmt, io};

/// The maximum number of bytes of a line, including the newline at its end.
const MAX_LEN: usize = 4096;

/// The end of a line that is cut.
const CUT: [u8; 3] = [b'.', b'.', b'\n'];

/// The number of bytes of text that fit, with room for the end of a cut line.
const TEXT_LEN: usize = 4093;

/// A line that is composed before it is written. Its buffer is on the stack, so that an allocation failure can be
/// reported too.
#[derive(Drop)]
pub struct Line {
    bytes: [u8; MAX_LEN],
    len: usize,
    is_cut: bool,
    ghost has_room: { len ≤ 4093 },
}

impl Line {
    /// Returns a line without any text.
    fn new() -> Line {
        Line {
            bytes: [0; MAX_LEN],
            len: 0,
            is_cut: false,
        }
    }

    /// Writes the line by one call, with `..` and a newline at its end if it was cut. A failure of the write isn't
    /// reported.
    fn put<E: io::Write>(mut self, out: &mut E) {
        let mut len = self.len;
        if self.is_cut {
            self.bytes[len..len + CUT.len()].copy_from_slice(&CUT);
            len += CUT.len();
        }
        let _ = out.write_all(&self.bytes[..len]);
    }
}

/// Takes text as far as there is room. The error means that the rest was cut, which ends the formatting.
impl fmt::Write for Line {
    fn write_str(&mut self, text: &str) -> fmt::Result {
        let mut count = text.len();
        if self.is_cut || count > TEXT_LEN - self.len {
            count = text.floor_char_boundary(TEXT_LEN - self.len);
            self.is_cut = true;
        }
        let end = self.len + count;
        self.bytes[self.len..end].copy_from_slice(&text.as_bytes()[..count]);
        self.len = end;
        if self.is_cut {
            return Err(fmt::Error);
        }
        Ok(())
    }
}

/// Writes a text that ends with a newline by one call, cut after 4093 bytes.
pub fn put_text<E: io::Write, T: fmt::Display>(out: &mut E, text: &T) {
    let mut line = Line::new();
    let _ = write!(line, "{text}");
    line.put(out);
}

/// Writes a line with the program's name and a text by one call, cut after 4093 bytes.
pub fn put_line<E: io::Write, T: fmt::Display>(out: &mut E, text: &T) {
    let mut line = Line::new();
    let _ = writeln!(line, "index-tool: {text}");
    line.put(out);
}
