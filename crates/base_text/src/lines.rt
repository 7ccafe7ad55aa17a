//! The format of lines with paths.

ghost use Rattle.std.specs.Prelude.{◌≡◌, ◌++◌, OnOk};
ghost use Rattle.base_text.specs.Line.{line_end, shown_path};

use crate::append::Appended;
use crate::quote::append_quoted;

/// The format of lines with paths. The default is text for people and simple programs: the bytes of a path are
/// unchanged, and a newline in a path can't be distinguished from the end of a line.
#[derive(Clone, Copy, Debug, PartialEq, Eq)]
pub struct Lines {
    /// Whether a line ends with a NUL, which no path has, instead of a newline. This is `-z` of git's commands.
    pub nul: bool,
    /// Whether a path with unusual bytes is quoted as git does it ([`append_quoted`]).
    pub quote: bool,
}

impl Lines {
    /// Returns the byte that ends a line.
    pub fn end(self) -> u8
        ensures { result ≡ line_end self }
    {
        if self.nul { b'\0' } else { b'\n' }
    }

    /// Appends a path, quoted if the format is so.
    pub fn append_path(self, text: &mut Vec<u8>, path: &[u8]) -> Appended
        ensures { OnOk result (text.new.items ≡ text.old.items ++ shown_path self path.now) }
    {
        if self.quote {
            return append_quoted(text, path);
        }
        text.extend_from_slice(path)
    }
}
