//! Why a change is rejected, as text.

use entry_info::names::{OF_DIRECTORIES, OF_REPOSITORIES, OF_SUBMODULES};
use gix_index::ChangeError;
use std::fmt;

/// Displays why a change is rejected, by the names of [`PathNames`](entry_info::names::PathNames).
///
/// A rejected name is described, and any other cause is displayed as its own text.
#[derive(Clone, Copy, Debug)]
pub struct Cause<'a>(pub &'a ChangeError);

/// Returns what is wrong with a name that the check of names rejects with this number.
fn name_fault(number: u32) -> &'static str {
    if number == OF_DIRECTORIES {
        return "the path has the name '.' or '..'";
    }
    if number == OF_REPOSITORIES {
        return "the path has the name '.git'";
    }
    if number == OF_SUBMODULES {
        return "the path of a link has the name '.gitmodules'";
    }
    "the path has a name that is refused"
}

impl fmt::Display for Cause<'_> {
    fn fmt<W: fmt::Write>(&self, f: &mut fmt::Formatter<W>) -> fmt::Result {
        match self.0 {
            ChangeError::Name { number } => f.write_str(name_fault(*number)),
            cause => write!(f, "{cause}"),
        }
    }
}
