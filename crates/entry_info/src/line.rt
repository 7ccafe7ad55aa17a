//! A line, and the change that it requests.

ghost use Rattle.std.specs.Prelude.{◌≡◌, Ok, Err, IfOk, MatchResult};
ghost use Rattle.std.specs.List.{starts_with};
ghost use Rattle.std.specs.Cow.{cow_slice_items};
ghost use Rattle.entry_info.specs.Line.{change_of, path_given};
ghost use Rattle.entry_info.specs.Text.{change_value, line_value};

use crate::error::Fault;
use crate::head::{entry_given, split_at_first};
use crate::quoting::unquoted;
use entry_edit::change::Change;
use entry_list::Pathless;
use index_parts::hash::Kind;
use std::alloc::{AllocError, Global};
use std::borrow::CowSlice;

/// The content of a line.
#[derive(Drop)]
pub struct Line<'a> {
    /// The entry that is staged, or None if the path is removed.
    pub entry: Option<Pathless>,
    /// The path. It is borrowed from the text if it isn't quoted there.
    pub path: CowSlice<'a, u8, Global>,
}

impl Line<'_> {
    /// Returns the change that the line requests.
    pub fn change(&self) -> Change<'_>
        ensures { change_value result ≡ line_value self.now }
    {
        let path = self.path.as_slice();
        match self.entry {
            Some(entry) => Change::Stage { entry, path },
            None => Change::Unstage { path },
        }
    }
}

/// Returns the path after the tab of a line.
fn path_given(
    alloc: Global,
    nul: bool,
    text: &[u8],
) -> Result<Result<CowSlice<'_, u8, Global>, Fault>, AllocError>
    ensures { IfOk result (λ read. MatchResult read
        (λ path. path_given nul text.now ≡ Ok (cow_slice_items path))
        (λ fault. path_given nul text.now ≡ Err fault)) }
{
    if nul || !text.starts_with(b"\"") {
        return Ok(Ok(CowSlice::Borrowed(text)));
    }
    match unquoted(alloc, &text[1..])? {
        Some(path) => Ok(Ok(CowSlice::Owned(path))),
        None => Ok(Err(Fault::Quoting)),
    }
}

/// Reads a line. The error is the first one in the line. With `nul` lines end in a NUL, and no path is quoted.
#[tactic(auto, unfolding(crate::specs::Line::change_of))]
pub(crate) fn line_of(
    alloc: Global,
    nul: bool,
    kind: Kind,
    line: &[u8],
) -> Result<Result<Line<'_>, Fault>, AllocError>
    ensures { IfOk result (λ read. MatchResult read
        (λ said. change_of nul kind line.now ≡ Ok (line_value said))
        (λ fault. change_of nul kind line.now ≡ Err fault)) }
{
    let Some((head, path)) = split_at_first(line, b'\t') else {
        return Ok(Err(Fault::NoTab));
    };
    let entry = match entry_given(kind, head) {
        Ok(entry) => entry,
        Err(fault) => return Ok(Err(fault)),
    };
    match path_given(alloc, nul, path)? {
        Ok(path) => Ok(Ok(Line { entry, path })),
        Err(fault) => Ok(Err(fault)),
    }
}
