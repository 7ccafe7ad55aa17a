//! Paths that can't be displayed in lines that end with a NUL.

ghost use Rattle.tool_errors.specs.Nuls.{ChecksPaths, FindsNul};

use crate::failure::Failure;
use base_text::lines::Lines;
use entry_list::paths::lacks_nul;
use gix_index::decode::entry::EntrySlice;

/// Returns the index of the first entry whose path has a NUL.
fn first_with_nul(entries: &EntrySlice<'_>) -> Option<usize>
    ensures { FindsNul entries.now result }
{
    for place in 0..entries.len() {
        if !lacks_nul(entries.path(place)) {
            return Some(place);
        }
    }
    None
}

/// Checks that lines of this style show the end of each path. If the lines end with a NUL and don't quote paths, they
/// can't show a path that has a NUL.
///
/// # Errors
///
/// [`Failure::NulInPath`] names the file at `path` and the first such entry.
pub fn check_paths<'a>(
    style: Lines,
    entries: &EntrySlice<'_>,
    path: &'a str,
) -> Result<(), Failure<'a>>
    ensures { ChecksPaths style entries.now path.now result }
{
    if !style.nul || style.quote {
        return Ok(());
    }
    match first_with_nul(entries) {
        Some(place) => Err(Failure::NulInPath { path, place }),
        None => Ok(()),
    }
}
