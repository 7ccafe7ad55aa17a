//! Rows about a part of a state that is set or removed.

use gix_index::State;
use gix_index::hash::Kind;
use test_row_kit::show::{OrNone, version_of};
use test_row_kit::{Fault, Lines, Words, refusal};

/// Takes a state. Returns `None` if its bytes can't be decoded, after it has appended the line of the error.
fn state(out: &mut Lines, kind: Kind, words: &mut Words<'_>) -> Result<Option<State>, Fault> {
    match words.state(kind)? {
        Ok(state) => Ok(Some(state)),
        Err(e) => {
            refusal::decode(out, &e);
            Ok(None)
        }
    }
}

/// `take-link`: takes the link out of a state. Appends its checksum, and the link that the state has afterwards.
pub fn take_link(out: &mut Lines, kind: Kind, words: &mut Words<'_>) -> Result<(), Fault> {
    let Some(mut state) = state(out, kind, words)? else {
        return Ok(());
    };
    let taken = state.take_link();
    let id = taken.map(|link| link.shared_index_checksum);
    out.put("take_link", OrNone(id));
    let left = state.link().map(|link| link.shared_index_checksum);
    out.put("link", OrNone(left));
    Ok(())
}

/// `set-version`: sets the version of a state, and appends the version that it has afterwards.
pub fn set_version(out: &mut Lines, kind: Kind, words: &mut Words<'_>) -> Result<(), Fault> {
    let Some(mut state) = state(out, kind, words)? else {
        return Ok(());
    };
    state.set_version(words.version()?);
    out.put("version", version_of(state.version()));
    Ok(())
}
