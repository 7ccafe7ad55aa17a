//! Merges a shared index into the split index that links to it (gitformat-index, "Split index").

ghost use Rattle.ext_split.specs.Link.{link_of};
ghost use Rattle.index_state.specs.Dissolve.{Dissolves};

use crate::State;
use ext_split::link::decode::Error;
use ext_split::link::{Link, SplitIndex};
use ext_split::merge;

/// Merges the shared index into the split one by the bitmaps of the link.
fn merge_shared(link: &Link, split: &mut State, shared: State) -> Result<(), Error>
    ensures { Dissolves (link_of link.now) shared split.old split.new result }
{
    if shared.parts.extensions.link.is_some() {
        return Err(Error::Corrupt("shared index has a link of its own"));
    }
    let Some(bitmaps) = &link.bitmaps else {
        return Ok(());
    };
    let parts = shared.parts;
    let mut entries = parts.entries;
    let mut storage = parts.path_backing;
    if let Err(e) = merge::merge(
        &mut entries,
        &mut storage,
        split.entries(),
        split.path_backing(),
        &bitmaps.delete,
        &bitmaps.replace,
    ) {
        return Err(Error::from(e));
    }
    split.parts.entries = entries;
    split.parts.path_backing = storage;
    split.parts.extensions_fit = true;
    Ok(())
}

impl SplitIndex for State {
    ghost dissolves = { Dissolves };

    fn dissolve(&mut self, link: Link, shared: State) -> Result<(), Error> {
        merge_shared(&link, self, shared)
    }
}
