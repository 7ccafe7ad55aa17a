//! Rows about a shared index that is merged into a split index.

use gix_index::extension::link::decode::{Error, decode};
use gix_index::hash::Kind;
use std::alloc::AllocError;
use test_row_kit::show::entries;
use test_row_kit::{Fault, Lines, Words, refusal};

/// `merge`: appends the entries of a split index after it is merged with its shared index. The link is decoded from
/// bytes.
pub fn merge(out: &mut Lines, kind: Kind, words: &mut Words<'_>) -> Result<(), Fault> {
    let alloc = out.alloc();
    let shared = words.entries(kind)?;
    let mut split = words.entries(kind)?;
    let link = match decode(alloc, &words.bytes()?, kind) {
        Ok(link) => link,
        Err(Error::Memory) => return Err(Fault::from(AllocError)),
        Err(_) => return Err(Fault::Wrong("the bytes of a link")),
    };
    if let Err(e) = link.dissolve_into(alloc, &mut split, shared) {
        refusal::link(out, &e);
    }
    entries(out, &split);
    Ok(())
}
