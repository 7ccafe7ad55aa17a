//! Reads the extensions after the last entry.

ghost use Rattle.std.specs.Prelude.{◌≡◌, ◌≤◌, length, IfOk, IfErr, OnOk};
ghost use Rattle.index_model.specs.ExtensionSteps.{ExtensionCause};
ghost use Rattle.index_model.specs.Outcome.{is_mandatory, is_understood, outcome_of};
ghost use Rattle.index_model.specs.Contents.{ExtensionIdsAreOf};
ghost use Rattle.index_decode.specs.ReadParts.{AddsTo, HasGathered, ContentCause};

use ext_small::{fs_monitor, index_entry_offset_table, resolve_undo};
use ext_split::link;
use ext_tree as tree;
use ext_untracked as untracked_cache;
use index_extensions::{Iter, Signature, end_of_index_entry, sparse};
use index_model::decode::Error as DecodeError;
use index_model::extension::{Error, Outcome};
use index_parts::hash::Kind;
use std::alloc::Global;

/// Returns whether a reader must understand the extension.
fn is_mandatory(signature: Signature) -> bool
    ensures { result ≡ is_mandatory signature }
{
    signature[0] >= b'a' && signature[0] <= b'z'
}

/// Returns whether this reader understands the extension, or may skip it.
pub fn is_understood(signature: Signature, content: &[u8]) -> bool
    ensures { result ≡ is_understood signature content.now }
{
    !is_mandatory(signature)
        || signature == link::SIGNATURE
        || (signature == sparse::SIGNATURE && content.is_empty())
}

/// Adds one extension to the outcome. A later extension replaces an earlier one with the same signature.
fn add(
    outcome: &mut Outcome,
    alloc: Global,
    object_hash: Kind,
    alloc_limit_bytes: Option<usize>,
    signature: Signature,
    content: &[u8],
) -> Result<(), DecodeError>
    ensures ok { OnOk result (AddsTo object_hash alloc_limit_bytes signature content.now
        outcome.old outcome.new) }
    ensures err { IfErr result (ContentCause object_hash signature content.now) }
{
    let limit = alloc_limit_bytes;
    if signature == link::SIGNATURE {
        outcome.link = Some(link::decode::decode(alloc, content, object_hash)?);
    } else if signature == tree::SIGNATURE {
        outcome.tree = tree::decode(alloc, content, object_hash, limit)?;
    } else if signature == resolve_undo::SIGNATURE {
        outcome.resolve_undo = resolve_undo::decode(alloc, content, object_hash)?;
    } else if signature == untracked_cache::SIGNATURE {
        outcome.untracked = untracked_cache::decode(alloc, content, object_hash, limit)?;
    } else if signature == fs_monitor::SIGNATURE {
        outcome.fs_monitor = fs_monitor::decode(alloc, content)?;
    } else if signature == sparse::SIGNATURE {
        outcome.is_sparse = true;
    } else if signature == end_of_index_entry::SIGNATURE {
        outcome.had_end_of_index_marker = true;
    } else if signature == index_entry_offset_table::SIGNATURE {
        outcome.had_offset_table = true;
    }
    Ok(())
}

/// Returns the outcome of all extensions, and how many bytes remain after them.
pub fn all(
    alloc: Global,
    extensions: &[u8],
    object_hash: Kind,
    alloc_limit_bytes: Option<usize>,
) -> Result<(Outcome, usize), DecodeError>
    ensures ok { IfOk result (HasGathered object_hash alloc_limit_bytes extensions.now) }
    ensures ids { IfOk result (λ x. ExtensionIdsAreOf object_hash (outcome_of x.0)) }
    ensures small { IfOk result (λ x. x.1 ≤ length extensions.now) }
    ensures err { IfErr result (ExtensionCause object_hash extensions.now) }
{
    let mut outcome = Outcome::none();
    let mut items = Iter::new(extensions);
    while let Some(item) = items.next() {
        let (signature, content) = item;
        if !is_understood(signature, content) {
            let fault = Error::MandatoryUnimplemented { signature };
            return Err(DecodeError::Extension(fault));
        }
        add(
            &mut outcome,
            alloc,
            object_hash,
            alloc_limit_bytes,
            signature,
            content,
        )?;
    }
    Ok((outcome, extensions.len() - items.consumed))
}
