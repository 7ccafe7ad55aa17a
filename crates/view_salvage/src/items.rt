//! Reads the extensions after the entries of a file, with their positions.

ghost use Rattle.std.specs.Prelude.{◌≡◌, ◌≤◌, ◌+◌, length, IfErr, IfOk};
ghost use Rattle.gix_index.specs.Link.{HasDelete};
ghost use Rattle.gix_index.specs.LinkError.TheVariants.{Memory};
ghost use Rattle.view_salvage.specs.ItemSteps.{IsItemFault, IsWalked, IsSameLinkError};

use gix_index::decode::Error;
use gix_index::extension::decode::Error as ExtensionError;
use gix_index::extension::{Iter, MIN_SIZE, Signature, is_understood, link};
use gix_index::hash::Kind;
use std::alloc::{AllocError, Global};
use view_layout::part::{Part, What, push_part};

/// The parts of a file up to the end of its extensions, or to the first invalid one.
#[derive(Drop)]
pub(crate) struct Walked {
    pub(crate) parts: Vec<Part>,
    /// The offset of their end.
    pub(crate) end: usize,
    /// The number of bytes left after them, by which the trailer is too long. It is 0 if an extension is invalid.
    pub(crate) left: usize,
    pub(crate) fault: Option<ExtensionError>,
}

/// Returns the error of an extension for an error of reading a link. Fails if that error is an allocation failure.
fn extension_error(e: link::decode::Error) -> Result<ExtensionError, AllocError>
    ensures told { IfOk result (IsSameLinkError e) }
    ensures memory { IfErr result (λ _. e ≡ Memory) }
{
    match e {
        link::decode::Error::Corrupt(text) => {
            Ok(ExtensionError::Link(link::decode::Error::Corrupt(text)))
        }
        link::decode::Error::BitmapDecode { err, kind } => {
            let fault = link::decode::Error::BitmapDecode { err, kind };
            Ok(ExtensionError::Link(fault))
        }
        link::decode::Error::Memory => Err(AllocError),
    }
}

/// Returns the error of an extension, if it has one.
fn fault_of(
    alloc: Global,
    kind: Kind,
    signature: Signature,
    content: &[u8],
) -> Result<Option<ExtensionError>, AllocError>
    ensures fault { IfOk result (IsItemFault kind signature content.now) }
    ensures memory { IfErr result (λ _. HasDelete kind content.now) }
{
    if !is_understood(signature, content) {
        return Ok(Some(ExtensionError::MandatoryUnimplemented { signature }));
    }
    if signature != link::SIGNATURE {
        return Ok(None);
    }
    let Err(e) = link::decode::decode(alloc, content, kind) else {
        return Ok(None);
    };
    Ok(Some(extension_error(e)?))
}

/// Appends the parts of extensions from an offset on, up to the first invalid one.
pub(crate) fn walk_items(
    alloc: Global,
    kind: Kind,
    offset: usize,
    extensions: &[u8],
    mut parts: Vec<Part>,
) -> Result<Walked, AllocError>
    requires { offset + length extensions.now ≤ 0xffffffffffffffff }
    ensures { IfOk result (λ w. IsWalked kind offset extensions.now parts.items w) }
{
    let mut end = offset;
    let mut items = Iter::new(extensions);
    while let Some(item) = items.next() {
        let (signature, content) = item;
        if let Some(fault) = fault_of(alloc, kind, signature, content)? {
            return Ok(Walked {
                parts,
                end,
                left: 0,
                fault: Some(fault),
            });
        }
        push_part(&mut parts, end, MIN_SIZE, What::ExtensionHead { signature })?;
        let start = end + MIN_SIZE;
        push_part(
            &mut parts,
            start,
            content.len(),
            What::ExtensionContent { signature },
        )?;
        end = start + content.len();
    }
    Ok(Walked {
        parts,
        end,
        left: extensions.len() - items.consumed,
        fault: None,
    })
}
