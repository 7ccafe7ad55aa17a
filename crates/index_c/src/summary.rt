//! What calls that read or check report in addition to their status.

ghost use Rattle.std.specs.Prelude.{◌≡◌};
ghost use Rattle.index_c.specs.Statuses.{SummaryCodes};
ghost use Rattle.index_c.specs.Summaries.{FailureCodes, blank, link_number, shared_id_bytes, size_summary};

use crate::fault::{number_of_error, put_fault, status_of_error};
use crate::number::{OWN, number_of_whose};
use crate::status::{MEMORY, WRONG_NUMBER};
use capi_table::fault::Failure;
use capi_table::read::Sizes;
use capi_table::row::padded_id;
use gix_index::hash::ObjectId;
use std::alloc::Global;

/// The index links to a shared index that wasn't followed.
pub const LINKED: u32 = 1;
/// The index has no link that wasn't followed.
pub const UNLINKED: u32 = 0;

/// What a call that reads reports in addition to its status.
#[repr(C)]
#[derive(Clone, Copy)]
pub struct Summary {
    /// The number of entries of the index, which is the number of rows that it needs.
    pub entries: usize,
    /// The number of bytes that its paths need.
    pub path_bytes: usize,
    /// The number of bytes of the error's text that were written.
    pub text_bytes: usize,
    /// The index of the row or entry that the error names, or 0.
    pub fault_place: usize,
    /// The error's number, or 0.
    pub fault: u32,
    /// The version: 2, 3 or 4.
    pub version: u32,
    /// 1 if the bytes link to a shared index that wasn't followed; else 0.
    pub has_link: u32,
    /// 1 if the error is in the shared index's bytes, or memory ran out for them; else 0.
    pub of_shared: u32,
    /// The id at the end of the shared index that the bytes link to, if the link wasn't followed. An id of SHA-1 is
    /// followed by zeros. It is all zeros if there is no such link.
    pub shared_id: [u8; 32],
}

/// Returns a summary that reports nothing.
pub fn blank() -> Summary
    ensures { result ≡ blank }
{
    Summary {
        entries: 0,
        path_bytes: 0,
        text_bytes: 0,
        fault_place: 0,
        fault: 0,
        version: 0,
        has_link: UNLINKED,
        of_shared: OWN,
        shared_id: [0; 32],
    }
}

/// Returns as a number whether there is a link.
fn number_of_link(link: &Option<ObjectId>) -> u32
    ensures { result ≡ link_number link.now }
{
    match link {
        Some(_) => LINKED,
        None => UNLINKED,
    }
}

/// Returns the id of a shared index, followed by zeros if it is of SHA-1. It is all zeros if there is no link.
fn shared_id_of(link: &Option<ObjectId>) -> [u8; 32]
    ensures { result ≡ shared_id_bytes link.now }
{
    match link {
        Some(id) => padded_id(id),
        None => [0; 32],
    }
}

/// Returns the summary of an index that is read.
pub fn summary_of(sizes: &Sizes) -> Summary
    ensures { result ≡ size_summary sizes.now }
{
    Summary {
        entries: sizes.entries,
        path_bytes: sizes.path_bytes,
        version: sizes.version as u32,
        has_link: number_of_link(&sizes.link),
        shared_id: shared_id_of(&sizes.link),
        ..blank()
    }
}

/// Reports that the call doesn't accept a number of the caller's: makes the summary blank and returns `WRONG_NUMBER`.
pub fn tell_wrong_number(summary: &mut Summary) -> u32
    ensures status { result ≡ WRONG_NUMBER }
    ensures blank { summary.new ≡ blank }
{
    *summary = blank();
    WRONG_NUMBER
}

/// Reports why bytes aren't read, in the summary and in the text, and returns the status.
pub fn tell_failure(alloc: Global, failure: &Failure, text: &mut [u8], summary: &mut Summary) -> u32
    ensures { SummaryCodes MEMORY (FailureCodes failure.now) result summary.new text.old text.new }
{
    let fault = number_of_error(&failure.error);
    *summary = Summary {
        text_bytes: put_fault(alloc, &failure.error, text),
        fault_place: fault.place,
        fault: fault.number,
        of_shared: number_of_whose(failure.whose),
        ..blank()
    };
    status_of_error(&failure.error)
}
