//! Why a command ended without its result.

use crate::cause::Cause;
use entry_info::error;
use gix_index::extension::tree;
use gix_index::file::{OneLine as Name, PathError};
use gix_index::{ChangeError, decode, file, verify, write_trees};
use std::io;
use thiserror::Error;
use view_strict::verify as strict;

/// Why a command ended without its result, with the file that it concerns.
#[derive(Debug, Drop, Error)]
pub enum Failure<'a> {
    /// A file can't be opened or read.
    #[error("{0}")]
    Read(PathError),
    /// The file is no index with the requested hash algorithm, or an allocation failed while it was read as one.
    #[error("{}: {fault}", Name(.path))]
    Index {
        /// The file, as the command's argument names it.
        path: &'a str,
        /// The error of reading.
        fault: file::init::Error,
    },
    /// The entries aren't in order, or an allocation failed while they were checked.
    #[error("{}: {fault}", Name(.path))]
    Entries {
        /// The file, as the command's argument names it.
        path: &'a str,
        /// The error of the check.
        fault: verify::entries::Error,
    },
    /// The cache tree extension (TREE) is inconsistent or doesn't match the entries, or an allocation failed while it
    /// was checked.
    #[error("{}: {fault}", Name(.path))]
    CachedTree {
        /// The file, as the command's argument names it.
        path: &'a str,
        /// The error of the check.
        fault: tree::verify::Error,
    },
    /// The cache tree differs from what the entries give, or an allocation failed while they were compared.
    #[error("{}: {fault}", Name(.path))]
    TreeIds {
        /// The file, as the command's argument names it.
        path: &'a str,
        /// The error of the comparison.
        fault: verify::tree_ids::Error,
    },
    /// Git doesn't accept all entries, or an allocation failed while they were checked.
    #[error("{}: {fault}", Name(.path))]
    Strict {
        /// The file, as the command's argument names it.
        path: &'a str,
        /// The error of the check.
        fault: strict::Error,
    },
    /// The file can't be read as an index.
    #[error("{}: at byte {offset}: {fault}", Name(.path))]
    Damaged {
        /// The file, as the command's argument names it.
        path: &'a str,
        /// The number of bytes before the first error.
        offset: usize,
        /// The first error in the file.
        fault: decode::Error,
    },
    /// The entries make no trees, or an allocation failed while they were made.
    #[error("{}: {fault}", Name(.path))]
    Trees {
        /// The file, as the command's argument names it.
        path: &'a str,
        /// The error of making trees.
        fault: write_trees::Error,
    },
    /// The text of changes has an invalid line, or an allocation failed while the changes were read or made.
    #[error("{}: {fault}", Name(.path))]
    Lines {
        /// The file of that text, as it is opened.
        path: &'a str,
        /// The error of the text.
        fault: error::Error,
    },
    /// A change in the text is rejected.
    #[error("{}: line {}: {}", Name(.path), .at.saturating_add(1), Cause(.cause))]
    Change {
        /// The file of that text, as it is opened.
        path: &'a str,
        /// The line's index, counted from 0.
        at: usize,
        /// Why the change is rejected.
        cause: ChangeError,
    },
    /// The file to be written can't be locked.
    #[error("{}: {fault}", Name(.path))]
    Lock {
        /// The file to be written, as the command's argument names it.
        path: &'a str,
        /// The error of locking.
        fault: file::lock::Fault,
    },
    /// The index can't be written.
    #[error("{}: {fault}", Name(.path))]
    Rewrite {
        /// The file to be written, as the command's argument names it.
        path: &'a str,
        /// The error of writing.
        fault: file::write::Error,
    },
    /// The path of an entry has a NUL, so lines that end with a NUL can't display it unquoted.
    #[error("{}: entry {place}: the path has a NUL byte, so no line can end with one; leave out -z, or add --quote", Name(.path))]
    NulInPath {
        /// The file, as the command's argument names it.
        path: &'a str,
        /// The entry's index, counted from 0.
        place: usize,
    },
    /// The output failed, or an allocation failed while the result was written.
    #[error("standard output: {0}")]
    Output(io::Error),
}
