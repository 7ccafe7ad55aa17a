//! The index in a file that an argument of a command names.

ghost use Rattle.std.specs.Prelude.{◌≡◌, IfErr, IfOk};
ghost use Rattle.std.specs.Path.{path_buf_bytes};
ghost use Rattle.gix_index.specs.FileFaults.ReadError.TheVariants.{Memory};
ghost use Rattle.tool_errors.specs.Calls.{CountsPath, CountsFileAt, OpensIndex, ReadsBytes, ReadsHeaded, ReadsIndex};
ghost use Rattle.tool_errors.specs.Calls.{ReadsWholeAt};
ghost use Rattle.tool_errors.specs.Reading.{failure_of};

use crate::failure::Failure;
use file_windows::disk::{CountedFile, WholeFile, bytes_of, counted_of};
use gix_index::entry::FileTime;
use gix_index::file::ReadOptions;
use gix_index::file::folder::{Folder, Source};
use gix_index::hash::Kind;
use gix_index::{File, decode, file};
use std::alloc::Global;
use std::io;
use std::path::{Path, PathBuf};

/// Returns the failure for an error of reading the file at `path`. An I/O error becomes [`Failure::Read`], any other
/// error [`Failure::Index`].
pub fn failure_of(path: &str, fault: file::init::Error) -> Failure<'_>
    ensures { result ≡ failure_of path.entry fault }
{
    match fault {
        file::init::Error::Io(fault) => Failure::Read(fault),
        fault => Failure::Index { path, fault },
    }
}

/// Returns the failure for a command that can't allocate what it needs for the file at `path`.
pub fn out_of_memory(path: &str) -> Failure<'_>
    ensures { result ≡ failure_of path.entry Memory }
{
    let fault = file::init::Error::Memory;
    Failure::Index { path, fault }
}

/// Returns a path in an argument of a command as a path of a file.
///
/// # Errors
///
/// Allocation failure is the only error.
pub fn path_at(alloc: Global, path: &str) -> Result<PathBuf, Failure<'_>>
    ensures path { IfOk result (λ file. path_buf_bytes file ≡ path.now) }
    ensures memory { IfErr result (λ failure. failure ≡ failure_of path.entry Memory) }
{
    match PathBuf::from_str(alloc, path) {
        Ok(file) => Ok(file),
        Err(_) => Err(out_of_memory(path)),
    }
}

/// Returns all bytes of the file at a path, and its modification time.
///
/// # Errors
///
/// [`Failure::Read`] names the file if it can't be opened or read. [`Failure::Index`] reports that an allocation
/// failed.
pub fn bytes_at<'a, D: Folder>(
    folder: &D,
    alloc: Global,
    path: &'a str,
) -> Result<(Vec<u8>, FileTime), Failure<'a>>
    ensures { ReadsBytes D.Folder folder.now path.now result }
{
    let file = path_at(alloc, path)?;
    match file::bytes_at(folder, alloc, file.as_path()) {
        Ok(read) => Ok(read),
        Err(error) => Err(failure_of(path, file::init::Error::of(file, error))),
    }
}

/// Returns all bytes of the file at a path, and its modification time. If the header is invalid, returns the header's
/// error in place of the bytes, which aren't held.
#[tactic(auto, using(file_place::proofs::Sizes::own_fault_at))]
fn whole_at<D: Folder>(
    folder: &D,
    alloc: Global,
    kind: Kind,
    path: Path<'_>,
) -> io::Result<(WholeFile, FileTime)>
    ensures { ReadsWholeAt D.Folder folder.now kind path.entry result }
{
    let file = folder.open(path)?;
    let time = file.status()?.modified;
    let read = bytes_of(alloc, file, kind, true)?;
    Ok((read, time))
}

/// Returns all bytes of the file at a path, and its modification time, as [`bytes_at`] does. The checksum isn't
/// compared.
///
/// # Errors
///
/// If the first bytes are no header, [`Failure::Index`] has the header's error, and no bytes are held. All other errors
/// are those of [`bytes_at`].
pub fn headed_bytes_at<'a, D: Folder>(
    folder: &D,
    alloc: Global,
    kind: Kind,
    path: &'a str,
) -> Result<(Vec<u8>, FileTime), Failure<'a>>
    ensures { ReadsHeaded D.Folder folder.now kind path.now result }
{
    let file = path_at(alloc, path)?;
    match whole_at(folder, alloc, kind, file.as_path()) {
        Ok((read, time)) => match read {
            WholeFile::Held(bytes, _) => Ok((bytes, time)),
            WholeFile::Refused(e) => Err(failure_of(path, file::init::Error::Decode(e))),
        },
        Err(fault) => Err(failure_of(path, file::init::Error::of(file, fault))),
    }
}

/// Returns all bytes of the file at a path. If its first bytes are no header, returns the number of bytes and the
/// header's error.
#[tactic(auto, using(file_place::proofs::Sizes::own_fault_at))]
fn count_at<D: Folder>(
    folder: &D,
    alloc: Global,
    kind: Kind,
    path: Path<'_>,
) -> io::Result<CountedFile>
    ensures { CountsPath D.Folder folder.now kind path.entry result }
{
    let file = folder.open(path)?;
    counted_of(alloc, file, kind)
}

/// Returns all bytes of the file at a path, as [`bytes_at`] does. If its first bytes are no header, no bytes are held:
/// returns the number of bytes and the header's error. The checksum isn't compared.
///
/// # Errors
///
/// The errors are those of [`bytes_at`].
pub fn counted_at<'a, D: Folder>(
    folder: &D,
    alloc: Global,
    kind: Kind,
    path: &'a str,
) -> Result<CountedFile, Failure<'a>>
    ensures { CountsFileAt D.Folder folder.now kind path.now result }
{
    let file = path_at(alloc, path)?;
    match count_at(folder, alloc, kind, file.as_path()) {
        Ok(counted) => Ok(counted),
        Err(why) => Err(failure_of(path, file::init::Error::of(file, why))),
    }
}

/// Returns the index in a file, with the shared index that it links to. The timestamp of the index is the beginning of
/// 1970. The checksum of the bytes is compared with their trailer, unless that is null.
///
/// # Errors
///
/// [`Failure::Read`] names the file that can't be read, which is this one or the shared one. [`Failure::Index`] has any
/// other error of either.
pub fn index_at<'a, D: Folder>(
    folder: &D,
    alloc: Global,
    kind: Kind,
    path: &'a str,
) -> Result<File, Failure<'a>>
    ensures { ReadsIndex D.Folder folder.now kind path.now result }
{
    let file = path_at(alloc, path)?;
    let reading = ReadOptions {
        object_hash: kind,
        skip_hash: false,
        timestamp: FileTime::EPOCH,
        options: decode::Options::default(),
    };
    match File::at_in(folder, alloc, file, reading) {
        Ok(index) => Ok(index),
        Err(fault) => Err(failure_of(path, fault)),
    }
}

/// Returns the index in a file, with the shared index that it links to. The timestamp of the index is the file's
/// modification time. The checksum of the bytes is compared with their trailer, unless that is null.
///
/// # Errors
///
/// The errors are those of [`index_at`].
pub fn opened_at<'a, D: Folder>(
    folder: &D,
    alloc: Global,
    kind: Kind,
    path: &'a str,
) -> Result<File, Failure<'a>>
    ensures { OpensIndex D.Folder folder.now kind path.now result }
{
    let file = path_at(alloc, path)?;
    let reading = ReadOptions {
        object_hash: kind,
        skip_hash: false,
        timestamp: FileTime::EPOCH,
        options: decode::Options::default(),
    };
    match File::open(folder, alloc, file, reading) {
        Ok(index) => Ok(index),
        Err(fault) => Err(failure_of(path, fault)),
    }
}
