//! The command `update`.

ghost use Rattle.gix_index.specs.Order.{IsStrictlyOrdered};
ghost use Rattle.gix_index.specs.State.{PathsInStorage, contents};
ghost use Rattle.tool_edit.specs.Updated.{IsTimed};
ghost use Rattle.tool_edit.specs.Updating.{BeginsIndex, ChangesState, GivesUpdated, UpdatesIndex};

use crate::rewrite::{Form, choice};
use entry_info::error::Error;
use entry_info::names::PathNames;
use entry_info::read::{changes, read};
use gix_index::change::{ApplyError, Change};
use gix_index::entry::FileTime;
use gix_index::file::ReadOptions;
use gix_index::file::folder::Folder;
use gix_index::hash::Kind;
use gix_index::{File, State, decode};
use std::alloc::Global;
use tool_errors::failure::Failure;
use tool_errors::index::{bytes_at, failure_of, path_at};
use tool_errors::storing::{commit_at, lock_at};

/// Returns the index in a file, or an index without entries if there is no file at the path.
fn begun_at<'a, D: Folder>(
    folder: &D,
    alloc: Global,
    kind: Kind,
    path: &'a str,
) -> Result<File, Failure<'a>>
    ensures { BeginsIndex D.Folder folder.now kind path.now result }
{
    let file = path_at(alloc, path)?;
    let reading = ReadOptions {
        object_hash: kind,
        skip_hash: false,
        timestamp: FileTime::EPOCH,
        options: decode::Options::default(),
    };
    match File::open_or_default(folder, alloc, file, reading) {
        Ok(index) => Ok(index),
        Err(fault) => Err(failure_of(path, fault)),
    }
}

/// Prepares a changed index for writing; does nothing without a change. It sets the size to 0 in each entry that is
/// racy at the index's timestamp. It then clears the timestamp, so that the file gets the time of its writing.
fn renew(changes: &[Change<'_>], state: &mut State)
    ensures timed { IsTimed changes.now (contents state.old) (contents state.new) }
    ensures placed { PathsInStorage state.old → PathsInStorage state.new }
{
    if changes.is_empty() {
        return;
    }
    state.smudge_racy(state.timestamp());
    state.set_timestamp(FileTime::EPOCH);
}

/// Makes the changes of a text in an index, all or none. With a change, the index is written with the time of its
/// writing.
fn change<'a>(
    alloc: Global,
    nul: bool,
    kind: Kind,
    text: &[u8],
    state: &mut State,
    from: &'a str,
) -> Result<(), Failure<'a>>
    requires { IsStrictlyOrdered (contents state.old).records }
    ensures { ChangesState nul kind text.now from.now state.old state.new result }
{
    let lines = match read(alloc, nul, kind, text) {
        Ok(lines) => lines,
        Err(fault) => return Err(Failure::Lines { path: from, fault }),
    };
    let Ok(changes) = changes(alloc, &lines) else {
        let fault = Error::Memory;
        return Err(Failure::Lines { path: from, fault });
    };
    match state.apply(&PathNames, &changes) {
        Ok(()) => {
            renew(&changes, state);
            Ok(())
        }
        Err(ApplyError::Refused { at, cause }) => Err(Failure::Change {
            path: from,
            at,
            cause,
        }),
        Err(ApplyError::Memory) => {
            let fault = Error::Memory;
            Err(Failure::Lines { path: from, fault })
        }
    }
}

/// Returns the index in a file, or an empty index if there may be no file, with the changes of the text in another
/// file.
fn with_changes<'a, D: Folder>(
    folder: &D,
    alloc: Global,
    nul: bool,
    kind: Kind,
    from: &'a str,
    path: &'a str,
) -> Result<File, Failure<'a>>
    ensures { GivesUpdated nul D.Folder folder.now kind from.now path.now result }
{
    let index = begun_at(folder, alloc, kind, path)?;
    if let Err(fault) = index.verify_entries() {
        return Err(Failure::Entries { path, fault });
    }
    let (text, _) = bytes_at(folder, alloc, from)?;
    let (mut state, file) = index.into_parts();
    change(alloc, nul, kind, &text, &mut state, from)?;
    Ok(File::from_state(state, file))
}

/// Makes the changes of the text in a file in the index in another file, and replaces that file.
///
/// The text is what [`read`] reads. The changes are made as `State::apply` makes them, with the names that git allows
/// in a path. The file at `to`, which is that at `path`, is locked before the index is read, as git locks an index. If
/// there is no file, the changes begin with an empty index. Nothing is written before all changes are made. The index
/// is written as [`commit_at`] writes it.
///
/// If the text has a change, the file gets the time of its writing, so that readers that compare a file's time notice
/// it. Each entry that was racy at the time before then has size 0 in its stat, so that git still compares its file.
/// Without a change the file keeps its time.
///
/// # Errors
///
/// - [`Failure::Lines`]: a line of the text is invalid.
/// - [`Failure::Change`]: the change of a line is rejected.
/// - [`Failure::Read`] names the file that can't be read.
/// - [`Failure::Entries`]: the entries of the index don't strictly increase.
///
/// After a failure what was at the path is there as before.
pub fn update<'a, D: Folder>(
    folder: &mut D,
    alloc: Global,
    nul: bool,
    kind: Kind,
    from: &'a str,
    path: &'a str,
    to: &'a str,
) -> Result<(), Failure<'a>>
    ensures { UpdatesIndex nul D.Folder folder.old folder.new kind from.now path.now to.now result }
{
    let lock = lock_at(folder, alloc, to)?;
    match with_changes(folder, alloc, nul, kind, from, path) {
        Ok(index) => {
            let options = choice(Form::AsRead, index.version());
            commit_at(folder, alloc, index, lock, options, to)
        }
        Err(failure) => {
            lock.release(folder);
            Err(failure)
        }
    }
}
