//! `examples stage INDEX ID PATH`: stages a file in an index in place, as `git update-index --cacheinfo` does.
//!
//! INDEX is an index of SHA-1. ID is the id of the file's content, as `git hash-object -w` prints it. PATH is its path
//! in the repository. The index is locked before it is read. The new entry replaces the entries at the path, and files
//! whose paths it needs as directories. All extensions that are still valid are preserved. Nothing is printed. For
//! example: `out/examples stage .git/index $(git hash-object -w README) README`.

ghost use Rattle.std.specs.Prelude.{OnErr};
ghost use Rattle.gix_index.specs.Edits.{IsUnchanged};

use gix_index::change::{ApplyError, Change};
use gix_index::decode::entry::Pathless;
use gix_index::entry::{FileTime, Flags, Mode, Stage, Stat};
use gix_index::file::lock::{Durable, IfMissing};
use gix_index::file::{ReadOptions, System};
use gix_index::hash::{Kind, ObjectId};
use gix_index::init::ComponentCheck;
use gix_index::write::{Extensions, Options};
use gix_index::{BitFlags as _, File, State, decode};
use std::path::PathBuf;

/// Accepts the names that a path of a repository may have.
struct PlainNames;

impl ComponentCheck for PlainNames {
    ghost use Rattle.std.specs.Prelude.{codes, nat_eq, if◌then◌else◌, Some, None, ◌||◌};
    ghost use Rattle.std.specs.Cmp.Lexicographic.{pointwise};

    ghost refusal = { λ _ name _. if pointwise nat_eq name (codes ".") || (pointwise nat_eq name (codes "..")
        || pointwise nat_eq name (codes ".git")) then Some 1 else None };

    fn check(&self, name: &[u8], _symlink: bool) -> Result<(), u32> {
        match name {
            b"." | b".." | b".git" => Err(1),
            _ => Ok(()),
        }
    }
}

/// Stages a file, which replaces the entries at its path.
fn stage(state: &mut State, id: ObjectId, path: &[u8]) -> Result<(), ApplyError>
    ensures { OnErr result (IsUnchanged state.old state.new) }
{
    let (stat, mode) = (Stat::default(), Mode::FILE);
    let flags = Flags::from_stage(Stage::Unconflicted);
    let entry = Pathless {
        stat,
        id,
        flags,
        mode,
    };
    state.apply(&PlainNames, &[Change::Stage { entry, path }])
}

/// Runs the example.
pub fn run(rt: &HostRuntime, words: &[&str]) -> anyhow::Result<()> {
    let (alloc, mut folder) = (rt.alloc(), System { rt });
    let &[index, id, path] = words else {
        return Err(anyhow::Error::msg("usage: examples stage INDEX ID PATH"));
    };
    let id = ObjectId::from_bytes(&hex::decode(alloc, id)?);
    let id = id.ok_or(anyhow::Error::msg("the id has another length"))?;
    let place = PathBuf::from_str(alloc, index)?;
    let reading = ReadOptions {
        object_hash: Kind::Sha1,
        skip_hash: false,
        timestamp: FileTime::EPOCH,
        options: decode::Options::default(),
    };
    let locked = File::lock(&mut folder, alloc, place, reading, IfMissing::Fail)?;
    let (mut file, lock) = locked.into_parts();
    if let Err(e) = stage(&mut file, id, path.as_bytes()) {
        lock.release(&mut folder);
        return Err(e.into());
    }
    let options = Options {
        extensions: Extensions::Kept,
        ..Options::default()
    };
    file.commit(&mut folder, alloc, lock, options, Durable::Yes)?;
    Ok(())
}
