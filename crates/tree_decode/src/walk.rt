//! Traverses trees, from one that is read to the next.

ghost use Rattle.std.specs.Prelude.{◌≡◌, ◌≤◌, ◌++◌, [], None, IfOk, IfErr, OnOk, length, take};
ghost use Rattle.index_parts.specs.NameCheck.{refusal_as};
ghost use Rattle.tree_decode.specs.declared.error.Error.TheVariants.{Memory};
ghost use Rattle.tree_decode.specs.LeafSteps.{BeginsTree, EndsOrReaches, IsPacked, IsSomeTree, IsSoundWalk};
ghost use Rattle.tree_decode.specs.LeafSteps.{ListsOn, listed_records, unlisted};
ghost use Rattle.tree_decode.specs.TreeCalls.{KeepsPrefix, PushesLeaf, TreeCause, RejectedNameCause, WalkCause};

use crate::error::Error;
use bstr::BString;
use entry_fields::entry::{Flags, Mode, Stage, Stat};
use entry_list::Pathless;
use entry_list::list::EntryList;
use index_parts::check::{ComponentCheck, refusal_of};
use index_parts::hash::{Kind, ObjectId};
use index_parts::object::tree::{Entries, EntryKind};
use std::alloc::{AllocError, Global};

/// A tree with entries that are still to be listed.
#[derive(Drop)]
struct Level {
    /// The bytes of the object.
    bytes: Vec<u8>,
    /// The number of bytes that have been listed.
    at: usize,
    /// The length in bytes of the path before its names.
    prefix_len: usize,
}

impl Level {
    /// Returns the bytes that haven't been listed.
    fn unlisted(&self) -> &[u8]
        requires { self.now.at ≤ length self.now.bytes.items }
        ensures { result.now ≡ unlisted self.now }
    {
        let (_, rest) = self.bytes.as_slice().split_at(self.at);
        rest
    }
}

/// The leaves so far, and the path of the last name. The path ends in a slash if the name is that of a tree, which is
/// read next.
#[derive(Drop)]
struct Listed {
    leaves: EntryList,
    path: Vec<u8>,
}

/// A tree that is read next, and the number of unlisted bytes of the tree above it.
#[derive(Clone, Copy)]
struct Next {
    id: ObjectId,
    left: usize,
}

impl Listed {
    /// Replaces the path after its first `prefix_len` bytes by a name.
    fn set_name(&mut self, prefix_len: usize, name: &[u8]) -> Result<(), AllocError>
        requires { prefix_len ≤ length self.old.path.items }
        ensures path { OnOk result
            (self.new.path.items ≡ take prefix_len self.old.path.items ++ name.now) }
        ensures leaves { self.new.leaves ≡ self.old.leaves }
    {
        self.path.truncate(prefix_len);
        self.path.extend_from_slice(name)
    }

    /// Appends a leaf with the current path.
    fn push_leaf(&mut self, id: ObjectId, kind: EntryKind) -> Result<(), Error>
        requires { IsPacked self.old }
        ensures pushed { OnOk result (PushesLeaf id kind self.old self.new) }
        ensures packed { OnOk result (IsPacked self.new) }
        ensures path { self.new.path ≡ self.old.path }
        ensures fault { IfErr result (λ e. e ≡ Memory) }
    {
        let leaf = Pathless {
            stat: Stat::default(),
            id,
            flags: Flags::from_stage(Stage::Unconflicted),
            mode: Mode::from(kind),
        };
        self.leaves.push(leaf, self.path.as_slice())?;
        Ok(())
    }
}

/// Returns an error with the path if the check rejects its last name.
fn check_name<C: ComponentCheck>(
    alloc: Global,
    check: &C,
    path: &[u8],
    name: &[u8],
    kind: EntryKind,
) -> Result<(), Error>
    ensures passes { IfOk result (λ _. refusal_as (C.refusal check.now) name.now kind ≡ None) }
    ensures fault { IfErr result (RejectedNameCause (C.refusal check.now) path.now name.now kind) }
{
    if let Some(source) = refusal_of(check, name, kind) {
        let path = BString::from_slice(alloc, path)?;
        return Err(Error::InvalidComponent { path, source });
    }
    Ok(())
}

/// Lists leaves from the entries in `bytes` up to a tree, and returns that tree. It returns `None` if all entries are
/// leaves.
fn list_entries<C: ComponentCheck>(
    listed: &mut Listed,
    alloc: Global,
    prefix_len: usize,
    bytes: &[u8],
    kind: Kind,
    check: &C,
) -> Result<Option<Next>, Error>
    requires packed { IsPacked listed.old }
    requires prefix { prefix_len ≤ length listed.old.path.items }
    requires whole { IsSomeTree kind bytes.now }
    ensures lists { IfOk result (ListsOn (C.refusal check.now) kind listed.old listed.new
        (take prefix_len listed.old.path.items) bytes.now) }
    ensures packed { OnOk result (IsPacked listed.new) }
    ensures prefix { OnOk result (KeepsPrefix prefix_len listed.old listed.new) }
    ensures long { OnOk result (prefix_len ≤ length listed.new.path.items) }
    ensures fault { IfErr result
        (TreeCause (C.refusal check.now) kind prefix_len listed.old bytes.now) }
{
    let mut entries = Entries::new(bytes, kind);
    while let Some(entry) = entries.next() {
        let Ok(entry) = entry else {
            return Ok(None);
        };
        listed.set_name(prefix_len, entry.filename)?;
        let entry_kind = entry.mode.kind();
        check_name(
            alloc,
            check,
            listed.path.as_slice(),
            entry.filename,
            entry_kind,
        )?;
        if entry_kind == EntryKind::Tree {
            listed.path.push(b'/')?;
            let left = entries.rest().len();
            return Ok(Some(Next {
                id: entry.oid,
                left,
            }));
        }
        listed.push_leaf(entry.oid, entry_kind)?;
    }
    Ok(None)
}

/// A traversal: the leaves so far, and the open trees, each one below the one before.
#[derive(Drop)]
pub(crate) struct Walk {
    listed: Listed,
    levels: Vec<Level>,
}

impl Walk {
    /// Returns a traversal that has listed nothing.
    pub(crate) fn new(alloc: Global) -> Walk
        ensures levels { result.levels.items ≡ [] }
        ensures path { result.listed.path.items ≡ [] }
        ensures records { listed_records result.listed ≡ [] }
        ensures packed { IsPacked result.listed }
    {
        Walk {
            listed: Listed {
                leaves: EntryList::new(alloc),
                path: Vec::new(alloc),
            },
            levels: Vec::new(alloc),
        }
    }

    /// Opens a tree's object, whose names follow the path.
    pub(crate) fn begin(&mut self, bytes: Vec<u8>) -> Result<(), Error>
        ensures begins { OnOk result (BeginsTree self.old self.new bytes.items) }
        ensures fault { IfErr result (λ e. e ≡ Memory) }
    {
        let tree = Level {
            bytes,
            at: 0,
            prefix_len: self.listed.path.len(),
        };
        self.levels.push(tree)?;
        Ok(())
    }

    /// Lists leaves of the open trees up to the next tree, and returns its id. It returns `None` if everything is
    /// listed.
    pub(crate) fn next_tree<C: ComponentCheck>(
        &mut self,
        alloc: Global,
        kind: Kind,
        check: &C,
    ) -> Result<Option<ObjectId>, Error>
        requires { IsSoundWalk kind self.old }
        ensures steps { IfOk result (EndsOrReaches (C.refusal check.now) kind self.old self.new) }
        ensures packed { OnOk result (IsPacked self.new.listed) }
        ensures fault { IfErr result (WalkCause (C.refusal check.now) kind self.old) }
    {
        while let Some(mut level) = self.levels.pop() {
            let bytes = level.unlisted();
            if let Some(next) = list_entries(
                &mut self.listed,
                alloc,
                level.prefix_len,
                bytes,
                kind,
                check,
            )? {
                level.at = level.bytes.len() - next.left;
                self.levels.push(level)?;
                return Ok(Some(next.id));
            }
        }
        Ok(None)
    }

    /// Returns the leaves.
    pub(crate) fn into_leaves(self) -> EntryList
        ensures { result ≡ self.listed.leaves }
    {
        self.listed.leaves
    }
}
