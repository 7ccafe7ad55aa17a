//! Writing entries as tree objects.

ghost use Rattle.std.specs.Prelude.{◌≡◌, ◌⊎◌, ◌+◌, ◌<◌, ◌≤◌, ◌^◌, ◌++◌, ◌||◌, [], ◌∷◌, List, false, length};
ghost use Rattle.std.specs.Prelude.{map, IfOk, IfErr, OnErr, OnOk, Some, slice_range};
ghost use Rattle.std.specs.List.Sorted.{IsPermutation, IsSorted};
ghost use Rattle.index_parts.specs.declared.object.tree.EntryKind.TheVariants as kinds;
ghost use Rattle.entry_list.specs.Order.{IsStrictlyOrdered};
ghost use Rattle.ext_tree.specs.Tree.{Node, name_cmp, node_of};
ghost use Rattle.ext_tree.specs.declared.Tree.TheViews.{out-Tree};
ghost use Rattle.tree_encode.specs.Cached.{IsCached, leaf_nodes};
ghost use Rattle.tree_encode.specs.Directory.{IsTreeOf, DirectoryItems, directory_bytes, directory_object, leaf_bytes};
ghost use Rattle.tree_encode.specs.Directory.{HoldsFirst, objects};
ghost use Rattle.tree_encode.specs.EndSteps.{NeverFall};
ghost use Rattle.tree_encode.specs.Objects.{tree_id, with_objects};
ghost use Rattle.tree_encode.specs.Refusals.{AreFit, AreRefused, TreesFaultCause};
ghost use Rattle.tree_encode.specs.Staged.{staged_in};
ghost use Rattle.tree_encode.specs.WritingSteps.{IsBegunDirectory, IsFinished, IsMadeNode, IsReady};
ghost use Rattle.tree_encode.specs.WritingSteps.{staged_below};

use crate::check::{MAX_LEVELS, check_entries};
use crate::ends::end_of;
use crate::error::Error;
use crate::leaf::{Leaf, is_tree, leaf_at};
use crate::names::{component_of, tail_of};
use crate::object::{push_entry, tree_id};
use crate::sink::Sink;
use entry_list::slice::EntrySlice;
use ext_tree::Tree;
use ext_tree::order::compare_names;
use index_parts::check::ComponentCheck;
use index_parts::hash::{Kind, ObjectId};
use index_parts::object::tree::EntryKind;
use smallvec::SmallVec;
use std::alloc::{AllocError, Global};

/// A directory that is being written: the bytes of its object, the nodes of its subdirectories, and the number of
/// entries below it. `later` is true if one of these is an intent-to-add entry.
#[derive(Drop)]
struct Made {
    bytes: Vec<u8>,
    children: Vec<Tree>,
    count: u32,
    later: bool,
}

/// Returns the cached-tree node of a sparse directory. Its count is 1, and it has no children.
fn leaf_node(alloc: Global, name: &[u8], id: ObjectId) -> Result<Tree, AllocError>
    ensures { IfOk result (λ t. node_of t ∷ [] ≡ leaf_nodes name.now kinds.Tree id false) }
{
    Ok(Tree {
        name: SmallVec::from_slice(alloc, name)?,
        id,
        num_entries: Some(1),
        children: Vec::new(alloc),
    })
}

impl Made {
    /// Returns a directory without entries.
    fn new(alloc: Global) -> Made
        ensures bytes { result.bytes.items ≡ [] }
        ensures children { result.children.items ≡ [] }
        ensures count { result.count ≡ 0 }
        ensures later { result.later ≡ false }
    {
        Made {
            bytes: Vec::new(alloc),
            children: Vec::new(alloc),
            count: 0,
            later: false,
        }
    }

    /// Appends a leaf with this name. An intent-to-add leaf is only counted.
    fn push_leaf(&mut self, alloc: Global, name: &[u8], leaf: &Leaf<'_>) -> Result<(), Error>
        requires { self.old.count < 2 ^ 31 }
        ensures bytes { OnOk result (self.new.bytes.items ≡ self.old.bytes.items
            ++ leaf_bytes name.now leaf.now.kind leaf.now.id leaf.now.later) }
        ensures children { OnOk result (map node_of self.new.children.items
            ≡ map node_of self.old.children.items
            ++ leaf_nodes name.now leaf.now.kind leaf.now.id leaf.now.later) }
        ensures count { OnOk result (self.new.count ≡ self.old.count + 1) }
        ensures later { OnOk result (self.new.later ≡ self.old.later || leaf.now.later) }
        ensures fault { IfErr result (λ e. TreesFaultCause e (λ n. ⊥) (λ f. ⊥)) }
    {
        self.count += 1;
        if leaf.later {
            self.later = true;
            return Ok(());
        }
        push_entry(&mut self.bytes, name, leaf.kind, &leaf.id)?;
        if is_tree(leaf.kind) {
            self.children.push(leaf_node(alloc, name, leaf.id)?)?;
        }
        Ok(())
    }

    /// Appends a directory with this name, and puts its object into the sink. If nothing in the directory is in a tree,
    /// it has no object.
    fn push_directory<S: Sink>(
        &mut self,
        alloc: Global,
        kind: Kind,
        name: &[u8],
        inner: Made,
        sink: &mut S,
    ) -> Result<(), Error>
        requires { self.old.count + inner.count < 2 ^ 31 }
        ensures bytes { OnOk result (self.new.bytes.items ≡ self.old.bytes.items
            ++ directory_bytes kind name.now inner.bytes.items) }
        ensures children { OnOk result ((ts : List Node)
            × (map node_of self.new.children.items ≡ map node_of self.old.children.items ++ ts)
            × IsMadeNode kind name.now inner ts) }
        ensures count { OnOk result (self.new.count ≡ self.old.count + inner.count) }
        ensures later { OnOk result (self.new.later ≡ self.old.later || inner.later) }
        ensures stored { OnOk result (S.stored sink.new
            ≡ with_objects (S.stored sink.old) (directory_object kind inner.bytes.items)) }
        ensures ended { OnErr result ((S.stored sink.new ≡ S.stored sink.old)
            ⊎ (S.stored sink.new
            ≡ with_objects (S.stored sink.old) (directory_object kind inner.bytes.items))) }
        ensures fault { IfErr result
            (λ e. TreesFaultCause e (λ n. S.fault sink.new ≡ Some n) (λ f. ⊥)) }
    {
        self.count += inner.count;
        self.later = self.later || inner.later;
        if inner.bytes.as_slice().is_empty() {
            return Ok(());
        }
        let tree = inner.finish(alloc, kind, name, sink)?;
        push_entry(&mut self.bytes, name, EntryKind::Tree, &tree.id)?;
        self.children.push(tree)?;
        Ok(())
    }

    /// Puts the object of the directory into the sink, and returns the directory's node.
    fn finish<S: Sink>(
        self,
        alloc: Global,
        kind: Kind,
        name: &[u8],
        sink: &mut S,
    ) -> Result<Tree, Error>
        ensures id { IfOk result (λ t. (out-Tree t).id ≡ tree_id kind self.bytes.items) }
        ensures node { IfOk result (λ t. IsFinished kind name.now self (node_of t)) }
        ensures stored { OnOk result (S.stored sink.new ≡ with_objects (S.stored sink.old)
            ((tree_id kind self.bytes.items, self.bytes.items) ∷ [])) }
        ensures ended { OnErr result (S.stored sink.new ≡ S.stored sink.old) }
        ensures fault { IfErr result
            (λ e. TreesFaultCause e (λ n. S.fault sink.new ≡ Some n) (λ f. ⊥)) }
    {
        let mut children = self.children;
        sort_siblings(&mut children);
        let name = SmallVec::from_slice(alloc, name)?;
        let id = tree_id(kind, &self.bytes);
        if let Err(fault) = sink.put(&id, &self.bytes) {
            return Err(Error::Sink { fault });
        }
        let num_entries = if self.later { None } else { Some(self.count) };
        Ok(Tree {
            name,
            id,
            num_entries,
            children,
        })
    }
}

/// Sorts sibling nodes by name.
fn sort_siblings(siblings: &mut Vec<Tree>)
    ensures same { IsPermutation (map node_of siblings.old.items) (map node_of siblings.new.items) }
    ensures sorted { IsSorted name_cmp (map node_of siblings.new.items) }
{
    siblings.sort_unstable_by(|a, b| compare_names(a, b));
}

/// The entries from index `start` to `end`, whose paths have a common prefix of `prefix_len` bytes.
#[derive(Clone, Copy)]
struct Run {
    start: usize,
    end: usize,
    prefix_len: usize,
}

/// Returns the directory of a run of entries, and puts the objects of the directories below it into the sink. The
/// directory may have at most `levels` levels of directories below it.
///
/// Each call uses little of the stack, because calls are nested as deep as the directories.
fn directory_of<S: Sink>(
    alloc: Global,
    kind: Kind,
    entries: &EntrySlice<'_>,
    run: Run,
    levels: u32,
    sink: &mut S,
) -> Result<Made, Error>
    requires order { run.start ≤ run.end }
    requires within { run.end ≤ length entries.now }
    requires few { length entries.now < 2 ^ 31 }
    requires in_order { NeverFall run.prefix_len entries.now run.start run.end }
    requires ready { IsReady kind levels
        (staged_below run.prefix_len (slice_range entries.now run.start run.end)) }
    ensures made { IfOk result (λ m. IsBegunDirectory kind
        (staged_below run.prefix_len (slice_range entries.now run.start run.end)) [] m
        (S.stored sink.old) (S.stored sink.new)) }
    ensures ended { OnErr result (HoldsFirst kind
        (staged_below run.prefix_len (slice_range entries.now run.start run.end))
        (S.stored sink.old) (S.stored sink.new)) }
    ensures fault { IfErr result
        (λ e. TreesFaultCause e (λ n. S.fault sink.new ≡ Some n) (λ f. ⊥)) }
{
    let mut made = Made::new(alloc);
    let mut at = run.start;
    while at < run.end {
        let Some(leaf) = leaf_at(entries, at) else {
            at += 1;
            continue;
        };
        let tail = tail_of(leaf.path, run.prefix_len);
        let component = component_of(tail);
        let shown = component.shown;
        if shown.len() < tail.len() {
            let stop = end_of(entries, at, run.end, run.prefix_len, shown);
            let below = Run {
                start: at,
                end: stop,
                prefix_len: run.prefix_len + shown.len(),
            };
            let inner = directory_of(alloc, kind, entries, below, levels - 1, sink)?;
            made.push_directory(alloc, kind, component.name, inner, sink)?;
            at = stop;
        } else {
            made.push_leaf(alloc, component.name, &leaf)?;
            at += 1;
        }
    }
    Ok(made)
}

/// Puts the tree object of each directory of `entries` into the sink once, after the objects that it names. Returns the
/// cached tree (TREE extension) of these objects.
///
/// # Errors
///
/// - [`Error::Sink`] if the sink rejects an object, with the sink's number.
/// - [`Error::Memory`] if an allocation fails.
/// - [`Error::TooManyEntries`] if there are 2^31 entries or more.
/// - Each other variant describes the first entry that can't be in a tree.
///
/// After `Sink` or `Memory`, the sink may have taken some objects of directories below the root, but not the root's
/// object. After any other error it is unchanged.
pub fn write_trees<S: Sink, C: ComponentCheck>(
    alloc: Global,
    kind: Kind,
    entries: &EntrySlice<'_>,
    check: &C,
    sink: &mut S,
) -> Result<Tree, Error>
    requires { IsStrictlyOrdered entries.now }
    ensures written { IfOk result (λ t. (items : DirectoryItems)
        × IsTreeOf kind (staged_in entries.now) items × IsCached kind [] items (node_of t)
        × (S.stored sink.new ≡ with_objects (S.stored sink.old) (objects kind items))) }
    ensures fit { IfOk result (λ _. AreFit (C.refusal check.now) kind entries.now) }
    ensures few { IfOk result (λ _. length entries.now < 2 ^ 31) }
    ensures ended { OnErr result ((sink.new ≡ sink.old)
        ⊎ HoldsFirst kind (staged_in entries.now) (S.stored sink.old) (S.stored sink.new)) }
    ensures fault { IfErr result (λ e. TreesFaultCause e (λ n. S.fault sink.new ≡ Some n)
        (λ f. AreRefused (C.refusal check.now) kind entries.now f × (sink.new ≡ sink.old))) }
{
    check_entries(alloc, kind, check, entries)?;
    let whole = Run {
        start: 0,
        end: entries.len(),
        prefix_len: 0,
    };
    let made = directory_of(alloc, kind, entries, whole, MAX_LEVELS, sink)?;
    let root = made.finish(alloc, kind, b"", sink)?;
    Ok(root)
}
