//! The entries of an index that is made of a tree.

ghost use Rattle.std.specs.Prelude.{◌<◌, length, None, IfSome};
ghost use Rattle.std.specs.BTreeMap.{get};
ghost use Rattle.std.specs.Iterator.{at_most};
ghost use Rattle.std.specs.Option.{option_map, unwrap_or};
ghost use Rattle.gix_index.specs.Object.{absent, object};
ghost use Rattle.gix_index.specs.ObjectIdOrd.TheImpl as id_order;
ghost use Rattle.gix_index.specs.ObjectKind.TheVariants.{Tree};

use gix_index::entry::FileTime;
use gix_index::hash::ObjectId;
use gix_index::init::{ComponentCheck, from_tree};
use gix_index::object::{self, Find, find};
use gix_index::{BitFlags as _, State};
use std::alloc::Global;
use std::collections::BTreeMap;
use std::fs;
use std::io::{self, BufWriter, Write};

/// The largest number of trees that are read.
const MAX_TREES: usize = 1_000_000;

/// The error message for a file in another format.
const MALFORMED: &str = "the file isn't made of trees as `git cat-file --batch` prints them";

/// A check that accepts all names.
#[derive(Clone, Copy)]
pub struct AnyName;

impl ComponentCheck for AnyName {
    ghost refusal = { λ _ _ _. None };

    fn check(&self, _name: &[u8], _symlink: bool) -> Result<(), u32> {
        Ok(())
    }
}

/// Trees by their ids.
#[derive(Drop)]
struct Trees<'a> {
    by_id: BTreeMap<ObjectId, &'a [u8]>,
}

impl Find for Trees<'_> {
    ghost found = { λ s id. unwrap_or
        (option_map (λ bytes. object Tree bytes.now)
        (get (id_order.ghosts).cmp s.by_id id)) absent };

    fn find(&self, id: &ObjectId, buf: &mut Vec<u8>) -> Result<Option<object::Kind>, find::Error> {
        let Some(bytes) = self.by_id.get(id) else {
            return Ok(None);
        };
        buf.clear();
        match buf.extend_from_slice(bytes) {
            Ok(()) => Ok(Some(object::Kind::Tree)),
            Err(_) => Err(find::Error::Memory),
        }
    }
}

/// Decodes an id from digits of base 16.
fn id_of(alloc: Global, word: &str) -> Option<ObjectId> {
    ObjectId::from_bytes(&hex::decode(alloc, word).ok()?)
}

/// Parses a header line. Returns the id and the length of the tree that follows it.
fn header(alloc: Global, line: &[u8]) -> Option<(ObjectId, usize)> {
    let mut words = str::from_utf8(line).ok()?.split(' ');
    let id = id_of(alloc, words.next()?)?;
    if words.next()? != "tree" {
        return None;
    }
    Some((id, words.next()?.parse::<usize>().ok()?))
}

/// Parses the first tree. Returns its id, its bytes, and the bytes after it.
fn front_of(alloc: Global, bytes: &[u8]) -> Option<(ObjectId, &[u8], &[u8])>
    ensures { IfSome result (λ x. length x.2.now < length bytes.now) }
{
    let end = bytes.iter().position(|byte| *byte == b'\n')?;
    let (line, rest) = bytes.split_at(end);
    let (_, rest) = rest.split_first()?;
    let (id, len) = header(alloc, line)?;
    let (tree, rest) = rest.split_at_checked(len)?;
    let (_, rest) = rest.split_first()?;
    Some((id, tree, rest))
}

/// An iterator over the trees that `git cat-file --batch` printed. Bytes that are no tree are an error and end it.
#[derive(Clone, Copy)]
struct Printed<'a> {
    alloc: Global,
    rest: &'a [u8],
}

impl<'a> Iterator for Printed<'a> {
    type Item = anyhow::Result<(ObjectId, &'a [u8])>;

    ghost remaining = { λ s. at_most (length s.rest.now) };

    fn next(&mut self) -> Option<anyhow::Result<(ObjectId, &'a [u8])>> {
        if self.rest.is_empty() {
            return None;
        }
        let Some((id, tree, rest)) = front_of(self.alloc, self.rest) else {
            self.rest = &[];
            return Some(Err(anyhow::Error::msg(MALFORMED)));
        };
        self.rest = rest;
        Some(Ok((id, tree)))
    }
}

/// Returns all trees that were printed.
fn trees_of(alloc: Global, bytes: &[u8]) -> anyhow::Result<Trees<'_>> {
    let mut by_id = BTreeMap::new(alloc);
    for printed in (Printed { alloc, rest: bytes }) {
        let (id, tree) = printed?;
        by_id.insert(id, tree)?;
    }
    Ok(Trees { by_id })
}

/// Prints the entries, and whether they are in order.
fn put_entries<W: Write>(out: &mut W, state: &State) -> io::Result<()> {
    for entry in state.entries() {
        write!(out, "{:06o} {}\t", entry.mode.bits(), entry.id)?;
        out.write_all(entry.path(state))?;
        out.write_all(b"\0")?;
    }
    if state.verify_entries().is_ok() {
        writeln!(out, "in order")
    } else {
        writeln!(out, "not in order")
    }
}

/// Makes an index of the tree with the id `root` and prints its entries. `file` has that tree and all trees below it,
/// as `git cat-file --batch` prints them.
pub fn list(rt: &HostRuntime, alloc: Global, root: &str, file: &str) -> anyhow::Result<()> {
    let root = id_of(alloc, root).ok_or(anyhow::Error::msg(
        "ROOT isn't an id of 40 or 64 hex digits",
    ))?;
    let bytes = fs::read(rt, file)?;
    let trees = trees_of(alloc, &bytes)?;
    let state = State::from_tree(alloc, &root, &trees, &AnyName, MAX_TREES, FileTime::EPOCH)?;
    let mut out = BufWriter::new(alloc, io::writer(rt))?;
    put_entries(&mut out, &state)?;
    out.flush()?;
    Ok(())
}
