//! The directories of paths, collected in one traversal of the paths in order.

ghost use Rattle.std.specs.Prelude.{◌≡◌, ◌++◌, ◌+◌, ◌-◌, ◌^◌, ◌<◌, ◌≤◌, OnOk, IfOk, length, map, min, suc, HoldsAt};
ghost use Rattle.entry_list.specs.Shared.{shared_len};
ghost use Rattle.entry_lookup.specs.Folded.{folded};
ghost use Rattle.entry_lookup.specs.NameSteps.{IsDirectoryTable, named_value, visits};
ghost use Rattle.entry_lookup.specs.WalkSteps.{AreExtents, AreVisits, IsClosing, IsStep, extended, is_parent, opened};
ghost use Rattle.entry_lookup.specs.WalkSteps.{span_value};

use crate::names::Named;
use crate::range::{Wanted, is_wanted};
use entry_list::paths::shared_len;
use entry_list::slice::EntrySlice;
use std::alloc::{AllocError, Global};

/// A directory's name, the first index of an entry in it, and the index after the last.
#[derive(Clone, Copy)]
pub(crate) struct Span<'a> {
    pub(crate) name: &'a [u8],
    pub(crate) start: usize,
    pub(crate) end: usize,
}

/// Returns whether the first `len` bytes of a path are a directory above it or, with `own`, the path itself.
fn is_parent(path: &[u8], len: usize, own: bool) -> bool
    ensures { result ≡ is_parent own path.now len }
{
    if len < path.len() {
        path[len] == b'/'
    } else {
        own && len == path.len()
    }
}

/// Closes the open directories whose names have `len` bytes or more, from the last on. Each is longer than the one
/// before.
fn close<'a>(
    live: &mut Vec<Span<'a>>,
    closed: &mut Vec<Span<'a>>,
    len: usize,
) -> Result<(), AllocError>
    ensures { OnOk result (IsClosing len
        (map span_value live.old.items) (map span_value closed.old.items)
        (map span_value live.new.items) (map span_value closed.new.items)) }
{
    while live.len() > 0 && live[live.len() - 1].name.len() >= len {
        let last = live.len() - 1;
        closed.push(live[last])?;
        live.truncate(last);
    }
    Ok(())
}

/// Returns the least length of a further directory of the path: one more than that of the last open one.
fn behind_last(live: &[Span<'_>], path: &[u8]) -> usize
    ensures none { length live.now ≡ 0 → result ≡ 0 }
    ensures last { 0 < length live.now
        → HoldsAt (λ s. result ≡ suc (min (length s.name) (length path.now)))
        (map span_value live.now) (length live.now - 1) }
{
    match live.last() {
        Some(last) => last.name.len().min(path.len()) + 1,
        None => 0,
    }
}

/// Adds the index of a path to the open directories of the path.
fn extend(live: &mut Vec<Span<'_>>, path: &[u8], own: bool, place: usize)
    requires { place + 1 < 2 ^ 64 }
    ensures { map span_value live.new.items
        ≡ map (extended own path.now place) (map span_value live.old.items) }
{
    for i in 0..live.len() {
        let span = live[i];
        if is_parent(path, span.name.len(), own) {
            live[i] = Span {
                name: span.name,
                start: span.start.min(place),
                end: span.end.max(place + 1),
            };
        }
    }
}

/// Opens the directories of a path whose names have a given number of bytes or more.
fn open_fronts<'a>(
    live: &mut Vec<Span<'a>>,
    path: &'a [u8],
    from: usize,
    own: bool,
    place: usize,
) -> Result<(), AllocError>
    requires { place + 1 < 2 ^ 64 }
    ensures { OnOk result (map span_value live.new.items ≡ map span_value live.old.items
        ++ opened own path.now place from (suc (length path.now))) }
{
    for len in from..path.len() + 1 {
        if is_parent(path, len, own) {
            live.push(Span {
                name: &path[..len],
                start: place,
                end: place + 1,
            })?;
        }
    }
    Ok(())
}

/// Advances to the next path, which has a common prefix of a given length with the one before.
fn step<'a>(
    live: &mut Vec<Span<'a>>,
    closed: &mut Vec<Span<'a>>,
    visit: Named<'a>,
    own: bool,
    shared: usize,
) -> Result<(), AllocError>
    requires place { visit.place + 1 < 2 ^ 64 }
    requires within { shared ≤ length visit.name.now }
    ensures { OnOk result (IsStep own (named_value visit.entry) shared
        (map span_value live.old.items) (map span_value closed.old.items)
        (map span_value live.new.items) (map span_value closed.new.items)) }
{
    close(live, closed, shared + 1)?;
    let from = behind_last(live, visit.name);
    extend(live, visit.name, own, visit.place);
    open_fronts(live, visit.name, from, own, visit.place)
}

/// Returns the length of the common prefix of both names. With `ignore_case` it ignores case.
fn shared_names(a: &[u8], b: &[u8], ignore_case: bool) -> usize
    ensures { result ≡ shared_len (folded ignore_case a.now) (folded ignore_case b.now) }
{
    let mut len = shared_len(a, b);
    if !ignore_case {
        return len;
    }
    while len < a.len() && len < b.len() {
        if a[len].to_ascii_lowercase() != b[len].to_ascii_lowercase() {
            return len;
        }
        len += 1;
    }
    len
}

/// Returns the path of this turn, with its index: of the sorted ones, or of the entries themselves.
fn visit_at<'a>(entries: &EntrySlice<'a>, sorted: Option<&[Named<'a>]>, turn: usize) -> Named<'a>
    requires { turn < length (visits sorted entries.now) }
    ensures { HoldsAt (λ v. v ≡ named_value result) (visits sorted.entry entries.now) turn }
{
    match sorted {
        Some(names) => names[turn],
        None => Named {
            name: entries.path(turn),
            place: turn,
        },
    }
}

/// Returns the directories with entries below them and, with `own`, those of entries, each once. A directory comes
/// after all names that continue its name. The entries are traversed in the order of their paths.
pub(crate) fn directories_of<'a>(
    alloc: Global,
    entries: &EntrySlice<'a>,
    sorted: Option<&[Named<'a>]>,
    own: bool,
    ignore_case: bool,
) -> Result<Vec<Span<'a>>, AllocError>
    requires { AreVisits ignore_case entries.now (visits sorted entries.now) }
    ensures { IfOk result (λ spans. AreExtents own ignore_case entries.now
        (map span_value spans.items)) }
{
    let mut live = Vec::new(alloc);
    let mut closed = Vec::new(alloc);
    let mut last: &[u8] = &[];
    for turn in 0..entries.len() {
        let visit = visit_at(entries, sorted, turn);
        let shared = shared_names(last, visit.name, ignore_case);
        last = visit.name;
        let stands = own && is_wanted(entries.entry(visit.place), Wanted::Directory);
        step(&mut live, &mut closed, visit, stands, shared)?;
    }
    close(&mut live, &mut closed, 0)?;
    Ok(closed)
}

/// Returns the table of the directories of entries and of those with entries below them, from the table of the paths.
pub(crate) fn directory_table<'a>(
    alloc: Global,
    entries: &EntrySlice<'a>,
    paths: &[Named<'a>],
    ignore_case: bool,
) -> Result<Vec<Named<'a>>, AllocError>
    requires { AreVisits ignore_case entries.now (map named_value paths.now) }
    ensures { IfOk result (λ names. IsDirectoryTable ignore_case entries.now names.items) }
{
    let spans = directories_of(alloc, entries, Some(paths), true, ignore_case)?;
    let mut names = Vec::new(alloc);
    for span in &spans {
        let (name, place) = (span.name, span.start);
        names.push(Named { name, place })?;
    }
    Ok(names)
}
