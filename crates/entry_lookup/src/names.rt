//! Ordered tables of names, each with the index of an entry. They can ignore the case of ASCII letters.

ghost use Rattle.std.specs.Prelude.{◌≡◌, ◌≢◌, ℕ, Bool, List, AllPairs, length, map, position, IfOk};
ghost use Rattle.std.specs.Prelude.{false, IsPermutation};
ghost use Rattle.std.specs.declared.cmp.Ordering.TheVariants.{Greater};
ghost use Rattle.entry_list.specs.Record.{Record};
ghost use Rattle.entry_lookup.specs.Folded.{folded};
ghost use Rattle.entry_lookup.specs.NameSteps.{IsPathTable, IsTableOf, common_cmp, name_answers, name_order};
ghost use Rattle.entry_lookup.specs.NameSteps.{named_cmp, named_from, named_value, path_names};
ghost use Rattle.entry_lookup.specs.Searches.{IsHalving};
ghost use Rattle.entry_lookup.specs.WalkSteps.{AreVisits};

use crate::fold::compare_fronts;
use base_search::ordered::{Ordered, search_within};
use entry_list::slice::EntrySlice;
use std::alloc::{AllocError, Global};
use std::cmp::Ordering;

/// Compares the first bytes of two names, as many as both have. With `ignore_case` it ignores case.
fn compare_starts(a: &[u8], b: &[u8], ignore_case: bool) -> Ordering
    ensures { result ≡ common_cmp (folded ignore_case a.now) (folded ignore_case b.now) }
{
    if ignore_case {
        return compare_fronts(a, b);
    }
    let len = a.len().min(b.len());
    a[..len].cmp(&b[..len])
}

/// Compares two names in the order of paths or, with `outer`, in that of directories. In the latter a name comes after
/// all names that continue it.
pub(crate) fn compare_names(a: &[u8], b: &[u8], ignore_case: bool, outer: bool) -> Ordering
    ensures { result ≡ name_order outer (folded ignore_case a.now) (folded ignore_case b.now) }
{
    let sizes = if outer {
        b.len().cmp(&a.len())
    } else {
        a.len().cmp(&b.len())
    };
    compare_starts(a, b, ignore_case).then(sizes)
}

/// A name, and the index of an entry that has it.
#[derive(Clone, Copy)]
pub(crate) struct Named<'a> {
    pub(crate) name: &'a [u8],
    pub(crate) place: usize,
}

/// Compares two names, and equal names by their indices.
fn compare_named(a: &Named, b: &Named, ignore_case: bool) -> Ordering
    ensures { result ≡ named_cmp false ignore_case (named_value a.now) (named_value b.now) }
{
    compare_names(a.name, b.name, ignore_case, false).then(a.place.cmp(&b.place))
}

/// Sorts names.
fn sort_names(names: &mut Vec<Named<'_>>, ignore_case: bool)
    ensures len { length names.new.items ≡ length names.old.items }
    ensures permutation { IsPermutation (map named_value names.old.items)
        (map named_value names.new.items) }
    ensures ordered { AllPairs (λ a b. named_cmp false ignore_case a b ≢ Greater)
        (map named_value names.new.items) }
{
    names.sort_unstable_by(|a, b| compare_named(a, b, ignore_case));
}

/// Returns the paths of the entries.
fn paths_of<'a>(alloc: Global, entries: &EntrySlice<'a>) -> Result<Vec<Named<'a>>, AllocError>
    ensures { IfOk result (λ names. map named_value names.items
        ≡ named_from path_names 0 entries.now) }
{
    let mut names = Vec::new(alloc);
    for place in 0..entries.len() {
        let name = entries.path(place);
        names.push(Named { name, place })?;
    }
    Ok(names)
}

/// The names of a table, compared with a target.
#[derive(Clone, Copy)]
struct NamedSearch<'a> {
    names: &'a [Named<'a>],
    name: &'a [u8],
    ignore_case: bool,
    outer: bool,
}

impl Ordered for NamedSearch<'_> {
    ghost answers = { λ s. name_answers s.outer s.ignore_case s.names.now s.name.now };

    fn len(&self) -> usize {
        self.names.len()
    }

    fn compare(&self, place: usize) -> Ordering {
        let name = self.names[place].name;
        compare_names(name, self.name, self.ignore_case, self.outer)
    }
}

/// Returns the least index that the table has for the name, and the number of names that were compared.
pub(crate) fn find(
    names: &[Named<'_>],
    name: &[u8],
    ignore_case: bool,
    outer: bool,
) -> (Option<usize>, usize)
    ensures answer { (test : List ℕ → Record → Bool) (rs : List Record)
        → IsTableOf outer ignore_case test rs (map named_value names.now)
        → result.0 ≡ position (test name.now) rs }
    ensures count { IsHalving (length names.now) result.1 }
{
    let places = NamedSearch {
        names,
        name,
        ignore_case,
        outer,
    };
    let (found, count) = search_within(&places, 0, names.len());
    match found {
        Ok(at) => (Some(names[at].place), count),
        Err(_) => (None, count),
    }
}

/// Returns the table of the entries' paths.
pub(crate) fn path_table<'a>(
    alloc: Global,
    entries: &EntrySlice<'a>,
    ignore_case: bool,
) -> Result<Vec<Named<'a>>, AllocError>
    ensures table { IfOk result (λ names. IsPathTable ignore_case entries.now names.items) }
    ensures visits { IfOk result (λ names. AreVisits ignore_case entries.now
        (map named_value names.items)) }
{
    let mut names = paths_of(alloc, entries)?;
    sort_names(&mut names, ignore_case);
    Ok(names)
}
