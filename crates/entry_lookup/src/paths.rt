//! The results of a closure for entries and their paths.

ghost use Rattle.std.specs.Prelude.{length};
ghost use Rattle.std.specs.Iterator.{at_most};
ghost use Rattle.entry_lookup.specs.FilterMap.{IsFilterOf, StepsTo, closure_of, entries_left};

use entry_list::Entry;

/// An iterator over the paths of entries with a closure's results, in order. It leaves out entries for which the
/// closure returns None. It ends after the last entry, and allocates no memory.
#[derive(Drop)]
pub struct FilterMapPaths<'a, F> {
    entries: &'a [Entry],
    backing: &'a [u8],
    filter_map: F,
}

/// Returns the paths of the entries with the closure's results. The closure is called once for each entry, in order. An
/// entry for which it returns None is left out.
pub fn entries_with_paths_by_filter_map<'a, T, F: FnMut(&'a [u8], &'a Entry) -> Option<T>>(
    entries: &'a [Entry],
    backing: &'a [u8],
    filter_map: F,
) -> FilterMapPaths<'a, F>
    ensures { IsFilterOf entries.now backing.now filter_map result }
{
    FilterMapPaths {
        entries,
        backing,
        filter_map,
    }
}

impl<'a, T, F: FnMut(&'a [u8], &'a Entry) -> Option<T>> Iterator for FilterMapPaths<'a, F> {
    type Item = (&'a [u8], T);

    ghost can_next = { λ s. F.IsAlwaysCallable (closure_of s) };

    ghost next_gives = { λ s r t. StepsTo (λ f p b o g. F.step f p b o g) s r t };

    ghost remaining = { λ s. at_most (length (entries_left s)) };

    fn next(&mut self) -> Option<(&'a [u8], T)> {
        while let Some((entry, rest)) = self.entries.split_first() {
            self.entries = rest;
            let path = entry.path_in(self.backing);
            if let Some(value) = (self.filter_map)(path, entry) {
                return Some((path, value));
            }
        }
        None
    }
}
