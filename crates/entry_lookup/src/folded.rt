//! Lookups that can ignore the case of ASCII letters, for entries in any order.

ghost use Rattle.std.specs.Prelude.{◌≡◌, ℕ, List, length, IfOk, is_some, false, true};
ghost use Rattle.entry_list.specs.Record.{Record, records_in};
ghost use Rattle.entry_lookup.specs.Folded.{IsNamed, folded_closest};
ghost use Rattle.entry_lookup.specs.NameSteps.{AreNames};
ghost use Rattle.entry_lookup.specs.Searches.{SearchesDirectory, SearchesFolded};

use crate::names::{Named, find, path_table};
use crate::walk::directory_table;
use entry_list::Entry;
use entry_list::slice::EntrySlice;
use std::alloc::{AllocError, Global};
use std::marker::Model;

/// Tables of the paths and directories of entries, with case respected and with case ignored. They borrow the entries
/// that they were made from.
#[derive(Drop)]
pub struct AccelerateLookup<'a> {
    entries: EntrySlice<'a>,
    paths: Vec<Named<'a>>,
    folded_paths: Vec<Named<'a>>,
    directories: Vec<Named<'a>>,
    folded_directories: Vec<Named<'a>>,
}

impl<'a> Model for AccelerateLookup<'a> {
    ghost Value = { List Record };

    ghost view = { λ t. t.entries };

    ghost invariant = { λ t. AreNames t.entries
        t.paths.items t.folded_paths.items t.directories.items t.folded_directories.items };
}

impl<'a> AccelerateLookup<'a> {
    /// Returns the table for the lookups that can ignore case. It has 24 bytes for each entry and order, and for each
    /// directory and order. It allocates memory. If an allocation fails, nothing of the table is left.
    pub fn new(
        alloc: Global,
        entries: &'a [Entry],
        backing: &'a [u8],
    ) -> Result<AccelerateLookup<'a>, AllocError>
        ensures { IfOk result (λ lookup. lookup ≡ records_in backing.now entries.now) }
    {
        let entries = EntrySlice::new(entries, backing);
        let paths = path_table(alloc, &entries, false)?;
        let folded_paths = path_table(alloc, &entries, true)?;
        let directories = directory_table(alloc, &entries, &paths, false)?;
        let folded_directories = directory_table(alloc, &entries, &folded_paths, true)?;
        Ok(AccelerateLookup {
            entries,
            paths,
            folded_paths,
            directories,
            folded_directories,
        })
    }

    /// Returns the number of directories: those of entries and those with entries below them. Each name counts once,
    /// and with `ignore_case` each folded name.
    pub fn directories(&self, ignore_case: bool) -> usize
        ensures { (names : List (List ℕ)) × IsNamed ignore_case self.now names
            × (result ≡ length names) }
    {
        if ignore_case {
            self.folded_directories.len()
        } else {
            self.directories.len()
        }
    }

    /// Returns the index of the first entry at the path, in the order of the entries, or None. The second result is the
    /// number of paths that were compared. For n entries it is at most one more than the number of n's binary digits.
    /// It is at least one if there are entries.
    pub fn search_path_icase(&self, path: &[u8], ignore_case: bool) -> (Option<usize>, usize)
        ensures { SearchesFolded ignore_case path.now self.now result }
    {
        if ignore_case {
            find(&self.folded_paths, path, true, false)
        } else {
            find(&self.paths, path, false, false)
        }
    }

    /// Returns the index of the first entry that is the directory or is below it, in the order of the entries, or None.
    /// The second result is the number of names that were compared. For m directories it is at most one more than the
    /// number of m's binary digits. It is at least one if there are directories.
    pub fn search_directory_icase(
        &self,
        directory: &[u8],
        ignore_case: bool,
    ) -> (Option<usize>, usize)
        ensures { SearchesDirectory ignore_case directory.now self.now result }
    {
        if ignore_case {
            find(&self.folded_directories, directory, true, true)
        } else {
            find(&self.directories, directory, false, true)
        }
    }

    /// Returns whether the path is a directory: that of an entry, or one with entries below it.
    pub fn path_is_directory_icase(&self, path: &[u8], ignore_case: bool) -> bool
        ensures { result ≡ is_some (folded_closest ignore_case path.now self.now) }
    {
        self.search_directory_icase(path, ignore_case).0.is_some()
    }
}
