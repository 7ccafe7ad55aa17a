//! Sorts the entries of a state.

ghost use Rattle.std.specs.List.Sorted.{IsPermutation, IsStable};
ghost use Rattle.std.specs.Prelude.{◌≡◌, ◌↔◌, false, IsOk, IsTrue, OnErr, OnOk};
ghost use Rattle.entry_list.specs.Order.{IsStrictlyOrdered, record_cmp};
ghost use Rattle.entry_list.specs.Sorted.{IsOrdered, TiesFollow};
ghost use Rattle.index_state.specs.Edits.{IsUnchanged, edited, refit};
ghost use Rattle.index_state.specs.State.{KeepsStorable, PathsInStorage, contents, entries_of, records, storage_of};

use crate::State;
use entry_list::{Entry, sort};
use std::alloc::AllocError;
use std::cmp::Ordering;

impl State {
    /// Sorts the entries by path, then by stage, as a file has them and searches require. The sort is stable. If the
    /// entries didn't strictly increase, the extensions aren't known to match them afterwards. The storage of paths and
    /// everything else are unchanged.
    ///
    /// If the entries are already in order, they are read twice, nothing is moved, and no memory is allocated.
    ///
    /// The error is an allocation failure. The state is then unchanged.
    pub fn sort_entries(&mut self) -> Result<(), AllocError>
        ensures permutation { IsPermutation (records self.old) (records self.new) }
        ensures ordered { OnOk result (IsOrdered (records self.new)) }
        ensures stable { IsStable record_cmp (records self.old) (records self.new) }
        ensures no_memory { IsOrdered (records self.old) → IsOk result }
        ensures unmoved { IsOrdered (records self.old) → entries_of self.new ≡ entries_of self.old }
        ensures storage { storage_of self.new ≡ storage_of self.old }
        ensures others { contents self.new
            ≡ refit (contents self.old) (records self.new) (contents self.new).fit }
        ensures fit { IsStrictlyOrdered (records self.old)
            → (contents self.new).fit ≡ (contents self.old).fit }
        ensures unfit { OnOk result ((IsStrictlyOrdered (records self.old) → ⊥)
            → (contents self.new).fit ≡ false) }
        ensures placed { PathsInStorage self.old → PathsInStorage self.new }
        ensures storable { KeepsStorable self.old self.new }
        ensures err { OnErr result (IsUnchanged self.old self.new) }
    {
        let in_order = self.is_in_order();
        sort::sort(&mut self.parts.entries, &self.parts.path_backing)?;
        self.parts.extensions_fit = self.parts.extensions_fit & in_order;
        Ok(())
    }

    /// Returns whether the entries strictly increase by path, then by stage.
    fn is_in_order(&self) -> bool
        ensures { IsTrue result ↔ IsStrictlyOrdered (records self.now) }
    {
        self.slice().first_fall().is_none()
    }

    /// Sorts the entries by path, then by stage, and entries that agree in both by the closure. The closure is called
    /// only for such entries. Entries that a lawful closure considers equal keep their order. With any other closure
    /// the entries are still in order by path and stage. The extensions aren't known to match the entries afterwards.
    /// The storage of paths and everything else are unchanged.
    ///
    /// The entries are copied first. The error is an allocation failure. The state is then unchanged.
    pub fn sort_entries_by<F: FnMut(&Entry, &Entry) -> Ordering>(
        &mut self,
        compare: F,
    ) -> Result<(), AllocError>
        requires { F.IsAlwaysCallable compare }
        ensures permutation { IsPermutation (records self.old) (records self.new) }
        ensures ordered { OnOk result (IsOrdered (records self.new)) }
        ensures ties { OnOk result (TiesFollow F.FnMut compare (storage_of self.old)
            (entries_of self.old) (entries_of self.new)) }
        ensures storage { storage_of self.new ≡ storage_of self.old }
        ensures others { OnOk result (contents self.new
            ≡ edited (contents self.old) (records self.new)) }
        ensures placed { PathsInStorage self.old → PathsInStorage self.new }
        ensures storable { KeepsStorable self.old self.new }
        ensures err { OnErr result (IsUnchanged self.old self.new) }
    {
        sort::sort_by(&mut self.parts.entries, &self.parts.path_backing, compare)?;
        self.parts.extensions_fit = false;
        Ok(())
    }
}
