//! Sorting of entries, by path and then by stage.

ghost use Rattle.std.specs.Prelude.{◌≡◌, IsOk, OnErr, OnOk};
ghost use Rattle.std.specs.List.Sorted.{IsPermutation, IsStable, IsStableBy};
ghost use Rattle.entry_list.specs.Order.{record_cmp};
ghost use Rattle.entry_list.specs.Record.{records_in};
ghost use Rattle.entry_list.specs.Sorted.{AsksThird, IsOrdered, TiesFollow, is_entry_before};

use crate::Entry;
use crate::slice::EntrySlice;
use std::alloc::AllocError;
use std::cmp::Ordering;

/// Sorts the entries by path, then by stage. Entries of the same path and stage keep their order.
///
/// Entries that are already in order are read once and stay unchanged. No memory is allocated then. An error means that
/// an allocation failed. The entries are then unchanged.
pub fn sort(entries: &mut Vec<Entry>, backing: &[u8]) -> Result<(), AllocError>
    ensures permutation { IsPermutation entries.old.items entries.new.items }
    ensures ordered { OnOk result (IsOrdered (records_in backing.now entries.new.items)) }
    ensures stable { IsStableBy (is_entry_before backing.now) entries.old.items entries.new.items }
    ensures stable_records { IsStable record_cmp (records_in backing.now entries.old.items)
        (records_in backing.now entries.new.items) }
    ensures no_memory { IsOrdered (records_in backing.now entries.old.items) → IsOk result }
    ensures unmoved { IsOrdered (records_in backing.now entries.old.items)
        → entries.new.items ≡ entries.old.items }
    ensures err { OnErr result (entries.new.items ≡ entries.old.items) }
{
    if EntrySlice::new(entries, backing).is_ordered() {
        return Ok(());
    }
    entries.sort_by(|a, b| a.compare_in(b, backing))
}

/// Sorts the entries by path, then by stage, then in the order of the closure. It is called only for entries of the
/// same path and stage.
///
/// If the closure's answers are not an order, the entries are still in order by path and stage. The entries are copied
/// first. An error means that an allocation failed. The entries are then unchanged.
pub fn sort_by<F: FnMut(&Entry, &Entry) -> Ordering>(
    entries: &mut Vec<Entry>,
    backing: &[u8],
    mut compare: F,
) -> Result<(), AllocError>
    requires callable { F.IsAlwaysCallable compare }
    ensures permutation { IsPermutation entries.old.items entries.new.items }
    ensures ordered { OnOk result (IsOrdered (records_in backing.now entries.new.items)) }
    ensures ties { OnOk result
        (TiesFollow F.FnMut compare backing.now entries.old.items entries.new.items) }
    ensures err { OnErr result (entries.new.items ≡ entries.old.items) }
{
    let mut copy = entries.clone()?;
    copy.sort_by(
        |a, b|
            requires { F.IsAlwaysCallable compare }
            ensures { AsksThird (λ f x y o g. F.step f x y o g) backing.entry.now compare.entry
                a.entry b.entry result compare.exit }
        {
            match a.compare_in(b, backing) {
                Ordering::Equal => compare(a, b),
                order => order,
            }
        },
    )?;
    sort(&mut copy, backing)?;
    *entries = copy;
    Ok(())
}
