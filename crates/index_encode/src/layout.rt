//! Computes the lengths of the parts of a file before any of it is written.

ghost use Rattle.std.specs.Prelude.{◌≤◌, ◌<◌, ◌^◌, length, IfSome, IfNone};
ghost use Rattle.ext_encode.specs.Chosen.{extensions_of};
ghost use Rattle.index_model.specs.Image.{unmarked};
ghost use Rattle.index_model.specs.Contents.{parts_contents};
ghost use Rattle.index_encode.specs.Layout.{IsLayout, counted_unmarked};

use crate::chosen::chosen_of;
use entry_list::write::{self, Precision, Totals};
use ext_encode::Lens;
use ext_encode::chosen::Chosen;
use index_model::Parts;
use index_model::write::Options;

/// The lengths of a file before it is written.
#[derive(Clone, Copy)]
pub(super) struct Layout<'a> {
    /// The totals of the entries.
    pub(super) entries: Totals,
    /// The extensions that are written.
    pub(super) list: Chosen<'a>,
    /// The lengths of the contents of the extensions.
    pub(super) lens: Lens,
}

/// Returns the layout of the file, with the bytes of entries counted by `precision`. It is `None` if all bytes before
/// the end marker are more than 32 bits can count.
fn layout_by(precision: Precision, parts: &Parts, options: Options) -> Option<Layout<'_>>
    requires few { length (parts_contents parts.now).records < 2 ^ 32 }
    ensures some { IfSome result
        (λ l. IsLayout l.entries.version l.entries.count (extensions_of l.list) l.lens
        (parts_contents parts.now) options) }
    ensures none { IfNone result
        (2 ^ 32 ≤ counted_unmarked precision (parts_contents parts.now) options) }
{
    let choice = options.version;
    let Some(entries) = write::totals_of(choice, precision, &parts.entries, &parts.path_backing)
    else {
        return None;
    };
    let list = chosen_of(parts, options, entries.count);
    let Some(lens) = Lens::of(list, parts.object_hash) else {
        return None;
    };
    let total = u64::from(entries.most) + lens.total(list, parts.object_hash);
    if total > u64::from(u32::MAX) {
        return None;
    }
    Some(Layout {
        entries,
        list,
        lens,
    })
}

/// Returns the layout of the file. It is `None` if all bytes before the end marker are more than 32 bits can count.
/// Entries are counted exactly only if a bound is too large.
pub(super) fn layout_of(parts: &Parts, options: Options) -> Option<Layout<'_>>
    requires few { length (parts_contents parts.now).records < 2 ^ 32 }
    ensures some { IfSome result
        (λ l. IsLayout l.entries.version l.entries.count (extensions_of l.list) l.lens
        (parts_contents parts.now) options) }
    ensures none { IfNone result
        (2 ^ 32 ≤ length (unmarked (parts_contents parts.now) options)) }
{
    match layout_by(Precision::Bound, parts, options) {
        Some(layout) => Some(layout),
        None => layout_by(Precision::Exact, parts, options),
    }
}
