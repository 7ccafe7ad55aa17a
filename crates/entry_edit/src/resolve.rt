//! Resolution of a conflict.

ghost use Rattle.std.specs.Prelude.{◌≡◌};
ghost use Rattle.entry_edit.specs.Edits.{merged};
ghost use Rattle.entry_edit.specs.EntryEdits.{ResolvesAllowed};

use crate::error::Error;
use crate::stage::{Displaced, stage};
use bitflags::Flags as _;
use entry_fields::entry::Flags;
use entry_list::{Entry, PathStorage, Pathless};
use index_parts::check::ComponentCheck;
use index_parts::hash::Kind;

/// Returns the entry at stage 0.
pub fn to_stage_zero(entry: Pathless) -> Pathless
    ensures { result ≡ merged entry }
{
    Pathless {
        stat: entry.stat,
        id: entry.id,
        flags: entry.flags.difference(Flags::STAGE_MASK),
        mode: entry.mode,
    }
}

/// Replaces all stages of a path by one merged entry, as git-add does after a conflict is solved. The stage in the
/// entry's flags is ignored. Everything else is as by [`stage`].
pub fn resolve<C: ComponentCheck>(
    entries: &mut Vec<Entry>,
    storage: &mut PathStorage,
    check: &C,
    kind: Kind,
    entry: Pathless,
    path: &[u8],
) -> Result<Displaced, Error>
    ensures { ResolvesAllowed (C.refusal check.now) kind entry path.now storage.old entries.old
        storage.new entries.new result }
{
    stage(entries, storage, check, kind, to_stage_zero(entry), path)
}
