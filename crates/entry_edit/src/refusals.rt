//! The requirements on an entry that is staged.

ghost use Rattle.std.specs.Prelude.{◌≡◌, ◌==◌, All, IfSome, IsNone, false, position};
ghost use Rattle.entry_edit.specs.EditSteps.{IsFirstAt};
ghost use Rattle.entry_edit.specs.Refusals.{AnswersFault, staged_entry_fault, id_fault, name_fault, names_fault};
ghost use Rattle.entry_edit.specs.Refusals.{names_of};
ghost use Rattle.entry_edit.specs.Refusals.{path_fault};

use crate::error::Error;
use entry_list::Pathless;
use index_parts::check::{ComponentCheck, refusal_of};
use index_parts::hash::{Kind, ObjectId};
use index_parts::object::tree::EntryKind;

/// Returns the index of the first byte of this value.
fn first_of(bytes: &[u8], byte: u8) -> Option<usize>
    ensures value { result ≡ position (λ b. b == byte) bytes.now }
    ensures none { IsNone result → All (λ b. (b == byte) ≡ false) bytes.now }
    ensures some { IfSome result (IsFirstAt byte bytes.now) }
{
    bytes.iter().position(|b| *b == byte)
}

/// Returns Ok if the path is not empty and has no NUL.
fn check_path(path: &[u8]) -> Result<(), Error>
    ensures { AnswersFault (path_fault path.now) result }
{
    if path.is_empty() {
        return Err(Error::EmptyPath);
    }
    match first_of(path, 0) {
        Some(at) => Err(Error::Nul { at }),
        None => Ok(()),
    }
}

/// Returns Ok if the id is of the hash algorithm `kind`, and not null.
fn check_id(kind: Kind, id: &ObjectId) -> Result<(), Error>
    ensures { AnswersFault (id_fault kind id.now) result }
{
    let actual = id.kind();
    if actual != kind {
        return Err(Error::OtherKind {
            expected: kind,
            actual,
        });
    }
    if id.is_null() {
        return Err(Error::NullId);
    }
    Ok(())
}

/// Returns Ok if a name isn't empty and is accepted by the check. `kind` is the type of what has the name.
fn check_name<C: ComponentCheck>(check: &C, kind: EntryKind, name: &[u8]) -> Result<(), Error>
    ensures { AnswersFault (name_fault (C.refusal check.now) kind name.now) result }
{
    if name.is_empty() {
        return Err(Error::EmptyName);
    }
    match refusal_of(check, name, kind) {
        Some(number) => Err(Error::Name { number }),
        None => Ok(()),
    }
}

/// Returns Ok if each name of a path is accepted. `kind` is the type of what has the last name.
fn check_names<C: ComponentCheck>(check: &C, kind: EntryKind, path: &[u8]) -> Result<(), Error>
    ensures { AnswersFault (names_fault (C.refusal check.now) kind (names_of path.now)) result }
{
    let mut rest = path;
    while let Some(at) = first_of(rest, b'/') {
        let (name, _) = rest.split_at(at);
        let (_, behind) = rest.split_at(at + 1);
        check_name(check, EntryKind::Tree, name)?;
        rest = behind;
    }
    check_name(check, kind, rest)
}

/// Returns Ok if the entry may be staged at the path in an index with ids of the hash algorithm `kind`.
#[tactic(auto, unfolding(crate::specs::Refusals::staged_entry_fault))]
pub(crate) fn check_entry<C: ComponentCheck>(
    check: &C,
    kind: Kind,
    entry: Pathless,
    path: &[u8],
) -> Result<(), Error>
    ensures { AnswersFault (staged_entry_fault (C.refusal check.now) kind entry path.now) result }
{
    check_path(path)?;
    let Some(mode) = entry.mode.to_tree_entry_mode() else {
        return Err(Error::Mode { mode: entry.mode });
    };
    let what = mode.kind();
    if matches!(what, EntryKind::Tree) {
        return Err(Error::WholeDirectory);
    }
    check_id(kind, &entry.id)?;
    check_names(check, what, path)
}
