//! Laws of the definitions that the contracts of `State::from_bytes`, `State::from_tree`, `State::write_to` and those
//! of `File` cite. A law computes nothing.
#![tactic(auto)]

ghost use Rattle.std.specs.Prelude.{ℕ, Option};
ghost use Rattle.index_parts.specs.declared.hash.Kind.{Kind};
ghost use Rattle.index_extensions.specs.EndMarker.{EndsInMarker};
ghost use Rattle.ext_small.specs.FsMonitor.{IsMonitor};
ghost use Rattle.ext_small.specs.OffsetTable.{IsTable};
ghost use Rattle.ext_small.specs.ResolveUndo.{IsResolveUndo};
ghost use Rattle.ext_tree.specs.Tree.{IsTree};
ghost use Rattle.ext_untracked.specs.Untracked.{IsCache};
ghost use Rattle.ext_split.specs.Link.{IsLink};
ghost use Rattle.index_laws.specs.Reading.{AllHaveListing, AllHaveOneListing, FitNamesPass, HasOneTree, ReadsBack};
ghost use Rattle.index_laws.specs.Reading.{StoredReadBack};
ghost use Rattle.index_laws.specs.Laws.{AllHaveAnswer, AllHaveOneAnswer, HasOneBitmap, HasOneLinkFault, HasOneReading};
ghost use Rattle.index_laws.specs.Laws.{HasOneWalk, ImageReadsBack, KeptLosesNothing, ReadIsKeepable};
ghost use Rattle.index_laws.specs.Laws.{ReadTreesAreInOrder, RewriteIsCanonical, StoringTwiceIsOnce};
ghost use Rattle.index_laws.specs.Laws.{VersionLosesNothing};

pub mod trees;

/// All bytes have exactly one answer, for each hash algorithm, time and options: an index as a value with the trailer's
/// id, or an error.
pub fn one_answer()
    ensures some { AllHaveAnswer }
    ensures one { AllHaveOneAnswer }
{}

/// The content of an extension has exactly one reading, which is a value or none. A link without a value has one first
/// error. The end marker of a file, the sequence of extensions, and a bitmap at the start of bytes also have exactly
/// one reading.
pub fn one_reading()
    ensures tree { (kind : Kind) (limit : Option ℕ) → HasOneReading (IsTree kind limit) }
    ensures link { (kind : Kind) → HasOneReading (IsLink kind) }
    ensures link_fault { HasOneLinkFault }
    ensures resolve_undo { (kind : Kind) → HasOneReading (IsResolveUndo kind) }
    ensures untracked { (kind : Kind) (limit : Option ℕ) → HasOneReading (IsCache kind limit) }
    ensures fs_monitor { HasOneReading IsMonitor }
    ensures offset_table { HasOneReading IsTable }
    ensures end_marker { (kind : Kind) → HasOneReading (EndsInMarker kind) }
    ensures walk { HasOneWalk }
    ensures bitmap { HasOneBitmap }
{}

/// A tree has exactly one listing: its leaves, or a first error. This holds for all objects in a store, all results of
/// a check of names, each root, and each limit on objects.
pub fn one_listing()
    ensures some { AllHaveListing }
    ensures one { AllHaveOneListing }
{}

/// Reading what was written of a storable index gives what a file stores of it, and the trailer. This holds for either
/// hash algorithm and all options of writing. The reader has the same hash algorithm, no memory limit and no expected
/// trailer.
///
/// The premises on the index are:
///
/// - It has no more entries and bytes than a file can count.
/// - In version 4 no path that is written contains a NUL.
/// - A SHA-1 file without an end marker doesn't end as if it had one.
/// - If all extensions that match are written, each can be encoded, as each that was read can
///   ([`read_extensions_are_keepable`]).
pub fn written_reads_back()
    ensures { ImageReadsBack }
{}

/// What a file stores of a stored value is that value.
pub fn stored_twice()
    ensures { StoringTwiceIsOnce }
{}

/// An index that was read, of any version, is written as the same bytes again after these have been read, by the same
/// options. The premises are those of [`written_reads_back`] except that it is storable, which each index that was read
/// is.
pub fn rewrite_is_canonical()
    ensures { RewriteIsCanonical }
{}

/// An index that was read, written and read again, in any version, has everything that a file stores. It is written as
/// before, by all options that choose the same extensions. The premises are those of [`rewrite_is_canonical`].
pub fn version_change_loses_nothing()
    ensures { VersionLosesNothing }
{}

/// An index is read, written with all extensions that match, and read again. It is then what was read, except for its
/// time, its version, a link with a null id, and an offset table.
///
/// The premises are those of [`rewrite_is_canonical`], and:
///
/// - The extensions match, as they do unless it is a split index.
/// - No name in its untracked cache is empty.
/// - A monitor's answer is about no more entries than are written.
pub fn kept_loses_nothing()
    ensures { KeptLosesNothing }
{}

/// Resolve-undo that was read can be encoded. So can an untracked cache that was read, if none of its untracked names
/// is empty, and a monitor's answer. All three are required if they are written.
pub fn read_extensions_are_keepable()
    ensures { ReadIsKeepable }
{}

/// In the cache tree of an index that was read, the names of siblings increase, below each node. So a rebuilt cache
/// tree keeps each of its counts that still matches the entries (`State::renew_tree`).
pub fn read_trees_are_in_order()
    ensures { ReadTreesAreInOrder }
{}

/// Reading the trees that were written of a list gives the leaves in these trees, under these premises:
///
/// - The store has each tree that was written, by its id.
/// - No leaf represents a complete directory.
/// - The check accepts each name in the trees. It does if it accepted the records that were written.
/// - As many trees may be read as were written.
///
/// So what `State::write_trees` wrote to a store is read from it with the same check, if the store has each tree that
/// it has taken.
pub fn written_trees_read_back()
    ensures read { ReadsBack }
    ensures names { FitNamesPass }
    ensures stored { StoredReadBack }
{}

/// A list has at most one tree of names.
pub fn one_tree()
    ensures { HasOneTree }
{}
