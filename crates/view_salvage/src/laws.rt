//! Laws of the definitions in the contracts of `divide`, `remains_of` and `Remains::save`. A law computes nothing.

ghost use Rattle.std.specs.Option.{option_map};
ghost use Rattle.std.specs.Prelude.{◌≡◌, ℕ, List, None, Option, Some, length};
ghost use Rattle.gix_index.specs.Answer.{Fault};
ghost use Rattle.gix_index.specs.DecodeOptions.{Options};
ghost use Rattle.gix_index.specs.FileTime.{FileTime};
ghost use Rattle.gix_index.specs.Kind.{Kind};
ghost use Rattle.gix_index.specs.Laws.{TakesAll};
ghost use Rattle.gix_index.specs.Link.{link_of};
ghost use Rattle.gix_index.specs.Record.{Record};
ghost use Rattle.view_salvage.specs.Division.{IsDivided};
ghost use Rattle.view_salvage.specs.Laws.{EachSaved, IsAlone, IsReadAs, IsUnreadableIndex, KeepsAll, KeepsWhole};
ghost use Rattle.view_layout.specs.Piece.{Piece};
ghost use Rattle.view_salvage.specs.Choice.{IsSortedSelection};
ghost use Rattle.view_salvage.specs.declared.chosen.Keep.{Keep};
ghost use Rattle.view_salvage.specs.declared.chosen.Keep.TheVariants.{All};

use gix_index::laws::one_reading;

/// Bytes have exactly one division: the same entries, the same parts, and the same first error or none.
pub fn one_division()
    ensures { (kind : Kind) (bytes : List ℕ) (rs ss : List Record) (pieces others : List Piece)
        (f g : Option Fault) → IsDivided kind bytes rs pieces f
        → IsDivided kind bytes ss others g → (rs ≡ ss) × (pieces ≡ others) × (f ≡ g) }
{}

/// A file whose parts have no error is read as an index with the entries of the parts. Its digest is its trailer, if
/// the trailer isn't null. The reader uses the same hash algorithm, has no limit and expects no trailer.
pub fn whole_is_read()
    ensures { (kind : Kind) (time : FileTime) (options : Options) (bytes : List ℕ)
        (rs : List Record) (pieces : List Piece) → TakesAll options
        → IsDivided kind bytes rs pieces None → IsReadAs kind time options bytes rs }
{}

/// A file whose parts have an error isn't read as an index. The reader uses the same hash algorithm, has no limit and
/// expects no trailer.
pub fn damaged_is_unread()
    ensures { (kind : Kind) (time : FileTime) (options : Options) (bytes : List ℕ)
        (rs : List Record) (pieces : List Piece) (fault : Fault) → TakesAll options
        → IsDivided kind bytes rs pieces (Some fault) → IsUnreadableIndex kind time options bytes }
{}

/// If bytes are read as an index, its link remains, and all its entries are read. Three further facts hold if the index
/// has no link, or if no shared index is given, whatever the trailer is:
///
/// - If git works with all entries, exactly these are saved.
/// - With [`Keep::All`](crate::Keep::All), all entries that git works with are saved, in order by path and stage, of
///   each the first.
/// - What is saved of entries is exactly one list.
pub fn whole_is_saved()
    ensures link { (keep : Keep) → EachSaved keep
        (λ v r shared s. option_map link_of r.link ≡ v.extensions.link) }
    ensures read { (keep : Keep) → EachSaved keep (λ v r shared s. s.read ≡ length v.records) }
    ensures saved { EachSaved All (λ v r shared s. IsAlone v shared → KeepsAll v r s) }
    ensures same { (keep : Keep) → EachSaved keep
        (λ v r shared s. IsAlone v shared → KeepsWhole v r s) }
    ensures one { (rs ks ls : List Record) → IsSortedSelection rs ks → IsSortedSelection rs ls → ks ≡ ls }
{
    one_reading();
}
