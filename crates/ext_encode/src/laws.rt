//! Laws of the bytes that are written: reading them returns the values for which they were written. A law computes
//! nothing.

ghost use Rattle.std.specs.Prelude.{◌≡◌, ◌<◌, ◌^◌, ℕ, List, All, Option, length, true};
ghost use Rattle.index_parts.specs.declared.hash.Kind.{Kind};
ghost use Rattle.ext_small.specs.FsMonitor.{IsMonitor, Monitor};
ghost use Rattle.ext_small.specs.ResolveUndo.{IsResolveUndo, PathStages};
ghost use Rattle.ext_untracked.specs.Untracked.{Cache, IsCache};
ghost use Rattle.ext_encode.specs.MonitorImage.{monitor_bytes, IsSpellableMonitor};
ghost use Rattle.ext_encode.specs.ResolveUndoImage.{resolve_undo_bytes, AreSpellablePaths};
ghost use Rattle.ext_encode.specs.SpellableCache.{IsSpellableCache, names_are_some};
ghost use Rattle.ext_encode.specs.UntrackedImage.{cache_bytes};

/// States that the bytes written for a file system monitor extension are read as that extension. Each extension that
/// was read can be written this way.
pub fn monitor_reads_back()
    ensures read { (m : Monitor) → IsSpellableMonitor m → IsMonitor (monitor_bytes m) m }
    ensures spellable { (bytes : List ℕ) (m : Monitor) → All (λ n. n < 256) bytes
        → IsMonitor bytes m → IsSpellableMonitor m }
{}

/// States that the bytes written for resolve-undo paths are read as those paths, with the hash algorithm of their ids.
/// Paths that were read can be written this way.
pub fn resolve_undo_reads_back()
    ensures read { (kind : Kind) (paths : List PathStages) → AreSpellablePaths kind paths
        → IsResolveUndo kind (resolve_undo_bytes paths) paths }
    ensures spellable { (kind : Kind) (bytes : List ℕ) (paths : List PathStages)
        → IsResolveUndo kind bytes paths → AreSpellablePaths kind paths }
{}

/// States that the bytes written for an untracked cache are read as that cache, with the hash algorithm of its ids and
/// within the limit.
///
/// A cache that was read can be written this way if no untracked name is empty.
pub fn untracked_cache_reads_back()
    ensures read { (kind : Kind) (limit : Option ℕ) (c : Cache) → IsSpellableCache kind limit c
        → IsCache kind limit (cache_bytes kind c) c }
    ensures spellable { (kind : Kind) (limit : Option ℕ) (bytes : List ℕ) (c : Cache)
        → All (λ n. n < 256) bytes → length bytes < 2 ^ 32 → IsCache kind limit bytes c
        → names_are_some c ≡ true → IsSpellableCache kind limit c }
{}
