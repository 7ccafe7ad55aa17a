//! The extensions of an index that are written.

ghost use Rattle.std.specs.Prelude.{◌≡◌, length, map};
ghost use Rattle.std.specs.Option.{option_map};
ghost use Rattle.ext_tree.specs.Tree.{node_of};
ghost use Rattle.entry_list.specs.EntryImage.{written};
ghost use Rattle.ext_encode.specs.Chosen.{extensions_of};
ghost use Rattle.index_model.specs.Contents.{parts_contents};
ghost use Rattle.index_model.specs.Image.{chosen_extensions, fits_written};
ghost use Rattle.index_model.specs.Kept.{cache_with_names, kept, monitor_within, tree_and_mark, where_fit};
ghost use Rattle.index_model.specs.Outcome.{outcome_of};
ghost use Rattle.ext_small.specs.FsMonitor.{monitor_of};
ghost use Rattle.ext_small.specs.ResolveUndo.{path_stages};
ghost use Rattle.ext_untracked.specs.Untracked.{cache_of};

use ext_encode::chosen::Chosen;
use ext_encode::fs_monitor::is_within;
use ext_encode::untracked_cache::is_spellable;
use ext_small::FsMonitor;
use ext_small::resolve_undo::{Paths, ResolvePath};
use ext_tree as tree;
use ext_tree::Tree;
use ext_untracked::UntrackedCache;
use index_model::Parts;
use index_model::extension::Outcome;
use index_model::write::Options;

/// Returns the cache tree if it matches.
fn tree_where(tree: &Option<Tree>, fit: bool) -> Option<&Tree>
    ensures { option_map (λ t. node_of t.now) result ≡ where_fit fit (option_map node_of tree.now) }
{
    match tree {
        Some(tree) if fit => Some(tree),
        _ => None,
    }
}

/// Returns resolve-undo.
fn paths_of(paths: &Option<Paths>) -> Option<&[ResolvePath]>
    ensures { option_map (λ it. map path_stages it.now) result
        ≡ option_map (λ it. map path_stages it.items) paths.now }
{
    match paths {
        Some(paths) => Some(paths.as_slice()),
        None => None,
    }
}

/// Returns the untracked cache if it matches and no untracked name is empty.
fn cache_where(cache: &Option<UntrackedCache>, fit: bool) -> Option<&UntrackedCache>
    ensures { option_map (λ it. cache_of it.now) result
        ≡ where_fit fit (cache_with_names (option_map cache_of cache.now)) }
{
    match cache {
        Some(cache) if fit && is_spellable(cache) => Some(cache),
        _ => None,
    }
}

/// Returns the answer of a file system monitor if it matches `count` entries.
fn monitor_where(monitor: &Option<FsMonitor>, fit: bool, count: usize) -> Option<&FsMonitor>
    ensures { option_map (λ it. monitor_of it.now) result
        ≡ where_fit fit (monitor_within count (option_map monitor_of monitor.now)) }
{
    match monitor {
        Some(monitor) if fit && is_within(monitor, count as u64) => Some(monitor),
        _ => None,
    }
}

/// Returns the extensions that are preserved with `count` entries. Resolve-undo and the mark of a sparse index always
/// are; the extensions about entries are if they match.
fn kept_extensions(outcome: &Outcome, fit: bool, count: usize) -> Chosen<'_>
    ensures { extensions_of result ≡ kept fit count (outcome_of outcome.now) }
{
    Chosen {
        tree: tree_where(&outcome.tree, fit),
        in_git_order: true,
        resolve_undo: paths_of(&outcome.resolve_undo),
        untracked: cache_where(&outcome.untracked, fit),
        fs_monitor: monitor_where(&outcome.fs_monitor, fit, count),
        is_sparse: outcome.is_sparse,
    }
}

/// Returns the mark of a sparse index, and the cache tree if it is requested.
fn tree_and_mark(outcome: &Outcome, asked: bool) -> Chosen<'_>
    ensures { extensions_of result ≡ tree_and_mark asked (outcome_of outcome.now) }
{
    Chosen {
        tree: tree_where(&outcome.tree, asked),
        in_git_order: false,
        resolve_undo: None,
        untracked: None,
        fs_monitor: None,
        is_sparse: outcome.is_sparse,
    }
}

/// Returns whether the extensions about the list of entries match the `count` entries that are written: they match all
/// entries, and none is omitted.
fn fits_written(parts: &Parts, count: u32) -> bool
    requires { count ≡ length (written (parts_contents parts.now).records) }
    ensures { result ≡ fits_written (parts_contents parts.now) }
{
    parts.extensions_fit && count as usize == parts.entries.len()
}

/// Returns the extensions that the options choose if `count` entries are written.
pub(super) fn chosen_of(parts: &Parts, options: Options, count: u32) -> Chosen<'_>
    requires { count ≡ length (written (parts_contents parts.now).records) }
    ensures { extensions_of result ≡ chosen_extensions (parts_contents parts.now) options }
{
    if options.extensions.is_kept() {
        return kept_extensions(
            &parts.extensions,
            fits_written(parts, count),
            count as usize,
        );
    }
    let asked = options.extensions.should_write(tree::SIGNATURE).is_some();
    tree_and_mark(&parts.extensions, asked)
}
