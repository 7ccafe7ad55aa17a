//! Decides whether an end marker is written.

ghost use Rattle.std.specs.Prelude.{◌≡◌, ◌<◌, ◌^◌, length};
ghost use Rattle.ext_encode.specs.Chosen.{extensions_of};
ghost use Rattle.ext_encode.specs.Listing.{AreLens};
ghost use Rattle.index_model.specs.Image.{chosen_extensions, has_marker, unmarked};
ghost use Rattle.index_model.specs.Contents.{parts_contents};
ghost use Rattle.index_encode.specs.Layout.{wants_marker};

use ext_encode::Lens;
use ext_encode::chosen::Chosen;
use index_extensions::end_of_index_entry;
use index_model::Parts;
use index_model::write::Options;

/// Returns whether an end marker is requested, and there are entries.
fn wants_marker(parts: &Parts, options: Options) -> bool
    ensures { result ≡ wants_marker (parts_contents parts.now) options }
{
    !parts.entries.is_empty()
        && options
            .extensions
            .should_write(end_of_index_entry::SIGNATURE)
            .is_some()
}

/// Returns whether an end marker follows the extensions. If all extensions that match are written, it does if there was
/// one. Otherwise it follows other extensions, if it is requested and there are entries.
pub(super) fn has_marker(parts: &Parts, list: Chosen<'_>, lens: Lens, options: Options) -> bool
    requires list { extensions_of list ≡ chosen_extensions (parts_contents parts.now) options }
    requires lens { AreLens parts.now.object_hash (extensions_of list) lens }
    requires small { length (unmarked (parts_contents parts.now) options) < 2 ^ 32 }
    ensures { result ≡ has_marker (parts_contents parts.now) options }
{
    if options.extensions.is_kept() {
        return parts.extensions.had_end_of_index_marker;
    }
    if !wants_marker(parts, options) {
        return false;
    }
    lens.total(list, parts.object_hash) > 0
}
