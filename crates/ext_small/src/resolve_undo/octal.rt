//! Modes in octal digits, as text.

ghost use Rattle.std.specs.Prelude.{◌≡◌};
ghost use Rattle.ext_small.specs.ResolveUndoSteps.{mode_of};

use index_parts::read;

/// Returns the number of octal digits after an optional plus sign, or `None` if it has more than 32 bits.
pub(super) fn mode_of(text: &[u8]) -> Option<u32>
    ensures { result ≡ mode_of text.now }
{
    match text {
        [b'+', digits @ ..] => read::octal(digits),
        _ => read::octal(text),
    }
}
