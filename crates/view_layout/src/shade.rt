//! Types of parts with a colour of their own.

ghost use Rattle.std.specs.Prelude.{◌≡◌};
ghost use Rattle.view_layout.specs.Shade.{ink, shade_of};

use crate::What;

/// A type of parts, which has a colour.
#[derive(Clone, Copy, Debug, PartialEq, Eq)]
pub enum Shade {
    /// The header.
    Header,
    /// An entry, or a run of entries.
    Entry,
    /// The padding of an entry.
    Padding,
    /// The head of an extension, or an extension with its content.
    ExtensionHead,
    /// The content of an extension.
    ExtensionContent,
    /// The head of an extension that nothing follows.
    LeftOver,
    /// The trailer.
    Trailer,
    /// Bytes that can't be read.
    Unread,
}

/// Returns the shade of a part.
pub fn shade_of(what: What) -> Shade
    ensures { result ≡ shade_of what }
{
    match what {
        What::Header => Shade::Header,
        What::Entry { .. } => Shade::Entry,
        What::Padding => Shade::Padding,
        What::ExtensionHead { .. } => Shade::ExtensionHead,
        What::ExtensionContent { .. } => Shade::ExtensionContent,
        What::LeftOver => Shade::LeftOver,
        What::Trailer => Shade::Trailer,
        What::Unread => Shade::Unread,
    }
}

/// Returns the colour of a shade, as in SVG.
#[tactic(auto, unfolding(crate::specs::Shade::ink))]
pub fn ink<'a>(shade: Shade) -> &'a [u8]
    ensures { result.now ≡ ink shade }
{
    match shade {
        Shade::Header => b"#4e79a7",
        Shade::Entry => b"#f1b84b",
        Shade::Padding => b"#f8e7c0",
        Shade::ExtensionHead => b"#3f9b60",
        Shade::ExtensionContent => b"#a9d8b4",
        Shade::LeftOver => b"#b07aa1",
        Shade::Trailer => b"#8d99a6",
        Shade::Unread => b"#d64550",
    }
}
