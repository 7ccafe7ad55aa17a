//! The version of the library.

ghost use Rattle.std.specs.Prelude.{◌≡◌};

/// The version: its major, minor and patch number, a byte each.
pub const VERSION: u32 = 0x01_00_00;

/// Returns the version of the library that is linked, which may differ from that of the header.
#[unsafe(no_mangle)]
pub extern "C" fn gix_index_version() -> u32
    ensures { result ≡ VERSION }
{
    VERSION
}
