//! The first twelve bytes of a file (gitformat-index, "A 12-byte header").

ghost use Rattle.index_decode.specs.ReadParts.{DecodesHeader};

use entry_list::Version;
use entry_list::sizes::HEADER_LEN;
pub use index_model::error::Header as Error;
use index_parts::hash::Kind;
use index_parts::util::from_be_u32;

/// The first four bytes.
pub const SIGNATURE: [u8; 4] = *b"DIRC";

/// Returns the version, the count of entries, and the bytes after the header.
pub fn decode(bytes: &[u8], kind: Kind) -> Result<(Version, u32, &[u8]), Error>
    ensures { DecodesHeader kind bytes.now result }
{
    if bytes.len() < HEADER_LEN + kind.len_in_bytes() {
        return Err(Error::Corrupt(
            "File is too small even for header with zero entries and smallest hash",
        ));
    }
    if !bytes.starts_with(&SIGNATURE) {
        return Err(Error::Corrupt("Signature mismatch - this doesn't claim to be a header file"));
    }
    let version = match from_be_u32(&bytes[4..8]) {
        2 => Version::V2,
        3 => Version::V3,
        4 => Version::V4,
        unknown => return Err(Error::UnsupportedVersion(unknown)),
    };
    Ok((
        version,
        from_be_u32(&bytes[8..HEADER_LEN]),
        &bytes[HEADER_LEN..],
    ))
}
