//! The head of an extension: its signature, and the size of its content (gitformat-index, "Extensions").

ghost use Rattle.std.specs.Prelude.{◌≡◌, ◌++◌, length};
ghost use Rattle.index_parts.specs.Numbers.{be32};

use super::Signature;

/// Returns the eight bytes before the content of an extension with this signature. `len` is the length of the content
/// in bytes.
pub fn item_head(signature: Signature, len: u32) -> [u8; 8]
    ensures { result ≡ signature ++ be32 len }
{
    let [a, b, c, d] = signature;
    let [e, f, g, h] = len.to_be_bytes();
    [a, b, c, d, e, f, g, h]
}

/// Returns four bytes as a signature.
pub fn signature_of(bytes: &[u8]) -> Signature
    requires { length bytes.now ≡ 4 }
    ensures { result ≡ bytes.now }
{
    [bytes[0], bytes[1], bytes[2], bytes[3]]
}
