//! Bytes as text of one line.

ghost use Rattle.std.specs.Prelude.{◌≡◌, ◌++◌, ◌∷◌, [], OnOk, codes};
ghost use Rattle.std.specs.Bool.{OnTrue};
ghost use Rattle.hex.specs.Hex.{encode_lower};
ghost use Rattle.base_text.specs.Escaped.{escaped, escaped_byte, is_printable};

use crate::append::Appended;
use crate::digits::hex_digit;

fn is_plain(byte: u8) -> bool
    ensures { result ≡ is_printable byte }
{
    byte >= b' ' && byte <= b'~'
}

/// Returns the text of a byte that isn't plain: `\x` and two digits of base 16.
fn escape_of(byte: u8) -> [u8; 4]
    ensures { result ≡ codes "\\x" ++ encode_lower (byte ∷ []) }
{
    [b'\\', b'x', hex_digit(byte >> 4), hex_digit(byte & 0x0f)]
}

/// Appends the text of a byte.
fn append_escaped_byte(text: &mut Vec<u8>, byte: u8) -> Appended
    ensures { OnOk result (text.new.items ≡ text.old.items ++ escaped_byte byte) }
{
    if byte == b'\\' {
        return text.extend_from_slice(b"\\\\");
    }
    if is_plain(byte) {
        return text.extend_from_slice(&[byte]);
    }
    text.extend_from_slice(&escape_of(byte))
}

/// Returns true only if each byte is its own text. The check reads all bytes, so that many are checked at once.
fn stand_for_themselves(bytes: &[u8]) -> bool
    ensures { OnTrue result (escaped bytes.now ≡ bytes.now) }
{
    let mut all = true;
    for byte in bytes {
        all &= is_plain(*byte) & (*byte != b'\\');
    }
    all
}

/// Appends bytes as text of one line: plain ones unchanged, a backslash doubled, others as `\x` and two digits of base
/// 16.
pub fn append_escaped(text: &mut Vec<u8>, bytes: &[u8]) -> Appended
    ensures { OnOk result (text.new.items ≡ text.old.items ++ escaped bytes.now) }
{
    if stand_for_themselves(bytes) {
        return text.extend_from_slice(bytes);
    }
    for byte in bytes {
        append_escaped_byte(text, *byte)?;
    }
    Ok(())
}
