//! Paths in lines, as git prints them.

ghost use Rattle.std.specs.Prelude.{◌≡◌, ◌++◌, OnOk, true};
ghost use Rattle.std.specs.List.{flat_map, list_all};
ghost use Rattle.base_text.specs.Quoted.{behind_backslash, has_letter, is_usual, letter_of, quoted, quoted_byte, three_octal};

use crate::append::Appended;
use crate::digits::octal_digit;

/// The letters of C's escapes for the bytes from a bell to a carriage return.
const LETTERS: [u8; 7] = *b"abtnvfr";

fn is_usual(byte: u8) -> bool
    ensures { result ≡ is_usual byte }
{
    (byte >= b' ') & (byte <= b'~') & (byte != b'"') & (byte != b'\\')
}

/// Returns whether no byte needs an escape. The check reads all bytes, so that many are checked at once.
fn are_usual(path: &[u8]) -> bool
    ensures { result ≡ list_all is_usual path.now }
{
    let mut all = true;
    for byte in path {
        all &= is_usual(*byte);
    }
    all
}

fn has_letter(byte: u8) -> bool
    ensures { result ≡ has_letter byte }
{
    byte >= 0x07 && byte <= b'\r'
}

/// Returns the letter of the escape of a byte.
fn letter_of(byte: u8) -> u8
    requires { has_letter byte ≡ true }
    ensures { result ≡ letter_of byte }
{
    LETTERS[(byte - 0x07) as usize]
}

/// Returns the three octal digits of a byte.
fn three_octal(byte: u8) -> [u8; 3]
    ensures { result ≡ three_octal byte }
{
    let n = u32::from(byte);
    [
        octal_digit(n / 0o100),
        octal_digit(n / 0o10),
        octal_digit(n),
    ]
}

/// Appends the escape of an unusual byte, without the backslash.
fn append_behind_backslash(text: &mut Vec<u8>, byte: u8) -> Appended
    ensures { OnOk result (text.new.items ≡ text.old.items ++ behind_backslash byte) }
{
    if byte == b'"' || byte == b'\\' {
        return text.extend_from_slice(&[byte]);
    }
    if has_letter(byte) {
        return text.extend_from_slice(&[letter_of(byte)]);
    }
    text.extend_from_slice(&three_octal(byte))
}

/// Appends a byte as it is between quotes.
fn append_quoted_byte(text: &mut Vec<u8>, byte: u8) -> Appended
    ensures { OnOk result (text.new.items ≡ text.old.items ++ quoted_byte byte) }
{
    if is_usual(byte) {
        return text.extend_from_slice(&[byte]);
    }
    text.extend_from_slice(b"\\")?;
    append_behind_backslash(text, byte)
}

/// Appends a path's bytes as they are between quotes.
fn append_quoted_bytes(text: &mut Vec<u8>, path: &[u8]) -> Appended
    ensures { OnOk result (text.new.items ≡ text.old.items ++ flat_map quoted_byte path.now) }
{
    for byte in path {
        append_quoted_byte(text, *byte)?;
    }
    Ok(())
}

/// Appends a path as git prints it in lines (git-config, `core.quotePath`). A path of printed ASCII without `"` and `\`
/// is unchanged.
///
/// Any other path is in double quotes, with the escapes `\"`, `\\`, `\a`, `\b`, `\t`, `\n`, `\v`, `\f` and `\r`. Each
/// other unusual byte is a backslash and three octal digits.
pub fn append_quoted(text: &mut Vec<u8>, path: &[u8]) -> Appended
    ensures { OnOk result (text.new.items ≡ text.old.items ++ quoted path.now) }
{
    if are_usual(path) {
        return text.extend_from_slice(path);
    }
    text.extend_from_slice(b"\"")?;
    append_quoted_bytes(text, path)?;
    text.extend_from_slice(b"\"")
}
