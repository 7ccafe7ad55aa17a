//! Paths in double quotes, as git quotes them.

ghost use Rattle.std.specs.Prelude.{◌≡◌, IfOk, None, Some, option_map};
ghost use Rattle.entry_info.specs.Quoting.{TakesFront, escaped_front, front_of, octal_front, unquoted, value_of_letter};

use index_parts::read::is_octal_digit;
use std::alloc::{AllocError, Global};

/// Returns the byte for a character after a backslash, or None if the character alone is no escape.
fn value_of_letter(letter: u8) -> Option<u8>
    ensures { result ≡ value_of_letter letter }
{
    match letter {
        b'a' => Some(0x07),
        b'b' => Some(0x08),
        b't' => Some(b'\t'),
        b'n' => Some(b'\n'),
        b'v' => Some(0x0b),
        b'f' => Some(0x0c),
        b'r' => Some(b'\r'),
        b'"' => Some(b'"'),
        b'\\' => Some(b'\\'),
        _ => None,
    }
}

/// Returns the byte of three octal digits, the first at most 3, and the text after them.
fn octal_front(text: &[u8]) -> Option<(u8, &[u8])>
    ensures { TakesFront (octal_front text.now) text.now result }
{
    let [a, b, c, rest @ ..] = text else {
        return None;
    };
    if !is_octal_digit(*a) || !is_octal_digit(*b) || !is_octal_digit(*c) || *a > b'3' {
        return None;
    }
    Some(((*a - b'0') * 64 + (*b - b'0') * 8 + (*c - b'0'), rest))
}

/// Returns the byte of an escape, from the text after the backslash, and the text after it.
fn escaped_front(text: &[u8]) -> Option<(u8, &[u8])>
    ensures { TakesFront (escaped_front text.now) text.now result }
{
    let [letter, rest @ ..] = text else {
        return None;
    };
    match value_of_letter(*letter) {
        Some(byte) => Some((byte, rest)),
        None => octal_front(text),
    }
}

/// Returns the first byte of a text between double quotes, and the text after it.
fn front_of(text: &[u8]) -> Option<(u8, &[u8])>
    ensures { TakesFront (front_of text.now) text.now result }
{
    let [byte, rest @ ..] = text else {
        return None;
    };
    match *byte {
        b'\\' => escaped_front(rest),
        b'"' => None,
        byte => Some((byte, rest)),
    }
}

/// Returns the path that is quoted in a text after a double quote, up to the one that ends the text.
///
/// None if it isn't quoted as git quotes a path. An escape is a backslash and a letter of C, `"`, `\\` or three octal
/// digits. Any other byte is itself.
pub fn unquoted(alloc: Global, text: &[u8]) -> Result<Option<Vec<u8>>, AllocError>
    ensures { IfOk result (λ path. option_map (λ p. p.items) path ≡ unquoted text.now) }
{
    let (mut path, mut rest) = (Vec::new(alloc), text);
    while let Some((byte, behind)) = front_of(rest) {
        path.push(byte)?;
        rest = behind;
    }
    if rest == b"\"".as_slice() {
        return Ok(Some(path));
    }
    Ok(None)
}
