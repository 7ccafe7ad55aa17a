//! Parses text.

use super::{digits_of, number_of};
use crate::fault::Fault;
use std::alloc::Global;

/// Returns the bytes of a text:
///
/// - A backslash and two digits of base 16 are one byte.
/// - `{N}` after a byte means that the byte occurs N times in all.
/// - `{}` alone is no bytes.
/// - Other characters are their own bytes.
pub fn text_of(alloc: Global, word: &str) -> Result<Vec<u8>, Fault> {
    let mut bytes = Vec::new(alloc);
    if word == "{}" {
        return Ok(bytes);
    }
    for (place, part) in word.split('{').enumerate() {
        let plain = match place {
            0 => part,
            _ => repeat_last(&mut bytes, part)?,
        };
        append_unescaped(alloc, &mut bytes, plain)?;
    }
    Ok(bytes)
}

/// Repeats the last byte, so that it occurs as many times as the number before the brace. Returns the text after the
/// brace.
fn repeat_last<'a>(bytes: &mut Vec<u8>, part: &'a str) -> Result<&'a str, Fault> {
    let (Some((times, plain)), Some(last)) = (part.split_once('}'), bytes.last().copied()) else {
        return Err(Fault::Wrong("a byte and a number in braces"));
    };
    for _ in 1..number_of::<usize>(times)? {
        bytes.push(last)?;
    }
    Ok(plain)
}

/// Appends the bytes of a text without braces.
fn append_unescaped(alloc: Global, bytes: &mut Vec<u8>, text: &str) -> Result<(), Fault> {
    for (place, part) in text.split('\\').enumerate() {
        if place == 0 {
            bytes.extend_from_slice(part.as_bytes())?;
        } else {
            append_escaped(alloc, bytes, part.as_bytes())?;
        }
    }
    Ok(())
}

/// Appends the byte of the first two digits of `part`, and then the rest of `part`.
fn append_escaped(alloc: Global, bytes: &mut Vec<u8>, part: &[u8]) -> Result<(), Fault> {
    let Some((digits, plain)) = part.split_at_checked(2) else {
        return Err(Fault::Wrong("two digits behind a backslash"));
    };
    let byte = digits_of(alloc, digits, "two digits behind a backslash")?;
    bytes.extend_from_slice(&byte)?;
    bytes.extend_from_slice(plain)?;
    Ok(())
}
