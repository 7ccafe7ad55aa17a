//! Decodes the file system monitor extension (gitformat-index, "File System Monitor cache").

ghost use Rattle.std.specs.Prelude.{◌≡◌, IfOk, IfErr};
ghost use Rattle.std.specs.Option.{option_map};
ghost use Rattle.ext_bitmap.specs.Bitmap.{Bitmap, bitmap};
ghost use Rattle.ext_bitmap.specs.declared.ewah.reading.Error.TheVariants.{Memory};
ghost use Rattle.index_extensions.specs.ExtensionValue.{IsRead};
ghost use Rattle.ext_small.specs.FsMonitor.{token_value, monitor_of, IsMonitor, HasMonitor};
ghost use Rattle.ext_small.specs.MonitorSteps.{lent_token, has_bitmap_len, IsSizedBitmap};

use bstr::BString;
use ext_bitmap::ewah;
use ext_bitmap::ewah::Error;
use index_extensions::Signature;
use index_parts::read;
use parts::{LentToken, parts_of};
use std::alloc::{AllocError, Global};

mod parts;

/// The signature of the extension.
pub const SIGNATURE: Signature = *b"FSMN";

/// The time at which the monitor was asked last. It can be asked for the changes since then.
#[derive(Debug, Drop, PartialEq, Eq)]
pub enum Token {
    /// Version 1: a time.
    V1 {
        /// The number of nanoseconds since the beginning of 1970 (UTC).
        nanos_since_1970: u64,
    },
    /// Version 2: a text that the monitor made, and that only the monitor interprets.
    V2 {
        /// The text, which contains no NUL.
        token: BString,
    },
}

/// Returns a token with the same time or the same text. An error means that memory for the text couldn't be allocated.
impl Clone for Token {
    ghost is_clone = { λ a b. token_value b ≡ token_value a };

    fn clone(&self) -> Result<Token, AllocError> {
        match self {
            Token::V1 { nanos_since_1970 } => Ok(Token::V1 {
                nanos_since_1970: *nanos_since_1970,
            }),
            Token::V2 { token } => Ok(Token::V2 {
                token: token.clone()?,
            }),
        }
    }
}

/// The answer of a file system monitor: the entries that may have changed, and the time at which it was asked.
#[derive(Debug, Drop)]
pub struct FsMonitor {
    token: Token,
    entry_dirty: ewah::Vec,
}

/// Returns an answer with the same token and a clone of the bitmap. An error means that memory couldn't be allocated.
impl Clone for FsMonitor {
    ghost is_clone = { λ a b. monitor_of b ≡ monitor_of a };

    fn clone(&self) -> Result<FsMonitor, AllocError> {
        Ok(FsMonitor {
            token: self.token.clone()?,
            entry_dirty: self.entry_dirty.clone()?,
        })
    }
}

impl FsMonitor {
    /// Returns the time at which the monitor was asked.
    pub fn token(&self) -> &Token
        ensures { result.now ≡ self.now.token }
    {
        &self.token
    }

    /// Returns the positions of the entries that may have changed since. A position may be past the last entry.
    pub fn entry_dirty(&self) -> &ewah::Vec
        ensures { result.now ≡ self.now.entry_dirty }
    {
        &self.entry_dirty
    }

    /// Replaces the positions of the entries that may have changed, after entries have changed. The token is unchanged.
    pub fn set_entry_dirty(&mut self, entry_dirty: ewah::Vec)
        ensures { monitor_of self.new
            ≡ record { token = token_value self.old.token; dirty = bitmap entry_dirty } }
    {
        self.entry_dirty = entry_dirty;
    }
}

/// Returns an error for out of memory, and ignores every error of the bytes.
fn check_memory(error: Error) -> Result<(), AllocError>
    ensures other { IfOk result (λ _. error ≡ Memory → ⊥) }
    ensures memory { IfErr result (λ _. error ≡ Memory) }
{
    match error {
        Error::Memory => Err(AllocError),
        _ => Ok(()),
    }
}

/// The number of bytes of a bitmap without its words: the number of bits, the number of words, and the position of the
/// last run word.
const WORDLESS_LEN: usize = 12;

/// The number of bytes of a word.
const WORD_LEN: usize = 8;

/// Returns whether the number of bytes is that of a bitmap with the number of words that they declare.
fn has_bitmap_len(bytes: &[u8]) -> bool
    ensures { result ≡ has_bitmap_len bytes.now }
{
    bytes.len() >= WORDLESS_LEN
        && bytes.len() == WORDLESS_LEN + WORD_LEN * read::number(bytes, 1) as usize
}

/// Returns the bitmap that the bytes encode, if they have this size.
fn sized_bitmap_of(alloc: Global, size: u32, bytes: &[u8]) -> Result<Option<ewah::Vec>, AllocError>
    ensures read { IfOk result
        (λ found. IsRead (IsSizedBitmap size) bytes.now (option_map bitmap found)) }
    ensures memory { IfErr result (λ _. (b : Bitmap) × IsSizedBitmap size bytes.now b) }
{
    if bytes.len() != size as usize {
        return Ok(None);
    }
    if !has_bitmap_len(bytes) {
        return Ok(None);
    }
    match ewah::decode(alloc, bytes) {
        Ok((bitmap, _)) => Ok(Some(bitmap)),
        Err(error) => {
            check_memory(error)?;
            Ok(None)
        }
    }
}

fn own(alloc: Global, token: LentToken<'_>) -> Result<Token, AllocError>
    ensures { IfOk result (λ owned. token_value owned ≡ lent_token token.entry) }
{
    match token {
        LentToken::V1(nanos_since_1970) => Ok(Token::V1 { nanos_since_1970 }),
        LentToken::V2(text) => Ok(Token::V2 {
            token: BString::from_slice(alloc, text)?,
        }),
    }
}

/// Decodes the content of the extension: a version, a token, and a bitmap with its size.
///
/// It returns `None` in these cases:
///
/// - The version is neither 1 nor 2.
/// - The bytes end within a part.
/// - The bitmap's bytes aren't a bitmap.
/// - The bitmap's size isn't the declared one, or bytes follow the bitmap.
///
/// The memory that it allocates is bounded by the number of bytes. An error means that memory couldn't be allocated for
/// bytes that encode a value.
pub fn decode(alloc: Global, data: &[u8]) -> Result<Option<FsMonitor>, AllocError>
    ensures read { IfOk result (λ read. IsRead IsMonitor «data».now (option_map monitor_of read)) }
    ensures memory { IfErr result (λ _. HasMonitor «data».now) }
{
    let Some(parts) = parts_of(data) else {
        return Ok(None);
    };
    let Some(entry_dirty) = sized_bitmap_of(alloc, parts.size, parts.rest)? else {
        return Ok(None);
    };
    let token = own(alloc, parts.token)?;
    Ok(Some(FsMonitor { token, entry_dirty }))
}
