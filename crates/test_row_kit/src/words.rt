//! The arguments of a row, and how each is parsed.

mod bytes;
mod entries;
mod text;

ghost use Rattle.std.specs.Prelude.{◌≡◌, ℕ, false, List, [], ◌∷◌, map, IfNone, IfOk, IfSome, OnErr, OnOk};

use crate::fault::Fault;
pub use entries::id_of;
use gix_index::entry::stat::Time;
use gix_index::entry::{FileTime, Stage, Stat};
use gix_index::hash::{Kind, ObjectId};
use gix_index::{State, Version, decode};
use hex::FromHexError;
use std::alloc::{AllocError, Global};
use std::marker::Model;
use std::str::FromStr;

/// The arguments of a row that are not yet taken.
#[derive(Drop)]
pub struct Words<'a> {
    rt: &'a HostRuntime,
    left: &'a [&'a str],
}

/// The model is the list of the arguments that are not yet taken.
impl<'a> Model for Words<'a> {
    ghost Value = { List (List ℕ) };

    ghost view = { λ words. map (λ word. word.now) words.left.now };
}

impl<'a> Words<'a> {
    /// Returns all arguments of a row.
    pub fn new(rt: &'a HostRuntime, words: &'a [&'a str]) -> Words<'a>
        ensures { result ≡ map (λ word. word.now) words.now }
    {
        Words { rt, left: words }
    }

    /// Returns the runtime that opens files.
    pub fn rt(&self) -> &'a HostRuntime {
        self.rt
    }

    /// Returns the allocator of the values.
    pub fn alloc(&self) -> Global {
        self.rt.alloc()
    }

    /// Takes the next argument. If there is none, the error is [`Fault::Missing`] with `wanted`.
    pub fn next(&mut self, wanted: &'static str) -> Result<&'a str, Fault>
        ensures taken { IfOk result (λ word. self.old ≡ word.now ∷ self.new) }
        ensures missing { OnErr result (self.old ≡ []) }
    {
        self.optional().ok_or(Fault::Missing(wanted))
    }

    /// Takes the next argument. Returns `None` if there is none.
    pub fn optional(&mut self) -> Option<&'a str>
        ensures taken { IfSome result (λ word. self.old ≡ word.now ∷ self.new) }
        ensures missing { IfNone result (self.old ≡ []) }
    {
        let word = self.left.first().copied()?;
        self.left = &self.left[1..];
        Some(word)
    }

    /// Takes the next argument if it equals `name`. Returns whether it did.
    pub fn has(&mut self, name: &str) -> bool
        ensures left { (result ≡ false) → (self.new ≡ self.old) }
    {
        match self.left.first() {
            Some(word) if *word == name => {
                self.left = &self.left[1..];
                true
            }
            _ => false,
        }
    }

    /// Returns the error [`Fault::Surplus`] if an argument is not yet taken.
    pub fn end(&self) -> Result<(), Fault>
        ensures ok { OnOk result (self.now ≡ []) }
    {
        if self.left.is_empty() {
            return Ok(());
        }
        Err(Fault::Surplus)
    }

    /// Takes `yes` or `no`.
    pub fn yes(&mut self) -> Result<bool, Fault> {
        match self.next("yes or no")? {
            "yes" => Ok(true),
            "no" => Ok(false),
            _ => Err(Fault::Wrong("yes or no")),
        }
    }

    /// Takes a hash algorithm: `sha1` or `sha256`.
    pub fn kind(&mut self) -> Result<Kind, Fault> {
        match self.next("a kind of hash")? {
            "sha1" => Ok(Kind::Sha1),
            "sha256" => Ok(Kind::Sha256),
            _ => Err(Fault::Wrong("sha1 or sha256")),
        }
    }

    /// Takes a version: `v2`, `v3` or `v4`.
    pub fn version(&mut self) -> Result<Version, Fault> {
        match self.next("a version")? {
            "v2" => Ok(Version::V2),
            "v3" => Ok(Version::V3),
            "v4" => Ok(Version::V4),
            _ => Err(Fault::Wrong("v2, v3 or v4")),
        }
    }

    /// Takes a number in decimal digits.
    pub fn number<N: FromStr>(&mut self) -> Result<N, Fault>
    where
        N::Err: Drop,
    {
        number_of(self.next("a number")?)
    }

    /// Takes `name` and then a number in decimal digits. Returns `None` if the next argument isn't `name`.
    pub fn number_named(&mut self, name: &str) -> Result<Option<usize>, Fault> {
        if !self.has(name) {
            return Ok(None);
        }
        Ok(Some(self.number()?))
    }

    /// Takes bits in octal digits.
    pub fn octal(&mut self) -> Result<u32, Fault> {
        octal_of(self.next("octal digits")?)
    }

    /// Takes bits in digits of base 16.
    pub fn hex(&mut self) -> Result<u32, Fault> {
        hex_of(self.next("digits of base 16")?)
    }

    /// Takes a byte in digits of base 16.
    pub fn byte(&mut self) -> Result<u8, Fault> {
        byte_of(self.next("one byte in base 16")?)
    }

    /// Takes `name` and then an id in base 16. Returns `None` if the next argument isn't `name`.
    pub fn id_named(&mut self, name: &str) -> Result<Option<ObjectId>, Fault> {
        if !self.has(name) {
            return Ok(None);
        }
        let bytes = digits_of(self.alloc(), self.next("an id")?.as_bytes(), "an id")?;
        Ok(Some(ObjectId::from_bytes(&bytes).ok_or(Fault::Wrong("an id"))?))
    }

    /// Takes a stage, as one digit. Returns `None` if there is no further argument.
    pub fn stage(&mut self) -> Result<Option<Stage>, Fault> {
        match self.optional() {
            Some(word) => Ok(Some(entries::stage_of(word)?)),
            None => Ok(None),
        }
    }

    /// Takes text and returns its bytes.
    pub fn text(&mut self) -> Result<Vec<u8>, Fault> {
        text::text_of(self.alloc(), self.next("a text")?)
    }

    /// Takes all further arguments as text and returns the bytes of each.
    pub fn texts(&mut self) -> Result<Vec<Vec<u8>>, Fault> {
        let mut texts = Vec::new(self.alloc());
        for word in self.left {
            texts.push(text::text_of(self.alloc(), word)?)?;
        }
        self.left = &[];
        Ok(texts)
    }

    /// Takes the pieces of bytes and returns the bytes.
    pub fn bytes(&mut self) -> Result<Vec<u8>, Fault> {
        bytes::bytes_of(self.rt, self.next("bytes")?)
    }

    /// Takes seconds, a point and nanoseconds, in decimal digits. Neither number has a limit other than its type's.
    pub fn seconds(&mut self) -> Result<(i64, u32), Fault> {
        let Some((seconds, nanoseconds)) = self.next("a time")?.split_once('.') else {
            return Err(Fault::Wrong("seconds, a point and nanoseconds"));
        };
        Ok((number_of(seconds)?, number_of(nanoseconds)?))
    }

    /// Takes the time of a file, as seconds and nanoseconds.
    pub fn file_time(&mut self) -> Result<FileTime, Fault> {
        let (seconds, nanoseconds) = self.seconds()?;
        FileTime::new(seconds, nanoseconds).ok_or(Fault::Wrong("the time of a file"))
    }

    /// Takes the time of an entry, as seconds and nanoseconds.
    pub fn time(&mut self) -> Result<Time, Fault> {
        entries::time_of(self.next("a time")?)
    }

    /// Takes the numbers of a stat.
    pub fn stat(&mut self) -> Result<Stat, Fault> {
        entries::stat_of(self.next("the numbers of a stat")?)
    }

    /// Takes a list and returns the text between its brackets.
    pub fn list(&mut self) -> Result<&'a str, Fault> {
        list_in(self.next("a list")?).ok_or(Fault::Wrong("a list in square brackets"))
    }

    /// Takes a list of entries and returns a new state with these entries, pushed in the order of the list.
    pub fn entries(&mut self, kind: Kind) -> Result<State, Fault> {
        entries::state_of(self.alloc(), kind, self.list()?)
    }

    /// Takes a state: a list of entries, or the bytes of an index, which are decoded. The inner error is that of
    /// decoding.
    pub fn state(&mut self, kind: Kind) -> Result<Result<State, decode::Error>, Fault> {
        if self.left.first().is_some_and(|word| word.starts_with('[')) {
            return Ok(Ok(self.entries(kind)?));
        }
        let bytes = self.bytes()?;
        let options = decode::Options::default();
        match State::from_bytes(self.alloc(), &bytes, FileTime::EPOCH, kind, options) {
            Ok((state, _)) => Ok(Ok(state)),
            Err(e) => Ok(Err(e)),
        }
    }
}

/// Returns the text between the brackets of a list. Returns `None` if `word` isn't a list.
fn list_in(word: &str) -> Option<&str> {
    word.strip_prefix('[')?.strip_suffix(']')
}

/// Returns the items of a list. `list` is the text between its brackets.
pub fn items_of<'a>(alloc: Global, list: &'a str) -> Result<Vec<&'a str>, Fault> {
    if list.is_empty() {
        return Ok(Vec::new(alloc));
    }
    Ok(list.split(';').collect(alloc)?)
}

/// Parses a number in decimal digits.
pub fn number_of<N: FromStr>(word: &str) -> Result<N, Fault>
where
    N::Err: Drop,
{
    let Ok(number) = word.parse::<N>() else {
        return Err(Fault::Wrong("a number"));
    };
    Ok(number)
}

/// Parses bits in octal digits.
pub fn octal_of(word: &str) -> Result<u32, Fault> {
    let Ok(bits) = u32::from_str_radix(word, 8) else {
        return Err(Fault::Wrong("octal digits"));
    };
    Ok(bits)
}

/// Parses bits in digits of base 16.
pub fn hex_of(word: &str) -> Result<u32, Fault> {
    let Ok(bits) = u32::from_str_radix(word, 16) else {
        return Err(Fault::Wrong("digits of base 16"));
    };
    Ok(bits)
}

/// Decodes bytes from digits of base 16, two for each byte. For other digits the error is [`Fault::Wrong`] with
/// `wanted`.
fn digits_of(alloc: Global, digits: &[u8], wanted: &'static str) -> Result<Vec<u8>, Fault> {
    match hex::decode(alloc, digits) {
        Ok(bytes) => Ok(bytes),
        Err(FromHexError::OutOfMemory) => Err(Fault::from(AllocError)),
        Err(_) => Err(Fault::Wrong(wanted)),
    }
}

/// Parses a byte in digits of base 16.
fn byte_of(word: &str) -> Result<u8, Fault> {
    let Ok(byte) = u8::try_from(hex_of(word)?) else {
        return Err(Fault::Wrong("one byte in base 16"));
    };
    Ok(byte)
}

/// Returns the bytes of a text.
pub fn text_of(alloc: Global, word: &str) -> Result<Vec<u8>, Fault> {
    text::text_of(alloc, word)
}
