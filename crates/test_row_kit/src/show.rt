//! Formats the values of answers as text.

mod bytes;
mod listing;

pub use bytes::{Bytes, Text};
use gix_index::Version;
use gix_index::entry::Stage;
use gix_index::hash::Kind;
pub use listing::{Fields, FileSeconds, Item, Seconds, ShortId, StatNumbers, entries};
use std::cmp::Ordering;
use std::fmt::{self, Display};

/// Returns `yes` or `no`.
pub fn yes(holds: bool) -> &'static str {
    match holds {
        true => "yes",
        false => "no",
    }
}

/// Returns the sign of an order: `<`, `=` or `>`.
pub fn sign_of(order: Ordering) -> &'static str {
    match order {
        Ordering::Less => "<",
        Ordering::Equal => "=",
        Ordering::Greater => ">",
    }
}

/// Returns the number of a version, as the header of an index has it.
pub fn version_of(version: Version) -> u32 {
    match version {
        Version::V2 => 2,
        Version::V3 => 3,
        Version::V4 => 4,
    }
}

/// Returns the name of a hash algorithm, as rows have it.
pub fn kind_of(kind: Kind) -> &'static str {
    match kind {
        Kind::Sha1 => "sha1",
        Kind::Sha256 => "sha256",
    }
}

/// Returns the name of a stage.
pub fn stage_of(stage: Stage) -> &'static str {
    match stage {
        Stage::Unconflicted => "unconflicted",
        Stage::Base => "base",
        Stage::Ours => "ours",
        Stage::Theirs => "theirs",
    }
}

/// Displays a value, or `none`.
#[derive(Clone, Copy)]
pub struct OrNone<T>(pub Option<T>);

impl<T: Display> Display for OrNone<T> {
    fn fmt<W: fmt::Write>(&self, f: &mut fmt::Formatter<W>) -> fmt::Result {
        match &self.0 {
            Some(value) => write!(f, "{value}"),
            None => write!(f, "none"),
        }
    }
}

/// Displays values as a list: joined by `;`, in square brackets.
#[derive(Clone, Copy)]
pub struct Listed<'a, T>(pub &'a [T]);

impl<T: Display> Display for Listed<'_, T> {
    fn fmt<W: fmt::Write>(&self, f: &mut fmt::Formatter<W>) -> fmt::Result {
        write!(f, "[")?;
        for (place, value) in self.0.iter().enumerate() {
            if place > 0 {
                write!(f, ";")?;
            }
            write!(f, "{value}")?;
        }
        write!(f, "]")
    }
}
