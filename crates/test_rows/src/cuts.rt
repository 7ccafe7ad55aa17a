//! What is written of an index, or of one entry, to a writer that fails once, after each possible number of bytes.

ghost use Rattle.std.specs.Prelude.{◌≡◌, false};

use crate::ranges::ranges;
use gix_index::hash::io::{Out, Plain};
use gix_index::write::{Error, Options, VersionChoice};
use gix_index::{File, State};
use std::alloc::{AllocError, Global};
use std::io::{self, ErrorKind};
use std::path::PathBuf;
use test_row_kit::{Fault, Lines, Words, refusal};

/// How a writer fails once.
///
/// - With [`ErrorKind::WriteZero`], it takes no bytes, and the library returns that error.
/// - With another value, it returns that error, which the library itself never returns.
#[derive(Clone, Copy)]
struct Failure(ErrorKind);

impl Failure {
    /// Takes the optional argument `nothing`: [`ErrorKind::WriteZero`]. Without it, returns [`ErrorKind::StorageFull`].
    fn of_words(words: &mut Words<'_>) -> Failure {
        if words.has("nothing") {
            return Failure(ErrorKind::WriteZero);
        }
        Failure(ErrorKind::StorageFull)
    }

    /// Returns a writer that takes `room` bytes before it fails.
    fn writer(self, alloc: Global, room: usize) -> Plain<Short>
        ensures { ⟦<Plain<Short> as Out>⟧.failed result ≡ false }
    {
        Plain::new(Short {
            taken: Vec::new(alloc),
            room,
            failure: self,
        })
    }

    /// Appends lines `name` with the ranges of `room` that have the same result: either all bytes are taken, or a
    /// prefix is taken and the error is the writer's. If a writer with unlimited room fails, appends the line of that
    /// error instead.
    fn tell<F: Fn(usize) -> Written>(
        self,
        out: &mut Lines,
        name: &str,
        write: F,
    ) -> Result<(), AllocError>
        requires { F.IsAlwaysCallable write }
    {
        let whole = match write(usize::MAX) {
            (whole, Ok(())) => whole.inner.taken,
            (_, Err(e)) => {
                refusal::write(out, &e);
                return Ok(());
            }
        };
        let mut texts = Vec::new(out.alloc());
        for room in 0..=whole.len() {
            let mut line = Lines::new(out.alloc());
            line.put(name, self.told(write(room), room, &whole));
            texts.push(line.end()?)?;
        }
        ranges(out, &texts, name);
        Ok(())
    }

    /// Describes what a writer with `room` bytes took and what the call returned. `whole` is what a writer takes that
    /// never fails.
    fn told(self, written: Written, room: usize, whole: &[u8]) -> &'static str {
        let (plain, answer) = written;
        let is_failed = plain.has_failed();
        let taken = plain.inner.taken;
        match answer {
            Ok(()) if !is_failed && taken.as_slice() == whole => "whole",
            Err(Error::Io(e)) if is_failed && Some(taken.as_slice()) == whole.get(..room) => {
                if e.kind() == self.0 {
                    "a front, and the writer's fault"
                } else {
                    "a front, and another fault"
                }
            }
            _ => "another answer",
        }
    }
}

/// A writer that takes `room` bytes and then fails once. After the failure it takes all bytes.
#[derive(Drop)]
struct Short {
    taken: Vec<u8>,
    room: usize,
    failure: Failure,
}

impl io::Write for Short {
    fn write(&mut self, piece: &[u8]) -> io::Result<usize> {
        let count = piece.len().min(self.room);
        if count == 0 {
            self.room = usize::MAX;
            return match self.failure.0 {
                ErrorKind::WriteZero => Ok(0),
                kind => Err(io::Error::from(kind)),
            };
        }
        self.taken.extend_from_slice(&piece[..count])?;
        self.room -= count;
        Ok(count)
    }

    fn flush(&mut self) -> io::Result<()> {
        Ok(())
    }
}

/// A writer after a call, and the result of the call that wrote to it.
type Written = (Plain<Short>, Result<(), Error>);

/// The options by which a state is written, and how its writer fails.
#[derive(Clone, Copy)]
pub struct Cuts {
    /// `body`: only the state is written, without a trailer.
    is_body: bool,
    /// `null`: the trailer is null.
    skip_hash: bool,
    /// `v4`: the version is 4.
    version: VersionChoice,
    failure: Failure,
}

impl Cuts {
    /// Takes the optional arguments `body`, `null`, `v4` and `nothing`, in this order.
    pub fn of_words(words: &mut Words<'_>) -> Cuts {
        Cuts {
            is_body: words.has("body"),
            skip_hash: words.has("null"),
            version: if words.has("v4") {
                VersionChoice::V4
            } else {
                VersionChoice::Smallest
            },
            failure: Failure::of_words(words),
        }
    }

    /// Appends the lines for writing the state.
    pub fn answer(self, out: &mut Lines, state: State) -> Result<(), AllocError> {
        let alloc = out.alloc();
        let file = File::from_state(state, PathBuf::new(alloc));
        self.failure
            .tell(out, "write_to", |room| self.written(alloc, &file, room))
    }

    /// Writes the file to a writer that takes `room` bytes. Returns the writer and the result.
    fn written(self, alloc: Global, file: &File, room: usize) -> Written {
        let options = Options {
            skip_hash: self.skip_hash,
            version: self.version,
            ..Options::default()
        };
        let mut plain = self.failure.writer(alloc, room);
        let answer = if self.is_body {
            let state: &State = file;
            state.write_to(&mut plain, options).map(|_| ())
        } else {
            file.write_to(&mut plain, options).map(|_| ())
        };
        (plain, answer)
    }
}

/// `entry-cuts`: appends the lines for writing one entry, in the form of versions 2 and 3, and in the form of version 4
/// after the entry before it.
pub fn entry(out: &mut Lines, state: &State, words: &mut Words<'_>) -> Result<(), Fault> {
    let place: usize = words.number()?;
    if place >= state.entries().len() {
        return Err(Fault::Wrong("the place of an entry"));
    }
    let (alloc, failure) = (out.alloc(), Failure::of_words(words));
    failure.tell(out, "write_to", |room| {
        let mut plain = failure.writer(alloc, room);
        let answer = state.entry(place).write_to(&mut plain, state);
        (plain, answer.map_err(Error::Io))
    })?;
    let previous: &[u8] = match place.checked_sub(1) {
        Some(place) => state.entry(place).path(state),
        None => b"",
    };
    failure.tell(out, "write_delta_to", |room| {
        let mut plain = failure.writer(alloc, room);
        let answer = state
            .entry(place)
            .write_delta_to(&mut plain, state, previous);
        (plain, answer.map_err(Error::Io))
    })?;
    Ok(())
}
