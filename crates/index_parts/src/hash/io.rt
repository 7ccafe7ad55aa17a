//! Writers that report how much they took, and hash it.

ghost use Rattle.std.specs.Prelude.{◌≡◌, ◌≢◌, ◌||◌, ℕ, List, [], ◌∷◌, Option, Bool, false, ⊤, is_err, IfErr, OnOk};
ghost use Rattle.std.specs.Prelude.{OnErr, map};
ghost use Rattle.std.specs.List.{flat_map};
ghost use Rattle.std.specs.Io.{WritesAtMost};
ghost use Rattle.std.specs.Io.KnownBytes.{Appends, WriteAppends};
ghost use Rattle.std.specs.IoError.{error_kind};
ghost use Rattle.index_parts.specs.declared.hash.Kind.{Kind};
ghost use Rattle.index_parts.specs.Digest.{Holds, hasher_kind, hashed_over};
ghost use Rattle.index_parts.specs.Taking.{Takes, AppendsPrefix, Breaks, KeepsHashed};

use super::{Hasher, Kind};
use std::io;
use std::io::ErrorKind;

/// The number of calls in a row for which a write that is interrupted by a signal is repeated.
const MAX_TRIES: u32 = u32::MAX;

/// A writer over another one. It repeats a write that was interrupted by a signal.
#[derive(Drop)]
pub struct Retrying<W> {
    /// The writer.
    pub inner: W,
}

impl<W: io::Write> io::Write for Retrying<W> {
    ghost contents = { λ r. W.contents r.inner };

    /// Writes some of the bytes with one write of `inner` that no signal interrupted. Returns how many it took.
    ///
    /// An error is that of `inner`, of any kind except [`ErrorKind::Interrupted`]. If signals interrupt 2^32 - 1 calls
    /// in a row, it is [`ErrorKind::TimedOut`].
    fn write(&mut self, buf: &[u8]) -> io::Result<usize>
        ensures bound { WritesAtMost result buf.now }
        ensures bytes { WriteAppends (W.contents self.old.inner) (W.contents self.new.inner) result
            buf.now }
        ensures retried { IfErr result (λ e. error_kind e ≢ ErrorKind.Interrupted) }
    {
        for _ in 0..MAX_TRIES {
            match self.inner.write(buf) {
                Err(e) if e.kind() == ErrorKind::Interrupted => {}
                answer => return answer,
            }
        }
        Err(io::Error::new(ErrorKind::TimedOut, "signals interrupted each try to write"))
    }

    fn flush(&mut self) -> io::Result<()> {
        self.inner.flush()
    }
}

/// Writes all bytes, with as many calls of `write` as are needed.
///
/// The first error of any kind ends it. A call that takes no byte ends it too, with [`ErrorKind::WriteZero`]. After an
/// error the writer has taken a prefix of the bytes, maybe none.
pub fn put_all<W: io::Write>(out: &mut W, bytes: &[u8]) -> io::Result<()>
    ensures ok { OnOk result (Appends (W.contents out.old) (W.contents out.new) bytes.now) }
    ensures err { OnErr result (AppendsPrefix (W.contents out.old) (W.contents out.new) bytes.now) }
{
    let mut at = 0;
    while at < bytes.len() {
        let (_, rest) = bytes.split_at(at);
        let count = out.write(rest)?;
        if count == 0 {
            return Err(io::Error::new(ErrorKind::WriteZero, "the writer took no byte"));
        }
        at += count;
    }
    Ok(())
}

/// A writer that takes bytes piece by piece. It has failed from the first piece on that it didn't take completely.
pub trait Out {
    // The bytes taken so far, or None if they aren't known, as those of a file.
    ghost taken: { Self → Option (List ℕ) };

    // The writer has failed: a piece was not taken completely.
    ghost failed: { Self → Bool };

    // At this depth, counted from 0, a hasher of this algorithm has taken in the pieces that were taken completely,
    // which are these bytes.
    ghost hashed: { Self → ℕ → Kind → List ℕ → Type 0 } = { λ _ _ _ _. ⊤ };

    // The borrows through which it writes, the nearest first.
    ghost loan: { Self → List ℕ } = { λ _. [] };

    /// Takes the complete piece. After an error the writer took a prefix of it, maybe none or all, and hashed nothing
    /// of it. The writer has then failed.
    fn put(&mut self, piece: &[u8]) -> io::Result<()>
        ensures bytes { Takes taken hashed self.old self.new result piece.now }
        ensures unhashed { OnErr result (KeepsHashed hashed self.old self.new) }
        ensures has_failed { failed self.new ≡ (is_err result || failed self.old) }
        ensures loan { loan self.new ≡ loan self.old };

    /// Returns whether the writer has failed: a piece was not taken completely.
    fn has_failed(&self) -> bool
        ensures { result ≡ failed self.now };

    /// Takes these pieces in order. The first error ends it. After an error the writer took a prefix of that piece. The
    /// pieces before it were taken completely, and only they were hashed.
    final fn put_each(&mut self, pieces: &[&[u8]]) -> io::Result<()>
    where
        Self: Sized,
        ensures bytes { Takes taken hashed self.old self.new result
            (flat_map (λ p. p.now) pieces.now) }
        ensures failure { OnErr result
            (Breaks taken hashed self.old self.new (map (λ p. p.now) pieces.now)) }
        ensures has_failed { failed self.new ≡ (is_err result || failed self.old) }
        ensures loan { loan self.new ≡ loan self.old }
    {
        for piece in pieces {
            self.put(piece)?;
        }
        Ok(())
    }
}

impl<W: Out> Out for &mut W {
    ghost taken = { λ w. W.taken w.now };

    ghost failed = { λ w. W.failed w.now };

    ghost hashed = { λ w. W.hashed w.now };

    ghost loan = { λ w. w.ghost_name ∷ W.loan w.now };

    fn put(&mut self, piece: &[u8]) -> io::Result<()> {
        Out::put(&mut **self, piece)
    }

    fn has_failed(&self) -> bool {
        Out::has_failed(&**self)
    }
}

/// An [`Out`] over any writer. It hashes nothing.
#[derive(Drop)]
pub struct Plain<W> {
    /// The writer.
    pub inner: W,
    failed: bool,
}

impl<W: io::Write> Plain<W> {
    /// Returns an `Out` over this writer. It has not failed yet.
    pub fn new(inner: W) -> Plain<W>
        ensures has_failed { ⟦<Plain<W> as Out>⟧.failed result ≡ false }
        ensures inner { result.inner ≡ inner }
    {
        Plain {
            inner,
            failed: false,
        }
    }
}

/// A piece is written by [`put_all`]. An error of any kind is a failure, and so is a call of `write` that takes no
/// byte.
impl<W: io::Write> Out for Plain<W> {
    ghost taken = { λ p. W.contents p.inner };

    ghost failed = { λ p. p.failed };

    fn put(&mut self, piece: &[u8]) -> io::Result<()> {
        let result = put_all(&mut self.inner, piece);
        self.failed |= result.is_err();
        result
    }

    fn has_failed(&self) -> bool {
        self.failed
    }
}

/// An [`Out`] that passes pieces on, and hashes each one that was taken completely. It has failed if `inner` has.
#[derive(Drop)]
pub struct Write<W> {
    /// The writer of the pieces.
    pub inner: W,
    /// The hasher of the pieces so far.
    pub hash: Hasher,
}

impl<W: Out> Write<W> {
    /// Returns a writer over `inner` that has hashed nothing yet.
    pub fn new(inner: W, kind: Kind) -> Write<W>
        ensures inner { result.inner ≡ inner }
        ensures kind { hasher_kind result.hash ≡ kind }
        ensures empty { Holds result.hash [] }
    {
        Write {
            inner,
            hash: Hasher::new(kind),
        }
    }
}

impl<W: Out> Out for Write<W> {
    ghost taken = { λ w. W.taken w.inner };

    ghost failed = { λ w. W.failed w.inner };

    ghost hashed = { λ w. hashed_over w.hash (W.hashed w.inner) };

    ghost loan = { λ w. W.loan w.inner };

    /// Takes the complete piece and hashes it. After an error the hasher is unchanged.
    fn put(&mut self, piece: &[u8]) -> io::Result<()>
        ensures bytes { Takes ⟦<Write<W> as Out>⟧.taken ⟦<Write<W> as Out>⟧.hashed self.old self.new
            result piece.now }
        ensures has_failed { W.failed self.new.inner ≡ (is_err result || W.failed self.old.inner) }
        ensures loan { ⟦<Write<W> as Out>⟧.loan self.new ≡ ⟦<Write<W> as Out>⟧.loan self.old }
        ensures unhashed { OnErr result (KeepsHashed ⟦<Write<W> as Out>⟧.hashed self.old self.new) }
        ensures hash { OnErr result (self.new.hash ≡ self.old.hash) }
    {
        self.inner.put(piece)?;
        self.hash.update(piece);
        Ok(())
    }

    fn has_failed(&self) -> bool {
        self.inner.has_failed()
    }
}
