//! Writes a bitmap of uncompressed words in the form that git's encoder gives it (git's bitmap-format document,
//! "Serialization format for an EWAH bitmap").

ghost use Rattle.std.specs.Prelude.{◌≡◌, ◌+◌, ◌-◌, ◌*◌, ◌^◌, ◌<◌, ◌≤◌, ℕ, List, ◌∷◌};
ghost use Rattle.std.specs.Prelude.{drop, length};
ghost use Rattle.std.specs.List.{flat_map};
ghost use Rattle.index_parts.specs.Puts.{Puts};
ghost use Rattle.ext_bitmap.specs.BitmapImage.{be64, bitmap_bytes, last_run};
ghost use Rattle.ext_bitmap.specs.EncodedBitmap.{bitmap_of_words, encoded_words, as_runs, marked_words};
ghost use Rattle.ext_bitmap.specs.EncodingSteps.{AreLiterals, IsWordRun, last_behind};
ghost use Rattle.ext_bitmap.specs.EncodingSteps.{marked_at, words_between};

use crate::pieces::{put_number, put_word};
use crate::write::{WORD_LEN, WORDLESS_LEN};
use index_parts::hash::io::Out;
use std::io;

/// The words of a bitmap before it is compressed, bits at lower order first.
pub trait Words {
    // the words
    ghost words: { Self → List ℕ };

    /// Returns the number of words.
    fn count(&self) -> usize
        ensures count { result ≡ length (words self.now) }
        ensures few { result < 2 ^ 30 };

    /// Returns the word at the index `place`.
    fn word(&self, place: usize) -> u64
        requires { place < length (words self.now) }
        ensures { drop place (words self.now) ≡ result ∷ drop (place + 1) (words self.now) };
}

/// A number of adjacent words whose bits are all equal to `bit`, and the indices of the literal words after them.
#[derive(Clone, Copy)]
struct Chunk {
    bit: u64,
    repetitions: u64,
    literals: usize,
    end: usize,
}

/// The number of words of a bitmap's compressed form, and the position of its last run word.
#[derive(Clone, Copy)]
struct Form {
    words: u32,
    last_run: u32,
}

/// The amount that a repetition adds to a run word.
const FIRST_REPETITION: u64 = 1 << 1;

/// The amount that a literal word adds to a run word.
const FIRST_LITERAL: u64 = 1 << 33;

/// Returns the end of the longest run of words from `place` on that are equal to `word`.
fn run_end<B: Words>(bits: &B, place: usize, word: u64) -> usize
    ensures { IsWordRun word place result (B.words bits.now) }
{
    let count = bits.count();
    let mut end = place;
    while end < count {
        if bits.word(end) != word {
            return end;
        }
        end += 1;
    }
    end
}

/// Returns the end of the longest run of literal words from `place` on.
fn literals_end<B: Words>(bits: &B, place: usize) -> usize
    ensures { AreLiterals place result (B.words bits.now) }
{
    let count = bits.count();
    let mut end = place;
    while end < count {
        let word = bits.word(end);
        if word == 0 || word == u64::MAX {
            return end;
        }
        end += 1;
    }
    end
}

/// Returns the longest run from `place` on, and the literal words after it.
fn chunk_at<B: Words>(bits: &B, place: usize) -> Chunk
    requires { place < length (B.words bits.now) }
    ensures chunk { as_runs (drop place (B.words bits.now))
        ≡ marked_at (B.words bits.now) result ∷ as_runs (drop result.end (B.words bits.now)) }
    ensures behind { place < result.end }
    ensures inside { result.end ≤ length (B.words bits.now) }
    ensures literals { place + result.repetitions ≡ result.literals }
    ensures order { result.literals ≤ result.end }
    ensures bit { result.bit < 2 }
{
    let first = bits.word(place);
    if first != 0 && first != u64::MAX {
        return Chunk {
            bit: 0,
            repetitions: 0,
            literals: place,
            end: literals_end(bits, place),
        };
    }
    let literals = run_end(bits, place, first);
    Chunk {
        bit: first % 2,
        repetitions: (literals - place) as u64,
        literals,
        end: literals_end(bits, literals),
    }
}

/// Returns the number of words of all runs with their literal words, and the position of the last run word.
fn form_of_chunks<B: Words>(bits: &B) -> Form
    ensures words { result.words ≡ length (flat_map marked_words (as_runs (B.words bits.now))) }
    ensures last { result.last_run ≡ last_behind 0 0 (as_runs (B.words bits.now)) }
{
    let count = bits.count();
    let mut place = 0;
    let mut words = 0;
    let mut last_run = 0;
    while place < count {
        let chunk = chunk_at(bits, place);
        last_run = words;
        words += 1 + (chunk.end - chunk.literals) as u32;
        place = chunk.end;
    }
    Form { words, last_run }
}

/// Returns the number of words of the compressed form, and the position of its last run word.
fn form_of<B: Words>(bits: &B) -> Form
    ensures words { result.words ≡ length (encoded_words (B.words bits.now)) }
    ensures last { result.last_run ≡ last_run (encoded_words (B.words bits.now)) }
{
    if bits.count() == 0 {
        return Form {
            words: 1,
            last_run: 0,
        };
    }
    form_of_chunks(bits)
}

/// Writes the words from the index `first` up to but not including `end`.
fn put_literals<B: Words, W: Out>(bits: &B, first: usize, end: usize, out: &mut W) -> io::Result<()>
    requires order { first ≤ end }
    requires inside { end ≤ length (B.words bits.now) }
    ensures { Puts W.Out out.old out.new result
        (flat_map be64 (words_between first end (B.words bits.now))) }
{
    for place in first..end {
        put_word(bits.word(place), out)?;
    }
    Ok(())
}

/// Writes a run word and its literal words.
fn put_chunk<B: Words, W: Out>(bits: &B, chunk: Chunk, out: &mut W) -> io::Result<()>
    requires bit { chunk.bit < 2 }
    requires few { chunk.repetitions < 2 ^ 30 }
    requires order { chunk.literals ≤ chunk.end }
    requires inside { chunk.end ≤ length (B.words bits.now) }
    requires small { length (B.words bits.now) < 2 ^ 30 }
    ensures { Puts W.Out out.old out.new result
        (flat_map be64 (marked_words (marked_at (B.words bits.now) chunk))) }
{
    let literals = (chunk.end - chunk.literals) as u64;
    put_word(
        chunk.bit + FIRST_REPETITION * chunk.repetitions + FIRST_LITERAL * literals,
        out,
    )?;
    put_literals(bits, chunk.literals, chunk.end, out)
}

/// Writes all runs, each followed by its literal words.
fn put_chunks<B: Words, W: Out>(bits: &B, out: &mut W) -> io::Result<()>
    ensures { Puts W.Out out.old out.new result
        (flat_map be64 (flat_map marked_words (as_runs (B.words bits.now)))) }
{
    let count = bits.count();
    let mut place = 0;
    while place < count {
        let chunk = chunk_at(bits, place);
        put_chunk(bits, chunk, out)?;
        place = chunk.end;
    }
    Ok(())
}

/// Writes the words of the compressed form.
fn put_words<B: Words, W: Out>(bits: &B, out: &mut W) -> io::Result<()>
    ensures { Puts W.Out out.old out.new result
        (flat_map be64 (encoded_words (B.words bits.now))) }
{
    if bits.count() == 0 {
        return put_word(0, out);
    }
    put_chunks(bits, out)
}

/// Returns the length in bytes of the bitmap that [`put`] writes for these words. It allocates no memory.
pub fn content_len<B: Words>(bits: &B) -> u64
    ensures len { (num_bits : ℕ) → result
        ≡ length (bitmap_bytes (bitmap_of_words num_bits (B.words bits.now))) }
    ensures fits { result < 2 ^ 36 }
{
    WORDLESS_LEN + WORD_LEN * u64::from(form_of(bits).words)
}

/// Writes the bitmap of `num_bits` bits that git's encoder makes of these words. It allocates no memory.
///
/// An error occurs only if the writer failed, which then took a prefix of the bytes.
pub fn put<B: Words, W: Out>(num_bits: u32, bits: &B, out: &mut W) -> io::Result<()>
    ensures written { Puts W.Out out.old out.new result
        (bitmap_bytes (bitmap_of_words num_bits (B.words bits.now))) }
{
    let Form { words, last_run } = form_of(bits);
    put_number(num_bits, out)?;
    put_number(words, out)?;
    put_words(bits, out)?;
    put_number(last_run, out)
}
