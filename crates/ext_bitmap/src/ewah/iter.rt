//! An iterator over the positions of a bitmap's set bits.

ghost use Rattle.std.specs.Prelude.{◌≡◌, ◌≤◌, ◌<◌, ◌^◌, ◌%◌, ◌+◌, ◌-◌, ◌⊎◌, [], ◌∷◌, ◌++◌, length, Some};
ghost use Rattle.std.specs.Iterator.{YieldsFirst, item_count};
ghost use Rattle.ext_bitmap.specs.Ascending.{Ascends};
ghost use Rattle.ext_bitmap.specs.Bits.{set, places, run_places, ListPlaces};
ghost use Rattle.ext_bitmap.specs.UnpackingSteps.{unpacked, next_place, bits_left, items_left, IsBetweenChunks, IsPlaceAfter};

use thiserror::Error;

/// The error that a run word lacks some of its literal words, or that a set bit has a position of 2^64 or more.
#[derive(Clone, Copy, Debug, PartialEq, Eq, Error)]
#[error("the bitmap is malformed: words are missing, or a place has more than 64 bits")]
pub struct Malformed;

/// An iterator over the positions of a bitmap's set bits, which [`Vec::positions`](super::Vec::positions) returns.
#[derive(Debug, Drop)]
pub struct Positions<'a> {
    /// The words that haven't been begun.
    words: &'a [u64],
    /// The position of the next bit; `None` if it is 2^64 or more.
    place: Option<u64>,
    /// The number of bits that are left of a run of set bits.
    ones: u64,
    /// The rest of the current literal word, the next bit lowest.
    word: u64,
    /// The number of bits that are left of the current literal word.
    bits: u32,
    /// The number of words at the start of `words` that are literal.
    literals: u64,
    /// Whether literal words are missing.
    is_broken: bool,
}

/// A range of adjacent positions, from `first` up to but not including `end`.
#[derive(Clone, Copy, Debug, PartialEq, Eq)]
pub struct Run {
    /// The first position.
    pub first: u64,
    /// The position after the last one, or `first` if there are none.
    pub end: u64,
}

/// Returns the position `count` bits after `place`, if it has at most 64 bits.
fn skip(place: Option<u64>, count: u64) -> Option<u64>
    ensures { IsPlaceAfter place count result }
{
    place?.checked_add(count)
}

/// Returns the position after `place`, if it has at most 64 bits.
fn next_place(place: u64) -> Option<u64>
    ensures fits { place < 2 ^ 64 }
    ensures after { IsPlaceAfter (Some place) 1 result }
{
    skip(Some(place), 1)
}

impl<'a> Positions<'a> {
    /// Returns an iterator over the positions of complete words, none of which has been begun.
    pub(super) fn new(words: &'a [u64]) -> Self
        ensures places { ListPlaces (items_left result) words.now }
        ensures ascending { Ascends 0 (items_left result) }
    {
        Positions {
            words,
            place: Some(0),
            ones: 0,
            word: 0,
            bits: 0,
            literals: 0,
            is_broken: false,
        }
    }

    /// Skips the rest of the current run of set bits in one step, and returns the positions that it skipped.
    ///
    /// A caller can so take time in proportion to a bitmap's words instead of its bits. Between runs and within literal
    /// words it skips none. The last position of 64 bits isn't skipped, because the position after it has more than 64
    /// bits.
    pub fn pass_run(&mut self) -> Run
        ensures passed { items_left self.old
            ≡ run_places result.first (result.end - result.first) ++ items_left self.new }
        ensures whole { (self.new.ones ≡ 0) ⊎ (2 ^ 64 ≤ next_place self.new.place + 1) }
    {
        let Some(first) = self.place else {
            return Run { first: 0, end: 0 };
        };
        let count = self.ones.min(u64::MAX - first);
        let end = first + count;
        self.ones -= count;
        self.place = Some(end);
        Run { first, end }
    }

    /// Changes the iterator so that it returns no more items.
    fn stop(&mut self)
        ensures { items_left self.new ≡ [] }
    {
        self.words = &[];
        self.ones = 0;
        self.bits = 0;
        self.literals = 0;
        self.is_broken = false;
    }

    /// Returns the item of a set bit, which the caller has already removed, and advances the position by one.
    fn take_place(&mut self) -> Result<u64, Malformed>
        ensures { places (next_place self.old.place) (set ∷ bits_left self.old)
            ≡ result ∷ items_left self.new }
    {
        match self.place {
            Some(place) => {
                self.place = next_place(place);
                Ok(place)
            }
            None => {
                self.stop();
                Err(Malformed)
            }
        }
    }

    /// Skips the clear bits of the current literal word, up to the next set bit or to the end of the word.
    fn pass_clear(&mut self)
        requires behind_run { self.old.ones ≡ 0 }
        requires clear { self.old.word % 2 ≡ 0 }
        requires begun { 0 < self.old.bits }
        ensures left { items_left self.new ≡ items_left self.old }
        ensures fewer { self.new.bits < self.old.bits }
        ensures words { self.new.words.now ≡ self.old.words.now }
    {
        let clear = self.word.trailing_zeros().min(self.bits);
        self.word = self.word.unbounded_shr(clear);
        self.bits -= clear;
        self.place = skip(self.place, u64::from(clear));
    }

    /// Begins the chunk of a run word, which the caller has already removed. A run of clear bits is skipped in one
    /// step.
    fn begin_chunk(&mut self, run: u64)
        requires { IsBetweenChunks self.old }
        ensures left { items_left self.new ≡ places (next_place self.old.place)
            (unpacked (run ∷ self.old.words.now)) }
        ensures fewer { length self.new.words.now ≤ length self.old.words.now }
        ensures bits { self.new.bits ≡ 0 }
    {
        let len = 64 * (run / 2 % 0x1_0000_0000);
        if run % 2 == 1 {
            self.ones = len;
        } else {
            self.place = skip(self.place, len);
        }
        let literals = run / 0x2_0000_0000;
        if literals <= self.words.len() as u64 {
            self.literals = literals;
        } else {
            self.words = &[];
            self.is_broken = true;
        }
    }
}

impl<'a> Iterator for Positions<'a> {
    type Item = Result<u64, Malformed>;

    ghost next_gives = { YieldsFirst items_left };

    ghost remaining = { item_count items_left };

    fn next(&mut self) -> Option<Result<u64, Malformed>> {
        loop {
            if self.ones > 0 {
                self.ones -= 1;
                return Some(self.take_place());
            }
            if self.bits > 0 {
                if self.word % 2 == 1 {
                    self.word /= 2;
                    self.bits -= 1;
                    return Some(self.take_place());
                }
                self.pass_clear();
                continue;
            }
            if self.is_broken {
                self.stop();
                return Some(Err(Malformed));
            }
            let (word, rest) = self.words.split_first()?;
            self.words = rest;
            if self.literals > 0 {
                self.literals -= 1;
                self.word = *word;
                self.bits = 64;
            } else {
                self.begin_chunk(*word);
            }
        }
    }
}
