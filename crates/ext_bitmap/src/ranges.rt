//! The set bits of a bitmap, as ranges of positions.

ghost use Rattle.std.specs.Prelude.{◌≡◌, ◌+◌, ◌-◌, ◌^◌, ◌<◌, ℕ, List, [], ◌∷◌, ◌++◌, IfOk, None, OnOk, Some};
ghost use Rattle.ext_bitmap.specs.Bitmap.{bitmap};
ghost use Rattle.ext_bitmap.specs.UnpackingSteps.{items_left};
ghost use Rattle.ext_bitmap.specs.RangeSteps.{ranges_behind, side_by_side};
ghost use Rattle.ext_bitmap.specs.Ranges.{breaks_below, places_below, set_places, set_ranges};

use crate::ewah;
use std::alloc::{AllocError, Global};

/// A range of adjacent positions, from `first` up to but not including `end`.
#[derive(Clone, Copy, Debug, PartialEq, Eq, Drop)]
pub struct Range {
    /// The first position.
    pub first: u64,
    /// The position after the last one.
    pub end: u64,
}

/// The set bits of a bitmap.
#[derive(Drop)]
pub struct SetBits {
    /// The positions of the set bits, among the bits that the bitmap declares.
    pub ranges: Vec<Range>,
    /// Whether the bitmap's words break off before the last of the declared positions.
    pub is_malformed: bool,
}

/// Returns the current range after the positions of `run`, which may be empty.
///
/// If `run` begins right after `begun`, the result is both together. Otherwise `begun` is appended to `ranges`, and the
/// result is `run`. An empty `run` changes nothing, and the result is `begun`.
fn take_run(ranges: &mut Vec<Range>, begun: Range, run: Range) -> Result<Range, AllocError>
    ensures { IfOk result (λ next. (rest : List ℕ)
        → ranges.new.items ++ ranges_behind (Some next) rest
        ≡ ranges.old.items ++ ranges_behind (Some begun)
        (side_by_side run.first (run.end - run.first) ++ rest)) }
{
    if run.end <= run.first {
        return Ok(begun);
    }
    if run.first == begun.end {
        return Ok(Range {
            first: begun.first,
            end: run.end,
        });
    }
    ranges.push(begun)?;
    Ok(run)
}

/// Returns the current range after one more position.
///
/// If `place` is right after `begun`, it extends that range. Otherwise `begun`, if there is one, is appended to
/// `ranges`, and the result has `place` alone.
fn take_place(
    ranges: &mut Vec<Range>,
    begun: Option<Range>,
    place: u64,
) -> Result<Range, AllocError>
    requires { place < 2 ^ 63 }
    ensures { IfOk result (λ next. (rest : List ℕ)
        → ranges.new.items ++ ranges_behind (Some next) rest
        ≡ ranges.old.items ++ ranges_behind begun (place ∷ rest)) }
{
    let alone = Range {
        first: place,
        end: place + 1,
    };
    match begun {
        Some(range) => take_run(ranges, range, alone),
        None => Ok(alone),
    }
}

/// Appends the current range to `ranges`, if there is one.
fn end_range(ranges: &mut Vec<Range>, begun: Option<Range>) -> Result<(), AllocError>
    ensures { OnOk result (ranges.new.items ≡ ranges.old.items ++ ranges_behind begun []) }
{
    if let Some(range) = begun {
        ranges.push(range)?;
    }
    Ok(())
}

/// Appends the ranges of the positions below `limit`, and returns whether the words break off before a position that
/// isn't below it. A run of set bits takes one step.
fn take_places(
    ranges: &mut Vec<Range>,
    limit: u64,
    mut positions: ewah::Positions<'_>,
) -> Result<bool, AllocError>
    requires { limit < 2 ^ 63 }
    ensures ranges { OnOk result (ranges.new.items ≡ ranges.old.items
        ++ ranges_behind None (places_below limit (items_left positions.entry))) }
    ensures malformed { IfOk result
        (λ is_malformed. is_malformed ≡ breaks_below limit (items_left positions.entry)) }
{
    let mut begun: Option<Range> = None;
    while let Some(position) = positions.next() {
        let Ok(place) = position else {
            end_range(ranges, begun)?;
            return Ok(true);
        };
        if place >= limit {
            end_range(ranges, begun)?;
            return Ok(false);
        }
        let range = take_place(ranges, begun, place)?;
        let ewah::Run { first, end } = positions.pass_run();
        let run = Range {
            first,
            end: end.min(limit),
        };
        begun = Some(take_run(ranges, range, run)?);
        if first < end && limit < end {
            end_range(ranges, begun)?;
            return Ok(false);
        }
    }
    end_range(ranges, begun)?;
    Ok(false)
}

/// Returns the set bits of a bitmap as ranges, and whether its words break off.
///
/// It takes one step for each run of set bits, and one for each set bit of a literal word.
pub fn set_bits(alloc: Global, map: &ewah::Vec) -> Result<SetBits, AllocError>
    ensures ranges { IfOk result (λ bits. bits.ranges.items ≡ set_ranges (bitmap map.now)) }
    ensures malformed { IfOk result (λ bits. bits.is_malformed
        ≡ breaks_below (bitmap map.now).num_bits (set_places (bitmap map.now))) }
{
    let mut ranges = Vec::new(alloc);
    let limit = u64::from(map.num_bits());
    let is_malformed = take_places(&mut ranges, limit, map.positions())?;
    Ok(SetBits {
        ranges,
        is_malformed,
    })
}
