//! The binary search of an ordered sequence, which counts its comparisons.

ghost use Rattle.std.specs.Prelude.{◌≡◌, ◌<◌, ◌≤◌, ◌+◌, ◌-◌, List, length, IfOk, IfErr, false, true};
ghost use Rattle.std.specs.List.{AllWithin, HoldsAt};
ghost use Rattle.std.specs.declared.cmp.Ordering.{Ordering};
ghost use Rattle.base_search.specs.Digits.{digits};
ghost use Rattle.base_search.specs.Halving.{IsAround, IsBracket, IsEqualAt, IsGapAt, IsPartedAt, IsRising, is_before};

use std::cmp::Ordering;

/// A sequence that can be searched: the element at an index can be compared with the target.
pub trait Ordered {
    // The results of the comparisons, by index.
    ghost answers: { Self → List Ordering };

    /// Returns the number of elements.
    fn len(&self) -> usize
        ensures { result ≡ length (answers self.now) };

    /// Compares the element at the index `place` with the target, once.
    fn compare(&self, place: usize) -> Ordering
        requires { place < length (answers self.now) }
        ensures { HoldsAt (λ o. o ≡ result) (answers self.now) place };
}

/// Returns whether a result means that the element is less than the target or, with `after`, not greater.
fn passes(order: Ordering, after: bool) -> bool
    ensures { result ≡ is_before after order }
{
    if after { order.is_le() } else { order.is_lt() }
}

/// Returns the first index in `start..end` whose element isn't less than the target, and the number of comparisons.
/// With `after` it is the first index whose element is greater. If there is none, it is `end`.
///
/// The caller knows that the elements before `start` come before that index, and that those from `end` on don't.
#[inline(always)]
pub fn part_within<R: Ordered>(places: &R, after: bool, start: usize, end: usize) -> (usize, usize)
    requires in_order { start ≤ end }
    requires inside { end ≤ length (R.answers places.now) }
    ensures from { start ≤ result.0 }
    ensures upto { result.0 ≤ end }
    ensures parts { IsRising (R.answers places.now)
        → IsAround after (R.answers places.now) start end
        → IsPartedAt after (R.answers places.now) result.0 }
    ensures count { result.1 ≤ digits (end - start) }
    ensures at_least_one { start < end → 1 ≤ result.1 }
{
    let mut low = start;
    let mut high = end;
    let mut count = 0;
    while low < high {
        let middle = low + (high - low) / 2;
        count += 1;
        if passes(places.compare(middle), after) {
            low = middle + 1;
        } else {
            high = middle;
        }
    }
    (low, count)
}

/// Returns the first index whose element isn't less than the target, and the number of comparisons. With `after` it is
/// the first index whose element is greater. If there is none, it is the length.
pub fn part<R: Ordered>(places: &R, after: bool) -> (usize, usize)
    ensures in_range { result.0 ≤ length (R.answers places.now) }
    ensures parts { IsRising (R.answers places.now)
        → IsPartedAt after (R.answers places.now) result.0 }
    ensures count { result.1 ≤ digits (length (R.answers places.now)) }
    ensures at_least_one { 0 < length (R.answers places.now) → 1 ≤ result.1 }
{
    part_within(places, after, 0, places.len())
}

/// Returns two indices, between which is the first element that is greater than the target. The caller knows that no
/// element before `start` is greater. The search advances by one, then by two, then by four. So it goes at most about
/// twice the distance.
fn gallop<R: Ordered>(places: &R, start: usize) -> (usize, usize)
    requires { start ≤ length (R.answers places.now) }
    ensures from { start ≤ result.0 }
    ensures in_order { result.0 ≤ result.1 }
    ensures inside { result.1 ≤ length (R.answers places.now) }
    ensures around { IsRising (R.answers places.now)
        → AllWithin (λ o. is_before true o ≡ true) (R.answers places.now) 0 start
        → IsAround true (R.answers places.now) result.0 result.1 }
{
    let end = places.len();
    let mut low = start;
    while low < end {
        let step = (low - start).min(end - low - 1);
        let last = low + step;
        if !passes(places.compare(last), true) {
            return (low, last);
        }
        low = last + 1;
    }
    (low, low)
}

/// Returns the first index whose element is greater than the target. The caller knows that no element before `start` is
/// greater. It makes few comparisons if that index is near `start`.
pub fn end_from<R: Ordered>(places: &R, start: usize) -> usize
    requires { start ≤ length (R.answers places.now) }
    ensures from { start ≤ result }
    ensures in_range { result ≤ length (R.answers places.now) }
    ensures parts { IsRising (R.answers places.now)
        → AllWithin (λ o. is_before true o ≡ true) (R.answers places.now) 0 start
        → IsPartedAt true (R.answers places.now) result }
{
    let (low, high) = gallop(places, start);
    part_within(places, true, low, high).0
}

/// Returns the first index in `start..end` whose element is equal to the target, or as an error the first index whose
/// element is greater. The second result is the number of comparisons.
///
/// The caller knows that the elements before `start` are less and that those from `end` on are greater.
#[inline(always)]
pub fn search_within<R: Ordered>(
    places: &R,
    start: usize,
    end: usize,
) -> (Result<usize, usize>, usize)
    requires in_order { start ≤ end }
    requires inside { end ≤ length (R.answers places.now) }
    ensures found { IfOk result.0 (IsEqualAt (λ o. o) (R.answers places.now)) }
    ensures first { IsRising (R.answers places.now) → IsBracket (R.answers places.now) start end
        → IfOk result.0 (IsPartedAt false (R.answers places.now)) }
    ensures in_range { IfErr result.0 (λ i. i ≤ end) }
    ensures absent { IsRising (R.answers places.now) → IsBracket (R.answers places.now) start end
        → IfErr result.0 (IsGapAt (λ o. o) (R.answers places.now)) }
    ensures count { result.1 ≤ digits (end - start) + 1 }
    ensures at_least_one { start < end → 1 ≤ result.1 }
{
    let (low, count) = part_within(places, false, start, end);
    if low == end {
        return (Err(low), count);
    }
    if places.compare(low).is_eq() {
        return (Ok(low), count + 1);
    }
    (Err(low), count + 1)
}
