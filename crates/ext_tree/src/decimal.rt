//! Decodes numbers in decimal digits.

ghost use Rattle.std.specs.Prelude.{◌≡◌};
ghost use Rattle.ext_tree.specs.NodeSteps.{decimal_of, entry_count_of, nonnegative_count, negated_count};

/// Returns the number that one or more digits encode. It returns `None` if there is another byte among them, or if the
/// number has more than 64 bits.
pub(super) fn decimal_of(text: &[u8]) -> Option<u64>
    ensures { result ≡ decimal_of text.now }
{
    if text.is_empty() {
        return None;
    }
    let mut value = 0u64;
    for b in text {
        if !b.is_ascii_digit() {
            return None;
        }
        value = value.checked_mul(10)?.checked_add(u64::from(*b - b'0'))?;
    }
    Some(value)
}

/// Returns the count that a number without a minus represents, or `None` if it has more than 31 bits.
fn nonnegative_count(n: u64) -> Option<Option<u32>>
    ensures { result ≡ nonnegative_count n }
{
    if n < 1 << 31 {
        Some(Some(n as u32))
    } else {
        None
    }
}

/// Returns the count that a number after a minus represents, or `None` if the number is above 2^31. The count is
/// `Some(0)` for zero, and `None` within `Some` for other numbers.
fn negated_count(n: u64) -> Option<Option<u32>>
    ensures { result ≡ negated_count n }
{
    if n == 0 {
        Some(Some(0))
    } else if n > 1 << 31 {
        None
    } else {
        Some(None)
    }
}

/// Returns a count of 32 signed bits, which is digits after an optional sign. A negative count is `None` within `Some`.
pub(super) fn entry_count_of(text: &[u8]) -> Option<Option<u32>>
    ensures { result ≡ entry_count_of text.now }
{
    let [sign, digits @ ..] = text else {
        return None;
    };
    match *sign {
        b'-' => negated_count(decimal_of(digits)?),
        b'+' => nonnegative_count(decimal_of(digits)?),
        _ => nonnegative_count(decimal_of(text)?),
    }
}
