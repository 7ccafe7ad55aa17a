//! The processor time of this thread.

use std::{fs, io};

/// The system whose clock is read, or `None` if no time is measured.
pub type Clock<'a> = Option<&'a HostRuntime>;

/// Returns the nanoseconds that this thread ran on a processor, as the system counts them, or 0 if no time is measured.
pub fn now(clock: Clock<'_>) -> io::Result<u64> {
    let Some(rt) = clock else {
        return Ok(0);
    };
    let text = fs::read_to_string(rt, "/proc/self/schedstat")?;
    let Some(word) = text.split_whitespace().next() else {
        return Err(io::Error::from(io::ErrorKind::InvalidData));
    };
    match word.parse::<u64>() {
        Ok(nanoseconds) => Ok(nanoseconds),
        Err(_) => Err(io::Error::from(io::ErrorKind::InvalidData)),
    }
}

/// Returns the nanoseconds since `begin`.
pub fn since(clock: Clock<'_>, begin: u64) -> io::Result<u64> {
    Ok(now(clock)?.saturating_sub(begin))
}
