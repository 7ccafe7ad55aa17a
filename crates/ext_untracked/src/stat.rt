//! Reads the stat numbers of an untracked cache.

ghost use Rattle.std.specs.Prelude.{◌≡◌, length};
ghost use Rattle.ext_untracked.specs.CachedStat.{cached_stat};

use entry_fields::entry::Stat;
use entry_fields::read::stat;

/// The number of bytes of the stat numbers.
pub(super) const SIZE: usize = 36;

/// The number of those bytes before the position at which an entry has its mode.
const FIRST_LEN: usize = 24;

/// Returns the stat that nine numbers encode.
pub(super) fn cached_stat(numbers: &[u8]) -> Stat
    requires { length numbers.now ≡ 36 }
    ensures { result ≡ cached_stat numbers.now }
{
    let (first, last) = numbers.split_at(FIRST_LEN);
    stat(first, last)
}
