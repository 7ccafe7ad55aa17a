//! Stat numbers as a file encodes them.

ghost use Rattle.std.specs.Prelude.{◌≡◌, length};
ghost use Rattle.entry_fields.specs.Stat.{stat_of};

use crate::entry::Stat;
use crate::entry::stat::Time;
use index_parts::read::number;

/// Returns the stat of nine numbers of four bytes each. `first` has six: the times, the device and the inode. `last`
/// has three: the owner, its group and the size. An entry has its mode between them (gitformat-index, "Index entry").
pub fn stat(first: &[u8], last: &[u8]) -> Stat
    requires first { length first.now ≡ 24 }
    requires last { length last.now ≡ 12 }
    ensures { result ≡ stat_of first.now last.now }
{
    Stat {
        ctime: Time {
            secs: number(first, 0),
            nsecs: number(first, 1),
        },
        mtime: Time {
            secs: number(first, 2),
            nsecs: number(first, 3),
        },
        dev: number(first, 4),
        ino: number(first, 5),
        uid: number(last, 0),
        gid: number(last, 1),
        size: number(last, 2),
    }
}
