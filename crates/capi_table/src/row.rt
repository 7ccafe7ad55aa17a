//! A table in the caller's memory: a row for each entry, and the bytes with their paths.

ghost use Rattle.std.specs.Prelude.{◌≡◌};
ghost use Rattle.gix_index.specs.Flags.{stage_number};
ghost use Rattle.capi_table.specs.Table.{kind_number, padded_id, row_from, row_path, row_stat};

use gix_index::BitFlags as _;
use gix_index::decode::entry::Pathless;
use gix_index::entry::Stat;
use gix_index::entry::stat::Time;
use gix_index::hash::{Kind, ObjectId};

/// The number in a row for ids of SHA-1, of 20 bytes.
pub const SHA1: u32 = 1;
/// The number in a row for ids of SHA-256, of 32 bytes.
pub const SHA256: u32 = 2;

/// An entry (gitformat-index, "Index entry").
#[repr(C)]
#[derive(Clone, Copy)]
pub struct Row {
    /// When the file's metadata last changed (ctime), in seconds since the beginning of 1970.
    pub ctime_secs: u32,
    /// The nanoseconds of the ctime.
    pub ctime_nsecs: u32,
    /// When the contents last changed (mtime), in seconds since the beginning of 1970.
    pub mtime_secs: u32,
    /// The nanoseconds of the mtime.
    pub mtime_nsecs: u32,
    /// The device.
    pub dev: u32,
    /// The inode.
    pub ino: u32,
    /// The owner.
    pub uid: u32,
    /// The owner's group.
    pub gid: u32,
    /// The size in bytes, modulo 2 to the 32nd.
    pub size: u32,
    /// The type of the file, and whether its owner may execute it.
    pub mode: u32,
    /// The entry's flags, including the stage, as `gix_index::entry::Flags` has them.
    pub flags: u32,
    /// The stage: 0, or 1 to 3 in a conflict. It is also in bits 12 and 13 of the flags.
    pub stage: u32,
    /// The hash algorithm of its id: `SHA1` or `SHA256`.
    pub kind: u32,
    /// The id's bytes, followed by zeros if there are 20 of SHA-1.
    pub id: [u8; 32],
    /// The position of its path's first byte among the bytes for paths.
    pub path_start: usize,
    /// The number of bytes of its path.
    pub path_len: usize,
}

/// Returns the row's path: the `path_len` bytes from `path_start` on. Returns fewer if the bytes for paths end before.
pub fn path_of<'a>(row: &Row, paths: &'a [u8]) -> &'a [u8]
    ensures { result.now ≡ row_path paths.now row.now }
{
    let start = row.path_start.min(paths.len());
    let (_, behind) = paths.split_at(start);
    let (path, _) = behind.split_at(row.path_len.min(behind.len()));
    path
}

/// Returns the stage in flags.
pub fn stage_of(flags: u32) -> u32
    ensures { result ≡ stage_number flags }
{
    (flags & 0x3000) >> 12
}

/// Returns the stat of a row.
pub fn stat_of(row: &Row) -> Stat
    ensures { result ≡ row_stat row.now }
{
    Stat {
        mtime: Time {
            secs: row.mtime_secs,
            nsecs: row.mtime_nsecs,
        },
        ctime: Time {
            secs: row.ctime_secs,
            nsecs: row.ctime_nsecs,
        },
        dev: row.dev,
        ino: row.ino,
        uid: row.uid,
        gid: row.gid,
        size: row.size,
    }
}

/// Returns the number of a hash algorithm.
pub(crate) fn number_of_kind(kind: Kind) -> u32
    ensures { result ≡ kind_number kind }
{
    match kind {
        Kind::Sha1 => SHA1,
        Kind::Sha256 => SHA256,
    }
}

/// Returns twenty bytes followed by zeros.
fn padded_twenty(bytes: &[u8; 20]) -> [u8; 32]
    ensures { result ≡ padded_id (ObjectId.Sha1 bytes.now) }
{
    let mut padded = [0; 32];
    padded[..20].copy_from_slice(bytes);
    padded
}

/// Returns the id's bytes, followed by zeros if it is of SHA-1.
pub fn padded_id(id: &ObjectId) -> [u8; 32]
    ensures { result ≡ padded_id id.now }
{
    match id {
        ObjectId::Sha1(bytes) => padded_twenty(bytes),
        ObjectId::Sha256(bytes) => *bytes,
    }
}

/// Returns the row of an entry of these parts, whose path is `path_len` bytes from the position `path_start` on.
pub(crate) fn row_from(entry: Pathless, path_start: usize, path_len: usize) -> Row
    ensures { result ≡ row_from entry path_start path_len }
{
    let stat = entry.stat;
    Row {
        ctime_secs: stat.ctime.secs,
        ctime_nsecs: stat.ctime.nsecs,
        mtime_secs: stat.mtime.secs,
        mtime_nsecs: stat.mtime.nsecs,
        dev: stat.dev,
        ino: stat.ino,
        uid: stat.uid,
        gid: stat.gid,
        size: stat.size,
        mode: entry.mode.bits(),
        flags: entry.flags.bits(),
        stage: entry.flags.stage_raw(),
        kind: number_of_kind(entry.id.kind()),
        id: padded_id(&entry.id),
        path_start,
        path_len,
    }
}
