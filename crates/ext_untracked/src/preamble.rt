//! Reads the fields before the directories.

ghost use Rattle.std.specs.Prelude.{◌≡◌, length};
ghost use Rattle.std.specs.Option.{option_map};
ghost use Rattle.index_parts.specs.Id.{id_len};
ghost use Rattle.ext_untracked.specs.Untracked.{oid_stat};
ghost use Rattle.ext_untracked.specs.CacheSteps.{ends_with_nul, preamble_at, lent_preamble, directory_count_at};

use super::OidStat;
use super::stat::{SIZE, cached_stat};
use index_parts::hash::{Kind, ObjectId};
use index_parts::read;
use index_parts::read::are_within;
use index_parts::util::from_be_u32;

/// The fields of a cache before its directories.
#[derive(Clone, Copy)]
pub(super) struct Preamble<'a> {
    pub(super) identifier: &'a [u8],
    pub(super) info_exclude: Option<OidStat>,
    pub(super) excludes_file: Option<OidStat>,
    pub(super) dir_flags: u32,
    pub(super) exclude_filename: &'a [u8],
}

/// The number of bytes that a directory counts for in the limit.
const DIRECTORY_SIZE: u64 = 152;

/// Returns whether the last byte is 0.
pub(super) fn ends_with_nul(bytes: &[u8]) -> bool
    ensures { result ≡ ends_with_nul bytes.now }
{
    0 < bytes.len() && bytes[bytes.len() - 1] == 0
}

/// Returns a stat with an id, or `None` if the id is null.
fn oid_stat(kind: Kind, stat: &[u8], id: &[u8]) -> Option<OidStat>
    requires stat { length stat.now ≡ 36 }
    requires id { length id.now ≡ id_len kind }
    ensures { result ≡ oid_stat kind stat.now id.now }
{
    if read::is_null(id) {
        return None;
    }
    Some(OidStat {
        stat: cached_stat(stat),
        id: ObjectId::of_kind(kind, id),
    })
}

/// Returns the fields of a cache before its directories, and the bytes after them.
#[tactic(auto, unfolding(crate::specs::CacheSteps::preamble_at))]
pub(super) fn preamble_of(kind: Kind, bytes: &[u8]) -> Option<(Preamble<'_>, &[u8])>
    ensures { option_map (λ x. (lent_preamble x.0, x.1.now)) result ≡ preamble_at kind bytes.now }
{
    let len = kind.len_in_bytes();
    let (identifier_len, rest) = read::offset(bytes)?;
    let (identifier, rest) = read::piece(rest, identifier_len as usize)?;
    let (info, rest) = read::piece(rest, SIZE)?;
    let (excludes, rest) = read::piece(rest, SIZE)?;
    let (flags, rest) = read::piece(rest, 4)?;
    let (info_id, rest) = read::piece(rest, len)?;
    let (excludes_id, rest) = read::piece(rest, len)?;
    let (exclude_filename, rest) = read::up_to(rest, 0)?;
    Some((
        Preamble {
            identifier,
            info_exclude: oid_stat(kind, info, info_id),
            excludes_file: oid_stat(kind, excludes, excludes_id),
            dir_flags: from_be_u32(flags),
            exclude_filename,
        },
        rest,
    ))
}

/// Returns the number of directories, and the bytes after it.
#[tactic(auto, unfolding(crate::specs::CacheSteps::directory_count_at))]
pub(super) fn directory_count_of(limit: Option<usize>, bytes: &[u8]) -> Option<(usize, &[u8])>
    ensures { option_map (λ x. (x.0, x.1.now)) result ≡ directory_count_at limit bytes.now }
{
    let (count, rest) = read::offset(bytes)?;
    if count <= rest.len() as u64 && are_within(limit, DIRECTORY_SIZE, count) {
        return Some((count as usize, rest));
    }
    None
}
