//! Reads the parts before the bitmap.

ghost use Rattle.std.specs.Prelude.{◌≡◌};
ghost use Rattle.std.specs.Option.{option_map};
ghost use Rattle.ext_small.specs.MonitorSteps.{token_at, parts_at, lent_token};

use index_parts::read;

/// A token that borrows its text.
#[derive(Clone, Copy)]
pub(super) enum LentToken<'a> {
    V1(u64),
    V2(&'a [u8]),
}

/// The token, the declared size of the bitmap, and the bytes after it.
#[derive(Clone, Copy)]
pub(super) struct Parts<'a> {
    pub(super) token: LentToken<'a>,
    pub(super) size: u32,
    pub(super) rest: &'a [u8],
}

/// Returns the token of a version, and the bytes after it.
#[tactic(auto, unfolding(crate::specs::MonitorSteps::token_at))]
fn token_of(version: u32, bytes: &[u8]) -> Option<(LentToken<'_>, &[u8])>
    ensures { option_map (λ x. (lent_token x.0, x.1.now)) result ≡ token_at version bytes.now }
{
    if version == 1 {
        let (nanos, rest) = read::u64(bytes)?;
        return Some((LentToken::V1(nanos), rest));
    }
    if version == 2 {
        let (text, rest) = read::up_to(bytes, 0)?;
        return Some((LentToken::V2(text), rest));
    }
    None
}

/// Returns the parts before the bitmap, and the bytes of the bitmap.
#[tactic(auto, unfolding(crate::specs::MonitorSteps::parts_at))]
pub(super) fn parts_of(bytes: &[u8]) -> Option<Parts<'_>>
    ensures { option_map (λ p. (lent_token p.token, p.size, p.rest.now)) result
        ≡ parts_at bytes.now }
{
    let (version, rest) = read::u32(bytes)?;
    let (token, rest) = token_of(version, rest)?;
    let (size, rest) = read::u32(rest)?;
    Some(Parts { token, size, rest })
}
