//! Reads the head of a node, which is everything before its children.

ghost use Rattle.std.specs.Prelude.{◌≡◌};
ghost use Rattle.std.specs.Option.{option_map};
ghost use Rattle.ext_tree.specs.NodeSteps.{id_at, limited_id_at, node_head_at, roomy_head_at, lent_node_head};

use super::decimal::{decimal_of, entry_count_of};
use index_parts::hash::{Kind, ObjectId};
use index_parts::read;
use index_parts::read::are_within;

/// The fields of a node, and the number of children that it declares.
#[derive(Clone, Copy)]
pub(super) struct NodeHead<'a> {
    pub(super) name: &'a [u8],
    pub(super) count: Option<u32>,
    pub(super) id: ObjectId,
    pub(super) number: u64,
}

/// The number of bytes that a child counts for in the limit.
const CHILD_SIZE: u64 = 104;

/// The minimum number of bytes of a node: a NUL, `-1`, a space, `0`, and a newline.
const MIN_NODE_LEN: u64 = 6;

/// Returns the id of a node with this count, and the bytes after it. A node without a count has no id in the bytes, and
/// gets the null id.
fn id_of(kind: Kind, count: Option<u32>, bytes: &[u8]) -> Option<(ObjectId, &[u8])>
    ensures { option_map (λ x. (x.0, x.1.now)) result ≡ id_at kind count bytes.now }
{
    if count.is_none() {
        return Some((kind.null(), bytes));
    }
    read::id(bytes, kind)
}

/// Returns the id of a node with this count, and the bytes after it, if `number` children are within the limit.
fn limited_id_of(
    kind: Kind,
    limit: Option<usize>,
    number: u64,
    count: Option<u32>,
    bytes: &[u8],
) -> Option<(ObjectId, &[u8])>
    ensures { option_map (λ x. (x.0, x.1.now)) result ≡ limited_id_at kind limit number count
        bytes.now }
{
    if are_within(limit, CHILD_SIZE, number) {
        return id_of(kind, count, bytes);
    }
    None
}

/// Returns the head at the start of the bytes, and the bytes after it.
#[tactic(auto, unfolding(crate::specs::NodeSteps::node_head_at))]
fn node_head_of(kind: Kind, limit: Option<usize>, bytes: &[u8]) -> Option<(NodeHead<'_>, &[u8])>
    ensures { option_map (λ x. (lent_node_head x.0, x.1.now)) result
        ≡ node_head_at kind limit bytes.now }
{
    let (name, rest) = read::up_to(bytes, 0)?;
    let (text, rest) = read::up_to(rest, b' ')?;
    let count = entry_count_of(text)?;
    let (digits, rest) = read::up_to(rest, b'\n')?;
    let number = decimal_of(digits)?;
    let (id, rest) = limited_id_of(kind, limit, number, count, rest)?;
    Some((
        NodeHead {
            name,
            count,
            id,
            number,
        },
        rest,
    ))
}

/// Returns the head at the start of the bytes, and the bytes after it, if those are enough for the children that it
/// declares.
#[tactic(auto, unfolding(crate::specs::NodeSteps::roomy_head_at))]
pub(super) fn roomy_head_of(
    kind: Kind,
    limit: Option<usize>,
    bytes: &[u8],
) -> Option<(NodeHead<'_>, &[u8])>
    ensures { option_map (λ x. (lent_node_head x.0, x.1.now)) result
        ≡ roomy_head_at kind limit bytes.now }
{
    let (head, tail) = node_head_of(kind, limit, bytes)?;
    if head.number > tail.len() as u64 / MIN_NODE_LEN {
        return None;
    }
    Some((head, tail))
}
