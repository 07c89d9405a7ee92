// Going down from a child to what stands under a prefix.
ghost use Rattle.std.specs.Prelude.{◌≡◌, ◌-◌, ◌≤◌, ◌<◌, suc, length, [], ◌∷◌, MatchOption};
ghost use Rattle.hash_path.specs.Summary.{under_prefix};
ghost use Rattle.gen_trie.specs.Shapes.{child, StandsBelow};

use crate::node::{Node, Shape, Slot, digit_of, slot_of};
use crate::summary::Summary;
use hash_path::Prefix;
use std::alloc::Allocator;

// What stands of a child under a prefix, as a child so many levels lower as the prefix has indices.
#[cycle(seeking)]
pub(crate) fn slot_below<'a, V, M: Summary<V>, A: Allocator>(
    slot: &'a Slot<V, M, A>,
    height: u32,
    prefix: Prefix,
) -> Option<&'a Slot<V, M, A>>
    requires fits { StandsBelow height slot.now }
    requires height { height ≤ 7 }
    requires short { length prefix ≤ height }
    ensures { MatchOption result (under_prefix prefix (child height slot.now).1 ≡ [])
        (λ found. (under_prefix prefix (child height slot.now).1 ≡ (child (height - length prefix) found.now).1) × StandsBelow (height - length prefix) found.now) }
{
    match prefix.split_first() {
        None => Some(slot),
        Some(parts) => match slot {
            Slot::One(_, entry) => {
                if digit_of(height - 1, entry.hash) != parts.0 {
                    return None;
                }
                slot_below(slot, height - 1, parts.1)
            }
            Slot::Many(_, node) => slot_under(node, parts.0, parts.1),
        },
    }
}

// The same at a node, for a prefix of one index or more.
#[cycle(seeking)]
fn slot_under<'a, V, M: Summary<V>, A: Allocator>(
    node: &'a Node<V, M, A>,
    index: u32,
    rest: Prefix,
) -> Option<&'a Slot<V, M, A>>
    requires index { index < 32 }
    requires short { suc (length rest) ≤ node.now.0 }
    ensures { MatchOption result (under_prefix (index ∷ rest) node.now.1.0 ≡ [])
        (λ found. (under_prefix (index ∷ rest) node.now.1.0 ≡ (child (node.now.0 - suc (length rest)) found.now).1) × StandsBelow (node.now.0 - suc (length rest)) found.now) }
{
    match &node.shape {
        Shape::Branch(below, bitmap, slots) => match slot_of(slots, *below, *bitmap, index) {
            None => None,
            Some(slot) => slot_below(slot, *below, rest),
        },
        Shape::Keys(_) => None,
    }
}
