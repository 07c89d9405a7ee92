// The summary of a trie's entries: what its nodes keep, and by recursion below those that keep none.
ghost use Rattle.std.specs.Prelude.{◌≡◌, ◌≤◌, length, ◌++◌};
ghost use Rattle.std.specs.List.{All};
ghost use Rattle.std.specs.declared.option.Option.TheVariants.{Some};
ghost use Rattle.hash_path.specs.Fan.{Rise};
ghost use Rattle.hash_path.specs.Summary.{summary_of, summary_at, sums};
ghost use Rattle.gen_trie.specs.Shapes.{children, child, StandsBelow};

use crate::children::{Child, Children};
use crate::node::{Node, Shape, Slot};
use crate::seeking::slot_below;
use crate::summary::Summary;
use hash_path::Prefix;
use std::alloc::Allocator;

// The index of a child, and the summary of its entries.
#[cycle(summing)]
fn sum_of<V, M: Summary<V>, A: Allocator + Copy>(slot: &Slot<V, M, A>, below: u32) -> (u32, M)
    requires { StandsBelow below slot.now }
    ensures index { result.0 ≡ (child below slot.now).0 }
    ensures summary { summary_of M.calls below (child below slot.now).1 ≡ Some result.1 }
{
    match slot {
        Slot::One(index, entry) => (*index, M::leaf(entry.key.bytes(), &entry.value)),
        Slot::Many(index, node) => (*index, summary(node)),
    }
}

// The summary of a node's entries, which are two or more.
#[cycle(summing)]
pub(crate) fn summary<V, M: Summary<V>, A: Allocator + Copy>(node: &Node<V, M, A>) -> M
    requires { 2 ≤ length node.now.1.0 }
    ensures { summary_of M.calls node.now.0 node.now.1.0 ≡ Some result }
{
    if let Some(summary) = node.kept {
        return summary;
    }
    match &node.shape {
        Shape::Branch(below, _, slots) => branch_of(slots, *below, Children::none()),
        Shape::Keys(entries) => M::list(entries),
    }
}

// The summary of a branch, of these children and of those behind them, whose summaries are made already. The children are
// summed from the last to the first, so that each has its place in a call of its own, and they take no memory.
#[cycle(summing)]
fn branch_of<V, M: Summary<V>, A: Allocator + Copy>(
    slots: &[Slot<V, M, A>],
    below: u32,
    behind: Children<'_, M>,
) -> M
    requires fits { All (StandsBelow below) slots.now }
    requires rise { Rise 0 (sums (summary_of M.calls below) (children below slots.now) ++ behind) }
    ensures { result ≡ M.calls.branch (sums (summary_of M.calls below) (children below slots.now) ++ behind.entry) }
{
    match slots.split_last() {
        None => M::branch(behind),
        Some((last, others)) => {
            let (index, summary) = sum_of(last, below);
            let child = Child::new(index, summary, behind);
            branch_of(others, below, Children::beginning_with(&child))
        }
    }
}

// The summary of the entries of the root whose paths begin with a prefix.
pub(crate) fn summary_under<V, M: Summary<V>, A: Allocator + Copy>(
    root: &Slot<V, M, A>,
    prefix: Prefix,
) -> Option<M>
    requires { StandsBelow 7 root.now }
    ensures short { length prefix ≤ 7 }
    ensures summary { result ≡ summary_at M.calls prefix 7 (child 7 root.now).1 }
{
    let height = 7 - prefix.depth();
    match slot_below(root, 7, prefix) {
        None => None,
        Some(slot) => {
            let (_, summary) = sum_of(slot, height);
            Some(summary)
        }
    }
}
