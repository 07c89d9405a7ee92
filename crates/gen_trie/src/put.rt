// Putting an entry into a node: in place where the node has no other owner, and else into a copy.
ghost use Rattle.std.specs.Prelude.{◌≡◌, ℕ, suc, ◌≤◌, [], ◌∷◌, vec_len, T, false, OnOk, OnErr, IfOk, IsOkUnless};
ghost use Rattle.std.specs.List.{All};
ghost use Rattle.std.specs.FinMap.Entries.{is_sorted};
ghost use Rattle.dots.specs.declared.refusal.Refusal.TheVariants.{OutOfMemory};
ghost use Rattle.dots.specs.Bytes.{bytes_cmp};
ghost use Rattle.hash_path.specs.Word.{digit};
ghost use Rattle.hash_path.specs.Fan.{fan};
ghost use Rattle.gen_trie.specs.Shapes.{children, child, entry_at, with_entry, HasMore, stands_for, StandsBelow, IsBranch, IsNoNewer, IsSeat, node_stamp};

use crate::entry::{Entry, same_key};
use crate::listing::put_in_list;
use crate::node::{Node, Seat, Shape, Slot, seat_of};
use crate::summary::Summary;
use dots::Refusal;
use std::alloc::Allocator;
use std::mem;
use std::sync::Arc;

// Puts an entry into a node, and tells whether its key is new there. A refused call leaves what the node stands for.
#[cycle(put)]
pub(crate) fn put<V: Drop, M: Summary<V>, A: Allocator + Copy>(
    node: &mut Node<V, M, A>,
    alloc: A,
    generation: u64,
    leaf: Arc<Entry<V, A>, A>,
) -> Result<bool, Refusal>
    requires sorted { T (is_sorted bytes_cmp node.old.1.0) }
    requires stamp { node_stamp node.old ≡ generation }
    ensures ok { OnOk result (stands_for node.new ≡ (node.old.0, with_entry node.old.0 leaf.value node.old.1.0)) }
    ensures fresh { IfOk result (λ fresh. HasMore fresh node.old.1.0 node.new.1.0) }
    ensures same { OnErr result (stands_for node.new ≡ stands_for node.old) }
    ensures stamp { node_stamp node.new ≡ generation }
    ensures err { IsOkUnless result OutOfMemory }
{
    node.kept = None;
    match &mut node.shape {
        Shape::Branch(below, bitmap, slots) => put_branch(
            slots, bitmap, *below, alloc, generation, leaf,
        ),
        Shape::Keys(entries) => put_in_list(entries, leaf),
    }
}

#[cycle(put)]
fn put_branch<V: Drop, M: Summary<V>, A: Allocator + Copy>(
    slots: &mut Vec<Slot<V, M, A>, A>,
    bitmap: &mut u32,
    below: u32,
    alloc: A,
    generation: u64,
    leaf: Arc<Entry<V, A>, A>,
) -> Result<bool, Refusal>
    requires branch { IsBranch below bitmap.old slots.old.items }
    requires sorted { T (is_sorted bytes_cmp (fan (children below slots.old.items))) }
    requires stamps { All (IsNoNewer generation) slots.old.items }
    ensures ok { OnOk result (fan (children below slots.new.items) ≡ with_entry (suc below) leaf.value (fan (children below slots.old.items))) }
    ensures fresh { IfOk result (λ fresh. HasMore fresh (fan (children below slots.old.items)) (fan (children below slots.new.items))) }
    ensures branch { IsBranch below bitmap.new slots.new.items }
    ensures stamps { All (IsNoNewer generation) slots.new.items }
    ensures same { OnErr result (fan (children below slots.new.items) ≡ fan (children below slots.old.items)) }
    ensures err { IsOkUnless result OutOfMemory }
{
    let seat = seat_of(slots, below, *bitmap, leaf.hash);
    if !seat.taken {
        return put_new(slots, bitmap, below, seat, leaf);
    }
    put_slot(&mut slots[seat.at], below, alloc, generation, leaf)
}

// Puts an entry at an index that has no child.
fn put_new<V: Drop, M: Summary<V>, A: Allocator + Copy>(
    slots: &mut Vec<Slot<V, M, A>, A>,
    bitmap: &mut u32,
    below: u32,
    seat: Seat,
    leaf: Arc<Entry<V, A>, A>,
) -> Result<bool, Refusal>
    requires branch { IsBranch below bitmap.old slots.old.items }
    requires seat { IsSeat (digit below leaf.value.hash) (children below slots.old.items) (vec_len slots.old) seat.index seat.at seat.taken }
    requires free { seat.taken ≡ false }
    ensures ok { OnOk result (fan (children below slots.new.items) ≡ with_entry (suc below) leaf.value (fan (children below slots.old.items))) }
    ensures fresh { IfOk result (λ fresh. HasMore fresh (fan (children below slots.old.items)) (fan (children below slots.new.items))) }
    ensures branch { IsBranch below bitmap.new slots.new.items }
    ensures stamps { (generation : ℕ) → All (IsNoNewer generation) slots.old.items → All (IsNoNewer generation) slots.new.items }
    ensures same { OnErr result (fan (children below slots.new.items) ≡ fan (children below slots.old.items)) }
    ensures err { IsOkUnless result OutOfMemory }
{
    slots.insert(seat.at, Slot::One(seat.index, leaf))?;
    *bitmap += 1 << seat.index;
    Ok(true)
}

#[cycle(put)]
pub(crate) fn put_slot<V: Drop, M: Summary<V>, A: Allocator + Copy>(
    slot: &mut Slot<V, M, A>,
    below: u32,
    alloc: A,
    generation: u64,
    leaf: Arc<Entry<V, A>, A>,
) -> Result<bool, Refusal>
    requires fits { StandsBelow below slot.old }
    requires height { below ≤ 7 }
    requires sorted { T (is_sorted bytes_cmp (child below slot.old).1) }
    requires stamp { IsNoNewer generation slot.old }
    ensures ok { OnOk result (child below slot.new ≡ ((child below slot.old).0, with_entry below leaf.value (child below slot.old).1)) }
    ensures fresh { IfOk result (λ fresh. HasMore fresh (child below slot.old).1 (child below slot.new).1) }
    ensures fits { StandsBelow below slot.new }
    ensures same { OnErr result (child below slot.new ≡ child below slot.old) }
    ensures stamp { IsNoNewer generation slot.new }
    ensures err { IsOkUnless result OutOfMemory }
{
    match slot {
        Slot::One(index, entry) => {
            if same_key(entry, &leaf) {
                *entry = leaf;
                return Ok(false);
            }
            let index = *index;
            let node = pair(alloc, generation, below, entry, leaf)?;
            *slot = Slot::Many(index, node);
            Ok(true)
        }
        Slot::Many(_, node) => put_shared(node, alloc, generation, leaf),
    }
}

// The node of two entries.
#[cycle(put)]
fn pair<V: Drop, M: Summary<V>, A: Allocator + Copy>(
    alloc: A,
    generation: u64,
    height: u32,
    first: &Arc<Entry<V, A>, A>,
    leaf: Arc<Entry<V, A>, A>,
) -> Result<Arc<Node<V, M, A>, A>, Refusal>
    requires { height ≤ 7 }
    ensures ok { IfOk result (λ node. stands_for node.value ≡ (height, with_entry height leaf.value (entry_at height first.now.value ∷ []))) }
    ensures stamp { IfOk result (λ node. node_stamp node.value ≡ generation) }
    ensures err { IsOkUnless result OutOfMemory }
{
    let mut node = Node::single(alloc, generation, height, Arc::try_clone(first)?)?;
    if let Err(refusal) = put(&mut node, alloc, generation, leaf) {
        drop(node);
        return Err(refusal);
    }
    Ok(Arc::new(alloc, node)?)
}

// Puts an entry into a node that may be shared: one that has another owner is copied.
#[cycle(put)]
fn put_shared<V: Drop, M: Summary<V>, A: Allocator + Copy>(
    node: &mut Arc<Node<V, M, A>, A>,
    alloc: A,
    generation: u64,
    leaf: Arc<Entry<V, A>, A>,
) -> Result<bool, Refusal>
    requires sorted { T (is_sorted bytes_cmp node.old.value.1.0) }
    requires stamp { node_stamp node.old.value ≤ generation }
    ensures ok { OnOk result (stands_for node.new.value ≡ (node.old.value.0, with_entry node.old.value.0 leaf.value node.old.value.1.0)) }
    ensures fresh { IfOk result (λ fresh. HasMore fresh node.old.value.1.0 node.new.value.1.0) }
    ensures same { OnErr result (stands_for node.new.value ≡ stands_for node.old.value) }
    ensures stamp { node_stamp node.new.value ≤ generation }
    ensures err { IsOkUnless result OutOfMemory }
{
    if let Some(own) = Arc::get_mut(node) {
        own.restamp(generation);
        return put(own, alloc, generation, leaf);
    }
    let mut copy = node.copy(alloc, generation)?;
    let fresh = match put(&mut copy, alloc, generation, leaf) {
        Ok(fresh) => fresh,
        Err(refusal) => {
            drop(copy);
            return Err(refusal);
        }
    };
    let copy = Arc::new(alloc, copy)?;
    drop(mem::replace(node, copy));
    Ok(fresh)
}
