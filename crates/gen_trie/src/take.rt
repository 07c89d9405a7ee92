// Taking the entry of a key out of a node, where two entries or more remain. So a node of two entries is replaced by the
// one that remains, by the slot that it stands in, and no branch is left with one key.
ghost use Rattle.std.specs.Prelude.{◌≡◌, ◌≢◌, ◌+◌, ◌≤◌, ℕ, suc, [], ◌∷◌, length, true, vec_len, T, is_some, MatchOption, OnOk, OnErr, IfOk, IsOkUnless};
ghost use Rattle.std.specs.List.{All};
ghost use Rattle.std.specs.FinMap.Entries.{find, is_sorted};
ghost use Rattle.dots.specs.declared.refusal.Refusal.TheVariants.{OutOfMemory};
ghost use Rattle.dots.specs.Bytes.{bytes_cmp};
ghost use Rattle.hash_path.specs.Word.{word, digit};
ghost use Rattle.hash_path.specs.Cut.{cut};
ghost use Rattle.hash_path.specs.Fan.{fan, at};
ghost use Rattle.gen_trie.specs.Shapes.{children, child, entry_at, stands_for, StandsBelow, IsBranch, IsNoNewer, IsSeat, node_stamp};

use crate::entry::Entry;
use crate::listing::take_from_list;
use crate::node::{Node, Seat, Shape, Slot, seat_of};
use crate::summary::Summary;
use dots::Refusal;
use std::alloc::Allocator;
use std::mem;
use std::sync::Arc;

// The entry of a slot that has one alone.
pub(crate) fn one_of<V, M: Summary<V>, A: Allocator>(
    slot: &Slot<V, M, A>,
) -> Option<&Arc<Entry<V, A>, A>>
    ensures { (below : ℕ) → MatchOption result (StandsBelow below slot.now → 2 ≤ length (child below slot.now).1) (λ entry. (child below slot.now).1 ≡ entry_at below entry.now.value ∷ []) }
{
    match slot {
        Slot::One(_, entry) => Some(entry),
        Slot::Many(_, _) => None,
    }
}

// The entries of two slots that have one each.
fn two_of<'a, V, M: Summary<V>, A: Allocator>(
    first: &'a Slot<V, M, A>,
    second: &'a Slot<V, M, A>,
) -> Option<(&'a Arc<Entry<V, A>, A>, &'a Arc<Entry<V, A>, A>)>
    ensures { (below : ℕ) → MatchOption result (StandsBelow below first.now → StandsBelow below second.now → 3 ≤ length (child below first.now).1 + length (child below second.now).1)
        (λ both. ((child below first.now).1 ≡ entry_at below both.0.now.value ∷ []) × ((child below second.now).1 ≡ entry_at below both.1.now.value ∷ [])) }
{
    match one_of(first) {
        None => None,
        Some(a) => match one_of(second) {
            None => None,
            Some(b) => Some((a, b)),
        },
    }
}

impl<V, M: Summary<V>, A: Allocator> Node<V, M, A> {
    // Its two entries, where it has just two.
    pub fn pair(&self) -> Option<(&Arc<Entry<V, A>, A>, &Arc<Entry<V, A>, A>)>
        ensures { MatchOption result (length self.now.1.0 ≢ 2) (λ both. self.now.1.0 ≡ entry_at self.now.0 both.0.now.value ∷ entry_at self.now.0 both.1.now.value ∷ []) }
    {
        match &self.shape {
            Shape::Branch(_, _, slots) => match slots.as_slice() {
                [only] => match only {
                    Slot::Many(_, node) => node.pair(),
                    Slot::One(_, _) => None,
                },
                [first, second] => two_of(first, second),
                [] => None,
                [_, _, _, ..] => None,
            },
            Shape::Keys(entries) => match entries.as_slice() {
                [first, second] => Some((first, second)),
                _ => None,
            },
        }
    }
}

// Of two entries the one that is not the key's.
fn other_of<'a, V, A: Allocator>(
    a: &'a Arc<Entry<V, A>, A>,
    b: &'a Arc<Entry<V, A>, A>,
    hash: u32,
    key: &[u8],
) -> &'a Arc<Entry<V, A>, A>
    ensures { (height : ℕ) → T (is_sorted bytes_cmp (entry_at height a.now.value ∷ entry_at height b.now.value ∷ []))
        → is_some (find bytes_cmp (word height hash key.now) (entry_at height a.now.value ∷ entry_at height b.now.value ∷ [])) ≡ true
        → cut (word height hash key.now) (entry_at height a.now.value ∷ entry_at height b.now.value ∷ []) ≡ entry_at height result.now.value ∷ [] }
{
    if a.is_at(hash, key) { b } else { a }
}

// The one entry that remains in a node of two without the key's.
fn lone_after<V: Drop, M: Summary<V>, A: Allocator + Copy>(
    node: &Node<V, M, A>,
    hash: u32,
    key: &[u8],
) -> Result<Option<Arc<Entry<V, A>, A>>, Refusal>
    requires sorted { T (is_sorted bytes_cmp node.now.1.0) }
    requires found { is_some (find bytes_cmp (word node.now.0 hash key.now) node.now.1.0) ≡ true }
    ensures ok { IfOk result (λ left. MatchOption left (length node.now.1.0 ≢ 2) (λ entry. cut (word node.now.0 hash key.now) node.now.1.0 ≡ entry_at node.now.0 entry.value ∷ [])) }
    ensures err { IsOkUnless result OutOfMemory }
{
    match node.pair() {
        None => Ok(None),
        Some((a, b)) => Ok(Some(Arc::try_clone(other_of(a, b, hash, key))?)),
    }
}

// Takes the entry of a key out of a node that has it. A refused call leaves what the node stands for.
#[cycle(take)]
fn take<V: Drop, M: Summary<V>, A: Allocator + Copy>(
    node: &mut Node<V, M, A>,
    alloc: A,
    generation: u64,
    hash: u32,
    key: &[u8],
) -> Result<(), Refusal>
    requires sorted { T (is_sorted bytes_cmp node.old.1.0) }
    requires found { is_some (find bytes_cmp (word node.old.0 hash key.now) node.old.1.0) ≡ true }
    requires stamp { node_stamp node.old ≡ generation }
    ensures ok { OnOk result (stands_for node.new ≡ (node.old.0, cut (word node.old.0 hash key.now) node.old.1.0)) }
    ensures same { OnErr result (stands_for node.new ≡ stands_for node.old) }
    ensures stamp { node_stamp node.new ≡ generation }
    ensures err { IsOkUnless result OutOfMemory }
{
    node.kept = None;
    match &mut node.shape {
        Shape::Branch(below, bitmap, slots) => take_branch(
            slots, bitmap, *below, alloc, generation, hash, key,
        ),
        Shape::Keys(entries) => {
            take_from_list(entries, hash, key);
            Ok(())
        }
    }
}

#[cycle(take)]
fn take_branch<V: Drop, M: Summary<V>, A: Allocator + Copy>(
    slots: &mut Vec<Slot<V, M, A>, A>,
    bitmap: &mut u32,
    below: u32,
    alloc: A,
    generation: u64,
    hash: u32,
    key: &[u8],
) -> Result<(), Refusal>
    requires branch { IsBranch below bitmap.old slots.old.items }
    requires sorted { T (is_sorted bytes_cmp (fan (children below slots.old.items))) }
    requires found { is_some (find bytes_cmp (word (suc below) hash key.now) (fan (children below slots.old.items))) ≡ true }
    requires stamps { All (IsNoNewer generation) slots.old.items }
    ensures ok { OnOk result (fan (children below slots.new.items) ≡ cut (word (suc below) hash key.now) (fan (children below slots.old.items))) }
    ensures branch { IsBranch below bitmap.new slots.new.items }
    ensures stamps { All (IsNoNewer generation) slots.new.items }
    ensures same { OnErr result (fan (children below slots.new.items) ≡ fan (children below slots.old.items)) }
    ensures err { IsOkUnless result OutOfMemory }
{
    let seat = seat_of(slots, below, *bitmap, hash);
    if one_of(&slots[seat.at]).is_some() {
        drop_slot(slots, bitmap, below, seat, hash, key);
        return Ok(());
    }
    take_below(&mut slots[seat.at], below, alloc, generation, hash, key)
}

// Takes a child of one entry out.
fn drop_slot<V: Drop, M: Summary<V>, A: Allocator + Copy>(
    slots: &mut Vec<Slot<V, M, A>, A>,
    bitmap: &mut u32,
    below: u32,
    seat: Seat,
    hash: u32,
    key: &[u8],
)
    requires branch { IsBranch below bitmap.old slots.old.items }
    requires seat { IsSeat (digit below hash) (children below slots.old.items) (vec_len slots.old) seat.index seat.at seat.taken }
    requires taken { seat.taken ≡ true }
    requires one { cut (word below hash key.now) (at (digit below hash) (children below slots.old.items)) ≡ [] }
    ensures ok { fan (children below slots.new.items) ≡ cut (word (suc below) hash key.now) (fan (children below slots.old.items)) }
    ensures branch { IsBranch below bitmap.new slots.new.items }
    ensures stamps { (generation : ℕ) → All (IsNoNewer generation) slots.old.items → All (IsNoNewer generation) slots.new.items }
{
    let _ = slots.remove(seat.at);
    *bitmap -= 1 << seat.index;
}

#[cycle(take)]
pub(crate) fn take_below<V: Drop, M: Summary<V>, A: Allocator + Copy>(
    slot: &mut Slot<V, M, A>,
    below: u32,
    alloc: A,
    generation: u64,
    hash: u32,
    key: &[u8],
) -> Result<(), Refusal>
    requires fits { StandsBelow below slot.old }
    requires many { 2 ≤ length (child below slot.old).1 }
    requires sorted { T (is_sorted bytes_cmp (child below slot.old).1) }
    requires found { is_some (find bytes_cmp (word below hash key.now) (child below slot.old).1) ≡ true }
    requires stamp { IsNoNewer generation slot.old }
    ensures ok { OnOk result (child below slot.new ≡ ((child below slot.old).0, cut (word below hash key.now) (child below slot.old).1)) }
    ensures fits { StandsBelow below slot.new }
    ensures same { OnErr result (child below slot.new ≡ child below slot.old) }
    ensures stamp { IsNoNewer generation slot.new }
    ensures err { IsOkUnless result OutOfMemory }
{
    match slot {
        Slot::One(_, _) => unreachable!(),
        Slot::Many(index, node) => match lone_after(node, hash, key)? {
            Some(entry) => {
                let index = *index;
                drop(mem::replace(slot, Slot::One(index, entry)));
                Ok(())
            }
            None => take_shared(node, alloc, generation, hash, key),
        },
    }
}

// Takes the entry of a key out of a node that may be shared: one that has another owner is copied.
#[cycle(take)]
fn take_shared<V: Drop, M: Summary<V>, A: Allocator + Copy>(
    node: &mut Arc<Node<V, M, A>, A>,
    alloc: A,
    generation: u64,
    hash: u32,
    key: &[u8],
) -> Result<(), Refusal>
    requires sorted { T (is_sorted bytes_cmp node.old.value.1.0) }
    requires found { is_some (find bytes_cmp (word node.old.value.0 hash key.now) node.old.value.1.0) ≡ true }
    requires stamp { node_stamp node.old.value ≤ generation }
    ensures ok { OnOk result (stands_for node.new.value ≡ (node.old.value.0, cut (word node.old.value.0 hash key.now) node.old.value.1.0)) }
    ensures same { OnErr result (stands_for node.new.value ≡ stands_for node.old.value) }
    ensures stamp { node_stamp node.new.value ≤ generation }
    ensures err { IsOkUnless result OutOfMemory }
{
    if let Some(own) = Arc::get_mut(node) {
        own.restamp(generation);
        return take(own, alloc, generation, hash, key);
    }
    let mut copy = node.copy(alloc, generation)?;
    if let Err(refusal) = take(&mut copy, alloc, generation, hash, key) {
        drop(copy);
        return Err(refusal);
    }
    let copy = Arc::new(alloc, copy)?;
    drop(mem::replace(node, copy));
    Ok(())
}
