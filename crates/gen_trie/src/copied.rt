// New nodes: copies of a node for a later generation, and nodes of one key.
ghost use Rattle.std.specs.Prelude.{◌≡◌, ℕ, ◌≤◌, [], ◌∷◌, IfOk, IsOkUnless};
ghost use Rattle.std.specs.List.{All};
ghost use Rattle.dots.specs.declared.refusal.Refusal.TheVariants.{OutOfMemory};
ghost use Rattle.gen_trie.specs.Shapes.{children, child, entry_at, is_sealed, listed, stamp_of, stands_for, unsealed, IsNoNewer, StandsBelow, node_stamp};

use crate::entry::Entry;
use crate::node::{Node, Shape, Slot, digit_of};
use crate::summary::Summary;
use dots::Refusal;
use std::alloc::Allocator;
use std::sync::Arc;

// A second owner of the same entry or node.
pub(crate) fn shared<V: Drop, M: Summary<V>, A: Allocator + Copy>(
    slot: &Slot<V, M, A>,
) -> Result<Slot<V, M, A>, Refusal>
    ensures same { IfOk result (λ copy. (below : ℕ) → child below copy ≡ child below slot.now) }
    ensures sealed { IfOk result (λ copy. is_sealed copy ≡ is_sealed slot.now) }
    ensures stamp { IfOk result (λ copy. stamp_of copy ≡ stamp_of slot.now) }
    ensures fits { IfOk result (λ copy. (below : ℕ) → StandsBelow below slot.now → StandsBelow below copy) }
    ensures err { IsOkUnless result OutOfMemory }
{
    match slot {
        Slot::One(index, entry) => Ok(Slot::One(*index, Arc::try_clone(entry)?)),
        Slot::Many(index, node) => Ok(Slot::Many(*index, Arc::try_clone(node)?)),
    }
}

fn shared_all<V: Drop, M: Summary<V>, A: Allocator + Copy>(
    alloc: A,
    slots: &[Slot<V, M, A>],
) -> Result<Vec<Slot<V, M, A>, A>, Refusal>
    ensures same { IfOk result (λ copies. (below : ℕ) → children below copies.items ≡ children below slots.now) }
    ensures fits { IfOk result (λ copies. (below : ℕ) → All (StandsBelow below) slots.now → All (StandsBelow below) copies.items) }
    ensures stamps { IfOk result (λ copies. (generation : ℕ) → All (IsNoNewer generation) slots.now → All (IsNoNewer generation) copies.items) }
    ensures err { IsOkUnless result OutOfMemory }
{
    let mut copies = Vec::new(alloc);
    for slot in slots {
        copies.push(shared(slot)?)?;
    }
    Ok(copies)
}

fn shared_list<V: Drop, A: Allocator + Copy>(
    alloc: A,
    entries: &[Arc<Entry<V, A>, A>],
) -> Result<Vec<Arc<Entry<V, A>, A>, A>, Refusal>
    ensures same { IfOk result (λ copies. listed copies.items ≡ listed entries.now) }
    ensures err { IsOkUnless result OutOfMemory }
{
    let mut copies = Vec::new(alloc);
    for entry in entries {
        copies.push(Arc::try_clone(entry)?)?;
    }
    Ok(copies)
}

impl<V: Drop, M: Summary<V>, A: Allocator + Copy> Node<V, M, A> {
    // Has this generation write the node, which no other owner has.
    pub fn restamp(&mut self, generation: u64)
        requires { node_stamp self.old ≤ generation }
        ensures same { stands_for self.new ≡ stands_for self.old }
        ensures stamp { node_stamp self.new ≡ generation }
    {
        self.stamp = generation;
    }

    // The same node in a later generation, without its summary. What stands below it is shared.
    pub fn copy(&self, alloc: A, generation: u64) -> Result<Node<V, M, A>, Refusal>
        requires { node_stamp self.now ≤ generation }
        ensures ok { IfOk result (λ copy. copy ≡ unsealed generation (stands_for self.now)) }
        ensures err { IsOkUnless result OutOfMemory }
    {
        match &self.shape {
            Shape::Branch(below, bitmap, slots) => {
                let slots = shared_all(alloc, slots)?;
                Ok(Node {
                    stamp: generation,
                    kept: None,
                    shape: Shape::Branch(*below, *bitmap, slots),
                })
            }
            Shape::Keys(entries) => {
                let entries = shared_list(alloc, entries)?;
                Ok(Node {
                    stamp: generation,
                    kept: None,
                    shape: Shape::Keys(entries),
                })
            }
        }
    }

    // A node of this height with one entry, to which a second is to be added.
    pub fn single(
        alloc: A,
        generation: u64,
        height: u32,
        entry: Arc<Entry<V, A>, A>,
    ) -> Result<Node<V, M, A>, Refusal>
        requires { height ≤ 7 }
        ensures ok { IfOk result (λ node. node ≡ unsealed generation (height, entry_at height entry.value ∷ [])) }
        ensures err { IsOkUnless result OutOfMemory }
    {
        if height == 0 {
            let mut entries = Vec::new(alloc);
            entries.push(entry)?;
            return Ok(Node {
                stamp: generation,
                kept: None,
                shape: Shape::Keys(entries),
            });
        }
        let below = height - 1;
        let index = digit_of(below, entry.hash);
        let mut slots = Vec::new(alloc);
        slots.push(Slot::One(index, entry))?;
        Ok(Node {
            stamp: generation,
            kept: None,
            shape: Shape::Branch(below, 1 << index, slots),
        })
    }
}
