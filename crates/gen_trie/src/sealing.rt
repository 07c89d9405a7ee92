// Renewing the summaries that writes took away. A node that keeps one is passed over, with all that stands below it.
ghost use Rattle.std.specs.Prelude.{◌≡◌, ◌≤◌, length, true, false, OnOk, OnErr, IsOkUnless};
ghost use Rattle.std.specs.List.{All};
ghost use Rattle.dots.specs.declared.refusal.Refusal.TheVariants.{OutOfMemory};
ghost use Rattle.gen_trie.specs.Shapes.{children, child, height_and_entries, is_sealed, stands_for, AreNoNewer, AreSealed, IsCanonical, IsNoNewer, IsSealed, StandsBelow, is_node_sealed, node_stamp};

use crate::node::{Node, Shape, Slot};
use crate::summary::Summary;
use crate::summing::summary;
use dots::Refusal;
use std::alloc::Allocator;
use std::mem;
use std::sync::Arc;

// Gives a child its summary. A refused call may leave some of the nodes below it renewed, but not its own.
#[cycle(sealing)]
pub(crate) fn seal_slot<V: Drop, M: Summary<V>, A: Allocator + Copy>(
    slot: &mut Slot<V, M, A>,
    below: u32,
    alloc: A,
    generation: u64,
) -> Result<(), Refusal>
    requires fits { StandsBelow below slot.old }
    requires stamp { IsNoNewer generation slot.old }
    ensures same { child below slot.new ≡ child below slot.old }
    ensures fits { StandsBelow below slot.new }
    ensures stamp { IsNoNewer generation slot.new }
    ensures ok { OnOk result (IsSealed slot.new) }
    ensures refused { OnErr result (is_sealed slot.new ≡ is_sealed slot.old) }
    ensures err { IsOkUnless result OutOfMemory }
{
    match slot {
        Slot::One(_, _) => Ok(()),
        Slot::Many(_, node) => seal_shared(node, alloc, generation),
    }
}

// The same for a node that may be shared: in place where it has no other owner, and else in a copy.
#[cycle(sealing)]
fn seal_shared<V: Drop, M: Summary<V>, A: Allocator + Copy>(
    node: &mut Arc<Node<V, M, A>, A>,
    alloc: A,
    generation: u64,
) -> Result<(), Refusal>
    requires several { 2 ≤ length node.old.value.1.0 }
    requires stamp { node_stamp node.old.value ≤ generation }
    ensures same { stands_for node.new.value ≡ stands_for node.old.value }
    ensures stamp { node_stamp node.new.value ≤ generation }
    ensures ok { OnOk result (is_node_sealed node.new.value ≡ true) }
    ensures refused { OnErr result (is_node_sealed node.new.value ≡ is_node_sealed node.old.value) }
    ensures err { IsOkUnless result OutOfMemory }
{
    if node.kept.is_some() {
        return Ok(());
    }
    if let Some(own) = Arc::get_mut(node) {
        return seal_node(own, alloc, generation);
    }
    let mut copy = node.copy(alloc, generation)?;
    if let Err(refusal) = seal_node(&mut copy, alloc, generation) {
        drop(copy);
        return Err(refusal);
    }
    let copy = Arc::new(alloc, copy)?;
    drop(mem::replace(node, copy));
    Ok(())
}

// Gives a node that keeps no summary the stamp of the generation, which those below it may get, and its own summary after theirs.
#[cycle(sealing)]
fn seal_node<V: Drop, M: Summary<V>, A: Allocator + Copy>(
    node: &mut Node<V, M, A>,
    alloc: A,
    generation: u64,
) -> Result<(), Refusal>
    requires several { 2 ≤ length node.old.1.0 }
    requires unsealed { is_node_sealed node.old ≡ false }
    requires stamp { node_stamp node.old ≤ generation }
    ensures same { stands_for node.new ≡ stands_for node.old }
    ensures stamp { node_stamp node.new ≡ generation }
    ensures ok { OnOk result (is_node_sealed node.new ≡ true) }
    ensures refused { OnErr result (is_node_sealed node.new ≡ false) }
    ensures err { IsOkUnless result OutOfMemory }
{
    node.stamp = generation;
    seal_below(&mut node.shape, alloc, generation)?;
    node.kept = Some(summary(node));
    Ok(())
}

// Gives the children of a node their summaries.
#[cycle(sealing)]
fn seal_below<V: Drop, M: Summary<V>, A: Allocator + Copy>(
    shape: &mut Shape<V, M, A>,
    alloc: A,
    generation: u64,
) -> Result<(), Refusal>
    requires canonical { IsCanonical shape.old }
    requires stamps { AreNoNewer generation shape.old }
    ensures same { height_and_entries shape.new ≡ height_and_entries shape.old }
    ensures canonical { IsCanonical shape.new }
    ensures stamps { AreNoNewer generation shape.new }
    ensures ok { OnOk result (AreSealed shape.new) }
    ensures err { IsOkUnless result OutOfMemory }
{
    match shape {
        Shape::Branch(below, _, slots) => seal_slots(slots, *below, alloc, generation),
        Shape::Keys(_) => Ok(()),
    }
}

#[cycle(sealing)]
fn seal_slots<V: Drop, M: Summary<V>, A: Allocator + Copy>(
    slots: &mut Vec<Slot<V, M, A>, A>,
    below: u32,
    alloc: A,
    generation: u64,
) -> Result<(), Refusal>
    requires fits { All (StandsBelow below) slots.old.items }
    requires stamps { All (IsNoNewer generation) slots.old.items }
    ensures same { children below slots.new.items ≡ children below slots.old.items }
    ensures fits { All (StandsBelow below) slots.new.items }
    ensures stamps { All (IsNoNewer generation) slots.new.items }
    ensures ok { OnOk result (All IsSealed slots.new.items) }
    ensures err { IsOkUnless result OutOfMemory }
{
    for at in 0..slots.len() {
        seal_slot(&mut slots[at], below, alloc, generation)?;
    }
    Ok(())
}

// How many nodes of a child have their summary, down to those of another stamp than this generation's, which are left out
// with all that stands below them.
#[cycle(counting)]
pub(crate) fn stamped_in<V, M: Summary<V>, A: Allocator>(
    slot: &Slot<V, M, A>,
    below: u32,
    generation: u64,
) -> u64
    requires { StandsBelow below slot.now }
{
    match slot {
        Slot::One(_, _) => 0,
        Slot::Many(_, node) => stamped_at(node, generation),
    }
}

#[cycle(counting)]
fn stamped_at<V, M: Summary<V>, A: Allocator>(node: &Node<V, M, A>, generation: u64) -> u64 {
    if node.stamp != generation {
        return 0;
    }
    let own = u64::from(node.kept.is_some());
    match &node.shape {
        Shape::Branch(below, _, slots) => own.saturating_add(stamped_of(slots, *below, generation)),
        Shape::Keys(_) => own,
    }
}

#[cycle(counting)]
fn stamped_of<V, M: Summary<V>, A: Allocator>(
    slots: &[Slot<V, M, A>],
    below: u32,
    generation: u64,
) -> u64
    requires { All (StandsBelow below) slots.now }
{
    let mut count: u64 = 0;
    for slot in slots {
        count = count.saturating_add(stamped_in(slot, below, generation));
    }
    count
}
