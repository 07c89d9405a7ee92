// Changing the value at a key that is there: in place where neither the nodes on the way nor the entry have another owner, and
// else in copies of them.
ghost use Rattle.std.specs.Prelude.{◌≡◌, ℕ, suc, ◌≤◌, ◌∷◌, T, false, is_some, IsTrue, IsSomeAnd, IfSome, OnOk, OnErr, IfOk, IsOkUnless};
ghost use Rattle.std.specs.List.{All};
ghost use Rattle.std.specs.FinMap.Entries.{find, is_sorted};
ghost use Rattle.dots.specs.declared.refusal.Refusal.TheVariants.{OutOfMemory};
ghost use Rattle.dots.specs.Bytes.{bytes_cmp};
ghost use Rattle.hash_path.specs.Word.{word};
ghost use Rattle.hash_path.specs.Fan.{fan};
ghost use Rattle.gen_trie.specs.Changes.{IsChanged};
ghost use Rattle.gen_trie.specs.Root.{root_entries, root_stamp, RootStands};
ghost use Rattle.gen_trie.specs.Shapes.{children, child, listed, stands_for, StandsBelow, IsBranch, IsNoNewer, node_stamp};

use crate::change::Change;
use crate::entry::Entry;
use crate::listing::place_of;
use crate::node::{Node, Shape, Slot, seat_of};
use crate::root::look_root;
use crate::summary::Summary;
use dots::Refusal;
use std::alloc::Allocator;
use std::mem;
use std::sync::Arc;

// The entry of the same key with another value, in memory of its own.
fn entry_with<V: Drop, A: Allocator + Copy>(
    alloc: A,
    entry: &Entry<V, A>,
    value: V,
) -> Result<Arc<Entry<V, A>, A>, Refusal>
    ensures ok { IfOk result (λ made. (made.value.hash ≡ entry.now.hash) × (made.value.key ≡ entry.now.key) × (made.value.value ≡ value)) }
    ensures err { IsOkUnless result OutOfMemory }
{
    let key = entry.key.copy(alloc)?;
    let hash = entry.hash;
    Ok(Arc::new(alloc, Entry { hash, key, value })?)
}

// Changes the value of an entry, in place where the entry has no other owner.
fn change_entry<V: Drop, A: Allocator + Copy, C: Change<V>>(
    entry: &mut Arc<Entry<V, A>, A>,
    alloc: A,
    change: &C,
) -> Result<(), Refusal>
    requires { C.fits change.now entry.old.value.value }
    ensures ok { OnOk result (C.becomes change.now entry.old.value.value entry.new.value.value) }
    ensures hash { entry.new.value.hash ≡ entry.old.value.hash }
    ensures key { entry.new.value.key ≡ entry.old.value.key }
    ensures same { OnErr result (entry.new.value.value ≡ entry.old.value.value) }
    ensures err { IsOkUnless result OutOfMemory }
{
    if let Some(own) = Arc::get_mut(entry) {
        return change.apply(&mut own.value);
    }
    let value = change.made(&entry.value)?;
    let made = entry_with(alloc, entry, value)?;
    drop(mem::replace(entry, made));
    Ok(())
}

// Changes the value of a key among those of equal hashes.
fn change_in_list<V: Drop, A: Allocator + Copy, C: Change<V>>(
    entries: &mut Vec<Arc<Entry<V, A>, A>, A>,
    alloc: A,
    hash: u32,
    key: &[u8],
    change: &C,
) -> Result<(), Refusal>
    requires sorted { T (is_sorted bytes_cmp (listed entries.old.items)) }
    requires found { IsSomeAnd (find bytes_cmp (hash ∷ key.now) (listed entries.old.items)) (C.fits change.now) }
    ensures ok { OnOk result (IsChanged (C.becomes change.now) (hash ∷ key.now) (listed entries.old.items) (listed entries.new.items)) }
    ensures same { OnErr result (listed entries.new.items ≡ listed entries.old.items) }
    ensures err { IsOkUnless result OutOfMemory }
{
    let at = place_of(entries, hash, key);
    change_entry(&mut entries[at], alloc, change)
}

// Changes the value of a key in a node that has it. A refused call leaves what the node stands for.
#[cycle(change)]
fn change_node<V: Drop, M: Summary<V>, A: Allocator + Copy, C: Change<V>>(
    node: &mut Node<V, M, A>,
    alloc: A,
    generation: u64,
    hash: u32,
    key: &[u8],
    change: &C,
) -> Result<(), Refusal>
    requires sorted { T (is_sorted bytes_cmp node.old.1.0) }
    requires found { IsSomeAnd (find bytes_cmp (word node.old.0 hash key.now) node.old.1.0) (C.fits change.now) }
    requires stamp { node_stamp node.old ≡ generation }
    ensures height { node.new.0 ≡ node.old.0 }
    ensures ok { OnOk result (IsChanged (C.becomes change.now) (word node.old.0 hash key.now) node.old.1.0 node.new.1.0) }
    ensures same { OnErr result (node.new.1.0 ≡ node.old.1.0) }
    ensures stamp { node_stamp node.new ≡ generation }
    ensures err { IsOkUnless result OutOfMemory }
{
    node.kept = None;
    match &mut node.shape {
        Shape::Branch(below, bitmap, slots) => change_branch(
            slots, *bitmap, *below, alloc, generation, hash, key, change,
        ),
        Shape::Keys(entries) => change_in_list(entries, alloc, hash, key, change),
    }
}

#[cycle(change)]
fn change_branch<V: Drop, M: Summary<V>, A: Allocator + Copy, C: Change<V>>(
    slots: &mut Vec<Slot<V, M, A>, A>,
    bitmap: u32,
    below: u32,
    alloc: A,
    generation: u64,
    hash: u32,
    key: &[u8],
    change: &C,
) -> Result<(), Refusal>
    requires branch { IsBranch below bitmap slots.old.items }
    requires sorted { T (is_sorted bytes_cmp (fan (children below slots.old.items))) }
    requires found { IsSomeAnd (find bytes_cmp (word (suc below) hash key.now) (fan (children below slots.old.items))) (C.fits change.now) }
    requires stamps { All (IsNoNewer generation) slots.old.items }
    ensures ok { OnOk result (IsChanged (C.becomes change.now) (word (suc below) hash key.now) (fan (children below slots.old.items)) (fan (children below slots.new.items))) }
    ensures branch { IsBranch below bitmap slots.new.items }
    ensures stamps { All (IsNoNewer generation) slots.new.items }
    ensures same { OnErr result (fan (children below slots.new.items) ≡ fan (children below slots.old.items)) }
    ensures err { IsOkUnless result OutOfMemory }
{
    let seat = seat_of(slots, below, bitmap, hash);
    change_slot(
        &mut slots[seat.at],
        below,
        alloc,
        generation,
        hash,
        key,
        change,
    )
}

#[cycle(change)]
fn change_slot<V: Drop, M: Summary<V>, A: Allocator + Copy, C: Change<V>>(
    slot: &mut Slot<V, M, A>,
    below: u32,
    alloc: A,
    generation: u64,
    hash: u32,
    key: &[u8],
    change: &C,
) -> Result<(), Refusal>
    requires fits { StandsBelow below slot.old }
    requires sorted { T (is_sorted bytes_cmp (child below slot.old).1) }
    requires found { IsSomeAnd (find bytes_cmp (word below hash key.now) (child below slot.old).1) (C.fits change.now) }
    requires stamp { IsNoNewer generation slot.old }
    ensures index { (child below slot.new).0 ≡ (child below slot.old).0 }
    ensures ok { OnOk result (IsChanged (C.becomes change.now) (word below hash key.now) (child below slot.old).1 (child below slot.new).1) }
    ensures fits { StandsBelow below slot.new }
    ensures same { OnErr result ((child below slot.new).1 ≡ (child below slot.old).1) }
    ensures stamp { IsNoNewer generation slot.new }
    ensures err { IsOkUnless result OutOfMemory }
{
    match slot {
        Slot::One(_, entry) => change_entry(entry, alloc, change),
        Slot::Many(_, node) => change_shared(node, alloc, generation, hash, key, change),
    }
}

// Changes the value of a key in a node that may be shared.
#[cycle(change)]
fn change_shared<V: Drop, M: Summary<V>, A: Allocator + Copy, C: Change<V>>(
    node: &mut Arc<Node<V, M, A>, A>,
    alloc: A,
    generation: u64,
    hash: u32,
    key: &[u8],
    change: &C,
) -> Result<(), Refusal>
    requires sorted { T (is_sorted bytes_cmp node.old.value.1.0) }
    requires found { IsSomeAnd (find bytes_cmp (word node.old.value.0 hash key.now) node.old.value.1.0) (C.fits change.now) }
    requires stamp { node_stamp node.old.value ≤ generation }
    ensures height { node.new.value.0 ≡ node.old.value.0 }
    ensures ok { OnOk result (IsChanged (C.becomes change.now) (word node.old.value.0 hash key.now) node.old.value.1.0 node.new.value.1.0) }
    ensures same { OnErr result (node.new.value.1.0 ≡ node.old.value.1.0) }
    ensures stamp { node_stamp node.new.value ≤ generation }
    ensures err { IsOkUnless result OutOfMemory }
{
    if let Some(own) = Arc::get_mut(node) {
        own.restamp(generation);
        return change_node(own, alloc, generation, hash, key, change);
    }
    let mut copy = node.copy(alloc, generation)?;
    if let Err(refusal) = change_node(&mut copy, alloc, generation, hash, key, change) {
        drop(copy);
        return Err(refusal);
    }
    let copy = Arc::new(alloc, copy)?;
    drop(mem::replace(node, copy));
    Ok(())
}

// Changes the value of a key that is there in the trie of this root.
pub(crate) fn change_root<V: Drop, M: Summary<V>, A: Allocator + Copy, C: Change<V>>(
    root: &mut Option<Slot<V, M, A>>,
    alloc: A,
    generation: u64,
    hash: u32,
    key: &[u8],
    change: &C,
) -> Result<(), Refusal>
    requires stands { RootStands root.old }
    requires sorted { T (is_sorted bytes_cmp (root_entries root.old)) }
    requires found { IsSomeAnd (find bytes_cmp (word 7 hash key.now) (root_entries root.old)) (C.fits change.now) }
    requires stamp { root_stamp root.old ≤ generation }
    ensures ok { OnOk result (IsChanged (C.becomes change.now) (word 7 hash key.now) (root_entries root.old) (root_entries root.new)) }
    ensures stands { RootStands root.new }
    ensures stamp { root_stamp root.new ≤ generation }
    ensures same { OnErr result (root_entries root.new ≡ root_entries root.old) }
    ensures err { IsOkUnless result OutOfMemory }
{
    match root {
        None => Ok(()),
        Some(slot) => change_slot(slot, 7, alloc, generation, hash, key, change),
    }
}

// Changes the value of a key, where the key is there, and tells whether it is.
pub(crate) fn change_at<V: Drop, M: Summary<V>, A: Allocator + Copy, C: Change<V>>(
    root: &mut Option<Slot<V, M, A>>,
    alloc: A,
    generation: u64,
    hash: u32,
    key: &[u8],
    change: &C,
) -> Result<bool, Refusal>
    requires stands { RootStands root.old }
    requires sorted { T (is_sorted bytes_cmp (root_entries root.old)) }
    requires fits { IfSome (find bytes_cmp (word 7 hash key.now) (root_entries root.old)) (C.fits change.now) }
    requires stamp { root_stamp root.old ≤ generation }
    ensures there { IfOk result (λ there. there ≡ is_some (find bytes_cmp (word 7 hash key.now) (root_entries root.old))) }
    ensures absent { IfOk result (λ there. there ≡ false → root.new ≡ root.old) }
    ensures ok { IfOk result (λ there. IsTrue there → IsChanged (C.becomes change.now) (word 7 hash key.now) (root_entries root.old) (root_entries root.new)) }
    ensures stands { RootStands root.new }
    ensures stamp { root_stamp root.new ≤ generation }
    ensures same { OnErr result (root_entries root.new ≡ root_entries root.old) }
    ensures err { IsOkUnless result OutOfMemory }
{
    if look_root(root, hash, key).is_none() {
        return Ok(false);
    }
    change_root(root, alloc, generation, hash, key, change)?;
    Ok(true)
}
