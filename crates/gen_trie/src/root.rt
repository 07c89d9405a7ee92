// The root of a trie: nothing, one entry, or a node.
ghost use Rattle.std.specs.Prelude.{◌≡◌, ◌⊎◌, ◌<◌, ◌≤◌, ◌-◌, ◌^◌, ℕ, IsTrue, true, T, is_some, None, IfSome, OnOk, OnErr, IsOk, IfOk, IsOkUnless};
ghost use Rattle.std.specs.Option.{option_map};
ghost use Rattle.std.specs.FinMap.Entries.{find, put, is_sorted};
ghost use Rattle.dots.specs.declared.refusal.Refusal.TheVariants.{OutOfMemory};
ghost use Rattle.dots.specs.Bytes.{bytes_cmp};
ghost use Rattle.hash_path.specs.Word.{word};
ghost use Rattle.hash_path.specs.Cut.{cut};
ghost use Rattle.gen_trie.specs.Shapes.{with_entry, HasMore};
ghost use Rattle.gen_trie.specs.Root.{root_entries, root_sealed, root_stamp, RootStands, IsRoot};

use crate::copied::shared;
use crate::entry::{Entry, entry_for};
use crate::node::Slot;
use crate::put::put_slot;
use crate::sealing::seal_slot;
use crate::summary::Summary;
use crate::take::{one_of, take_below};
use dots::{Key, Refusal};
use std::alloc::Allocator;
use std::sync::Arc;

// The entry of this hash and these bytes.
pub(crate) fn look_root<'a, V, M: Summary<V>, A: Allocator>(
    root: &'a Option<Slot<V, M, A>>,
    hash: u32,
    key: &[u8],
) -> Option<&'a Arc<Entry<V, A>, A>>
    requires stands { RootStands root.now }
    requires sorted { T (is_sorted bytes_cmp (root_entries root.now)) }
    ensures value { option_map (λ found. found.now.value.value) result ≡ find bytes_cmp (word 7 hash key.now) (root_entries root.now) }
    ensures key { IfSome result (λ found. found.now.value.key ≡ key.now) }
{
    match root {
        None => None,
        Some(slot) => match slot {
            Slot::One(_, entry) => entry_for(entry, hash, key),
            Slot::Many(_, node) => node.lookup(hash, key),
        },
    }
}

// A second owner of the same entry or node.
pub(crate) fn share_root<V: Drop, M: Summary<V>, A: Allocator + Copy>(
    root: &Option<Slot<V, M, A>>,
) -> Result<Option<Slot<V, M, A>>, Refusal>
    ensures same { IfOk result (λ copy. root_entries copy ≡ root_entries root.now) }
    ensures sealed { IfOk result (λ copy. root_sealed copy ≡ root_sealed root.now) }
    ensures stamp { IfOk result (λ copy. root_stamp copy ≡ root_stamp root.now) }
    ensures is_root { IfOk result (λ copy. (count : ℕ) → IsRoot root.now count → IsRoot copy count) }
    ensures err { IsOkUnless result OutOfMemory }
{
    match root {
        None => Ok(None),
        Some(slot) => Ok(Some(shared(slot)?)),
    }
}

// Gives each node that has none its summary.
pub(crate) fn seal_root<V: Drop, M: Summary<V>, A: Allocator + Copy>(
    root: &mut Option<Slot<V, M, A>>,
    alloc: A,
    generation: u64,
) -> Result<(), Refusal>
    requires stands { RootStands root.old }
    requires stamp { root_stamp root.old ≤ generation }
    ensures same { root_entries root.new ≡ root_entries root.old }
    ensures stands { RootStands root.new }
    ensures stamp { root_stamp root.new ≤ generation }
    ensures ok { OnOk result (root_sealed root.new ≡ true) }
    ensures refused { OnErr result (root_sealed root.new ≡ root_sealed root.old) }
    ensures err { IsOkUnless result OutOfMemory }
{
    match root {
        None => Ok(()),
        Some(slot) => seal_slot(slot, 7, alloc, generation),
    }
}

// Puts an entry into the trie of this root, and tells whether its key is new.
fn put_root<V: Drop, M: Summary<V>, A: Allocator + Copy>(
    root: &mut Option<Slot<V, M, A>>,
    alloc: A,
    generation: u64,
    leaf: Arc<Entry<V, A>, A>,
) -> Result<bool, Refusal>
    requires stands { RootStands root.old }
    requires sorted { T (is_sorted bytes_cmp (root_entries root.old)) }
    requires stamp { root_stamp root.old ≤ generation }
    ensures ok { OnOk result (root_entries root.new ≡ with_entry 7 leaf.value (root_entries root.old)) }
    ensures fresh { IfOk result (λ fresh. HasMore fresh (root_entries root.old) (root_entries root.new)) }
    ensures stands { RootStands root.new }
    ensures stamp { root_stamp root.new ≤ generation }
    ensures same { OnErr result (root_entries root.new ≡ root_entries root.old) }
    ensures err { IsOkUnless result OutOfMemory }
{
    match root {
        None => {
            *root = Some(Slot::One(0, leaf));
            Ok(true)
        }
        Some(slot) => put_slot(slot, 7, alloc, generation, leaf),
    }
}

// The entry of a key, in memory of its own.
fn new_leaf<V: Drop, A: Allocator + Copy>(
    alloc: A,
    hash: u32,
    key: Key<A>,
    value: V,
) -> Result<Arc<Entry<V, A>, A>, Refusal>
    ensures ok { IfOk result (λ leaf. (leaf.value.hash ≡ hash) × (leaf.value.key ≡ key) × (leaf.value.value ≡ value)) }
    ensures err { IsOkUnless result OutOfMemory }
{
    Ok(Arc::new(alloc, Entry { hash, key, value })?)
}

// Whether the keys can be counted once this one was put: there is room for one more, or it is there.
fn has_room<V, M: Summary<V>, A: Allocator>(
    root: &Option<Slot<V, M, A>>,
    count: u64,
    hash: u32,
    key: &[u8],
) -> bool
    requires stands { RootStands root.now }
    requires sorted { T (is_sorted bytes_cmp (root_entries root.now)) }
    ensures { IsTrue result → (count < 2 ^ 64 - 1) ⊎ (is_some (find bytes_cmp (word 7 hash key.now) (root_entries root.now)) ≡ true) }
{
    if count < u64::MAX {
        return true;
    }
    look_root(root, hash, key).is_some()
}

// Puts a value at a key, and counts the keys. At 2^64 - 1 keys a new one is refused as for want of memory.
pub(crate) fn insert_at<V: Drop, M: Summary<V>, A: Allocator + Copy>(
    root: &mut Option<Slot<V, M, A>>,
    count: &mut u64,
    alloc: A,
    generation: u64,
    hash: u32,
    key: Key<A>,
    value: V,
) -> Result<(), Refusal>
    requires is_root { IsRoot root.old count.old }
    requires stamp { root_stamp root.old ≤ generation }
    ensures stamp { root_stamp root.new ≤ generation }
    ensures ok { OnOk result (root_entries root.new ≡ put bytes_cmp (word 7 hash key) value (root_entries root.old)) }
    ensures is_root { IsRoot root.new count.new }
    ensures same { OnErr result (root_entries root.new ≡ root_entries root.old) }
    ensures err { IsOkUnless result OutOfMemory }
{
    if !has_room(root, *count, hash, key.bytes()) {
        return Err(Refusal::OutOfMemory);
    }
    let leaf = new_leaf(alloc, hash, key, value)?;
    let fresh = put_root(root, alloc, generation, leaf)?;
    if fresh {
        *count += 1;
    }
    Ok(())
}

// Takes the entry of a key that is there out of the trie of this root.
fn take_root<V: Drop, M: Summary<V>, A: Allocator + Copy>(
    root: &mut Option<Slot<V, M, A>>,
    alloc: A,
    generation: u64,
    hash: u32,
    key: &[u8],
) -> Result<(), Refusal>
    requires stands { RootStands root.old }
    requires sorted { T (is_sorted bytes_cmp (root_entries root.old)) }
    requires found { is_some (find bytes_cmp (word 7 hash key.now) (root_entries root.old)) ≡ true }
    requires stamp { root_stamp root.old ≤ generation }
    ensures stamp { root_stamp root.new ≤ generation }
    ensures ok { OnOk result (root_entries root.new ≡ cut (word 7 hash key.now) (root_entries root.old)) }
    ensures stands { RootStands root.new }
    ensures same { OnErr result (root_entries root.new ≡ root_entries root.old) }
    ensures err { IsOkUnless result OutOfMemory }
{
    match root {
        None => Ok(()),
        Some(slot) => {
            if one_of(slot).is_some() {
                *root = None;
                return Ok(());
            }
            take_below(slot, 7, alloc, generation, hash, key)
        }
    }
}

// Takes a key out and gives its entry, and counts the keys. A key that is not there takes no memory.
pub(crate) fn remove_at<V: Drop, M: Summary<V>, A: Allocator + Copy>(
    root: &mut Option<Slot<V, M, A>>,
    count: &mut u64,
    alloc: A,
    generation: u64,
    hash: u32,
    key: &[u8],
) -> Result<Option<Arc<Entry<V, A>, A>>, Refusal>
    requires is_root { IsRoot root.old count.old }
    requires stamp { root_stamp root.old ≤ generation }
    ensures stamp { root_stamp root.new ≤ generation }
    ensures value { IfOk result (λ taken. option_map (λ entry. entry.value.value) taken ≡ find bytes_cmp (word 7 hash key.now) (root_entries root.old)) }
    ensures absent { find bytes_cmp (word 7 hash key.now) (root_entries root.old) ≡ None → IsOk result }
    ensures key { IfOk result (λ taken. IfSome taken (λ entry. entry.value.key ≡ key.now)) }
    ensures ok { OnOk result (root_entries root.new ≡ cut (word 7 hash key.now) (root_entries root.old)) }
    ensures is_root { IsRoot root.new count.new }
    ensures same { OnErr result (root_entries root.new ≡ root_entries root.old) }
    ensures err { IsOkUnless result OutOfMemory }
{
    let entry = match look_root(root, hash, key) {
        None => return Ok(None),
        Some(entry) => Arc::try_clone(entry)?,
    };
    take_root(root, alloc, generation, hash, key)?;
    *count -= 1;
    Ok(Some(entry))
}
