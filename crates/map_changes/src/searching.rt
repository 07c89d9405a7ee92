// Which prefixes are gone through.
ghost use Rattle.std.specs.Prelude.{◌≡◌, ◌<◌, ℕ, suc, List, [], Contains, length, IfOk, OnOk, IsOkUnless};
ghost use Rattle.op_model.specs.Shown.{IsAscending};
ghost use Rattle.sync_model.specs.Laws.{NoClash};
ghost use Rattle.map_changes.specs.Changes.{IsChanged};
ghost use Rattle.map_changes.specs.Searching.{Finds, Covers, CoversAt, AreLong, GoesBelow};

use crate::gathering::{gather, is_few};
use dots::{Key, Refusal};
use hash_path::{DEPTHS, PathHash, Prefix};
use prefix_digest::{FrozenMap, digest};
use std::alloc::{AllocError, Allocator};
use std::collections::BTreeSet;

/// The keys at which two snapshots of one map, or of two whose paths are by one hash, differ: those that one of them alone has, and those
/// under which other values stand, or the same ones that were written anew. Ascending by bytes, each once.
///
/// Each key that is told differs. Each that differs is told, unless two pages or two values of the snapshots have one SHA-256. Takes time
/// and memory in what differs, times the depth of the map, and not in the map, where its nodes keep their digests; where they do not, also
/// time in what is below them: `Replica::seal` gives them theirs.
/// Its only refusal is OutOfMemory.
pub fn changes<H: PathHash, A: Allocator + Copy>(
    alloc: A,
    older: &FrozenMap<H, A>,
    newer: &FrozenMap<H, A>,
) -> Result<Vec<Key<A>, A>, Refusal>
    ensures ascending { IfOk result (λ found. IsAscending found.items) }
    ensures changed { IfOk result (λ found. (key : List ℕ) → Contains found.items key → IsChanged older.now.map newer.now.map key) }
    ensures all { IfOk result (λ found. older.now.hash ≡ newer.now.hash → NoClash (H.hash_of older.now.hash) older.now.map newer.now.map []
        → (key : List ℕ) → IsChanged older.now.map newer.now.map key → Contains found.items key) }
    ensures refused { IsOkUnless result Refusal.OutOfMemory }
{
    let mut found = BTreeSet::new(alloc);
    let mut level = Vec::with_capacity(alloc, 1)?;
    level.push(Prefix::root())?;
    for _ in 0..DEPTHS + 1 {
        level = further(alloc, older, newer, level.as_slice(), &mut found)?;
    }
    drop(level);
    Ok(listed(alloc, found)?)
}

// What is in a set, in order. It fails only for want of memory.
fn listed<T: Ord + Drop, A: Allocator + Copy>(
    alloc: A,
    found: BTreeSet<T, A>,
) -> Result<Vec<T, A>, AllocError>
    ensures { IfOk result (λ list. list.items ≡ found.keys) }
{
    found.into_iter().collect(alloc)
}

// Goes through these prefixes: what differs under them is found, or is under the prefixes that it gives, one index further.
fn further<H: PathHash, A: Allocator + Copy>(
    alloc: A,
    older: &FrozenMap<H, A>,
    newer: &FrozenMap<H, A>,
    level: &[Prefix],
    found: &mut BTreeSet<Key<A>, A>,
) -> Result<Vec<Prefix, A>, Refusal>
    ensures found { OnOk result (Finds older.now.map newer.now.map found.old.keys found.new.keys) }
    ensures covers { IfOk result (λ next. older.now.hash ≡ newer.now.hash → NoClash (H.hash_of older.now.hash) older.now.map newer.now.map []
        → Covers (H.hash_of older.now.hash) older.now.map newer.now.map found.old.keys level.now
        → Covers (H.hash_of older.now.hash) older.now.map newer.now.map found.new.keys next.items) }
    ensures long { IfOk result (λ next. (depth : ℕ) → AreLong depth level.now → AreLong (suc depth) next.items) }
    ensures refused { IsOkUnless result Refusal.OutOfMemory }
{
    let mut next = Vec::new(alloc);
    for prefix in level {
        split(alloc, older, newer, *prefix, &mut next, found)?;
    }
    Ok(next)
}

// Goes through one prefix.
fn split<H: PathHash, A: Allocator + Copy>(
    alloc: A,
    older: &FrozenMap<H, A>,
    newer: &FrozenMap<H, A>,
    prefix: Prefix,
    next: &mut Vec<Prefix, A>,
    found: &mut BTreeSet<Key<A>, A>,
) -> Result<(), Refusal>
    ensures found { OnOk result (Finds older.now.map newer.now.map found.old.keys found.new.keys) }
    ensures covers { OnOk result (older.now.hash ≡ newer.now.hash → NoClash (H.hash_of older.now.hash) older.now.map newer.now.map []
        → CoversAt (H.hash_of older.now.hash) older.now.map newer.now.map prefix found.new.keys next.new.items) }
    ensures below { OnOk result (GoesBelow prefix next.old.items next.new.items) }
    ensures refused { IsOkUnless result Refusal.OutOfMemory }
{
    if prefix.depth() < DEPTHS && !is_few(older, newer, prefix) {
        return children(older, newer, prefix, next);
    }
    gather(alloc, older, newer, prefix, found)?;
    gather(alloc, newer, older, prefix, found)
}

// Adds the prefixes one index further at which the digests differ.
fn children<H: PathHash, A: Allocator + Copy>(
    older: &FrozenMap<H, A>,
    newer: &FrozenMap<H, A>,
    prefix: Prefix,
    next: &mut Vec<Prefix, A>,
) -> Result<(), Refusal>
    requires { length prefix < 7 }
    ensures covers { OnOk result (older.now.hash ≡ newer.now.hash → NoClash (H.hash_of older.now.hash) older.now.map newer.now.map []
        → CoversAt (H.hash_of older.now.hash) older.now.map newer.now.map prefix [] next.new.items) }
    ensures below { OnOk result (GoesBelow prefix next.old.items next.new.items) }
    ensures refused { IsOkUnless result Refusal.OutOfMemory }
{
    for index in 0..32 {
        if let Some(child) = prefix.child(index) {
            if digest(older, child) != digest(newer, child) {
                next.push(child)?;
            }
        }
    }
    Ok(())
}
