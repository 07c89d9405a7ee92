// Lists of keys with equal hashes, by key bytes. A key is found there by halves, so each call asks that they ascend, as the
// entries of a whole trie do: a node alone does not say it.
ghost use Rattle.std.specs.Prelude.{◌≡◌, ℕ, ◌<◌, List, ◌∷◌, length, slice_index_or, T, IsTrue, OnOk, OnErr, IfOk, IfSome, IsOkUnless};
ghost use Rattle.std.specs.Option.{option_map};
ghost use Rattle.std.specs.Ordering.{eq_by_cmp, is_gt};
ghost use Rattle.std.specs.FinMap.Entries.{find, is_sorted};
ghost use Rattle.dots.specs.Bytes.{bytes_cmp};
ghost use Rattle.dots.specs.declared.refusal.Refusal.TheVariants.{OutOfMemory};
ghost use Rattle.hash_path.specs.Cut.{cut, spot};
ghost use Rattle.hash_path.specs.Rank.{rank};
ghost use Rattle.hash_path.specs.Word.{word};
ghost use Rattle.gen_trie.specs.Shapes.{listed, with_entry, HasMore};

use crate::entry::Entry;
use dots::Refusal;
use std::alloc::Allocator;
use std::sync::Arc;

// How many entries come before a key, found by halves.
fn rank_at<V, A: Allocator>(entries: &[Arc<Entry<V, A>, A>], hash: u32, key: &[u8]) -> usize
    requires { T (is_sorted bytes_cmp (listed entries.now)) }
    ensures { result ≡ rank (hash ∷ key.now) (listed entries.now) }
{
    entries.partition_point(
        |entry| -> bool
            ensures { result ≡ is_gt (bytes_cmp (hash ∷ key.entry.now) (entry.now.value.hash ∷ entry.now.value.key)) }
        { entry.is_before(hash, key) },
    )
}

// How many entries come before another.
fn rank_of<V, A: Allocator>(entries: &[Arc<Entry<V, A>, A>], leaf: &Arc<Entry<V, A>, A>) -> usize
    requires { T (is_sorted bytes_cmp (listed entries.now)) }
    ensures { result ≡ rank (leaf.now.value.hash ∷ leaf.now.value.key) (listed entries.now) }
{
    rank_at(entries, leaf.hash, leaf.key.bytes())
}

// Whether the entry at a position is that of a key.
fn has_key_at<V, A: Allocator>(
    entries: &[Arc<Entry<V, A>, A>],
    at: usize,
    hash: u32,
    key: &[u8],
) -> bool
    ensures within { IsTrue result → at < length entries.now }
    ensures same { at < length entries.now → (d : List ℕ × V) → result ≡ eq_by_cmp bytes_cmp (hash ∷ key.now) (slice_index_or (listed entries.now) at d).0 }
{
    match entries.get(at) {
        Some(entry) => entry.is_at(hash, key),
        None => false,
    }
}

// Whether the entry at a position is that of another's key.
fn has_key_of<V, A: Allocator>(
    entries: &[Arc<Entry<V, A>, A>],
    at: usize,
    leaf: &Arc<Entry<V, A>, A>,
) -> bool
    ensures within { IsTrue result → at < length entries.now }
    ensures same { at < length entries.now → (d : List ℕ × V) → result ≡ eq_by_cmp bytes_cmp (leaf.now.value.hash ∷ leaf.now.value.key) (slice_index_or (listed entries.now) at d).0 }
{
    has_key_at(entries, at, leaf.hash, leaf.key.bytes())
}

// Puts an entry in its place, or in that of the entry of its key, and tells whether the key is new.
pub(crate) fn put_in_list<V: Drop, A: Allocator + Copy>(
    entries: &mut Vec<Arc<Entry<V, A>, A>, A>,
    leaf: Arc<Entry<V, A>, A>,
) -> Result<bool, Refusal>
    requires { T (is_sorted bytes_cmp (listed entries.old.items)) }
    ensures ok { OnOk result (listed entries.new.items ≡ with_entry 0 leaf.value (listed entries.old.items)) }
    ensures fresh { IfOk result (λ fresh. HasMore fresh (listed entries.old.items) (listed entries.new.items)) }
    ensures same { OnErr result (listed entries.new.items ≡ listed entries.old.items) }
    ensures err { IsOkUnless result OutOfMemory }
{
    let at = rank_of(entries, &leaf);
    if has_key_of(entries, at, &leaf) {
        entries[at] = leaf;
        return Ok(false);
    }
    entries.insert(at, leaf)?;
    Ok(true)
}

// The position of the entry of a key, or the number of entries, found by halves.
pub(crate) fn place_of<V, A: Allocator>(
    entries: &[Arc<Entry<V, A>, A>],
    hash: u32,
    key: &[u8],
) -> usize
    requires { T (is_sorted bytes_cmp (listed entries.now)) }
    ensures { result ≡ spot (hash ∷ key.now) (listed entries.now) }
{
    let at = rank_at(entries, hash, key);
    if has_key_at(entries, at, hash, key) {
        return at;
    }
    entries.len()
}

// The entry of a key.
pub(crate) fn in_list<'a, V, A: Allocator>(
    entries: &'a [Arc<Entry<V, A>, A>],
    hash: u32,
    key: &[u8],
) -> Option<&'a Arc<Entry<V, A>, A>>
    requires { T (is_sorted bytes_cmp (listed entries.now)) }
    ensures value { option_map (λ found. found.now.value.value) result ≡ find bytes_cmp (word 0 hash key.now) (listed entries.now) }
    ensures key { IfSome result (λ found. found.now.value.key ≡ key.now) }
{
    let at = place_of(entries, hash, key);
    entries.get(at)
}

// Takes the entry of a key out, if it is there.
pub(crate) fn take_from_list<V: Drop, A: Allocator + Copy>(
    entries: &mut Vec<Arc<Entry<V, A>, A>, A>,
    hash: u32,
    key: &[u8],
)
    requires { T (is_sorted bytes_cmp (listed entries.old.items)) }
    ensures { listed entries.new.items ≡ cut (hash ∷ key.now) (listed entries.old.items) }
{
    let at = place_of(entries, hash, key);
    if at < entries.len() {
        let _ = entries.remove(at);
    }
}
