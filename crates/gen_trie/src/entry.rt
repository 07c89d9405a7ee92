ghost use Rattle.std.specs.Prelude.{◌≡◌, [], ◌∷◌, IfSome};
ghost use Rattle.std.specs.Option.{option_map};
ghost use Rattle.std.specs.FinMap.Entries.{find};
ghost use Rattle.std.specs.Ordering.{eq_by_cmp, is_gt};
ghost use Rattle.dots.specs.Bytes.{bytes_cmp};

use dots::Key;
use std::alloc::Allocator;
use std::sync::Arc;

/// A key of the map with its hash and its value. It does not depend on the depth that it stands at.
#[derive(Drop)]
pub struct Entry<V, A: Allocator> {
    pub(crate) hash: u32,
    pub(crate) key: Key<A>,
    pub(crate) value: V,
}

impl<V, A: Allocator> Entry<V, A> {
    /// The key.
    pub fn key(&self) -> &Key<A>
        ensures { result.now ≡ self.now.key }
    {
        &self.key
    }

    /// The value.
    pub fn value(&self) -> &V
        ensures { result.now ≡ self.now.value }
    {
        &self.value
    }

    // Whether it is the entry of this hash and these bytes.
    pub(crate) fn is_at(&self, hash: u32, key: &[u8]) -> bool
        ensures { result ≡ eq_by_cmp bytes_cmp (hash ∷ key.now) (self.now.hash ∷ self.now.key) }
    {
        self.hash == hash && self.key.bytes() == key
    }

    // Whether its hash and bytes come before these.
    pub(crate) fn is_before(&self, hash: u32, key: &[u8]) -> bool
        ensures { result ≡ is_gt (bytes_cmp (hash ∷ key.now) (self.now.hash ∷ self.now.key)) }
    {
        hash.cmp(&self.hash)
            .then(key.cmp(&self.key.bytes()))
            .is_gt()
    }
}

// The entry, where it is that of this hash and these bytes.
pub(crate) fn entry_for<'a, V, A: Allocator>(
    entry: &'a Arc<Entry<V, A>, A>,
    hash: u32,
    key: &[u8],
) -> Option<&'a Arc<Entry<V, A>, A>>
    ensures value { option_map (λ found. found.now.value.value) result ≡ find bytes_cmp (hash ∷ key.now) ((entry.now.value.hash ∷ entry.now.value.key, entry.now.value.value) ∷ []) }
    ensures key { IfSome result (λ found. found.now.value.key ≡ key.now) }
{
    if entry.is_at(hash, key) {
        Some(entry)
    } else {
        None
    }
}

// Whether the first is the entry of the other's key.
pub(crate) fn same_key<V, A: Allocator>(
    entry: &Arc<Entry<V, A>, A>,
    other: &Arc<Entry<V, A>, A>,
) -> bool
    ensures { result ≡ eq_by_cmp bytes_cmp (other.now.value.hash ∷ other.now.value.key) (entry.now.value.hash ∷ entry.now.value.key) }
{
    entry.is_at(other.hash, other.key.bytes())
}
