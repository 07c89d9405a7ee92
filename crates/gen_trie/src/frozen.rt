ghost use Rattle.std.specs.Prelude.{◌≡◌, ◌↔◌, ℕ, List, length, is_some, true, IfSome, OnOk, OnErr, IsOk, IfOk, IsOkUnless};
ghost use Rattle.std.specs.declared.option.Option.TheVariants.{None};
ghost use Rattle.std.specs.Option.{option_map, MatchOption};
ghost use Rattle.std.specs.FinMap as finite;
ghost use Rattle.hash_path.specs.Map.{by_path, walk, walk_under};
ghost use Rattle.hash_path.specs.Path.{indices};
ghost use Rattle.hash_path.specs.Summary.{summary_at};
ghost use Rattle.gen_trie.specs.Shown.{trie_shown, generation_after};
ghost use Rattle.gen_trie.specs.Changes.{ChangesValue};
ghost use Rattle.dots.specs.declared.refusal.Refusal.TheVariants.{OutOfMemory};

use crate::change::Change;
use crate::entry::Entry;
use crate::iter::Iter;
use crate::summary::Summary;
use crate::trie::GenTrie;
use dots::{Key, Refusal};
use hash_path::{PathHash, Prefix};
use std::alloc::{Allocator, Global};
use std::marker::Model;
use std::sync::Arc;

/// A finite map from keys to values that is only read. It shares its nodes with the tries that it comes from, and stays
/// what it is whatever they write: each node that they write is copied first. A call at a key with the hash of others goes
/// through these, as that of a `GenTrie` does.
#[derive(Drop)]
pub struct Frozen<V, M: Summary<V>, H: PathHash, A: Allocator = Global> {
    // It is written by a `Written` alone, which owns it: nodes that another map shares are copied first.
    trie: GenTrie<V, M, H, A>,
}

impl<V, M: Summary<V>, H: PathHash, A: Allocator> Model for Frozen<V, M, H, A> {
    ghost use Rattle.gen_trie.specs.Shown.{Shown, shown_code};

    ghost Value = { Shown H V };

    ghost coded = { shown_code H.code V.code };

    ghost view = { λ a. a.trie };
}

impl<V, M: Summary<V>, H: PathHash, A: Allocator + Copy> Frozen<V, M, H, A> {
    /// The map with no keys, whose paths are by this hash. Takes no memory.
    pub fn new(alloc: A, hash: H) -> Frozen<V, M, H, A>
        ensures { result ≡ trie_shown hash finite.empty 0 true }
    {
        Frozen {
            trie: GenTrie::new(alloc, hash),
        }
    }

    /// The hash that the keys' paths are by.
    pub fn hash(&self) -> H
        ensures { result ≡ self.now.hash }
    {
        self.trie.hash()
    }

    /// The value of the key. Touches eight nodes at most, and takes no memory.
    /// None exactly where the key is not there.
    pub fn lookup(&self, key: &Key<A>) -> Option<&V>
        ensures { option_map (λ value. value.now) result ≡ finite.get self.now.map key.now }
    {
        self.trie.lookup(key)
    }

    /// The value of the key of these bytes. Touches eight nodes at most, and takes no memory.
    /// None exactly where the key is not there.
    pub fn lookup_bytes(&self, key: &[u8]) -> Option<&V>
        ensures { option_map (λ value. value.now) result ≡ finite.get self.now.map key.now }
    {
        self.trie.lookup_bytes(key)
    }

    /// The number of keys. It is kept, so this takes constant time.
    pub fn size(&self) -> u64
        ensures { result ≡ finite.len self.now.map }
    {
        self.trie.size()
    }

    /// Whether each node keeps the summary of its entries, as after a seal. Takes constant time, and no memory.
    pub fn is_sealed(&self) -> bool
        ensures { result ≡ self.now.sealed }
    {
        self.trie.is_sealed()
    }

    /// The keys with their values, by ascending index sequence of the key's hash, and those of equal hashes by key bytes.
    /// Takes no memory. A walk of all of them goes into each node once.
    pub fn iter(&self) -> Iter<'_, V, M, A>
        ensures { result ≡ walk (H.hash_of self.now.hash) self.now.map }
    {
        self.trie.iter()
    }

    /// The keys whose paths begin with a prefix, with their values, in the order of `iter`: all keys for the root. Touches
    /// eight nodes at most before the first item, and takes no memory.
    pub fn iter_under(&self, prefix: Prefix) -> Iter<'_, V, M, A>
        ensures { result ≡ walk_under (H.hash_of self.now.hash) prefix self.now.map }
    {
        self.trie.iter_under(prefix)
    }

    // The map of a trie that is not written any more.
    pub(crate) fn of(trie: GenTrie<V, M, H, A>) -> Frozen<V, M, H, A>
        ensures { result ≡ trie }
    {
        Frozen { trie }
    }
}

impl<V: Drop, M: Summary<V>, H: PathHash, A: Allocator + Copy> Frozen<V, M, H, A> {
    // Puts the value at the key, as `GenTrie::insert` does. Its only refusal is OutOfMemory.
    pub(crate) fn insert(&mut self, key: Key<A>, value: V) -> Result<(), Refusal>
        ensures ok { OnOk result (self.new ≡ record self.old { map = finite.insert self.old.map key value; sealed = self.new.sealed }) }
        ensures same { OnErr result (self.new ≡ record self.old { sealed = self.new.sealed }) }
        ensures err { IsOkUnless result OutOfMemory }
    {
        self.trie.insert(key, value)
    }

    // Takes the key out, as `GenTrie::remove` does. Its only refusal is OutOfMemory.
    pub(crate) fn remove(&mut self, key: &Key<A>) -> Result<Option<Arc<Entry<V, A>, A>>, Refusal>
        ensures value { IfOk result (λ taken. option_map (λ entry. entry.value.value) taken ≡ finite.get self.old.map key.now) }
        ensures absent { finite.get self.old.map key.now ≡ None → IsOk result }
        ensures key { IfOk result (λ taken. IfSome taken (λ entry. entry.value.key ≡ key.now)) }
        ensures ok { OnOk result (self.new ≡ record self.old { map = finite.remove self.old.map key.now; sealed = self.new.sealed }) }
        ensures same { OnErr result (self.new ≡ record self.old { sealed = self.new.sealed }) }
        ensures err { IsOkUnless result OutOfMemory }
    {
        self.trie.remove(key)
    }

    // Changes the value at the key, as `GenTrie::change` does. Its only refusal is OutOfMemory.
    pub(crate) fn change<C: Change<V>>(&mut self, key: &Key<A>, change: &C) -> Result<bool, Refusal>
        requires { IfSome (finite.get self.old.map key.now) (C.fits change.now) }
        ensures there { IfOk result (λ there. there ≡ is_some (finite.get self.old.map key.now)) }
        ensures ok { OnOk result (MatchOption (finite.get self.old.map key.now) (self.new ≡ self.old)
            (ChangesValue (C.becomes change.now) key.now self.old self.new)) }
        ensures same { OnErr result (self.new ≡ record self.old { sealed = self.new.sealed }) }
        ensures err { IsOkUnless result OutOfMemory }
    {
        self.trie.change(key, change)
    }

    /// The same map. Copies no node: it takes a reference count, and is refused only where that is full.
    /// Its only refusal is OutOfMemory.
    pub fn copy(&self) -> Result<Frozen<V, M, H, A>, Refusal>
        ensures ok { IfOk result (λ copy. copy ≡ self.now) }
        ensures err { IsOkUnless result OutOfMemory }
    {
        Ok(Frozen {
            trie: self.trie.same_nodes()?,
        })
    }

    /// Gives the nodes that keep no summary, as after a share without a seal, theirs. The map stays as it is, also where it
    /// is refused; a further call goes on from there. Takes time in those nodes and in what stands right below them, copies
    /// those that a trie or another frozen map shares, and takes no other memory.
    /// Its only refusal is OutOfMemory.
    pub fn seal(&mut self) -> Result<(), Refusal>
        ensures ok { OnOk result (self.new ≡ record self.old { sealed = true }) }
        ensures same { OnErr result (self.new ≡ self.old) }
        ensures err { IsOkUnless result OutOfMemory }
    {
        self.trie.seal()
    }

    /// A trie of the same map that can be written, in a generation after those of all nodes that it shares; at the last,
    /// 2^64 - 1, it stays. Copies no node: it takes a reference count, and is refused only where that is full.
    /// Its only refusal is OutOfMemory.
    pub fn thaw(&self) -> Result<GenTrie<V, M, H, A>, Refusal>
        ensures ok { IfOk result (λ trie. trie ≡ record self.now { generation = generation_after self.now.generation }) }
        ensures err { IsOkUnless result OutOfMemory }
    {
        self.trie.in_next_generation()
    }
}

impl<V, M: Summary<V>, H: PathHash, A: Allocator + Copy> Frozen<V, M, H, A> {
    /// The summary of the keys whose paths begin with a prefix. None exactly where there are no such keys. It reads what a
    /// node keeps, and visits the nodes that keep none, as before a seal, with their children; a key alone keeps none, so
    /// its own is made anew. Takes no memory, and on the stack a call for each child of the branches on the way down, 8
    /// times 32 at most.
    pub fn summary(&self, prefix: Prefix) -> Option<M>
        ensures summary { result ≡ summary_at M.calls prefix 7 (by_path (H.hash_of self.now.hash) self.now.map) }
        ensures none { (result ≡ None) ↔ ((key : List ℕ) → indices (length prefix) (H.hash_of self.now.hash key) ≡ prefix → finite.get self.now.map key ≡ None) }
    {
        self.trie.summary(prefix)
    }
}

impl<'a, V, M: Summary<V>, H: PathHash, A: Allocator + Copy> IntoIterator
    for &'a Frozen<V, M, H, A> {
    type Item = (&'a Key<A>, &'a V);

    type IntoIter = Iter<'a, V, M, A>;

    ghost into_iter_gives = { λ frozen it. it ≡ walk (H.hash_of frozen.now.hash) frozen.now.map };

    fn into_iter(self) -> Iter<'a, V, M, A> {
        self.iter()
    }
}
