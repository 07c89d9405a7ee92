ghost use Rattle.std.specs.Prelude.{◌≡◌, ◌↔◌, ℕ, List, true, length, is_some, IfSome, MatchOption, OnOk, OnErr, IsOk, IfOk, IsOkUnless};
ghost use Rattle.std.specs.declared.option.Option.TheVariants.{None};
ghost use Rattle.std.specs.Option.{option_map};
ghost use Rattle.std.specs.FinMap as finite;
ghost use Rattle.hash_path.specs.Map.{by_path, walk, walk_under};
ghost use Rattle.hash_path.specs.Path.{indices};
ghost use Rattle.hash_path.specs.Summary.{summary_at};
ghost use Rattle.gen_trie.specs.Changes.{ChangesValue};
ghost use Rattle.gen_trie.specs.Shown.{trie_shown, generation_after};
ghost use Rattle.dots.specs.declared.refusal.Refusal.TheVariants.{OutOfMemory};

use crate::change::Change;
use crate::changing::change_at;
use crate::entry::Entry;
use crate::frozen::Frozen;
use crate::iter::Iter;
use crate::node::Slot;
use crate::root::{insert_at, look_root, remove_at, seal_root, share_root};
use crate::sealing::stamped_in;
use crate::summary::Summary;
use crate::summing::summary_under;
use dots::{Key, Refusal};
use hash_path::{PathHash, Prefix};
use std::alloc::{Allocator, Global};
use std::marker::Model;
use std::sync::Arc;

/// A finite map from keys to values that can be frozen: `share` costs a few reference counts, `freeze` also the nodes written
/// since the last seal, which are given their summaries.
///
/// It is a trie by the path hash of the keys: 32 children a branch, five bits of the hash a level, and lists of keys
/// with equal hashes past the last, in which a key is found by halves. What is written after a freeze is copied first,
/// node by node, so a frozen map stays what it was. An entry with its value takes one allocation, and a key of more than 22
/// bytes takes two of its own.
///
/// After Prokopec, Bronson, Bagwell and Odersky, "Concurrent Tries with Efficient Non-Blocking Snapshots" (2012), with their
/// generations and without their lock-free writers; that equal maps have one shape is of this project.
#[derive(Drop)]
pub struct GenTrie<V, M: Summary<V>, H: PathHash, A: Allocator = Global> {
    alloc: A,
    hash: H,
    generation: u64,
    count: u64,
    root: Option<Slot<V, M, A>>,
}

impl<V, M: Summary<V>, H: PathHash, A: Allocator> Model for GenTrie<V, M, H, A> {
    ghost use Rattle.gen_trie.specs.Shown.{Shown, shown_code};

    ghost Value = { Shown H V };

    ghost coded = { shown_code H.code V.code };

    ghost use Rattle.gen_trie.specs.Shown.{shown_of};
    ghost use Rattle.std.specs.Prelude.{◌≤◌};
    ghost use Rattle.gen_trie.specs.Root.{root_stamp, IsTrie};

    ghost view = { λ a. shown_of a.hash a.root a.generation };

    ghost invariant = { λ a. IsTrie (H.hash_of a.hash) a.root a.count × (root_stamp a.root ≤ a.generation) };
}

impl<V, M: Summary<V>, H: PathHash, A: Allocator + Copy> GenTrie<V, M, H, A> {
    /// The map with no keys, whose paths are by this hash. Takes no memory.
    pub fn new(alloc: A, hash: H) -> GenTrie<V, M, H, A>
        ensures { result ≡ trie_shown hash finite.empty 0 true }
    {
        GenTrie::at_generation(alloc, hash, 0)
    }

    /// The map with no keys that begins at this generation, as one that was frozen so many times. At the last one, 2^64 - 1, the
    /// generation stays. Takes no memory.
    pub fn at_generation(alloc: A, hash: H, generation: u64) -> GenTrie<V, M, H, A>
        ensures { result ≡ trie_shown hash finite.empty generation true }
    {
        GenTrie {
            alloc,
            hash,
            generation,
            count: 0,
            root: None,
        }
    }

    /// The hash that the keys' paths are by.
    pub fn hash(&self) -> H
        ensures { result ≡ self.now.hash }
    {
        self.hash
    }

    /// The value of the key. Touches eight nodes at most, and takes no memory.
    /// None exactly where the key is not there.
    pub fn lookup(&self, key: &Key<A>) -> Option<&V>
        ensures { option_map (λ value. value.now) result ≡ finite.get self.now.map key.now }
    {
        self.lookup_bytes(key.bytes())
    }

    /// The value of the key of these bytes. Touches eight nodes at most, and takes no memory.
    /// None exactly where the key is not there.
    pub fn lookup_bytes(&self, key: &[u8]) -> Option<&V>
        ensures { option_map (λ value. value.now) result ≡ finite.get self.now.map key.now }
    {
        let hash = self.hash.hash(key);
        match look_root(&self.root, hash, key) {
            None => None,
            Some(entry) => Some(&entry.value),
        }
    }

    /// The number of keys. It is kept, so this takes constant time.
    pub fn size(&self) -> u64
        ensures { result ≡ finite.len self.now.map }
    {
        self.count
    }

    /// Whether each node keeps the summary of its entries, as from a seal on to the next write. Takes constant time, and no memory.
    pub fn is_sealed(&self) -> bool
        ensures { result ≡ self.now.sealed }
    {
        match &self.root {
            None => true,
            Some(slot) => slot.keeps_summaries(),
        }
    }

    /// The keys with their values, by ascending index sequence of the key's hash, and those of equal hashes by key bytes.
    /// Takes no memory. A walk of all of them goes into each node once.
    pub fn iter(&self) -> Iter<'_, V, M, A>
        ensures { result ≡ walk (H.hash_of self.now.hash) self.now.map }
    {
        Iter::new(&self.root)
    }

    /// The keys whose paths begin with a prefix, with their values, in the order of `iter`: all keys for the root. Touches
    /// eight nodes at most before the first item, and takes no memory.
    pub fn iter_under(&self, prefix: Prefix) -> Iter<'_, V, M, A>
        ensures { result ≡ walk_under (H.hash_of self.now.hash) prefix self.now.map }
    {
        Iter::under(&self.root, prefix)
    }
}

impl<V: Drop, M: Summary<V>, H: PathHash, A: Allocator + Copy> GenTrie<V, M, H, A> {
    /// Puts the value at the key, in the place of one that is there. A refused call leaves the map as it was, and drops the
    /// value. A map of 2^64 - 1 keys refuses a new one as for want of memory. Touches eight nodes at most, and copies those
    /// that a frozen map shares; takes memory for the entry besides, and for the nodes between two keys whose paths begin
    /// alike.
    /// Its only refusal is OutOfMemory.
    pub fn insert(&mut self, key: Key<A>, value: V) -> Result<(), Refusal>
        ensures ok { OnOk result (self.new ≡ record self.old { map = finite.insert self.old.map key value; sealed = self.new.sealed }) }
        ensures same { OnErr result (self.new ≡ record self.old { sealed = self.new.sealed }) }
        ensures err { IsOkUnless result OutOfMemory }
    {
        let hash = self.hash.hash(key.bytes());
        insert_at(
            &mut self.root,
            &mut self.count,
            self.alloc,
            self.generation,
            hash,
            key,
            value,
        )
    }

    /// Changes the value at the key, and tells whether the key is there. A refused call leaves the map as it was. Touches eight
    /// nodes at most, and copies those that a frozen map shares. The entry is changed in place, without memory of its own, where
    /// no one else has it, and is else made anew.
    /// Its only refusal is OutOfMemory.
    pub fn change<C: Change<V>>(&mut self, key: &Key<A>, change: &C) -> Result<bool, Refusal>
        requires { IfSome (finite.get self.old.map key.now) (C.fits change.now) }
        ensures there { IfOk result (λ there. there ≡ is_some (finite.get self.old.map key.now)) }
        ensures ok { OnOk result (MatchOption (finite.get self.old.map key.now) (self.new ≡ self.old)
            (ChangesValue (C.becomes change.now) key.now self.old self.new)) }
        ensures same { OnErr result (self.new ≡ record self.old { sealed = self.new.sealed }) }
        ensures err { IsOkUnless result OutOfMemory }
    {
        let hash = self.hash.hash(key.bytes());
        change_at(
            &mut self.root,
            self.alloc,
            self.generation,
            hash,
            key.bytes(),
            change,
        )
    }

    /// Takes the key out, and gives its entry, with the value that was there. A refused call leaves the map as it was. A key
    /// that is not there takes a look-up, and no memory. Touches eight nodes at most, and copies those that a frozen map
    /// shares.
    /// Its only refusal is OutOfMemory.
    pub fn remove(&mut self, key: &Key<A>) -> Result<Option<Arc<Entry<V, A>, A>>, Refusal>
        ensures value { IfOk result (λ taken. option_map (λ entry. entry.value.value) taken ≡ finite.get self.old.map key.now) }
        ensures absent { finite.get self.old.map key.now ≡ None → IsOk result }
        ensures key { IfOk result (λ taken. IfSome taken (λ entry. entry.value.key ≡ key.now)) }
        ensures ok { OnOk result (self.new ≡ record self.old { map = finite.remove self.old.map key.now; sealed = self.new.sealed }) }
        ensures same { OnErr result (self.new ≡ record self.old { sealed = self.new.sealed }) }
        ensures err { IsOkUnless result OutOfMemory }
    {
        let hash = self.hash.hash(key.bytes());
        remove_at(
            &mut self.root,
            &mut self.count,
            self.alloc,
            self.generation,
            hash,
            key.bytes(),
        )
    }

    /// Takes all keys out. Takes no memory; the nodes that no frozen map shares are let go, which takes time in them.
    pub fn clear(&mut self)
        ensures { self.new ≡ record self.old { map = finite.empty; sealed = true } }
    {
        self.root = None;
        self.count = 0;
    }

    /// Renews the summaries that writes took away: of the nodes that were written since the last seal, and of those above
    /// them. Nodes that keep one are passed over, with all that stands below them. So each node keeps the summary of its
    /// entries. The map stays as it is, also where it is refused; a further call goes on from there. Takes time in the nodes
    /// without a summary and in what stands right below them, copies those that a frozen map shares, and takes no other
    /// memory.
    /// Its only refusal is OutOfMemory.
    pub fn seal(&mut self) -> Result<(), Refusal>
        ensures ok { OnOk result (self.new ≡ record self.old { sealed = true }) }
        ensures same { OnErr result (self.new ≡ self.old) }
        ensures err { IsOkUnless result OutOfMemory }
    {
        seal_root(&mut self.root, self.alloc, self.generation)
    }

    /// Seals, and then shares: the map as it is, whose nodes keep their summaries. A refused call leaves the map and the
    /// generation as they were. Takes what `seal` does, and a reference count.
    /// Its only refusal is OutOfMemory.
    pub fn freeze(&mut self) -> Result<Frozen<V, M, H, A>, Refusal>
        ensures ok { IfOk result (λ frozen. frozen ≡ record self.old { sealed = true }) }
        ensures next { OnOk result (self.new ≡ record self.old { generation = generation_after self.old.generation; sealed = true }) }
        ensures same { OnErr result (self.new ≡ record self.old { sealed = self.new.sealed }) }
        ensures err { IsOkUnless result OutOfMemory }
    {
        self.seal()?;
        self.share()
    }

    /// The map as it is, which stays so whatever is written afterwards. The next generation starts on both sides; at the
    /// last, 2^64 - 1, it stays. Makes no summaries and copies no node: it takes a reference count, and is refused only
    /// where that is full.
    /// Its only refusal is OutOfMemory.
    pub fn share(&mut self) -> Result<Frozen<V, M, H, A>, Refusal>
        ensures ok { IfOk result (λ frozen. frozen ≡ self.old) }
        ensures next { OnOk result (self.new ≡ record self.old { generation = generation_after self.old.generation }) }
        ensures same { OnErr result (self.new ≡ self.old) }
        ensures err { IsOkUnless result OutOfMemory }
    {
        let trie = self.same_nodes()?;
        self.generation = self.generation.saturating_add(1);
        Ok(Frozen::of(trie))
    }

    // The same map in the same generation, of the same nodes. Only a frozen map, or a trie that leaves this generation, may be made of it.
    pub(crate) fn same_nodes(&self) -> Result<GenTrie<V, M, H, A>, Refusal>
        ensures ok { IfOk result (λ copy. copy ≡ self.now) }
        ensures err { IsOkUnless result OutOfMemory }
    {
        let root = share_root(&self.root)?;
        Ok(GenTrie {
            alloc: self.alloc,
            hash: self.hash,
            generation: self.generation,
            count: self.count,
            root,
        })
    }

    // The same map in the next generation, of the same nodes.
    pub(crate) fn in_next_generation(&self) -> Result<GenTrie<V, M, H, A>, Refusal>
        ensures ok { IfOk result (λ trie. trie ≡ record self.now { generation = generation_after self.now.generation }) }
        ensures err { IsOkUnless result OutOfMemory }
    {
        let mut trie = self.same_nodes()?;
        trie.generation = trie.generation.saturating_add(1);
        Ok(trie)
    }
}

impl<V, M: Summary<V>, H: PathHash, A: Allocator + Copy> GenTrie<V, M, H, A> {
    /// The summary of the keys whose paths begin with a prefix. None exactly where there are no such keys. It reads what a
    /// node keeps, and visits the nodes that keep none, as before a seal, with their children; a key alone keeps none, so
    /// its own is made anew. Takes no memory, and on the stack a call for each child of the branches on the way down, 8
    /// times 32 at most.
    pub fn summary(&self, prefix: Prefix) -> Option<M>
        ensures summary { result ≡ summary_at M.calls prefix 7 (by_path (H.hash_of self.now.hash) self.now.map) }
        ensures none { (result ≡ None) ↔ ((key : List ℕ) → indices (length prefix) (H.hash_of self.now.hash key) ≡ prefix → finite.get self.now.map key ≡ None) }
    {
        match &self.root {
            None => None,
            Some(slot) => summary_under(slot, prefix),
        }
    }

    /// How many nodes were sealed in the current generation: those of its stamp that keep a summary. It visits the nodes of
    /// this stamp and their children, and takes no memory.
    pub fn stamped(&self) -> u64 {
        match &self.root {
            None => 0,
            Some(slot) => stamped_in(slot, 7, self.generation),
        }
    }
}

impl<'a, V, M: Summary<V>, H: PathHash, A: Allocator + Copy> IntoIterator
    for &'a GenTrie<V, M, H, A> {
    type Item = (&'a Key<A>, &'a V);

    type IntoIter = Iter<'a, V, M, A>;

    ghost into_iter_gives = { λ trie it. it ≡ walk (H.hash_of trie.now.hash) trie.now.map };

    fn into_iter(self) -> Iter<'a, V, M, A> {
        self.iter()
    }
}
