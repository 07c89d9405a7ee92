ghost use Rattle.std.specs.Prelude.{◌≡◌, ◌↔◌, ◌⊎◌, IsTrue, IsErrOf, IfOk, IfErr, IfSome, OnOk, OnErr, IsOkUnless, None, true, false};
ghost use Rattle.std.specs.Option.{option_map};
ghost use Rattle.std.specs.FinMap as finite;
ghost use Rattle.hash_path.specs.Map.{walk};

use dots::{Key, Refusal};
use gen_trie::{Entry, Frozen, GenTrie, Iter, NoSummary, Summary};
use hash_path::PathHash;
use std::alloc::{Allocator, Global};
use std::marker::Model;
use std::sync::Arc;

/// A finite map from keys to values, with snapshots: the calls of Workiva's package `trie/ctrie`.
///
/// `M` is the summary that its nodes keep once they are frozen: none where no type is named.
///
/// A snapshot is a map of its own: what is written to one is not seen in the other. A read-only trie refuses each write
/// with ReadOnly, also one that would change nothing; Workiva's answers there are not followed. To write while another
/// trie of the same entries is read, take a snapshot first.
#[derive(Drop)]
pub struct Ctrie<V, H: PathHash, M: Summary<V> = NoSummary, A: Allocator = Global> {
    access: Access<V, H, M, A>,
}

#[derive(Drop)]
enum Access<V, H: PathHash, M: Summary<V>, A: Allocator> {
    Writable(GenTrie<V, M, H, A>),
    ReadOnly(Frozen<V, M, H, A>),
}

impl<V, H: PathHash, M: Summary<V>, A: Allocator> Model for Ctrie<V, H, M, A> {
    ghost use Rattle.ctrie_api.specs.Trie.{Trie, trie_code};

    ghost Value = { Trie H V };

    ghost coded = { trie_code H.code V.code };

    ghost use Rattle.ctrie_api.specs.Access.{trie_of};

    ghost view = { λ a. trie_of a.access };
}

impl<V, H: PathHash, M: Summary<V>, A: Allocator + Copy> Ctrie<V, H, M, A> {
    /// The map with no keys, whose paths are by this hash. It can be written. Takes no memory.
    pub fn new(alloc: A, hash: H) -> Ctrie<V, H, M, A>
        ensures { result ≡ record { read_only = false; hash = hash; map = finite.empty } }
    {
        Ctrie {
            access: Access::Writable(GenTrie::new(alloc, hash)),
        }
    }

    /// The value of the key. Touches eight nodes at most, and takes no memory.
    /// None exactly where the key is not there.
    pub fn lookup(&self, key: &Key<A>) -> Option<&V>
        ensures { option_map (λ value. value.now) result ≡ finite.get self.now.map key.now }
    {
        self.lookup_bytes(key.bytes())
    }

    /// The value of the key of these bytes. Touches eight nodes at most, and takes no memory.
    /// None exactly where the key is not there.
    pub fn lookup_bytes(&self, key: &[u8]) -> Option<&V>
        ensures { option_map (λ value. value.now) result ≡ finite.get self.now.map key.now }
    {
        match &self.access {
            Access::Writable(trie) => trie.lookup_bytes(key),
            Access::ReadOnly(frozen) => frozen.lookup_bytes(key),
        }
    }

    /// The number of keys. It is kept, so this takes constant time, where Workiva's goes through all entries.
    pub fn size(&self) -> u64
        ensures { result ≡ finite.len self.now.map }
    {
        match &self.access {
            Access::Writable(trie) => trie.size(),
            Access::ReadOnly(frozen) => frozen.size(),
        }
    }

    /// Whether each write is refused.
    pub fn is_read_only(&self) -> bool
        ensures { result ≡ self.now.read_only }
    {
        match &self.access {
            Access::Writable(_) => false,
            Access::ReadOnly(_) => true,
        }
    }

    /// The keys with their values, by ascending index sequence of the key's hash, and those of equal hashes by key bytes.
    /// Takes no memory. A walk of all of them goes into each node once. To write meanwhile, iterate over a snapshot.
    pub fn iter(&self) -> Iter<'_, V, M, A>
        ensures { result ≡ walk (H.hash_of self.now.hash) self.now.map }
    {
        match &self.access {
            Access::Writable(trie) => trie.iter(),
            Access::ReadOnly(frozen) => frozen.iter(),
        }
    }
}

impl<'a, V, H: PathHash, M: Summary<V>, A: Allocator + Copy> IntoIterator
    for &'a Ctrie<V, H, M, A> {
    type Item = (&'a Key<A>, &'a V);

    type IntoIter = Iter<'a, V, M, A>;

    ghost into_iter_gives = { λ trie it. it ≡ walk (H.hash_of trie.now.hash) trie.now.map };

    fn into_iter(self) -> Iter<'a, V, M, A> {
        self.iter()
    }
}

impl<V: Drop, H: PathHash, M: Summary<V>, A: Allocator + Copy> Ctrie<V, H, M, A> {
    /// Puts the value at the key, in the place of one that is there. A refused call leaves the map as it was, and drops
    /// the value. Touches eight nodes at most, and copies those that a snapshot shares.
    /// ReadOnly exactly where this trie is read-only; its only other refusal is OutOfMemory.
    pub fn insert(&mut self, key: Key<A>, value: V) -> Result<(), Refusal>
        ensures read_only { IsErrOf result Refusal.ReadOnly ↔ IsTrue self.old.read_only }
        ensures ok { OnOk result (self.new ≡ record self.old { map = finite.insert self.old.map key value }) }
        ensures same { OnErr result (self.new ≡ self.old) }
        ensures err { IfErr result (λ refusal. (refusal ≡ Refusal.ReadOnly) ⊎ (refusal ≡ Refusal.OutOfMemory)) }
    {
        match &mut self.access {
            Access::Writable(trie) => trie.insert(key, value),
            Access::ReadOnly(_) => Err(Refusal::ReadOnly),
        }
    }

    /// Takes the key out, and gives its entry, with the value that was there. A refused call leaves the map as it was. A key that is not
    /// there takes no memory. Touches eight nodes at most, and copies those that a snapshot shares.
    /// ReadOnly exactly where this trie is read-only; its only other refusal is OutOfMemory.
    pub fn remove(&mut self, key: &Key<A>) -> Result<Option<Arc<Entry<V, A>, A>>, Refusal>
        ensures read_only { IsErrOf result Refusal.ReadOnly ↔ IsTrue self.old.read_only }
        ensures value { IfOk result (λ taken. option_map (λ entry. entry.value.value) taken ≡ finite.get self.old.map key.now) }
        ensures absent { finite.get self.old.map key.now ≡ None → IsOkUnless result Refusal.ReadOnly }
        ensures key { IfOk result (λ taken. IfSome taken (λ entry. entry.value.key ≡ key.now)) }
        ensures ok { OnOk result (self.new ≡ record self.old { map = finite.remove self.old.map key.now }) }
        ensures same { OnErr result (self.new ≡ self.old) }
        ensures err { IfErr result (λ refusal. (refusal ≡ Refusal.ReadOnly) ⊎ (refusal ≡ Refusal.OutOfMemory)) }
    {
        match &mut self.access {
            Access::Writable(trie) => trie.remove(key),
            Access::ReadOnly(_) => Err(Refusal::ReadOnly),
        }
    }

    /// Takes all keys out. Takes no memory; the nodes that no snapshot shares are let go, which takes time in them.
    /// ReadOnly exactly where this trie is read-only, and no other refusal. A refused call leaves the map as it was.
    pub fn clear(&mut self) -> Result<(), Refusal>
        ensures read_only { IsErrOf result Refusal.ReadOnly ↔ IsTrue self.old.read_only }
        ensures ok { OnOk result (self.new ≡ record self.old { map = finite.empty }) }
        ensures same { OnErr result (self.new ≡ self.old) }
        ensures err { IsOkUnless result Refusal.ReadOnly }
    {
        match &mut self.access {
            Access::Writable(trie) => {
                trie.clear();
                Ok(())
            }
            Access::ReadOnly(_) => Err(Refusal::ReadOnly),
        }
    }

    /// A trie of the same map, which is read-only where this one is. What is written to either is not seen in the other.
    /// Copies no node: it takes two reference counts at most, and is refused only where one is full. A later write to
    /// either copies the nodes that it meets, eight at most.
    /// Its only refusal is OutOfMemory.
    pub fn snapshot(&mut self) -> Result<Ctrie<V, H, M, A>, Refusal>
        ensures ok { IfOk result (λ snapshot. snapshot ≡ self.old) }
        ensures same { self.new ≡ self.old }
        ensures err { IsOkUnless result Refusal.OutOfMemory }
    {
        let access = match &mut self.access {
            Access::Writable(trie) => {
                let shared = trie.share()?;
                let next = shared.thaw();
                drop(shared);
                Access::Writable(next?)
            }
            Access::ReadOnly(frozen) => Access::ReadOnly(frozen.copy()?),
        };
        Ok(Ctrie { access })
    }

    /// A read-only trie of the same map. What is written to this trie is not seen in it. Copies no node: it takes a
    /// reference count, and is refused only where that is full. A later write to this trie copies the nodes that it
    /// meets, eight at most.
    /// Its only refusal is OutOfMemory.
    pub fn read_only_snapshot(&mut self) -> Result<Ctrie<V, H, M, A>, Refusal>
        ensures ok { IfOk result (λ snapshot. snapshot ≡ record self.old { read_only = true }) }
        ensures same { self.new ≡ self.old }
        ensures err { IsOkUnless result Refusal.OutOfMemory }
    {
        let frozen = match &mut self.access {
            Access::Writable(trie) => trie.share()?,
            Access::ReadOnly(frozen) => frozen.copy()?,
        };
        Ok(Ctrie {
            access: Access::ReadOnly(frozen),
        })
    }

    /// The map as it is, which stays so whatever is written afterwards, and whose nodes keep their summaries: those that
    /// had none are given one first, also of a read-only trie. A refused call leaves the map as it was. Takes time in the
    /// nodes without a summary and in what stands right below them, copies those that a snapshot shares, and takes a
    /// reference count.
    /// Its only refusal is OutOfMemory.
    pub fn freeze(&mut self) -> Result<Frozen<V, M, H, A>, Refusal>
        ensures hash { IfOk result (λ frozen. frozen.hash ≡ self.old.hash) }
        ensures map { IfOk result (λ frozen. frozen.map ≡ self.old.map) }
        ensures sealed { IfOk result (λ frozen. frozen.sealed ≡ true) }
        ensures same { self.new ≡ self.old }
        ensures err { IsOkUnless result Refusal.OutOfMemory }
    {
        match &mut self.access {
            Access::Writable(trie) => trie.freeze(),
            Access::ReadOnly(frozen) => {
                frozen.seal()?;
                frozen.copy()
            }
        }
    }

    /// A trie of the same map that can be written. What is written to it is not seen in the frozen map. Copies no node: it
    /// takes a reference count, and is refused only where that is full.
    /// Its only refusal is OutOfMemory.
    pub fn thaw(frozen: &Frozen<V, M, H, A>) -> Result<Ctrie<V, H, M, A>, Refusal>
        ensures ok { IfOk result (λ trie. trie ≡ record { read_only = false; hash = frozen.now.hash; map = frozen.now.map }) }
        ensures err { IsOkUnless result Refusal.OutOfMemory }
    {
        Ok(Ctrie {
            access: Access::Writable(frozen.thaw()?),
        })
    }
}
