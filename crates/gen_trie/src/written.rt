ghost use Rattle.std.specs.Prelude.{◌≡◌, is_some, true, IfSome, OnOk, OnErr, IsOk, IfOk, IsOkUnless};
ghost use Rattle.std.specs.declared.option.Option.TheVariants.{None};
ghost use Rattle.std.specs.Option.{option_map, MatchOption};
ghost use Rattle.std.specs.FinMap as finite;
ghost use Rattle.hash_path.specs.Map.{walk};
ghost use Rattle.gen_trie.specs.Shown.{trie_shown};
ghost use Rattle.gen_trie.specs.Changes.{ChangesValue};
ghost use Rattle.dots.specs.declared.refusal.Refusal.TheVariants.{OutOfMemory};

use crate::change::Change;
use crate::entry::Entry;
use crate::frozen::Frozen;
use crate::iter::Iter;
use crate::summary::Summary;
use dots::{Key, Refusal};
use hash_path::PathHash;
use std::alloc::{Allocator, Global};
use std::marker::Model;
use std::sync::Arc;

/// A finite map from keys to values that is written in place and read as a frozen map at any time.
///
/// A write copies just those nodes on its way that another map shares, as a copy of the frozen map that was taken before: that
/// one stays what it was. Where none was taken since, a write copies nothing.
#[derive(Drop)]
pub struct Written<V, M: Summary<V>, H: PathHash, A: Allocator = Global> {
    frozen: Frozen<V, M, H, A>,
}

impl<V, M: Summary<V>, H: PathHash, A: Allocator> Model for Written<V, M, H, A> {
    ghost use Rattle.gen_trie.specs.Shown.{Shown, shown_code};

    ghost Value = { Shown H V };

    ghost coded = { shown_code H.code V.code };

    ghost view = { λ a. a.frozen };
}

impl<V, M: Summary<V>, H: PathHash, A: Allocator + Copy> Written<V, M, H, A> {
    /// The map with no keys, whose paths are by this hash. Takes no memory.
    pub fn new(alloc: A, hash: H) -> Written<V, M, H, A>
        ensures { result ≡ trie_shown hash finite.empty 0 true }
    {
        Written {
            frozen: Frozen::new(alloc, hash),
        }
    }

    /// A map that holds what this frozen one does, and shares its nodes. Takes no memory.
    pub fn of(frozen: Frozen<V, M, H, A>) -> Written<V, M, H, A>
        ensures { result ≡ frozen }
    {
        Written { frozen }
    }

    /// The map as it is now, to be read. A copy of it stays so, whatever is written afterwards. Copies nothing.
    pub fn frozen(&self) -> &Frozen<V, M, H, A>
        ensures { result.now ≡ self.now }
    {
        &self.frozen
    }

    /// The value of the key. Touches eight nodes at most, and takes no memory.
    /// None exactly where the key is not there.
    pub fn lookup(&self, key: &Key<A>) -> Option<&V>
        ensures { option_map (λ value. value.now) result ≡ finite.get self.now.map key.now }
    {
        self.frozen.lookup(key)
    }

    /// The number of keys. It is kept, so this takes constant time.
    pub fn size(&self) -> u64
        ensures { result ≡ finite.len self.now.map }
    {
        self.frozen.size()
    }

    /// The keys with their values, in the order of `Frozen::iter`. Takes no memory. A walk of all of them goes into each node
    /// once.
    pub fn iter(&self) -> Iter<'_, V, M, A>
        ensures { result ≡ walk (H.hash_of self.now.hash) self.now.map }
    {
        self.frozen.iter()
    }
}

impl<V: Drop, M: Summary<V>, H: PathHash, A: Allocator + Copy> Written<V, M, H, A> {
    /// Puts the value at the key, in the place of one that is there. A refused call leaves the map as it was, and drops the
    /// value. A map of 2^64 - 1 keys refuses a new one as for want of memory. Touches eight nodes at most, and copies those
    /// that another map shares; takes memory for the entry besides, and for the nodes between two keys whose paths begin
    /// alike.
    /// Its only refusal is OutOfMemory.
    pub fn insert(&mut self, key: Key<A>, value: V) -> Result<(), Refusal>
        ensures ok { OnOk result (self.new ≡ record self.old { map = finite.insert self.old.map key value; sealed = self.new.sealed }) }
        ensures same { OnErr result (self.new ≡ record self.old { sealed = self.new.sealed }) }
        ensures err { IsOkUnless result OutOfMemory }
    {
        self.frozen.insert(key, value)
    }

    /// Takes the key out, and gives its entry, with the value that was there. A refused call leaves the map as it was. A key
    /// that is not there takes a look-up, and no memory. Touches eight nodes at most, and copies those that another map
    /// shares.
    /// Its only refusal is OutOfMemory.
    pub fn remove(&mut self, key: &Key<A>) -> Result<Option<Arc<Entry<V, A>, A>>, Refusal>
        ensures value { IfOk result (λ taken. option_map (λ entry. entry.value.value) taken ≡ finite.get self.old.map key.now) }
        ensures absent { finite.get self.old.map key.now ≡ None → IsOk result }
        ensures key { IfOk result (λ taken. IfSome taken (λ entry. entry.value.key ≡ key.now)) }
        ensures ok { OnOk result (self.new ≡ record self.old { map = finite.remove self.old.map key.now; sealed = self.new.sealed }) }
        ensures same { OnErr result (self.new ≡ record self.old { sealed = self.new.sealed }) }
        ensures err { IsOkUnless result OutOfMemory }
    {
        self.frozen.remove(key)
    }

    /// Changes the value at the key, and tells whether the key is there: where it is not, nothing changes. A refused call leaves
    /// the map as it was. Touches eight nodes at most, and copies those that another map shares; the value is changed as it stands
    /// where no other map has its entry, and else it is made anew, with memory for the entry. A key that is not there takes a
    /// look-up, and no memory.
    /// Its only refusal is OutOfMemory.
    pub fn change<C: Change<V>>(&mut self, key: &Key<A>, change: &C) -> Result<bool, Refusal>
        requires { IfSome (finite.get self.old.map key.now) (C.fits change.now) }
        ensures there { IfOk result (λ there. there ≡ is_some (finite.get self.old.map key.now)) }
        ensures ok { OnOk result (MatchOption (finite.get self.old.map key.now) (self.new ≡ self.old)
            (ChangesValue (C.becomes change.now) key.now self.old self.new)) }
        ensures same { OnErr result (self.new ≡ record self.old { sealed = self.new.sealed }) }
        ensures err { IsOkUnless result OutOfMemory }
    {
        self.frozen.change(key, change)
    }

    /// Renews the summaries that writes took away, so that each node keeps the summary of its entries. The map stays as it is,
    /// also where it is refused; a further call goes on from there. Takes time in the nodes without a summary and in what stands
    /// right below them, copies those that another map shares, and takes no other memory.
    /// Its only refusal is OutOfMemory.
    pub fn seal(&mut self) -> Result<(), Refusal>
        ensures ok { OnOk result (self.new ≡ record self.old { sealed = true }) }
        ensures same { OnErr result (self.new ≡ self.old) }
        ensures err { IsOkUnless result OutOfMemory }
    {
        self.frozen.seal()
    }
}
