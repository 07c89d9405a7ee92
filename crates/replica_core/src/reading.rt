// What a replica shows.
ghost use Rattle.std.specs.Prelude.{◌≡◌, ◌↔◌, ℕ, List, [], length, IfOk, IsOkUnless, IsTrue};
ghost use Rattle.delta_ops.specs.LiveMap.{store_state};
ghost use Rattle.op_model.specs.Meaning.{Stands, StandsWithin, HoldsField, HoldsKey};
ghost use Rattle.op_model.specs.Place.{place_of, plain};
ghost use Rattle.prefix_digest.specs.MapOf.{IsMapOf};
ghost use Rattle.prefix_digest.specs.Page.{digest_at};
ghost use Rattle.sync_model.specs.Differ.{Held};
ghost use Rattle.replica_core.specs.Meaning.{hash_in, meaning};
ghost use Rattle.replica_core.specs.Reading.{Lists};

use crate::replica::Replica;
use delta_ops::{fields, keys, size, values, values_of_key};
use dots::{Field, Key, Refusal, Value};
use hash_path::{PathHash, Prefix};
use prefix_digest::{FrozenMap, digest};
use std::alloc::Allocator;
use sync_protocol::FieldStore;

impl<H: PathHash, A: Allocator + Copy> Replica<H, A> {
    /// The distinct values of the key at its empty field, ascending by bytes: those that were written concurrently and were neither
    /// overwritten nor removed. Takes two look-ups, and time and memory in them.
    /// Its only refusal is OutOfMemory.
    pub fn get(&self, key: &Key<A>) -> Result<Vec<Value<A>, A>, Refusal>
        ensures ok { IfOk result (λ found. Lists (Stands (meaning self.now).live (plain key.now)) found.items) }
        ensures refused { IsOkUnless result Refusal.OutOfMemory }
    {
        self.get_field(key, &Field::empty())
    }

    /// The distinct values of the field of the key, ascending by bytes. Takes two look-ups, and time and memory in them.
    /// Its only refusal is OutOfMemory.
    pub fn get_field(&self, key: &Key<A>, field: &Field<A>) -> Result<Vec<Value<A>, A>, Refusal>
        ensures ok { IfOk result (λ found. Lists (Stands (meaning self.now).live (place_of key.now field.now)) found.items) }
        ensures refused { IsOkUnless result Refusal.OutOfMemory }
    {
        values(self.alloc, self.live.store(), key, field)
    }

    /// The distinct values of the key over all its fields, ascending by bytes. Takes a look-up, and time and memory in what stands at the key.
    /// Its only refusal is OutOfMemory.
    pub fn values_of_key(&self, key: &Key<A>) -> Result<Vec<Value<A>, A>, Refusal>
        ensures ok { IfOk result (λ found. Lists (StandsWithin (meaning self.now).live key.now) found.items) }
        ensures refused { IsOkUnless result Refusal.OutOfMemory }
    {
        values_of_key(self.alloc, self.live.store(), key)
    }

    /// The fields of the key that hold a value, ascending by bytes. Takes a look-up, and time and memory in their number.
    /// Its only refusal is OutOfMemory.
    pub fn fields(&self, key: &Key<A>) -> Result<Vec<Field<A>, A>, Refusal>
        ensures ok { IfOk result (λ found. Lists (HoldsField (meaning self.now).live key.now) found.items) }
        ensures refused { IsOkUnless result Refusal.OutOfMemory }
    {
        fields(self.alloc, self.live.store(), key)
    }

    /// Whether the key holds a value at some field. Takes a look-up, and no memory.
    pub fn contains(&self, key: &Key<A>) -> bool
        ensures { IsTrue result ↔ HoldsKey (meaning self.now).live key.now }
    {
        self.live.store().get(key).is_some()
    }

    /// The keys that hold a value at some field, ascending by bytes. Goes through the whole map: takes memory in the keys, and time in them,
    /// times the logarithm of their number.
    /// Its only refusal is OutOfMemory.
    pub fn keys(&self) -> Result<Vec<Key<A>, A>, Refusal>
        ensures ok { IfOk result (λ found. Lists (HoldsKey (meaning self.now).live) found.items) }
        ensures refused { IsOkUnless result Refusal.OutOfMemory }
    {
        keys(self.alloc, self.live.store())
    }

    /// How many keys hold a value at some field. Takes constant time.
    pub fn size(&self) -> u64
        ensures { (listed : List (List ℕ)) × Lists (HoldsKey (meaning self.now).live) listed × (result ≡ length listed) }
    {
        size(self.live.store())
    }

    /// The root digest of the map, or None where it has no key: replicas that hold the same have the same. Takes no memory, and constant
    /// time where the nodes keep their digests: `ask`, and a hello that is answered, give each node its own. A write takes away those on
    /// its path, and time goes to what is below the nodes that keep none.
    pub fn digest(&self) -> Option<[u8; 32]>
        ensures { (map : Held) × IsMapOf map (meaning self.now).live × (result ≡ digest_at (H.hash_of (hash_in self.now)) map []) }
    {
        digest(self.live.store().frozen(), Prefix::root())
    }

    /// Gives the nodes of the map that keep no digest theirs, as `ask` and a hello that is answered do, so that `digest` and what compares
    /// snapshots take no time in what is below them. What is held, known and to be sent stays as it is, also where it is refused; a further call
    /// goes on from there. Takes time in the nodes that were written since the last seal and in what stands right below them, copies those of
    /// them that a snapshot shares, and takes no other memory.
    /// Its only refusal is OutOfMemory.
    pub fn seal(&mut self) -> Result<(), Refusal>
        ensures same { self.new ≡ self.old }
        ensures refused { IsOkUnless result Refusal.OutOfMemory }
    {
        self.live.seal()
    }

    /// The map as it is, which stays so whatever is written. Copies nothing: it takes a reference count.
    /// Its only refusal is OutOfMemory.
    pub fn snapshot(&self) -> Result<FrozenMap<H, A>, Refusal>
        ensures hash { IfOk result (λ frozen. frozen.hash ≡ hash_in self.now) }
        ensures map { IfOk result (λ frozen. IsMapOf frozen.map (meaning self.now).live) }
        ensures refused { IsOkUnless result Refusal.OutOfMemory }
    {
        self.live.store().frozen().copy()
    }

    /// What it holds as it is, which stays so whatever is written: `values`, `values_of_key`, `fields`, `keys` and `size` of `delta_ops`
    /// read it. Copies nothing: it takes a reference count, and is refused only where that is full.
    /// Its only refusal is OutOfMemory.
    pub fn share(&self) -> Result<FieldStore<H, A>, Refusal>
        ensures hash { IfOk result (λ store. store.0 ≡ hash_in self.now) }
        ensures ok { IfOk result (λ store. (store_state store).at ≡ (meaning self.now).live.at) }
        ensures refused { IsOkUnless result Refusal.OutOfMemory }
    {
        self.live.store().share()
    }
}
