// What a client reads.
ghost use Rattle.std.specs.Prelude.{◌≡◌, IfOk, IsOkUnless};

use crate::named::Root;
use delta_ops::{fields, keys, size, values};
use dots::{Field, Key, Refusal, Value};
use hash_path::Prefix;
use prefix_digest::digest;
use shared_object::Look;
use std::alloc::Allocator;

/// The distinct values of a field of a key, ascending by bytes. Its only refusal is OutOfMemory. Takes two look-ups, and time and memory in what stands
/// there.
#[derive(Drop)]
pub struct Getting<'a, A: Allocator + Copy> {
    /// Where memory for the values is taken.
    pub alloc: A,
    /// The key.
    pub key: &'a Key<A>,
    /// The field.
    pub field: &'a Field<A>,
}

impl<'a, A: Allocator + Copy> Look<Root<A>> for Getting<'a, A> {
    ghost use Rattle.std.specs.Prelude.{IfOk, IsOkUnless};
    ghost use Rattle.dots.specs.declared.refusal.Refusal.TheVariants.{OutOfMemory};
    ghost use Rattle.delta_ops.specs.LiveMap.{store_state};
    ghost use Rattle.op_model.specs.Meaning.{Stands};
    ghost use Rattle.op_model.specs.Place.{place_of};
    ghost use Rattle.replica_core.specs.Reading.{Lists};

    type Found = Result<Vec<Value<A>, A>, Refusal>;

    ghost finds = { λ look root found. IfOk found (λ v. Lists (Stands (store_state root) (place_of look.key.now look.field.now)) v.items) × IsOkUnless found OutOfMemory };

    fn look(&self, root: &Root<A>) -> Result<Vec<Value<A>, A>, Refusal> {
        values(self.alloc, root, self.key, self.field)
    }
}

/// The fields of a key that hold a value, ascending by bytes. Its only refusal is OutOfMemory. Takes a look-up, and time and memory in their number.
#[derive(Drop)]
pub struct FieldListing<'a, A: Allocator + Copy> {
    /// Where memory for the fields is taken.
    pub alloc: A,
    /// The key.
    pub key: &'a Key<A>,
}

impl<'a, A: Allocator + Copy> Look<Root<A>> for FieldListing<'a, A> {
    ghost use Rattle.std.specs.Prelude.{IfOk, IsOkUnless};
    ghost use Rattle.dots.specs.declared.refusal.Refusal.TheVariants.{OutOfMemory};
    ghost use Rattle.delta_ops.specs.LiveMap.{store_state};
    ghost use Rattle.op_model.specs.Meaning.{HoldsField};
    ghost use Rattle.replica_core.specs.Reading.{Lists};

    type Found = Result<Vec<Field<A>, A>, Refusal>;

    ghost finds = { λ look root found. IfOk found (λ v. Lists (HoldsField (store_state root) look.key.now) v.items) × IsOkUnless found OutOfMemory };

    fn look(&self, root: &Root<A>) -> Result<Vec<Field<A>, A>, Refusal> {
        fields(self.alloc, root, self.key)
    }
}

/// Whether the key holds a value at some field. Takes a look-up, and no memory.
#[derive(Drop)]
pub struct Containing<'a, A: Allocator + Copy> {
    /// The key.
    pub key: &'a Key<A>,
}

impl<'a, A: Allocator + Copy> Look<Root<A>> for Containing<'a, A> {
    ghost use Rattle.std.specs.Prelude.{◌↔◌, IsTrue};
    ghost use Rattle.delta_ops.specs.LiveMap.{store_state};
    ghost use Rattle.op_model.specs.Meaning.{HoldsKey};

    type Found = bool;

    ghost finds = { λ look root found. IsTrue found ↔ HoldsKey (store_state root) look.key.now };

    fn look(&self, root: &Root<A>) -> bool {
        root.frozen().lookup(self.key).is_some()
    }
}

/// The keys that hold a value at some field, ascending by bytes. Its only refusal is OutOfMemory. Goes through the whole map: takes memory in the keys, and
/// time in them, times the logarithm of their number.
#[derive(Drop)]
pub struct KeyListing<A: Allocator + Copy> {
    /// Where memory for the keys is taken.
    pub alloc: A,
}

impl<A: Allocator + Copy> Look<Root<A>> for KeyListing<A> {
    ghost use Rattle.std.specs.Prelude.{IfOk, IsOkUnless};
    ghost use Rattle.dots.specs.declared.refusal.Refusal.TheVariants.{OutOfMemory};
    ghost use Rattle.delta_ops.specs.LiveMap.{store_state};
    ghost use Rattle.op_model.specs.Meaning.{HoldsKey};
    ghost use Rattle.replica_core.specs.Reading.{Lists};

    type Found = Result<Vec<Key<A>, A>, Refusal>;

    ghost finds = { λ look root found. IfOk found (λ v. Lists (HoldsKey (store_state root)) v.items) × IsOkUnless found OutOfMemory };

    fn look(&self, root: &Root<A>) -> Result<Vec<Key<A>, A>, Refusal> {
        keys(self.alloc, root)
    }
}

/// How many keys hold a value at some field. Takes constant time, and no memory.
#[derive(Drop)]
pub struct Sizing;

impl<A: Allocator + Copy> Look<Root<A>> for Sizing {
    ghost use Rattle.std.specs.Prelude.{◌≡◌, ℕ, List, length};
    ghost use Rattle.delta_ops.specs.LiveMap.{store_state};
    ghost use Rattle.op_model.specs.Meaning.{HoldsKey};
    ghost use Rattle.replica_core.specs.Reading.{Lists};

    type Found = u64;

    ghost finds = { λ look root found. (listed : List (List ℕ)) × Lists (HoldsKey (store_state root)) listed × (found ≡ length listed) };

    fn look(&self, root: &Root<A>) -> u64 {
        size(root)
    }
}

/// The root digest of the map, or None where it has no key: nodes that hold the same have the same. Takes no memory, and constant time where the map keeps
/// its digests; time goes to what was written since a synchronisation was opened or a hello answered.
#[derive(Drop)]
pub struct Digesting;

impl<A: Allocator + Copy> Look<Root<A>> for Digesting {
    ghost use Rattle.std.specs.Prelude.{◌≡◌, []};
    ghost use Rattle.delta_ops.specs.LiveMap.{store_state};
    ghost use Rattle.hash_path.specs.Fnv1a.{fnv1a};
    ghost use Rattle.prefix_digest.specs.MapOf.{IsMapOf};
    ghost use Rattle.prefix_digest.specs.Page.{digest_at};
    ghost use Rattle.sync_model.specs.Differ.{Held};

    type Found = Option<[u8; 32]>;

    ghost finds = { λ look root found. (map : Held) × IsMapOf map (store_state root) × (found ≡ digest_at fnv1a map []) };

    fn look(&self, root: &Root<A>) -> Option<[u8; 32]> {
        digest(root.frozen(), Prefix::root())
    }
}

/// The map as it is published, which stays so whatever is written. Copies nothing: it takes a reference count, and its only refusal is OutOfMemory,
/// where that is full.
#[derive(Drop)]
pub struct Sharing;

impl<A: Allocator + Copy> Look<Root<A>> for Sharing {
    ghost use Rattle.std.specs.Prelude.{◌≡◌, IfOk, IsOkUnless};
    ghost use Rattle.dots.specs.declared.refusal.Refusal.TheVariants.{OutOfMemory};

    type Found = Result<Root<A>, Refusal>;

    ghost finds = { λ look root found. IfOk found (λ copy. copy ≡ root) × IsOkUnless found OutOfMemory };

    fn look(&self, root: &Root<A>) -> Result<Root<A>, Refusal> {
        root.share()
    }
}
