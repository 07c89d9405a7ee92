// What a replica of a world shows, told by the operations that it has seen alone.
ghost use Rattle.std.specs.Prelude.{◌≡◌, IfOk, IfErr};
ghost use Rattle.causal_context.specs.Context.{has};
ghost use Rattle.op_model.specs.Operation as op;
ghost use Rattle.op_model.specs.Place.{place_of, plain};
ghost use Rattle.op_model.specs.Shown.{values, values_of_key, fields, keys, size};
ghost use Rattle.prefix_digest.specs.MapOf.{root_digest};
ghost use Rattle.replica_world.specs.Keeping.{account_of};
ghost use Rattle.replica_world.specs.Reading.{IsUnread, Shows};

use crate::world::World;
use causal_context::Context;
use dots::{Field, Key, Name, Refusal, Value};
use hash_path::PathHash;
use std::alloc::Allocator;

// Each of these reads is refused with UnknownReplica just where no replica of the name is there, and else with OutOfMemory. What it answers is
// told by what the replica has seen, unless two pages or two values that one session met have one SHA-256.
impl<H: PathHash, A: Allocator + Copy> World<H, A> {
    /// The values of the key at its empty field, at the replica of this name, ascending by bytes: those of the writes that the replica has seen
    /// and that no operation that it has seen had observed. Takes what `Replica::get` takes, and the logarithm of the number of replicas.
    pub fn get_at(&self, name: Name, key: &Key<A>) -> Result<Vec<Value<A>, A>, Refusal>
        ensures ok { IfOk result (λ found. Shows (H.hash_of self.now.hash) (account_of self.now) name (λ S. found.items ≡ values S (plain key.now))) }
        ensures refused { IfErr result (IsUnread (account_of self.now) name) }
    {
        self.at(name)?.get(key)
    }

    /// The values of the field of the key, at the replica of this name, ascending by bytes. Takes what `Replica::get_field` takes, and the
    /// logarithm of the number of replicas.
    pub fn get_field_at(
        &self,
        name: Name,
        key: &Key<A>,
        field: &Field<A>,
    ) -> Result<Vec<Value<A>, A>, Refusal>
        ensures ok { IfOk result (λ found. Shows (H.hash_of self.now.hash) (account_of self.now) name (λ S. found.items ≡ values S (place_of key.now field.now))) }
        ensures refused { IfErr result (IsUnread (account_of self.now) name) }
    {
        self.at(name)?.get_field(key, field)
    }

    /// The values of the key over all its fields, at the replica of this name, ascending by bytes. Takes what `Replica::values_of_key` takes,
    /// and the logarithm of the number of replicas.
    pub fn values_of_key_at(&self, name: Name, key: &Key<A>) -> Result<Vec<Value<A>, A>, Refusal>
        ensures ok { IfOk result (λ found. Shows (H.hash_of self.now.hash) (account_of self.now) name (λ S. found.items ≡ values_of_key S key.now)) }
        ensures refused { IfErr result (IsUnread (account_of self.now) name) }
    {
        self.at(name)?.values_of_key(key)
    }

    /// The fields of the key that hold a value, at the replica of this name, ascending by bytes. Takes what `Replica::fields` takes, and the
    /// logarithm of the number of replicas.
    pub fn fields_at(&self, name: Name, key: &Key<A>) -> Result<Vec<Field<A>, A>, Refusal>
        ensures ok { IfOk result (λ found. Shows (H.hash_of self.now.hash) (account_of self.now) name (λ S. found.items ≡ fields S key.now)) }
        ensures refused { IfErr result (IsUnread (account_of self.now) name) }
    {
        self.at(name)?.fields(key)
    }

    /// The keys at which something stands, at the replica of this name, ascending by bytes. Takes what `Replica::keys` takes, and the
    /// logarithm of the number of replicas.
    pub fn keys_at(&self, name: Name) -> Result<Vec<Key<A>, A>, Refusal>
        ensures ok { IfOk result (λ found. Shows (H.hash_of self.now.hash) (account_of self.now) name (λ S. found.items ≡ keys S)) }
        ensures refused { IfErr result (IsUnread (account_of self.now) name) }
    {
        self.at(name)?.keys()
    }

    /// The number of keys at which something stands, at the replica of this name. Takes the logarithm of the number of replicas, and no memory.
    pub fn size_at(&self, name: Name) -> Result<u64, Refusal>
        ensures ok { IfOk result (λ found. Shows (H.hash_of self.now.hash) (account_of self.now) name (λ S. found ≡ size S)) }
        ensures refused { IfErr result (IsUnread (account_of self.now) name) }
    {
        let replica = self.at(name)?;
        Ok(replica.size())
    }

    /// The dots that the replica of this name knows: those of the writes that it has seen, and those that operations which it has seen had
    /// observed. Takes the logarithm of the number of replicas, and copies nothing.
    pub fn context_at(&self, name: Name) -> Result<&Context<A>, Refusal>
        ensures ok { IfOk result (λ found. Shows (H.hash_of self.now.hash) (account_of self.now) name (λ S. has found.now ≡ op.has (op.known S))) }
        ensures refused { IfErr result (IsUnread (account_of self.now) name) }
    {
        let replica = self.at(name)?;
        Ok(replica.context())
    }

    /// The root digest of the replica of this name, or None where it has no key. Takes what `Replica::digest` takes, and the logarithm of the
    /// number of replicas.
    pub fn digest_at(&self, name: Name) -> Result<Option<[u8; 32]>, Refusal>
        ensures ok { IfOk result (λ found. Shows (H.hash_of self.now.hash) (account_of self.now) name (λ S. found ≡ root_digest (H.hash_of self.now.hash) S)) }
        ensures refused { IfErr result (IsUnread (account_of self.now) name) }
    {
        let replica = self.at(name)?;
        Ok(replica.digest())
    }
}
