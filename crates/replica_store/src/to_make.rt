ghost use Rattle.std.specs.Prelude.{IfOk, IfErr, OnErr, []};
ghost use Rattle.op_model.specs.Place.{place_of};
ghost use Rattle.replica_model.specs.Step.{Do, Put, Remove, RemoveField, Clear, Made, Counted};
ghost use Rattle.replica_core.specs.Stepping.{Steps, Stays, IsRefused};
ghost use Rattle.replica_core.specs.Writing.{answer_of, call_of};
ghost use Rattle.replica_store.specs.Writes.{is_write_of};

use dots::{Dot, Field, Key, Refusal, Value};
use hash_path::PathHash;
use replica_core::{Replica, Write, Wrote};

/// An own write that a store is to make: one of these below, whose answer has a type of its own, or any.
pub trait ToMake {
    ghost use Rattle.replica_model.specs.Step.{Call, Answer as Answered};
    ghost use Rattle.replica_store.specs.Systems.{IsWrite};

    /// What it is answered.
    type Answer: Copy;

    // The call that it is.
    ghost call: { Self → Call };

    // What it is answered, in the words of the model.
    ghost answered: { Self.Answer → Answered };

    /// Makes the write.
    fn make<H: PathHash>(&self, replica: &mut Replica<H>) -> Result<Self::Answer, Refusal>
        ensures ok { IfOk result (λ answer. Steps H.hash_of replica.old replica.new (Do (call self.now)) (answered answer) []) }
        ensures refused { IfErr result (IsRefused replica.old (call self.now)) }
        ensures unchanged { OnErr result (Stays replica.old replica.new) };

    ghost is_write: { (write : Self) → IsWrite (call write) };
}

/// A value is written to a field of a key.
#[derive(Clone, Copy)]
pub struct ToPut<'a> {
    pub key: &'a Key,
    pub field: &'a Field,
    pub value: &'a Value,
}

impl<'a> ToMake for ToPut<'a> {
    type Answer = Dot;

    ghost call = { λ write. Put (place_of write.key.now write.field.now) write.value.now };

    ghost answered = { Made };

    ghost is_write = { λ write. tt };

    fn make<H: PathHash>(&self, replica: &mut Replica<H>) -> Result<Dot, Refusal> {
        replica.put_field(self.key, self.field, self.value)
    }
}

/// A key is removed.
#[derive(Clone, Copy)]
pub struct ToRemove<'a> {
    pub key: &'a Key,
}

impl<'a> ToMake for ToRemove<'a> {
    type Answer = u64;

    ghost call = { λ write. Remove write.key.now };

    ghost answered = { Counted };

    ghost is_write = { λ write. tt };

    fn make<H: PathHash>(&self, replica: &mut Replica<H>) -> Result<u64, Refusal> {
        replica.remove(self.key)
    }
}

/// A field of a key is removed.
#[derive(Clone, Copy)]
pub struct ToRemoveField<'a> {
    pub key: &'a Key,
    pub field: &'a Field,
}

impl<'a> ToMake for ToRemoveField<'a> {
    type Answer = u64;

    ghost call = { λ write. RemoveField (place_of write.key.now write.field.now) };

    ghost answered = { Counted };

    ghost is_write = { λ write. tt };

    fn make<H: PathHash>(&self, replica: &mut Replica<H>) -> Result<u64, Refusal> {
        replica.remove_field(self.key, self.field)
    }
}

/// All keys are removed.
#[derive(Clone, Copy)]
pub struct ToClear;

impl ToMake for ToClear {
    type Answer = u64;

    ghost call = { λ write. Clear };

    ghost answered = { Counted };

    ghost is_write = { λ write. tt };

    fn make<H: PathHash>(&self, replica: &mut Replica<H>) -> Result<u64, Refusal> {
        replica.clear()
    }
}

impl<'a> ToMake for Write<'a> {
    type Answer = Wrote;

    ghost call = { call_of };

    ghost answered = { answer_of };

    ghost is_write = { is_write_of };

    fn make<H: PathHash>(&self, replica: &mut Replica<H>) -> Result<Wrote, Refusal> {
        replica.write(self)
    }
}
