ghost use Rattle.std.specs.Prelude.{◌≡◌, ◌↔◌, IsTrue, IsNone, IfSome, IfOk, OnOk, OnErr, IsOkUnless};
ghost use Rattle.causal_context.specs.Context.{has, HasNone};
ghost use Rattle.op_model.specs.State.{join, Same, IsInside};
ghost use Rattle.dot_store.specs.Store.{HasNothing, state_with};
ghost use Rattle.causal_join.specs.Causal.{state_of};

use causal_context::Context;
use dot_store::DotStore;
use dots::Refusal;
use std::alloc::{Allocator, Global};
use std::marker::Model;
use std::mem;

/// A causal state: a dot store with its causal context. Each dot of the store is in the context. After Almeida,
/// Shoker and Baquero, "Delta State Replicated Data Types" (2018).
#[derive(Drop)]
pub struct Causal<S: DotStore<A>, A: Allocator + Copy = Global> {
    store: S,
    context: Context<A>,
}

impl<S: DotStore<A>, A: Allocator + Copy> Model for Causal<S, A> {
    ghost use Rattle.causal_context.specs.Context.{ContextValue};
    ghost use Rattle.op_model.specs.State.{IsInside};
    ghost use Rattle.causal_join.specs.Causal.{state_of};

    ghost Value = { S × ContextValue };

    ghost view = { λ c. (c.store, c.context) };

    ghost invariant = { λ c. IsInside (state_of S.at (c.store, c.context)) };
}

impl<S: DotStore<A>, A: Allocator + Copy> Causal<S, A> {
    /// The state that holds nothing and knows no dot. Takes no memory.
    pub fn bottom(alloc: A) -> Causal<S, A>
        ensures store { HasNothing (S.at result.0) }
        ensures context { HasNone result.1 }
    {
        Causal {
            store: S::empty(alloc),
            context: Context::new(alloc),
        }
    }

    /// The pair of the store and the context, or None exactly where a dot of the store is outside the
    /// context. Takes no memory, and a look in the context for each dot of the store.
    pub fn from_parts(store: S, context: Context<A>) -> Option<Causal<S, A>>
        ensures pair { IfSome result (λ pair. pair ≡ (store, context)) }
        ensures outside { IsNone result ↔ ¬ IsInside (state_with (S.at store) (has context)) }
    {
        if !store.is_inside(&context) {
            drop(context);
            return None;
        }
        Some(Causal { store, context })
    }

    /// The store of the pair. Copies nothing.
    pub fn store(&self) -> &S
        ensures value { result.now ≡ self.now.0 }
        ensures inside { IsInside (state_of S.at self.now) }
    {
        &self.store
    }

    /// The context of the pair. Copies nothing.
    pub fn context(&self) -> &Context<A>
        ensures value { result.now ≡ self.now.1 }
        ensures inside { IsInside (state_of S.at self.now) }
    {
        &self.context
    }

    /// The store and the context themselves. Copies nothing.
    pub fn into_parts(self) -> (S, Context<A>)
        ensures { result ≡ self }
    {
        (self.store, self.context)
    }

    /// The same state. What it copies is on this allocator; what its store shares with this one stays where it is. Takes time
    /// and memory in all that it holds, and in the names and single dots of the context.
    /// Its only refusal is OutOfMemory.
    pub fn copy(&self, alloc: A) -> Result<Causal<S, A>, Refusal>
        ensures ok { IfOk result (λ copy. Same (state_of S.at copy) (state_of S.at self.now)) }
        ensures err { IsOkUnless result Refusal.OutOfMemory }
    {
        let store = self.store.copy(alloc)?;
        let context = self.context.copy(alloc)?;
        Ok(Causal { store, context })
    }

    /// The causal join of the two states. Takes time in all that both hold, each once, with a look in the
    /// other context for what one side alone holds, and in the names and single dots of both contexts; and
    /// memory in what the join holds and knows.
    /// Its only refusal is OutOfMemory.
    pub fn join(&self, alloc: A, other: &Causal<S, A>) -> Result<Causal<S, A>, Refusal>
        ensures ok { IfOk result (λ both. Same (state_of S.at both)
            (join S.greater (state_of S.at self.now) (state_of S.at other.now))) }
        ensures err { IsOkUnless result Refusal.OutOfMemory }
    {
        let context = self.context.union(alloc, &other.context)?;
        let store = self
            .store
            .join(alloc, &self.context, &other.store, &other.context)?;
        Ok(Causal { store, context })
    }

    /// Joins the other state into this one. A refused call leaves this one as it was: so it takes what
    /// `join` does, also of what does not change, and the memory of both until it is done.
    /// Its only refusal is OutOfMemory.
    pub fn join_into(&mut self, alloc: A, other: &Causal<S, A>) -> Result<(), Refusal>
        ensures ok { OnOk result (Same (state_of S.at self.new)
            (join S.greater (state_of S.at self.old) (state_of S.at other.now))) }
        ensures unchanged { OnErr result (self.new ≡ self.old) }
        ensures err { IsOkUnless result Refusal.OutOfMemory }
    {
        let both = self.join(alloc, other)?;
        drop(mem::replace(self, both));
        Ok(())
    }

    /// Whether this state is below the other: whether joining it into the other gives the other. Takes a
    /// look in the other context for each name and single dot of this one. Where all of them are there, it
    /// takes what `join` does, and time to compare what that holds with the other.
    /// Its only refusal is OutOfMemory.
    pub fn is_below(&self, alloc: A, other: &Causal<S, A>) -> Result<bool, Refusal>
        ensures ok { IfOk result (λ below. IsTrue below
            ↔ Same (join S.greater (state_of S.at other.now) (state_of S.at self.now))
            (state_of S.at other.now)) }
        ensures err { IsOkUnless result Refusal.OutOfMemory }
    {
        if !other.context.includes(&self.context) {
            return Ok(false);
        }
        let both = other.join(alloc, self)?;
        let below = both.store.same(&other.store);
        drop(both);
        Ok(below)
    }
}
