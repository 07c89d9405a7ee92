ghost use Rattle.std.specs.Prelude.{◌≡◌, OnOk, OnErr, IfOk, IsOkUnless};
ghost use Rattle.causal_context.specs.Context.{has};
ghost use Rattle.dot_store.specs.Store.{HasEachKnown};
ghost use Rattle.dots.specs.declared.refusal.Refusal.TheVariants.{OutOfMemory};
ghost use Rattle.trie_map.specs.Here.{HoldsAny, IsJoinOf};

use causal_context::Context;
use dot_store::DotStore;
use dots::{Dot, Refusal};
use gen_trie::Change;
use std::alloc::Allocator;

// The join of another store into one that stands at a key. `found` has each dot that stands there and that the other context knows.
#[derive(Clone, Copy)]
pub(crate) struct JoinIn<'a, S: DotStore<A>, A: Allocator + Copy> {
    pub alloc: A,
    pub own: &'a Context<A>,
    pub yours: &'a S,
    pub theirs: &'a Context<A>,
    pub found: &'a [Dot],
}

impl<'a, S: DotStore<A>, A: Allocator + Copy> Change<S> for JoinIn<'a, S, A> {
    ghost fits = { λ j s. HasEachKnown (S.at s) (has j.theirs.now) j.found.now
        × HoldsAny S.at S.greater s (has j.own.now) j.yours.now (has j.theirs.now) };

    ghost becomes = { λ j s both. IsJoinOf S.at S.greater s (has j.own.now) j.yours.now (has j.theirs.now) both × S.canonical both };

    fn made(&self, value: &S) -> Result<S, Refusal> {
        let both = value.join(self.alloc, self.own, self.yours, self.theirs)?;
        // proof: the clause `canonical` of `is_empty`.
        let _ = both.is_empty();
        Ok(both)
    }

    fn apply(&self, value: &mut S) -> Result<(), Refusal> {
        value.join_into(self.alloc, self.own, self.yours, self.theirs, self.found)?;
        // proof: the clause `canonical` of `is_empty`.
        let _ = value.is_empty();
        Ok(())
    }
}
