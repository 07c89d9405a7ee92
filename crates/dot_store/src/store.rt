ghost use Rattle.std.specs.Prelude.{◌≡◌, ◌↔◌, ◌⊎◌, Option, None, false, IsTrue, IsSome, IfOk, OnOk, OnErr, IsOkUnless};
ghost use Rattle.dots.specs.Dot.{DotValue};
ghost use Rattle.causal_context.specs.Context.{has};
ghost use Rattle.op_model.specs.State.{join, IsInside};
ghost use Rattle.dot_store.specs.Store.{HasEachKnown, HasNothing, HoldsDot, HoldsSame, state_with};

use causal_context::Context;
use dots::{Dot, Refusal};
use std::alloc::Allocator;
use std::mem;

/// A dot store: it holds things at dots, each at a place.
///
/// A store knows no context. `join` is handed the contexts of both sides, since a dot that one side lacks
/// and knows was removed there. Each refusal is OutOfMemory. After Almeida, Shoker and Baquero, "Delta State
/// Replicated Data Types" (2018).
pub trait DotStore<A: Allocator + Copy>: Drop {
    /// Where a dot can stand: the keys that lead there.
    type Place;

    /// What can be held at a dot.
    type Held;

    ghost at: { Self → Self.Place → DotValue → Option Self.Held };

    ghost greater: { Self.Held → Self.Held → Self.Held };

    // The form that every store of this kind is kept in, as that its dots ascend. What a store holds does not tell it.
    ghost canonical: { Self → Type 0 };

    /// The store that holds nothing. Takes no memory.
    fn empty(alloc: A) -> Self
        ensures { HasNothing (at result) };

    /// Whether the store holds nothing. Tells also that the store is in its canonical form, as each is: a map asks it
    /// of what it is given to keep. Takes no memory, and in the stores of these crates constant time.
    fn is_empty(&self) -> bool
        ensures nothing { IsTrue result ↔ HasNothing (at self.now) }
        ensures canonical { canonical self.now };

    /// Whether something is held at the dot, at some place. Takes no memory. A set, or a map from dots, takes a
    /// look-up; a map from keys takes one in the store of each key, up to the first that has the dot.
    fn contains(&self, dot: Dot) -> bool
        ensures found { IsTrue result → HoldsDot (at self.now) dot }
        ensures absent { result ≡ false → (place : Self.Place) → at self.now place dot ≡ None };

    /// Whether each dot of the store is in the context. Takes no memory, and a look in the context for each dot, up
    /// to the first that is not there.
    fn is_inside(&self, context: &Context<A>) -> bool
        ensures { IsTrue result ↔ IsInside (state_with (at self.now) (has context.now)) };

    /// The context of the dots that stand in the store. Takes time and memory in these: a map from keys takes each over as
    /// often as its keys can be halved, but one that is kept as a trie makes the union anew for each key.
    /// Its only refusal is OutOfMemory.
    fn dots(&self, alloc: A) -> Result<Context<A>, Refusal>
        ensures only { IfOk result (λ dots. (d : DotValue) → IsTrue (has dots d) → HoldsDot (at self.now) d) }
        ensures all { IfOk result (λ dots. (place : Self.Place) (d : DotValue)
            → IsSome (at self.now place d) → IsTrue (has dots d)) }
        ensures err { IsOkUnless result Refusal.OutOfMemory };

    /// The causal join of this store under its context and the other under its context: at each place and dot, of two
    /// things held the greater, and what one side alone holds where the other does not know it. Takes time in all
    /// that both hold, each once, with a look in the other context for what one side alone holds, and memory in what
    /// is kept; a map that is kept as a trie takes memory in what changes.
    /// Its only refusal is OutOfMemory.
    fn join(
        &self,
        alloc: A,
        own: &Context<A>,
        other: &Self,
        theirs: &Context<A>,
    ) -> Result<Self, Refusal>
        ensures ok { IfOk result (λ both. HoldsSame (at both)
            (join greater (state_with (at self.now) (has own.now))
            (state_with (at other.now) (has theirs.now))).at) }
        ensures err { IsOkUnless result Refusal.OutOfMemory };

    /// Joins the other store, under its context, into this one. `found` has each dot that stands here and that the other
    /// context knows. A refused call leaves this store as it was. Takes what `join` does, and the memory of both until it is
    /// done. A map from keys takes less where the other has one key at most, and eight dots at most are found: it looks for
    /// these in the store of each key, and where they stand at that key alone, or at one key alone, it makes the store of that
    /// key anew and leaves the others as they are.
    /// Its only refusal is OutOfMemory.
    fn join_into(
        &mut self,
        alloc: A,
        own: &Context<A>,
        yours: &Self,
        theirs: &Context<A>,
        found: &[Dot],
    ) -> Result<(), Refusal>
        requires { HasEachKnown (at self.old) (has theirs.now) found.now }
        ensures ok { OnOk result (HoldsSame (at self.new)
            (join greater (state_with (at self.old) (has own.now))
            (state_with (at yours.now) (has theirs.now))).at) }
        ensures unchanged { OnErr result (self.new ≡ self.old) }
        ensures err { IsOkUnless result Refusal.OutOfMemory }
    {
        let both = self.join(alloc, own, yours, theirs)?;
        drop(mem::replace(self, both));
        Ok(())
    }

    /// A store that holds the same. What it copies is on this allocator; what it shares with this store stays where
    /// it is. Takes time and memory in what it copies: in all that the store holds, and in none of it where it is
    /// kept as a trie.
    /// Its only refusal is OutOfMemory.
    fn copy(&self, alloc: A) -> Result<Self, Refusal>
        ensures ok { IfOk result (λ copy. HoldsSame (at copy) (at self.now)) }
        ensures err { IsOkUnless result Refusal.OutOfMemory };

    /// Whether the two stores hold the same. Takes no memory, and time in all that both hold, up to the first
    /// difference.
    fn same(&self, other: &Self) -> bool
        ensures { IsTrue result ↔ HoldsSame (at self.now) (at other.now) };

    ghost greater_comm: { (x y : Self.Held) → greater x y ≡ greater y x };

    ghost greater_assoc: { (x y z : Self.Held) → greater (greater x y) z ≡ greater x (greater y z) };

    ghost greater_idem: { (x : Self.Held) → greater x x ≡ x };
}
