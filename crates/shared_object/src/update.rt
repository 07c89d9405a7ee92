ghost use Rattle.std.specs.Prelude.{◌≡◌, ◌++◌, ◌∷◌, [], ℕ, List, IfOk, IfErr, OnErr};
ghost use Rattle.shared_object.specs.Calling.{IsRefusedBy};

use crate::object::Object;
use dots::Refusal;
use root_cell::About;
use std::alloc::Allocator;
use std::marker::PhantomData;
use std::sync::{Arc, Wait};

/// A call that writes.
pub trait Update<J: Object, A: Allocator> {
    ghost use Rattle.std.specs.Prelude.{◌≡◌, ℕ, List};
    ghost use Rattle.dots.specs.declared.refusal.Refusal.{Refusal};

    /// What it is answered.
    type Reply;

    // The event that it is, once it was answered, of the client at a place.
    ghost event: { Self → Self.Reply → ℕ → J.Event };

    // It is answered so after this history.
    ghost answers: { Self → List J.Event → Self.Reply → Type 0 };

    // It is refused so after this history, want of memory aside.
    ghost refuses: { Self → List J.Event → Refusal → Type 0 };

    /// Makes the call, and a root of what the object then is, in its place. A refused call changes nothing; for want of memory it is refused
    /// only where the object does not refuse it. It is called with the lock held, so the others that write wait for it.
    fn update<W: Wait>(
        &self,
        rt: &W,
        object: &mut J::State,
    ) -> Result<(Self::Reply, Arc<J::Root, A>), Refusal>
        ensures after { IfOk result (λ r. (history : List J.Event) → (place : ℕ) → J.after object.old history → J.after object.new (history ++ event self.now r.0 place ∷ [])) }
        ensures root { IfOk result (λ r. (history : List J.Event) → (place : ℕ) → J.after object.old history → J.stands r.1.value (history ++ event self.now r.0 place ∷ [])) }
        ensures answers { IfOk result (λ r. (history : List J.Event) → J.after object.old history → answers self.now history r.0) }
        ensures refused { IfErr result (λ e. (history : List J.Event) → J.after object.old history → IsRefusedBy (refuses self.now) history e) }
        ensures unchanged { OnErr result ((history : List J.Event) → J.after object.old history → J.after object.new history) };

    // The event is at the place of its client.
    ghost placed: { (update : Self) (reply : Self.Reply) (place : ℕ) → J.Event.place (event update reply place) ≡ place };
}

/// A call that writes, with its answer and the place of its client.
#[derive(Drop)]
pub(crate) struct Made<'a, C, Y> {
    pub(crate) place: usize,
    pub(crate) update: &'a C,
    pub(crate) reply: &'a Y,
}

/// What is published about it.
pub(crate) struct Making<J, A> {
    of: PhantomData<(J, A)>,
}

impl<'a, J: Object, A: Allocator, C: Update<J, A>> About<Made<'a, C, C::Reply>, J::Event>
    for Making<J, A> {
    ghost event = { λ made. C.event made.update.now made.reply.now made.place };
}
