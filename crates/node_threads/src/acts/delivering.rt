// What a client takes in.
ghost use Rattle.std.specs.Prelude.{[], ◌∷◌, refl};
ghost use Rattle.replica_core.specs.Answered.{outcome_of};
ghost use Rattle.replica_core.specs.Stepping.{mails_of};
ghost use Rattle.replica_model.specs.Step.{Came};
ghost use Rattle.node_threads.specs.declared.deed.Deed.TheVariants.{Deliver};
ghost use Rattle.node_threads.specs.History.{NeverRefuses, Replies};

use crate::named::{Named, Naming, Root};
use crate::showing::{place_for, show};
use dots::Refusal;
use hash_path::Fnv1a;
use replica_core::{Delivered, Replica};
use shared_object::Update;
use std::alloc::Allocator;
use std::sync::{Arc, Wait};
use wire_form::Message;

/// Takes a message in, as `Replica::deliver`. The reply is what it comes to, with what is to be sent for it.
///
/// Its only refusal is OutOfMemory. Takes what that call takes, and a root.
#[derive(Drop)]
pub struct Delivering<'a, A: Allocator + Copy> {
    /// Where memory for the root is taken.
    pub alloc: A,
    /// The message.
    pub message: &'a Message<A>,
}

impl<'a, K: Naming, A: Allocator + Copy> Update<Named<K, A>, A> for Delivering<'a, A> {
    type Reply = Delivered<A>;

    ghost event = { λ c reply place. record { place = place; deeds = Deliver c.message.now ∷ [] } };

    ghost answers = { λ c history told. Replies K.first history (Deliver c.message.now) (Came (outcome_of told.outcome)) (mails_of told.replies.items) };

    ghost refuses = { λ c history refusal. NeverRefuses history refusal };

    fn update<W: Wait>(
        &self,
        rt: &W,
        replica: &mut Replica<Fnv1a, A>,
    ) -> Result<(Delivered<A>, Arc<Root<A>, A>), Refusal> {
        let place = place_for(self.alloc, replica)?;
        let reply = replica.deliver(self.message)?;
        let root = show(rt, replica, place);
        Ok((reply, root))
    }

    ghost placed = { λ c reply place. refl };
}
