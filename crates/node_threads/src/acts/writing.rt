// The own writes of a client.
ghost use Rattle.std.specs.Prelude.{[], ◌∷◌, refl};
ghost use Rattle.replica_core.specs.Writing.{answer_of, call_of};
ghost use Rattle.node_threads.specs.Batch.{deed_of};
ghost use Rattle.node_threads.specs.History.{RefusesAfter, Replies};

use crate::named::{Named, Naming, Root};
use crate::showing::{place_for, show};
use dots::Refusal;
use hash_path::Fnv1a;
use replica_core::{Replica, Write, Wrote};
use shared_object::Update;
use std::alloc::Allocator;
use std::sync::{Arc, Wait};

/// Makes a write, as `Replica::write`. The reply is what that answers.
///
/// Its refusals are NumbersSpent, just where it is a put and no number is left for its dot, and else OutOfMemory. Takes what that call takes, and a
/// root.
#[derive(Drop)]
pub struct Writing<'a, A: Allocator + Copy> {
    /// Where memory for the root is taken.
    pub alloc: A,
    /// The write.
    pub write: Write<'a, A>,
}

impl<'a, K: Naming, A: Allocator + Copy> Update<Named<K, A>, A> for Writing<'a, A> {
    type Reply = Wrote;

    ghost event = { λ c reply place. record { place = place; deeds = deed_of c.write ∷ [] } };

    ghost answers = { λ c history wrote. Replies K.first history (deed_of c.write) (answer_of wrote) [] };

    ghost refuses = { λ c history refusal. RefusesAfter K.first history (call_of c.write) refusal };

    fn update<W: Wait>(
        &self,
        rt: &W,
        replica: &mut Replica<Fnv1a, A>,
    ) -> Result<(Wrote, Arc<Root<A>, A>), Refusal> {
        if let Some(refusal) = replica.write_refusal(&self.write) {
            return Err(refusal);
        }
        let place = match place_for(self.alloc, replica) {
            Ok(place) => place,
            Err(refusal) => return Err(refusal),
        };
        match replica.write(&self.write) {
            Ok(reply) => {
                let root = show(rt, replica, place);
                Ok((reply, root))
            }
            Err(refusal) => Err(refusal),
        }
    }

    ghost placed = { λ c reply place. refl };
}
