// What a client sends of what was written.
ghost use Rattle.std.specs.Prelude.{[], ◌∷◌, refl};
ghost use Rattle.replica_core.specs.Stepping.{mail_or_none};
ghost use Rattle.replica_core.specs.declared.call.Call.TheVariants as call;
ghost use Rattle.replica_model.specs.Step.{Nothing};
ghost use Rattle.node_threads.specs.declared.deed.Deed.TheVariants as deed;
ghost use Rattle.node_threads.specs.History.{NeverRefuses, Replies};
ghost use Rattle.node_threads.specs.TimedServing.{FlushesAs};

use crate::named::{Named, Naming, Root};
use crate::showing::{place_for, show};
use dots::Refusal;
use hash_path::Fnv1a;
use replica_core::{Letter, Replica};
use shared_object::Update;
use std::alloc::Allocator;
use std::sync::{Arc, Wait};
use wire_form::Message;

/// Sends what was made since the last flush, as `Replica::flush`. The reply is its delta, or None where nothing was made.
///
/// Its only refusal is OutOfMemory. Takes what that call takes, and a root.
#[derive(Drop)]
pub struct Flushing<A: Allocator + Copy> {
    /// Where memory for the root is taken.
    pub alloc: A,
}

impl<K: Naming, A: Allocator + Copy> Update<Named<K, A>, A> for Flushing<A> {
    type Reply = Option<Message<A>>;

    ghost event = { λ c reply place. record { place = place; deeds = deed.Call call.Flush ∷ [] } };

    ghost answers = { λ c history sent. Replies K.first history (deed.Call call.Flush) Nothing (mail_or_none sent) };

    ghost refuses = { λ c history refusal. NeverRefuses history refusal };

    fn update<W: Wait>(
        &self,
        rt: &W,
        replica: &mut Replica<Fnv1a, A>,
    ) -> Result<(Option<Message<A>>, Arc<Root<A>, A>), Refusal> {
        let place = place_for(self.alloc, replica)?;
        let reply = replica.flush()?;
        let root = show(rt, replica, place);
        Ok((reply, root))
    }

    ghost placed = { λ c reply place. refl };
}

/// Sends what was made since the last flush, as `Replica::flush_bytes`. The reply is the letter with its bytes, or None where nothing was made: they
/// are there before anything counts as sent.
///
/// Its only refusal is OutOfMemory. Takes what that call takes, and a root.
#[derive(Drop)]
pub struct FlushingBytes<A: Allocator + Copy> {
    /// Where memory for the root is taken.
    pub alloc: A,
}

impl<K: Naming, A: Allocator + Copy> Update<Named<K, A>, A> for FlushingBytes<A> {
    type Reply = Option<Letter<A>>;

    ghost event = { λ c reply place. record { place = place; deeds = deed.Call call.Flush ∷ [] } };

    ghost answers = { λ c history sent. FlushesAs K.first history sent };

    ghost refuses = { λ c history refusal. NeverRefuses history refusal };

    fn update<W: Wait>(
        &self,
        rt: &W,
        replica: &mut Replica<Fnv1a, A>,
    ) -> Result<(Option<Letter<A>>, Arc<Root<A>, A>), Refusal> {
        let place = place_for(self.alloc, replica)?;
        let reply = replica.flush_bytes()?;
        let root = show(rt, replica, place);
        Ok((reply, root))
    }

    ghost placed = { λ c reply place. refl };
}
