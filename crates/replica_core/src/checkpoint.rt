ghost use Rattle.std.specs.Prelude.{◌≡◌, IfOk, IsOkUnless};
ghost use Rattle.causal_join.specs.OrMap.{or_map_state};
ghost use Rattle.delta_ops.specs.LiveMap.{live_state};
ghost use Rattle.op_model.specs.State.{Same};
ghost use Rattle.replica_core.specs.Saving.{checkpointed, restored};

use causal_context::Context;
use causal_join::{Causal, OrMap};
use delta_ops::Outgoing;
use dots::{Name, Refusal};
use hash_path::{Fnv1a, PathHash};
use saved_form::Saved;
use std::alloc::{Allocator, Global};
use std::marker::Model;
use sync_protocol::FieldStore;

/// What a replica is to come back from, as it was at one moment, whatever it wrote since. It shares the map with the replica, so that it is
/// taken at once, and may be saved by another thread.
#[derive(Drop)]
pub struct Checkpoint<H: PathHash = Fnv1a, A: Allocator + Copy = Global> {
    pub(crate) name: Name,
    pub(crate) opened: u64,
    pub(crate) store: FieldStore<H, A>,
    pub(crate) context: Context<A>,
    pub(crate) group: Outgoing<A>,
}

impl<H: PathHash, A: Allocator + Copy> Model for Checkpoint<H, A> {
    ghost use Rattle.causal_join.specs.Causal.{state_of};
    ghost use Rattle.causal_join.specs.OrMap.{fields_at};
    ghost use Rattle.op_model.specs.State.{IsInside};
    ghost use Rattle.trie_map.specs.Keyed.{at_keys};
    ghost use Rattle.replica_core.specs.Saving.{CheckpointValue, checkpoint_code};

    ghost Value = { CheckpointValue H };

    ghost coded = { checkpoint_code H.code };

    ghost view = { λ c. record { name = c.name; pair = (c.store, c.context); group = c.group; opened = c.opened } };

    ghost invariant = { λ c. IsInside (state_of (at_keys fields_at) (c.store, c.context)) };
}

impl<H: PathHash, A: Allocator + Copy> Checkpoint<H, A> {
    /// What is to be kept of the replica: a copy of its own, to be encoded.
    ///
    /// Its only refusal is OutOfMemory. Takes time and memory in all that the replica held, times the logarithm of the map, and in what it had made
    /// since the last flush, times the square of its logarithm.
    pub fn saved(&self, alloc: A) -> Result<Saved<A>, Refusal>
        ensures ok { IfOk result (λ saved. restored saved ≡ checkpointed self.now) }
        ensures err { IsOkUnless result Refusal.OutOfMemory }
    {
        let group = self.group.pair(alloc)?;
        let live = match self.pair(alloc) {
            Ok(live) => live,
            Err(refusal) => {
                drop(group);
                return Err(refusal);
            }
        };
        Ok(Saved {
            name: self.name,
            opened: self.opened,
            live,
            group,
        })
    }

    // All that the replica held and knew, as one delta.
    fn pair(&self, alloc: A) -> Result<OrMap<A>, Refusal>
        ensures ok { IfOk result (λ pair. Same (or_map_state pair) (live_state self.now.pair)) }
        ensures err { IsOkUnless result Refusal.OutOfMemory }
    {
        let store = self.store.to_map(alloc)?;
        let context = match self.context.copy(alloc) {
            Ok(context) => context,
            Err(refusal) => {
                drop(store);
                return Err(refusal);
            }
        };
        Ok(Causal::from_parts(store, context).unwrap())
    }
}
