// What is saved of a replica, and how one comes back from it.
ghost use Rattle.std.specs.Prelude.{◌≡◌, ◌∷◌, [], IfOk, OnOk, IsOkUnless};
ghost use Rattle.causal_join.specs.OrMap.{or_map_state};
ghost use Rattle.delta_ops.specs.LiveMap.{live_state};
ghost use Rattle.replica_model.specs.Replica.{fresh, restarts};
ghost use Rattle.replica_core.specs.Meaning.{hash_in, meaning, waiting_in};
ghost use Rattle.replica_core.specs.Saving.{checkpointed, restored};

use crate::checkpoint::Checkpoint;
use crate::replica::Replica;
use causal_join::OrMap;
use delta_ops::{LiveOrMap, Outgoing};
use dots::{Name, Refusal};
use hash_path::PathHash;
use live_map::Live;
use prefix_digest::ShaSummary;
use saved_form::Saved;
use std::alloc::Allocator;
use sync_protocol::Answerer;

impl<H: PathHash, A: Allocator + Copy> Replica<H, A> {
    /// What the replica is to come back from, if it is lost: what it holds, what it is to send, its name and the number of its last own
    /// synchronisation, as they are now. Its open synchronisations and the snapshots that it keeps for those of others are no part of it.
    ///
    /// It is to be saved before anything is sent that is made, or asked for, later. Its only refusal is OutOfMemory. Copies no node of the map:
    /// takes time and memory in the context, and in the number of deltas that were made since the last flush.
    pub fn checkpoint(&self) -> Result<Checkpoint<H, A>, Refusal>
        ensures ok { IfOk result (λ checkpoint. checkpointed checkpoint ≡ restarts (meaning self.now)) }
        ensures err { IsOkUnless result Refusal.OutOfMemory }
    {
        let group = self.group.copy(self.alloc)?;
        let context = match self.live.context().copy(self.alloc) {
            Ok(context) => context,
            Err(refusal) => {
                drop(group);
                return Err(refusal);
            }
        };
        let store = match self.live.store().share() {
            Ok(store) => store,
            Err(refusal) => {
                drop(group);
                drop(context);
                return Err(refusal);
            }
        };
        Ok(Checkpoint {
            name: self.name,
            opened: self.opened,
            store,
            context,
            group,
        })
    }

    /// The replica that comes back from what was saved of it: it holds, is to send and is named the same, none of its own synchronisations
    /// is open, and the next one has the next number; it keeps no snapshot for those of others, which are told so. The paths of its keys
    /// are by this hash. Its name is to be used by no other replica from then on, and nothing is to have been sent after it was saved
    /// that it had made since.
    ///
    /// Its only refusal is OutOfMemory. Takes time and memory in what was saved, times the logarithm of the map.
    pub fn resume(alloc: A, hash: H, saved: Saved<A>) -> Result<Replica<H, A>, Refusal>
        ensures ok { IfOk result (λ replica. meaning replica ≡ restored saved) }
        ensures waiting { IfOk result (λ replica. waiting_in replica ≡ or_map_state saved.group ∷ []) }
        ensures hash { IfOk result (λ replica. hash_in replica ≡ hash) }
        ensures err { IsOkUnless result Refusal.OutOfMemory }
    {
        let Saved {
            name,
            opened,
            live,
            group,
        } = saved;
        let mut outgoing = Outgoing::new(alloc);
        if let Err(refusal) = outgoing.push(alloc, group) {
            drop(live);
            return Err(refusal);
        }
        match held(alloc, hash, live) {
            Ok(held) => Ok(Replica {
                alloc,
                name,
                live: held,
                group: outgoing,
                opened,
                sessions: Vec::new(alloc),
                answerer: Answerer::new(alloc),
            }),
            Err(refusal) => {
                drop(outgoing);
                Err(refusal)
            }
        }
    }

    /// The replica of a name that was never used, which has seen what the saved one had seen: for who cannot save before anything is sent. What
    /// was made since the save is lost unless it was sent, and what was to be sent reaches others by synchronisations. Each name that wrote
    /// stays in the contexts for good.
    ///
    /// Its only refusal is OutOfMemory. Takes time and memory in what was saved, times the logarithm of the map.
    pub fn new_from(
        alloc: A,
        name: Name,
        hash: H,
        saved: Saved<A>,
    ) -> Result<Replica<H, A>, Refusal>
        ensures ok { IfOk result (λ replica. meaning replica ≡ record (fresh name) { live = or_map_state saved.live }) }
        ensures waiting { IfOk result (λ replica. waiting_in replica ≡ []) }
        ensures hash { IfOk result (λ replica. hash_in replica ≡ hash) }
        ensures err { IsOkUnless result Refusal.OutOfMemory }
    {
        let Saved {
            name: _,
            opened: _,
            live,
            group,
        } = saved;
        drop(group);
        let held = held(alloc, hash, live)?;
        Ok(Replica {
            alloc,
            name,
            live: held,
            group: Outgoing::new(alloc),
            opened: 0,
            sessions: Vec::new(alloc),
            answerer: Answerer::new(alloc),
        })
    }
}

// The live pair that holds and knows what the delta does.
fn held<H: PathHash, A: Allocator + Copy>(
    alloc: A,
    hash: H,
    delta: OrMap<A>,
) -> Result<LiveOrMap<ShaSummary, H, A>, Refusal>
    ensures ok { IfOk result (λ live. live_state live.0 ≡ or_map_state delta) }
    ensures hash { IfOk result (λ live. live.0.0.0 ≡ hash) }
    ensures err { IsOkUnless result Refusal.OutOfMemory }
{
    let mut live = Live::new(alloc, hash);
    if let Err(refusal) = live.join_delta(alloc, &delta) {
        drop(live);
        drop(delta);
        return Err(refusal);
    }
    drop(delta);
    Ok(live)
}
