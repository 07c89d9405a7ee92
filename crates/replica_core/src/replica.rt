ghost use Rattle.std.specs.Prelude.{◌≡◌, [], IfOk, IsOkUnless};
ghost use Rattle.std.specs.FinMap as finite;
ghost use Rattle.causal_context.specs.Context.{has};
ghost use Rattle.replica_model.specs.Replica.{fresh};
ghost use Rattle.replica_core.specs.Meaning.{hash_in, meaning, waiting_in};

use crate::sessions::copy_sessions;
use causal_context::Context;
use delta_ops::{LiveOrMap, LiveStore, Outgoing};
use dots::{Name, Refusal};
use hash_path::{Fnv1a, PathHash};
use live_map::Live;
use prefix_digest::ShaSummary;
use std::alloc::{Allocator, Global};
use std::marker::Model;
use sync_protocol::{Answerer, Asker};

/// One replica of the map: what it holds, what it made since it last sent, its own synchronisations that are open, and the snapshots
/// that it keeps for those of others.
///
/// A write costs the field that it writes, and look-ups in the map; a delivery the keys that it touches, each with all its fields unless it
/// brings one write, and the context where it brings several. Both copy what a snapshot shares: then a key with many fields is dear, as all of them
/// are made anew. So are many keys whose hashes of 32 bits are the same: one is found among them by halves, but a write moves or copies the
/// list that they stand in, and a seal goes through it. The bytes of a key are kept once for each call or message that brought a dot which
/// stands there. What was written since the last flush is kept as it was written, and a flush costs what it sends, times the square of its
/// logarithm.
///
/// No call goes through the map but `keys`, `clear` and `copy`, `digest` and a first synchronisation where the nodes keep no digests yet,
/// and the delivery of an opening or a page of a peer that had not seen all that was seen here: each dot of the own entries that stay is
/// looked up then, and each own key that the peer lacks is joined anew at the end. It shows an observed-remove map of multi-value
/// registers, after Almeida, Shoker and Baquero, "Delta State Replicated Data Types" (2018).
#[derive(Drop)]
pub struct Replica<H: PathHash = Fnv1a, A: Allocator + Copy = Global> {
    pub(crate) alloc: A,
    pub(crate) name: Name,
    pub(crate) live: LiveOrMap<ShaSummary, H, A>,
    pub(crate) group: Outgoing<A>,
    pub(crate) opened: u64,
    pub(crate) sessions: Vec<Asker<H, A>, A>,
    pub(crate) answerer: Answerer<H, A>,
}

impl<H: PathHash, A: Allocator + Copy> Model for Replica<H, A> {
    ghost use Rattle.replica_core.specs.Meaning.{ReplicaValue, replica_code};
    ghost use Rattle.replica_core.specs.Own.{IsReplica};

    ghost Value = { ReplicaValue H };

    ghost coded = { replica_code H.code };

    ghost view = { λ r. record { name = r.name; live = r.live; group = r.group; opened = r.opened; sessions = r.sessions.items; kept = r.answerer } };

    ghost invariant = { λ r. IsReplica H.hash_of (record { name = r.name; live = r.live; group = r.group; opened = r.opened; sessions = r.sessions.items; kept = r.answerer }) };
}

impl<H: PathHash, A: Allocator + Copy> Replica<H, A> {
    /// The replica of this name to which nothing happened yet, whose keys' paths are by this hash: all replicas that exchange messages
    /// are to use one. Its memory is taken from `alloc`. Takes none by itself.
    pub fn new(alloc: A, name: Name, hash: H) -> Replica<H, A>
        ensures fresh { meaning result ≡ fresh name }
        ensures waiting { waiting_in result ≡ [] }
        ensures hash { hash_in result ≡ hash }
    {
        Replica {
            alloc,
            name,
            live: Live::new(alloc, hash),
            group: Outgoing::new(alloc),
            opened: 0,
            sessions: Vec::new(alloc),
            answerer: Answerer::new(alloc),
        }
    }

    /// A replica in the same state: it holds, is to send, synchronises and keeps the same. Both make dots of one name, so at most one
    /// of the two may still write, or send what it writes. The map's nodes, the group and the snapshots are shared. Takes time and
    /// memory in the dots that the index names, as it is copied, though not in the bytes of their keys, and in the contexts.
    /// Its only refusal is OutOfMemory.
    pub fn copy(&self) -> Result<Replica<H, A>, Refusal>
        ensures ok { IfOk result (λ copy. meaning copy ≡ meaning self.now) }
        ensures waiting { IfOk result (λ copy. waiting_in copy ≡ waiting_in self.now) }
        ensures hash { IfOk result (λ copy. hash_in copy ≡ hash_in self.now) }
        ensures err { IsOkUnless result Refusal.OutOfMemory }
    {
        let group = self.group.copy(self.alloc)?;
        let sessions = copy_sessions(self.alloc, &self.sessions)?;
        let answerer = self.answerer.copy(self.alloc)?;
        let live = self.live.copy(self.alloc)?;
        Ok(Replica {
            alloc: self.alloc,
            name: self.name,
            live,
            group,
            opened: self.opened,
            sessions,
            answerer,
        })
    }

    /// Its name.
    pub fn name(&self) -> Name
        ensures { result ≡ (meaning self.now).name }
    {
        self.name
    }

    /// The dots that it has seen: those of the writes, and those that operations observed. Copies nothing.
    pub fn context(&self) -> &Context<A>
        ensures { has result.now ≡ (meaning self.now).live.has }
    {
        self.live.context()
    }
}
