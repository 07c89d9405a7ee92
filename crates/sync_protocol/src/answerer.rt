ghost use Rattle.std.specs.Prelude.{◌≡◌, ◌≤◌, [], ◌∷◌, length, IfOk, OnOk, OnErr, IsOkUnless};
ghost use Rattle.std.specs.Option.{option_map};
ghost use Rattle.wire_form.specs.Message.{message_of};
ghost use Rattle.sync_protocol.specs.Answering.{LIMIT, kept_after, told_of, opening_of, answer_of};

use crate::keeping::{Snapshots, copy_snapshots, keep};
use crate::outbox::Outbox;
use crate::snapshot::{FieldStore, Snapshot};
use causal_context::Context;
use dots::Refusal;
use hash_path::{PathHash, Prefix};
use indexmap::IndexMap;
use std::alloc::{Allocator, Global};
use std::marker::Model;
use wire_form::{Message, Session};

/// The answering end of synchronisations: for each of the last eight sessions that were newly opened here, a snapshot of what the replica
/// held then. What it answers of a session is read off that snapshot, whatever the replica wrote since.
#[derive(Drop)]
pub struct Answerer<H: PathHash, A: Allocator + Copy = Global> {
    kept: Snapshots<H, A>,
}

impl<H: PathHash, A: Allocator + Copy> Model for Answerer<H, A> {
    ghost use Rattle.std.specs.Prelude.{◌≤◌, length};
    ghost use Rattle.sync_protocol.specs.Snapshot.{KeptValue, kept_code};

    ghost Value = { KeptValue H };

    ghost coded = { kept_code H.code };

    ghost view = { λ a. a.kept.entries };

    ghost invariant = { λ a. length a.kept.entries ≤ 8 };
}

impl<H: PathHash, A: Allocator + Copy> Answerer<H, A> {
    /// The answering end that keeps no snapshot. Takes no memory.
    pub fn new(alloc: A) -> Answerer<H, A>
        ensures { result ≡ [] }
    {
        Answerer {
            kept: IndexMap::new(alloc),
        }
    }

    /// The answer to a hello of this session, whose asker knows the dots of `seen`, at a replica that holds this store and knows
    /// the dots of this context: the opening of the session's snapshot, which is posted before anything changes. Where the session is
    /// kept that is the snapshot that is kept, and nothing moves; else it is a new one, which is kept from then on, and of eight that
    /// are kept the oldest is dropped. A refused call changes nothing, and posted nothing.
    ///
    /// The store is to be sealed, so that its digest is there: else the call takes time in the nodes that were written since the
    /// last seal, and in what is below them. Besides, it takes time and memory in the two contexts, and none in the store, whose
    /// nodes the snapshot shares.
    /// Its only refusal is OutOfMemory.
    pub fn hello<O: Outbox<A>>(
        &mut self,
        alloc: A,
        session: Session,
        seen: &Context<A>,
        store: &FieldStore<H, A>,
        context: &Context<A>,
        outbox: &mut O,
    ) -> Result<Message<A>, Refusal>
        ensures kept { OnOk result (self.new ≡ kept_after self.old session
            (record { seen = seen.now; hash = store.now.0; map = store.now.1; context = context.now })) }
        ensures opening { IfOk result (λ opening. message_of opening ≡ opening_of H.hash_of session (told_of self.old session
            (record { seen = seen.now; hash = store.now.0; map = store.now.1; context = context.now }))) }
        ensures posted { IfOk result (λ opening. O.gains outbox.old outbox.new (message_of opening ∷ [])) }
        ensures unposted { OnErr result (outbox.new ≡ outbox.old) }
        ensures unchanged { OnErr result (self.new ≡ self.old) }
        ensures err { IsOkUnless result Refusal.OutOfMemory }
        ensures few { length self.new ≤ LIMIT }
    {
        if let Some(snapshot) = self.kept.get(&session) {
            return post_opening(alloc, session, snapshot, outbox);
        }
        self.kept.reserve(1)?;
        let snapshot = Snapshot::take(alloc, seen, store, context)?;
        let opening = match post_opening(alloc, session, &snapshot, outbox) {
            Ok(opening) => opening,
            Err(refusal) => {
                drop(snapshot);
                return Err(refusal);
            }
        };
        keep(&mut self.kept, session, snapshot);
        Ok(opening)
    }

    /// The answer to an ask of this session for the page at a prefix: the page of the session's snapshot, with just the values of those
    /// of its dots that the asker did not know, or None where the snapshot has no key under the prefix; and where the session is not
    /// kept, that it is gone.
    /// Takes a look among eight sessions, what `page_value` takes of the page, and time and memory in the values that go with it.
    /// Its only refusal is OutOfMemory.
    pub fn ask(
        &self,
        alloc: A,
        session: Session,
        prefix: Prefix,
    ) -> Result<Option<Message<A>>, Refusal>
        ensures ok { IfOk result (λ answer. option_map message_of answer ≡ answer_of H.hash_of self.now session prefix) }
        ensures err { IsOkUnless result Refusal.OutOfMemory }
    {
        match self.kept.get(&session) {
            None => Ok(Some(Message::gone(session))),
            Some(snapshot) => snapshot.page(alloc, session, prefix),
        }
    }

    /// The same answering end. Its snapshots share the nodes of their stores; it takes time and memory in the names and single dots of
    /// their contexts.
    /// Its only refusal is OutOfMemory.
    pub fn copy(&self, alloc: A) -> Result<Answerer<H, A>, Refusal>
        ensures ok { IfOk result (λ copy. copy ≡ self.now) }
        ensures err { IsOkUnless result Refusal.OutOfMemory }
    {
        let kept = copy_snapshots(alloc, &self.kept)?;
        Ok(Answerer { kept })
    }
}

// The opening of a session's snapshot, which is posted.
fn post_opening<O: Outbox<A>, H: PathHash, A: Allocator + Copy>(
    alloc: A,
    session: Session,
    snapshot: &Snapshot<H, A>,
    outbox: &mut O,
) -> Result<Message<A>, Refusal>
    ensures opening { IfOk result (λ opening. message_of opening ≡ opening_of H.hash_of session snapshot.now) }
    ensures posted { IfOk result (λ opening. O.gains outbox.old outbox.new (message_of opening ∷ [])) }
    ensures unposted { OnErr result (outbox.new ≡ outbox.old) }
    ensures err { IsOkUnless result Refusal.OutOfMemory }
{
    let opening = snapshot.opening(alloc, session)?;
    if let Err(refusal) = outbox.post(alloc, &opening) {
        drop(opening);
        return Err(refusal);
    }
    Ok(opening)
}
