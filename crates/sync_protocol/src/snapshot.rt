ghost use Rattle.std.specs.Prelude.{◌≡◌, IfOk, IsOkUnless};
ghost use Rattle.std.specs.Option.{option_map};
ghost use Rattle.wire_form.specs.Message.{message_of};
ghost use Rattle.sync_protocol.specs.Answering.{opening_of, page_of};

use causal_context::Context;
use causal_join::Fields;
use dots::Refusal;
use hash_path::{PathHash, Prefix};
use prefix_digest::{ShaSummary, digest, page_value, values_for};
use std::alloc::{Allocator, Global};
use std::marker::Model;
use trie_map::TrieMap;
use wire_form::{Message, Session};

/// The store of a replica: what stands at each key, kept as a trie whose nodes keep digests once it is sealed.
pub type FieldStore<H, A = Global> = TrieMap<Fields<A>, ShaSummary, H, A>;

// What is kept for a session of an asker: the dots that the asker knew, and the store as it was then, with the dots that were
// known with it.
#[derive(Drop)]
pub(crate) struct Snapshot<H: PathHash, A: Allocator + Copy = Global> {
    seen: Context<A>,
    store: FieldStore<H, A>,
    context: Context<A>,
}

impl<H: PathHash, A: Allocator + Copy> Model for Snapshot<H, A> {
    ghost use Rattle.sync_protocol.specs.Snapshot.{SnapshotValue, snapshot_code};

    ghost Value = { SnapshotValue H };

    ghost coded = { snapshot_code H.code };

    ghost view = { λ s. record { seen = s.seen; hash = s.store.0; map = s.store.1; context = s.context } };
}

impl<H: PathHash, A: Allocator + Copy> Snapshot<H, A> {
    // The snapshot of a store, which shares its nodes.
    pub(crate) fn take(
        alloc: A,
        seen: &Context<A>,
        store: &FieldStore<H, A>,
        context: &Context<A>,
    ) -> Result<Snapshot<H, A>, Refusal>
        ensures ok { IfOk result (λ taken. taken ≡
            record { seen = seen.now; hash = store.now.0; map = store.now.1; context = context.now }) }
        ensures err { IsOkUnless result Refusal.OutOfMemory }
    {
        let store = store.share()?;
        match contexts(alloc, seen, context) {
            Ok((seen, context)) => Ok(Snapshot {
                seen,
                store,
                context,
            }),
            Err(refusal) => {
                drop(store);
                Err(refusal)
            }
        }
    }

    // The same, which shares the nodes of the store.
    pub(crate) fn copy(&self, alloc: A) -> Result<Snapshot<H, A>, Refusal>
        ensures ok { IfOk result (λ copy. copy ≡ self.now) }
        ensures err { IsOkUnless result Refusal.OutOfMemory }
    {
        Snapshot::take(alloc, &self.seen, &self.store, &self.context)
    }

    // Its opening.
    pub(crate) fn opening(&self, alloc: A, session: Session) -> Result<Message<A>, Refusal>
        ensures ok { IfOk result (λ opening. message_of opening ≡ opening_of H.hash_of session self.now) }
        ensures err { IsOkUnless result Refusal.OutOfMemory }
    {
        let context = self.context.copy(alloc)?;
        let root = digest(self.store.frozen(), Prefix::root());
        Ok(Message::opening(session, context, root))
    }

    // Its page at a prefix with the values that the asker did not know, or None where it has no key under the prefix.
    pub(crate) fn page(
        &self,
        alloc: A,
        session: Session,
        prefix: Prefix,
    ) -> Result<Option<Message<A>>, Refusal>
        ensures ok { IfOk result (λ page. option_map message_of page ≡ page_of H.hash_of session self.now prefix) }
        ensures err { IsOkUnless result Refusal.OutOfMemory }
    {
        let frozen = self.store.frozen();
        let values = values_for(alloc, frozen, prefix, &self.seen)?;
        let Some(page) = page_value(alloc, frozen, prefix)? else {
            return Ok(None);
        };
        match Message::page(session, prefix, values, page) {
            Some(message) => Ok(Some(message)),
            None => unreachable!(),
        }
    }
}

// These two contexts once more.
fn contexts<A: Allocator + Copy>(
    alloc: A,
    seen: &Context<A>,
    context: &Context<A>,
) -> Result<(Context<A>, Context<A>), Refusal>
    ensures ok { IfOk result (λ copies. copies ≡ (seen.now, context.now)) }
    ensures err { IsOkUnless result Refusal.OutOfMemory }
{
    let seen = seen.copy(alloc)?;
    match context.copy(alloc) {
        Ok(context) => Ok((seen, context)),
        Err(refusal) => {
            drop(seen);
            Err(refusal)
        }
    }
}
