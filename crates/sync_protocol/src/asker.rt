ghost use Rattle.std.specs.Prelude.{◌≡◌, false, IfSome, IsNone, IfOk, IfErr, IsOkUnless};
ghost use Rattle.std.specs.FinMap as finite;
ghost use Rattle.causal_context.specs.Context.{has};
ghost use Rattle.wire_form.specs.Message.{Hello, message_of};
ghost use Rattle.sync_model.specs.Laws.{KnowsEachDot};
ghost use Rattle.page_fetching.specs.Building.{GoesOn};
ghost use Rattle.wire_form.specs.Session.{same_session};
ghost use Rattle.sync_protocol.specs.Asking.{Asked, Has, is_asked, has_completed, is_fetching, is_over, start, asker_state, GoesOnFrom, IsFrom};
ghost use Rattle.sync_protocol.specs.Asking as asking;
ghost use Rattle.sync_protocol.specs.Staged.{staged};

use crate::opened::Opened;
use crate::snapshot::FieldStore;
use crate::stage::Stage;
use causal_context::Context;
use dots::Refusal;
use hash_path::PathHash;
use page_fetching::{Built, Fetching};
use prefix_digest::FrozenMap;
use std::alloc::{Allocator, Global};
use std::marker::Model;
use wire_form::{Message, Session};

/// The asking end of one synchronisation: a snapshot of what the replica held when it asked, the dots that it had seen, and how far
/// the session is. A call that takes a message leaves it as it is, and gives the asker after the message.
#[derive(Drop)]
pub struct Asker<H: PathHash, A: Allocator + Copy = Global> {
    pub(crate) session: Session,
    pub(crate) own: FrozenMap<H, A>,
    pub(crate) seen: Context<A>,
    pub(crate) stage: Stage<H, A>,
}

impl<H: PathHash, A: Allocator + Copy> Model for Asker<H, A> {
    ghost use Rattle.sync_protocol.specs.Asking.{AskerValue, asker_code, IsAsker};
    ghost use Rattle.sync_protocol.specs.Staged.{staged};

    ghost Value = { AskerValue H };

    ghost coded = { asker_code H.code };

    ghost view = { λ a. record { session = a.session; hash = a.own.hash; own = a.own.map; seen = a.seen; stage = staged a.stage } };

    ghost invariant = { λ a. IsAsker (record { session = a.session; hash = a.own.hash; own = a.own.map; seen = a.seen; stage = staged a.stage }) };
}

impl<H: PathHash, A: Allocator + Copy> Asker<H, A> {
    /// Opens a session of a replica that holds this store and knows the dots of this context: the asker, and the hello that is to be sent.
    /// Takes time and memory in the context, and none in the store, whose nodes the asker shares. The store is to be sealed, so
    /// that its digests are there.
    /// Its only refusal is OutOfMemory.
    pub fn open(
        alloc: A,
        session: Session,
        store: &FieldStore<H, A>,
        context: &Context<A>,
    ) -> Result<(Asker<H, A>, Message<A>), Refusal>
        requires { KnowsEachDot (has context.now) store.now.1 }
        ensures asker { IfOk result (λ opened. opened.0 ≡ record { session = session; hash = store.now.0; own = store.now.1; seen = context.now; stage = Asked }) }
        ensures hello { IfOk result (λ opened. message_of opened.1 ≡ Hello session context.now) }
        ensures err { IsOkUnless result Refusal.OutOfMemory }
    {
        let known = context.copy(alloc)?;
        let (own, seen) = match ground(alloc, store.frozen(), context) {
            Ok(ground) => ground,
            Err(refusal) => {
                drop(known);
                return Err(refusal);
            }
        };
        let asker = Asker {
            session,
            own,
            seen,
            stage: Stage::Asked,
        };
        Ok((asker, Message::hello(session, known)))
    }

    /// The session.
    pub fn session(&self) -> Session
        ensures { result ≡ self.now.session }
    {
        self.session
    }

    /// The same asker, which shares the nodes of its maps. Takes time and memory in the names and single dots of its contexts.
    /// Its only refusal is OutOfMemory.
    pub fn copy(&self, alloc: A) -> Result<Asker<H, A>, Refusal>
        ensures ok { IfOk result (λ copy. copy ≡ self.now) }
        ensures err { IsOkUnless result Refusal.OutOfMemory }
    {
        let stage = copy_stage(alloc, &self.stage)?;
        self.with_stage(alloc, stage)
    }

    /// What a session gives that is done, or the asker back where it is not. Copies nothing, and takes no memory.
    pub fn result(self) -> Result<Opened<H, A>, Asker<H, A>>
        ensures done { IfOk result (λ opened. self.stage ≡ asking.Complete opened.context opened.built) }
        ensures base { IfOk result (λ opened. (opened.base.hash ≡ self.hash) × (opened.base.map ≡ self.own) × (opened.seen ≡ self.seen)) }
        ensures stays { IfOk result (λ opened. GoesOn (record { hash = opened.base.hash; entries = opened.base.map; touched = finite.empty }) opened.built) }
        ensures within { IfOk result (λ opened. KnowsEachDot (has opened.seen) opened.base.map) }
        ensures back { IfErr result (λ asker. (asker ≡ self) × (has_completed self.stage ≡ false)) }
    {
        let Asker {
            session,
            own,
            seen,
            stage,
        } = self;
        match stage {
            Stage::Complete(context, built) => Ok(Opened {
                base: own,
                seen,
                built,
                context,
            }),
            Stage::Asked => Err(Asker {
                session,
                own,
                seen,
                stage: Stage::Asked,
            }),
            Stage::Fetching(context, fetching) => Err(Asker {
                session,
                own,
                seen,
                stage: Stage::Fetching(context, fetching),
            }),
            Stage::Over => Err(Asker {
                session,
                own,
                seen,
                stage: Stage::Over,
            }),
        }
    }

    // The same session at another stage.
    pub(crate) fn with_stage(&self, alloc: A, stage: Stage<H, A>) -> Result<Asker<H, A>, Refusal>
        requires { GoesOnFrom self.now (staged stage) }
        ensures ok { IfOk result (λ asker. asker ≡ record self.now { stage = staged stage }) }
        ensures err { IsOkUnless result Refusal.OutOfMemory }
    {
        let (own, seen) = match ground(alloc, &self.own, &self.seen) {
            Ok(ground) => ground,
            Err(refusal) => {
                drop(stage);
                return Err(refusal);
            }
        };
        Ok(Asker {
            session: self.session,
            own,
            seen,
            stage,
        })
    }

    // The same session where its peer had no key: it is complete with the empty map, which is built from the empty map.
    pub(crate) fn with_nothing(
        &self,
        alloc: A,
        context: &Context<A>,
    ) -> Result<Asker<H, A>, Refusal>
        ensures ok { IfOk result (λ asker. asker_state asker ≡ record { session = self.now.session; stage = Has context.now finite.empty }) }
        ensures from { IfOk result (λ asker. IsFrom self.now asker) }
        ensures err { IsOkUnless result Refusal.OutOfMemory }
    {
        let context = context.copy(alloc)?;
        let hash = self.own.hash();
        let built = Built::new(alloc, FrozenMap::new(alloc, hash));
        let stage = Stage::Complete(context, built);
        Ok(Asker {
            session: self.session,
            own: FrozenMap::new(alloc, hash),
            seen: Context::new(alloc),
            stage,
        })
    }

    // Whether it asked, and accepted no opening.
    pub(crate) fn is_asked(&self) -> bool
        ensures { result ≡ is_asked self.now.stage }
    {
        match &self.stage {
            Stage::Asked => true,
            Stage::Fetching(_, _) => false,
            Stage::Complete(_, _) => false,
            Stage::Over => false,
        }
    }

    // The dots that the opening knows, and what is fetched, where it fetches.
    pub(crate) fn fetching(&self) -> Option<(&Context<A>, &Fetching<H, A>)>
        ensures found { IfSome result (λ parts. self.now.stage ≡ asking.Fetching parts.0.now parts.1.now) }
        ensures none { IsNone result → is_fetching self.now.stage ≡ false }
        ensures goes { IfSome result (λ parts. GoesOn (start self.now) parts.1.now.built) }
        ensures within { KnowsEachDot (has self.now.seen) self.now.own }
    {
        match &self.stage {
            Stage::Fetching(context, fetching) => Some((context, fetching)),
            Stage::Asked => None,
            Stage::Complete(_, _) => None,
            Stage::Over => None,
        }
    }

    // Whether it is complete, or ended with nothing.
    pub(crate) fn is_over(&self) -> bool
        ensures { result ≡ is_over self.now.stage }
    {
        match &self.stage {
            Stage::Asked => false,
            Stage::Fetching(_, _) => false,
            Stage::Complete(_, _) => true,
            Stage::Over => true,
        }
    }

    // Whether a session is this one.
    pub(crate) fn is_of(&self, session: Session) -> bool
        ensures { result ≡ same_session self.now.session session }
    {
        self.session == session
    }
}

// What is asked by: the own map, and the dots seen with it, once more.
fn ground<H: PathHash, A: Allocator + Copy>(
    alloc: A,
    own: &FrozenMap<H, A>,
    seen: &Context<A>,
) -> Result<(FrozenMap<H, A>, Context<A>), Refusal>
    ensures own { IfOk result (λ ground. ground.0 ≡ own.now) }
    ensures seen { IfOk result (λ ground. ground.1 ≡ seen.now) }
    ensures err { IsOkUnless result Refusal.OutOfMemory }
{
    let seen = seen.copy(alloc)?;
    match own.copy() {
        Ok(own) => Ok((own, seen)),
        Err(refusal) => {
            drop(seen);
            Err(refusal)
        }
    }
}

// The same stage.
fn copy_stage<H: PathHash, A: Allocator + Copy>(
    alloc: A,
    stage: &Stage<H, A>,
) -> Result<Stage<H, A>, Refusal>
    ensures ok { IfOk result (λ copy. staged copy ≡ staged stage.now) }
    ensures err { IsOkUnless result Refusal.OutOfMemory }
{
    match stage {
        Stage::Asked => Ok(Stage::Asked),
        Stage::Over => Ok(Stage::Over),
        Stage::Fetching(context, fetching) => {
            let context = context.copy(alloc)?;
            match fetching.copy() {
                Ok(fetching) => Ok(Stage::Fetching(context, fetching)),
                Err(refusal) => {
                    drop(context);
                    Err(refusal)
                }
            }
        }
        Stage::Complete(context, built) => {
            let context = context.copy(alloc)?;
            match built.copy() {
                Ok(built) => Ok(Stage::Complete(context, built)),
                Err(refusal) => {
                    drop(context);
                    Err(refusal)
                }
            }
        }
    }
}
