// What an asker makes of a message.
ghost use Rattle.std.specs.Prelude.{◌≡◌, ℕ, List, [], ◌∷◌, map, cond, Option, Some, IfOk, IsOkUnless};
ghost use Rattle.page_fetching.specs.Building.{GoesOn};
ghost use Rattle.page_fetching.specs.Taken.{taken_of, asked_of};
ghost use Rattle.page_fetching.specs.Taking.{fetch_of};
ghost use Rattle.wire_form.specs.Message.{Ask, Hello, message_of};
ghost use Rattle.sync_protocol.specs.Asking.{Asked, IsFrom, Waits, stage_with, asker_state, start};
ghost use Rattle.sync_protocol.specs.Turning.{Ignored, again, goes_on, comes_to, opening_at, page_at_stage, gone_at};
ghost use Rattle.sync_protocol.specs.Turning as turning;
ghost use Rattle.sync_protocol.specs.Turns.{step_of, turn_of, GoesOnBy};
ghost use Rattle.wire_form.specs.Session.{same_session};

use crate::asker::Asker;
use crate::stage::Stage;
use crate::step::Step;
use crate::turn::Turn;
use causal_context::Context;
use dots::Refusal;
use hash_path::{PathHash, Prefix};
use page_fetching::{Fetching, Taken};
use std::alloc::Allocator;
use wire_form::{Message, SentPage, Session};

// The asks for these prefixes.
fn asks_for<A: Allocator + Copy>(
    alloc: A,
    session: Session,
    prefixes: &[Prefix],
) -> Result<Vec<Message<A>, A>, Refusal>
    ensures ok { IfOk result (λ asks. map message_of asks.items ≡ map (Ask session) prefixes.now) }
    ensures err { IsOkUnless result Refusal.OutOfMemory }
{
    let mut asks = Vec::with_capacity(alloc, prefixes.len())?;
    for prefix in prefixes {
        asks.push(Message::ask(session, *prefix))?;
    }
    Ok(asks)
}

// Nothing changes by a message.
fn stays<H: PathHash, A: Allocator + Copy>(
    alloc: A,
    asker: &Asker<H, A>,
    step: Step<A>,
) -> Result<Turn<H, A>, Refusal>
    ensures ok { IfOk result (λ turn. turn_of turn ≡ (asker_state asker.now, step_of step)) }
    ensures from { IfOk result (λ turn. IsFrom asker.now turn.next) }
    ensures err { IsOkUnless result Refusal.OutOfMemory }
{
    let next = asker.copy(alloc)?;
    Ok(Turn { next, step })
}

// All is there, or the rest is asked for.
fn go_on<H: PathHash, A: Allocator + Copy>(
    alloc: A,
    asker: &Asker<H, A>,
    context: &Context<A>,
    fetching: Fetching<H, A>,
    asks: Vec<Message<A>, A>,
) -> Result<Turn<H, A>, Refusal>
    requires { GoesOn (start asker.now) fetching.built }
    ensures ok { IfOk result (λ turn. turn_of turn ≡ goes_on asker.now.session asker.now.own asker.now.seen context.now (map message_of asks.items) (fetch_of fetching)) }
    ensures from { IfOk result (λ turn. IsFrom asker.now turn.next) }
    ensures err { IsOkUnless result Refusal.OutOfMemory }
{
    let known = match context.copy(alloc) {
        Ok(known) => known,
        Err(refusal) => {
            drop(fetching);
            return Err(refusal);
        }
    };
    if fetching.is_complete() {
        drop(asks);
        let next = asker.with_stage(alloc, Stage::Complete(known, fetching.into_built()))?;
        return Ok(Turn {
            next,
            step: Step::Done,
        });
    }
    let next = asker.with_stage(alloc, Stage::Fetching(known, fetching))?;
    Ok(Turn {
        next,
        step: Step::Sent(asks),
    })
}

// An opening with this root digest.
fn begin<H: PathHash, A: Allocator + Copy>(
    alloc: A,
    asker: &Asker<H, A>,
    context: &Context<A>,
    root: &[u8; 32],
) -> Result<Turn<H, A>, Refusal>
    requires { asker.now.stage ≡ Asked }
    ensures ok { (told : Option (List ℕ)) → told ≡ Some root.now → IfOk result (λ turn. turn_of turn
        ≡ opening_at (H.hash_of asker.now.hash) asker.now.session (Waits asker.now.own asker.now.seen) context.now told) }
    ensures from { IfOk result (λ turn. IsFrom asker.now turn.next) }
    ensures err { IsOkUnless result Refusal.OutOfMemory }
{
    let asks = asks_for(alloc, asker.session, &[Prefix::root()])?;
    let begun = Fetching::begin(alloc, &asker.own, &asker.seen, context, root)?;
    match begun {
        None => stays(alloc, asker, Step::Mismatch),
        Some(fetching) => go_on(alloc, asker, context, fetching, asks),
    }
}

// An opening, where none was accepted yet.
fn open_with<H: PathHash, A: Allocator + Copy>(
    alloc: A,
    asker: &Asker<H, A>,
    context: &Context<A>,
    root: &Option<[u8; 32]>,
) -> Result<Turn<H, A>, Refusal>
    requires { asker.now.stage ≡ Asked }
    ensures ok { IfOk result (λ turn. turn_of turn
        ≡ opening_at (H.hash_of asker.now.hash) asker.now.session (Waits asker.now.own asker.now.seen) context.now root.now) }
    ensures from { IfOk result (λ turn. IsFrom asker.now turn.next) }
    ensures err { IsOkUnless result Refusal.OutOfMemory }
{
    let Some(root) = root else {
        let next = asker.with_nothing(alloc, context)?;
        return Ok(Turn {
            next,
            step: Step::Done,
        });
    };
    begin(alloc, asker, context, root)
}

// An opening of a session.
fn opening<H: PathHash, A: Allocator + Copy>(
    alloc: A,
    asker: &Asker<H, A>,
    session: Session,
    context: &Context<A>,
    root: &Option<[u8; 32]>,
) -> Result<Turn<H, A>, Refusal>
    ensures ok { IfOk result (λ turn. turn_of turn ≡ cond (same_session asker.now.session session)
        (opening_at (H.hash_of asker.now.hash) asker.now.session (stage_with asker.now.own asker.now.seen asker.now.stage) context.now root.now) (asker_state asker.now, Ignored)) }
    ensures from { IfOk result (λ turn. IsFrom asker.now turn.next) }
    ensures err { IsOkUnless result Refusal.OutOfMemory }
{
    if !asker.is_of(session) {
        return stays(alloc, asker, Step::Ignored);
    }
    if !asker.is_asked() {
        return stays(alloc, asker, Step::Ignored);
    }
    open_with(alloc, asker, context, root)
}

// What came of a page that was looked at while these dots are known.
fn taken<H: PathHash, A: Allocator + Copy>(
    alloc: A,
    asker: &Asker<H, A>,
    context: &Context<A>,
    taken: Taken<H, A>,
) -> Result<Turn<H, A>, Refusal>
    requires { GoesOnBy (start asker.now) taken }
    ensures ok { (asks : List (List ℕ)) → asked_of taken asks → IfOk result (λ turn. turn_of turn
        ≡ comes_to asker.now.session asker.now.own asker.now.seen context.now (stage_with asker.now.own asker.now.seen asker.now.stage) (map (Ask asker.now.session) asks) (taken_of taken)) }
    ensures from { IfOk result (λ turn. IsFrom asker.now turn.next) }
    ensures err { IsOkUnless result Refusal.OutOfMemory }
{
    match taken {
        Taken::Ignored => {
            drop(taken);
            stays(alloc, asker, Step::Ignored)
        }
        Taken::Mismatch => {
            drop(taken);
            stays(alloc, asker, Step::Mismatch)
        }
        Taken::Took(fetching, prefixes) => {
            let made = asks_for(alloc, asker.session, &prefixes);
            drop(prefixes);
            match made {
                Ok(asks) => go_on(alloc, asker, context, fetching, asks),
                Err(refusal) => {
                    drop(fetching);
                    Err(refusal)
                }
            }
        }
    }
}

// A page of a session.
fn page<H: PathHash, A: Allocator + Copy>(
    alloc: A,
    asker: &Asker<H, A>,
    session: Session,
    sent: &SentPage<A>,
) -> Result<Turn<H, A>, Refusal>
    ensures ok { IfOk result (λ turn. turn_of turn ≡ cond (same_session asker.now.session session)
        (page_at_stage (H.hash_of asker.now.hash) asker.now.session (stage_with asker.now.own asker.now.seen asker.now.stage) sent.now) (asker_state asker.now, Ignored)) }
    ensures from { IfOk result (λ turn. IsFrom asker.now turn.next) }
    ensures err { IsOkUnless result Refusal.OutOfMemory }
{
    if !asker.is_of(session) {
        return stays(alloc, asker, Step::Ignored);
    }
    let Some((context, fetching)) = asker.fetching() else {
        return stays(alloc, asker, Step::Ignored);
    };
    let came = fetching.take(alloc, &asker.own, &asker.seen, context, sent)?;
    taken(alloc, asker, context, came)
}

// That the answerer does not keep a session.
fn gone<H: PathHash, A: Allocator + Copy>(
    alloc: A,
    asker: &Asker<H, A>,
    session: Session,
) -> Result<Turn<H, A>, Refusal>
    ensures ok { IfOk result (λ turn. turn_of turn ≡ cond (same_session asker.now.session session)
        (gone_at asker.now.session (stage_with asker.now.own asker.now.seen asker.now.stage)) (asker_state asker.now, Ignored)) }
    ensures from { IfOk result (λ turn. IsFrom asker.now turn.next) }
    ensures err { IsOkUnless result Refusal.OutOfMemory }
{
    if !asker.is_of(session) {
        return stays(alloc, asker, Step::Ignored);
    }
    if asker.is_over() {
        return stays(alloc, asker, Step::Ignored);
    }
    let next = asker.with_stage(alloc, Stage::Over)?;
    Ok(Turn {
        next,
        step: Step::Gone,
    })
}

// The hello of a session once more.
fn hello_again<H: PathHash, A: Allocator + Copy>(
    alloc: A,
    asker: &Asker<H, A>,
) -> Result<Vec<Message<A>, A>, Refusal>
    ensures ok { IfOk result (λ messages. map message_of messages.items ≡ Hello asker.now.session asker.now.seen ∷ []) }
    ensures err { IsOkUnless result Refusal.OutOfMemory }
{
    let mut messages = Vec::with_capacity(alloc, 1)?;
    messages.push(Message::hello(asker.session, asker.seen.copy(alloc)?))?;
    Ok(messages)
}

impl<H: PathHash, A: Allocator + Copy> Asker<H, A> {
    /// The messages that are sent again where they may be lost: the hello, where no opening was accepted; else an ask for each prefix
    /// that is waited for, in ascending order; and none where the session is done or gone. Takes time and memory in the context, or in
    /// the prefixes, times the logarithm of their number.
    /// Its only refusal is OutOfMemory.
    pub fn retry(&self, alloc: A) -> Result<Vec<Message<A>, A>, Refusal>
        ensures ok { IfOk result (λ messages. map message_of messages.items ≡ again self.now.session (stage_with self.now.own self.now.seen self.now.stage)) }
        ensures err { IsOkUnless result Refusal.OutOfMemory }
    {
        if self.is_asked() {
            return hello_again(alloc, self);
        }
        let Some((_, fetching)) = self.fetching() else {
            return Ok(Vec::new(alloc));
        };
        let prefixes = fetching.prefixes(alloc)?;
        asks_for(alloc, self.session, &prefixes)
    }

    /// What an opening comes to. Where the session is another one, an opening was accepted before, or the message is of another kind, it
    /// is ignored. With no root digest the session is done, with the empty map. With the own one it is done with the own map, if the
    /// opening knows all of its dots; else it is a mismatch. With any other the root is asked for.
    /// The asker stays as it is, also where the call is refused, so it takes time and memory in the names and single dots of the contexts,
    /// whatever comes of the message; and where the opening does not know all that was seen, and has the own root digest, time in the own
    /// map.
    /// Its only refusal is OutOfMemory.
    pub fn on_opening(&self, alloc: A, message: &Message<A>) -> Result<Turn<H, A>, Refusal>
        ensures ok { IfOk result (λ turn. turn_of turn ≡ turning.on_opening (H.hash_of self.now.hash) (asker_state self.now) (message_of message.now)) }
        ensures from { IfOk result (λ turn. IsFrom self.now turn.next) }
        ensures err { IsOkUnless result Refusal.OutOfMemory }
    {
        match message {
            Message::Opening(session, context, root) => {
                opening(alloc, self, *session, context, root)
            }
            Message::Delta(_) => stays(alloc, self, Step::Ignored),
            Message::Hello(_, _) => stays(alloc, self, Step::Ignored),
            Message::Ask(_, _) => stays(alloc, self, Step::Ignored),
            Message::Page(_, _) => stays(alloc, self, Step::Ignored),
            Message::Gone(_) => stays(alloc, self, Step::Ignored),
        }
    }

    /// What a page comes to, or that the answerer does not keep the session. A page is taken where its prefix is waited for, its digest is
    /// the promised one, it fits, and its values are just those of the dots that the asker had not seen: then the children are asked for
    /// whose digests are not those of the own map, or the session is done. It is ignored where its prefix is not waited for, and else a
    /// mismatch. A gone ends the session, if it is not done. Of another session, or of another kind, a message is ignored.
    /// The asker stays as it is, also where the call is refused, so it takes time and memory in the names and single dots of the contexts,
    /// whatever comes of the message; of a page also in the page and in the keys that it takes away, each times the logarithm of the map;
    /// and where the opening does not know all that the asker had seen, also time in the own entries under the children whose digests are
    /// the own ones.
    /// Its only refusal is OutOfMemory.
    pub fn on_page(&self, alloc: A, message: &Message<A>) -> Result<Turn<H, A>, Refusal>
        ensures ok { IfOk result (λ turn. turn_of turn ≡ turning.on_page (H.hash_of self.now.hash) (asker_state self.now) (message_of message.now)) }
        ensures from { IfOk result (λ turn. IsFrom self.now turn.next) }
        ensures err { IsOkUnless result Refusal.OutOfMemory }
    {
        match message {
            Message::Page(session, sent) => page(alloc, self, *session, sent),
            Message::Gone(session) => gone(alloc, self, *session),
            Message::Delta(_) => stays(alloc, self, Step::Ignored),
            Message::Hello(_, _) => stays(alloc, self, Step::Ignored),
            Message::Opening(_, _, _) => stays(alloc, self, Step::Ignored),
            Message::Ask(_, _) => stays(alloc, self, Step::Ignored),
        }
    }
}
