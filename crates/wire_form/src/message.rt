ghost use Rattle.std.specs.Prelude.{◌≡◌, ◌↔◌, IsNone, IfSome};
ghost use Rattle.causal_context.specs.Context.{has};
ghost use Rattle.causal_join.specs.OrMap.{or_map_at};
ghost use Rattle.op_model.specs.State.{IsInside};
ghost use Rattle.dot_store.specs.Store.{state_with};
ghost use Rattle.wire_form.specs.Page.{value_of};
ghost use Rattle.wire_form.specs.Sent.{CanBeSent};
ghost use Rattle.wire_form.specs.Message as form;
ghost use Rattle.wire_form.specs.Message.{Delta, Hello, Opening, Ask, Gone, addressee_of, message_of, session_of};

use crate::page::Page;
use crate::sent_page::SentPage;
use crate::session::Session;
use causal_context::Context;
use causal_join::{Causal, OrMap, OrMapStore};
use dots::{Name, Value};
use hash_path::Prefix;
use std::alloc::{Allocator, Global};

/// What replicas send to one another.
#[derive(Drop)]
pub enum Message<A: Allocator + Copy = Global> {
    /// A delta: a store with its causal context, which a receiver joins into its own state. The parts are read
    /// by `store` and `context` of the pair.
    Delta(OrMap<A>),
    /// The first message of a session, from its asker to its answerer, with the dots that the asker knows: what stands
    /// under them need not be sent.
    Hello(Session, Context<A>),
    /// The answer to a hello, from the answerer: the dots that its snapshot knows, and the digest of the snapshot's map, or
    /// None where the map has no key.
    Opening(Session, Context<A>, Option<[u8; 32]>),
    /// From the asker: it asks for the page at this prefix.
    Ask(Session, Prefix),
    /// The answer to an ask, from the answerer: the page, and the values of it that the asker does not have.
    Page(Session, SentPage<A>),
    /// The answer to an ask of a session that the answerer does not keep.
    Gone(Session),
}

impl<A: Allocator + Copy> Message<A> {
    /// The delta of this store and this context, or None exactly where a dot of the store is outside the context. Takes no
    /// memory, and a look in the context for each dot of the store.
    pub fn delta(store: OrMapStore<A>, context: Context<A>) -> Option<Message<A>>
        ensures delta { IfSome result (λ message. message_of message ≡ Delta (store, context)) }
        ensures outside { IsNone result ↔ ¬ IsInside (state_with (or_map_at store) (has context)) }
    {
        let pair = Causal::from_parts(store, context)?;
        Some(Message::Delta(pair))
    }

    /// The hello of this session, whose asker knows this context. Takes no memory.
    pub fn hello(session: Session, context: Context<A>) -> Message<A>
        ensures { message_of result ≡ Hello session context }
    {
        Message::Hello(session, context)
    }

    /// The opening of this session, whose answerer knows this context, and whose snapshot has this digest, if it has a key.
    /// Takes no memory.
    pub fn opening(session: Session, context: Context<A>, root: Option<[u8; 32]>) -> Message<A>
        ensures { message_of result ≡ Opening session context root }
    {
        Message::Opening(session, context, root)
    }

    /// The ask of this session for the page at this prefix. Takes no memory.
    pub fn ask(session: Session, prefix: Prefix) -> Message<A>
        ensures { message_of result ≡ Ask session prefix }
    {
        Message::Ask(session, prefix)
    }

    /// The message of this session with the page at this prefix, and with these of its values. None exactly where
    /// `SentPage::new` makes none of these parts. Takes no memory, and time in the keys and fields of the page, or in its
    /// children.
    pub fn page(
        session: Session,
        prefix: Prefix,
        values: Vec<Value<A>, A>,
        page: Page<A>,
    ) -> Option<Message<A>>
        ensures page { IfSome result (λ message. message_of message ≡
            form.Page session (record { prefix = prefix; values = values.items; page = value_of page })) }
        ensures unlawful { IsNone result ↔ ¬ CanBeSent (record { prefix = prefix; values = values.items; page = value_of page }) }
    {
        let sent = SentPage::new(prefix, values, page)?;
        Some(Message::Page(session, sent))
    }

    /// The message that the answerer does not keep this session. Takes no memory.
    pub fn gone(session: Session) -> Message<A>
        ensures { message_of result ≡ Gone session }
    {
        Message::Gone(session)
    }

    /// The session that the message belongs to, or None for a delta, which belongs to none.
    pub fn session(&self) -> Option<Session>
        ensures { result ≡ session_of (message_of self.now) }
    {
        match self {
            Message::Delta(_) => None,
            Message::Hello(session, _) => Some(*session),
            Message::Opening(session, _, _) => Some(*session),
            Message::Ask(session, _) => Some(*session),
            Message::Page(session, _) => Some(*session),
            Message::Gone(session) => Some(*session),
        }
    }

    /// The replica that the message is for: the one that answers for a hello and an ask, the one that asks for what answers these. None for
    /// a delta, which is for everyone. Takes no memory.
    pub fn addressee(&self) -> Option<Name>
        ensures { result ≡ addressee_of (message_of self.now) }
    {
        match self {
            Message::Delta(_) => None,
            Message::Hello(session, _) => Some(session.answerer()),
            Message::Opening(session, _, _) => Some(session.asker()),
            Message::Ask(session, _) => Some(session.answerer()),
            Message::Page(session, _) => Some(session.asker()),
            Message::Gone(session) => Some(session.asker()),
        }
    }
}
