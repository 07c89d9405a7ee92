ghost use Rattle.std.specs.Prelude.{◌≡◌, ◌<◌, [], ◌∷◌, IfOk, IsOkUnless};
ghost use Rattle.std.specs.Vec.{vec_len, vec_capacity};

use crate::outcome::Outcome;
use dots::Refusal;
use std::alloc::{Allocator, Global};
use wire_form::Message;

/// What came of a delivery or a retry, and the messages that are to be sent for it.
#[derive(Drop)]
pub struct Delivered<A: Allocator + Copy = Global> {
    /// What came of it.
    pub outcome: Outcome,
    /// The messages that are to be sent, in this order.
    pub replies: Vec<Message<A>, A>,
}

impl<A: Allocator + Copy> Delivered<A> {
    // What has no reply. Takes no memory.
    pub(crate) fn silent(alloc: A, outcome: Outcome) -> Delivered<A>
        ensures outcome { result.outcome ≡ outcome }
        ensures replies { result.replies.items ≡ [] }
    {
        Delivered {
            outcome,
            replies: Vec::new(alloc),
        }
    }

    // What is answered with one message, for which there is room.
    pub(crate) fn answered(room: Vec<Message<A>, A>, reply: Message<A>) -> Delivered<A>
        requires empty { room.items ≡ [] }
        requires room { vec_len room < vec_capacity room }
        ensures outcome { result.outcome ≡ Outcome.Sent }
        ensures replies { result.replies.items ≡ reply ∷ [] }
    {
        let mut replies = room;
        match replies.push(reply) {
            Ok(()) => Delivered {
                outcome: Outcome::Sent,
                replies,
            },
            Err(_) => unreachable!(),
        }
    }

    // What is answered with one message. Its only refusal is OutOfMemory.
    pub(crate) fn alone(alloc: A, reply: Message<A>) -> Result<Delivered<A>, Refusal>
        ensures outcome { IfOk result (λ told. told.outcome ≡ Outcome.Sent) }
        ensures replies { IfOk result (λ told. told.replies.items ≡ reply ∷ []) }
        ensures refused { IsOkUnless result Refusal.OutOfMemory }
    {
        match Vec::with_capacity(alloc, 1) {
            Ok(room) => Ok(Delivered::answered(room, reply)),
            Err(_) => {
                drop(reply);
                Err(Refusal::OutOfMemory)
            }
        }
    }
}
