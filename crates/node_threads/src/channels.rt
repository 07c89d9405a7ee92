use crate::letter::Letter;
use crate::post::Post;
use crossbeam_channel::{Receiver, Sender};
use dots::Name;
use std::alloc::Global;
use std::sync::Wait;

/// An inbox, and the outboxes of other replicas, as channels between threads.
#[derive(Clone, Copy, Drop)]
pub struct Channels<'a> {
    /// Where the bytes of a letter that goes out are kept until they are taken in.
    pub alloc: Global,
    /// What comes in.
    pub inbox: &'a Receiver<Letter>,
    /// Where what is sent back goes, by whom it is for: of two for one replica the first counts. They are gone
    /// through for each reply.
    pub outboxes: &'a [(Name, Sender<Letter>)],
}

impl<'a> Post for Channels<'a> {
    // What the channels do is told by nothing that stands here: whatever comes in was sent, and whatever is sent can come.
    ghost receives = { λ old new bytes. Unit {0} };

    ghost sends = { λ old new to bytes. Unit {0} };

    ghost rests = { λ old new. Unit {0} };

    ghost ends = { λ old new. Unit {0} };

    fn receive<T: Wait>(&mut self, rt: &T) -> Option<Vec<u8>> {
        match self.inbox.recv(rt) {
            Ok(Letter::Mail(bytes)) => Some(bytes),
            _ => None,
        }
    }

    fn send<T: Wait>(&mut self, rt: &T, to: Name, bytes: &[u8]) -> bool {
        for (name, outbox) in self.outboxes {
            if *name == to {
                return hand(rt, self.alloc, outbox, bytes);
            }
        }
        false
    }
}

// Hands a copy of the bytes to an outbox. Whether it took it.
pub(crate) fn hand<T: Wait>(rt: &T, alloc: Global, outbox: &Sender<Letter>, bytes: &[u8]) -> bool {
    match bytes.to_vec(alloc) {
        Ok(copy) => outbox.send(rt, Letter::Mail(copy)).is_ok(),
        Err(_) => false,
    }
}
