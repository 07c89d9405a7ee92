ghost use Rattle.std.specs.Prelude.{◌≡◌, ◌&&◌, not, nat_lt};

use crate::answer::Answer;
use crate::event::Event;
use dots::Name;
use std::alloc::{Allocator, Global};

/// An event that a world accepted.
#[derive(Drop)]
pub struct Accepted<A: Allocator + Copy = Global> {
    /// What happened.
    pub event: Event<A>,
    /// What it was answered.
    pub answer: Answer,
    /// How many messages it sent.
    pub sent: u64,
    // How often its replica had been saved before it.
    pub(crate) saves: u64,
}

impl<A: Allocator + Copy> Accepted<A> {
    ghost use Rattle.replica_world.specs.Happening.{answer_value, event_value};
    ghost use Rattle.replica_world.specs.Held.{is_act};
    ghost use Rattle.replica_world.specs.Kept.{accepted_value};

    // The event of a replica that had been saved so often, which was answered so and sent so many messages.
    pub(crate) fn new(event: Event<A>, answer: Answer, sent: u64, saves: u64) -> Accepted<A>
        ensures { accepted_value result ≡ (record { event = event_value event; answer = answer_value answer; sent = sent }, saves) }
    {
        Accepted {
            event,
            answer,
            sent,
            saves,
        }
    }

    // Whether it is lost where the replica of this name crashes, which was saved so often.
    pub(crate) fn is_lost(&self, name: Name, saves: u64) -> bool
        ensures { result ≡ (is_act name (event_value self.now.event) && not (nat_lt self.now.saves saves)) }
    {
        match &self.event {
            Event::Node(_) => false,
            Event::Call(of, _) | Event::Deliver(_, of) | Event::Restart(of) => {
                *of == name && self.saves >= saves
            }
        }
    }
}
