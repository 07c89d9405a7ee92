use crate::channels::{Channels, hand};
use crate::letter::Letter;
use crate::post::Post;
use crate::timed_post::TimedPost;
use dots::Name;
use std::sync::Wait;
use std::time::{Clock, Duration, Instant};

// In seconds.
const CENTURY: u64 = 3_155_760_000;

/// Channels by which a node is due from time to time, however much comes in. It is over once it is told to stop, nobody can send to it any more, or the
/// clock cannot be read.
///
/// What is sent to all goes into each outbox, with a copy of the bytes for each. An outbox that is bounded and full is waited for; one that is not grows
/// while nobody reads it.
#[derive(Drop)]
pub struct TimedChannels<'a, R: Wait + Clock> {
    channels: Channels<'a>,
    // Its clock is asked, as a post is lent no other.
    rt: &'a R,
    time: Duration,
    due: Option<Instant>,
    is_over: bool,
}

impl<'a, R: Wait + Clock> TimedChannels<'a, R> {
    /// These channels, which are due whenever so much time has passed: at least a millisecond, and at most a century.
    pub fn new(rt: &'a R, channels: Channels<'a>, time: Duration) -> TimedChannels<'a, R> {
        TimedChannels {
            channels,
            rt,
            time: time
                .max(Duration::from_millis(1))
                .min(Duration::from_secs(CENTURY)),
            due: None,
            is_over: false,
        }
    }

    // When it is due next: so much time from now, where that was not said before.
    fn next_due(&mut self, now: Instant) -> Option<Instant> {
        if self.due.is_none() {
            self.due = now.checked_add(self.time);
        }
        self.due
    }

    // What comes in until then.
    fn receive_until(&mut self, due: Instant) -> Option<Vec<u8>> {
        match self.channels.inbox.recv_deadline(self.rt, due) {
            Ok(Letter::Mail(bytes)) => Some(bytes),
            Err(error) if error.is_timeout() => {
                self.due = None;
                None
            }
            _ => {
                self.is_over = true;
                None
            }
        }
    }
}

impl<'a, R: Wait + Clock> Post for TimedChannels<'a, R> {
    // What the channels do is told by nothing that stands here, as of `Channels`.
    ghost receives = { λ old new bytes. Unit {0} };

    ghost sends = { λ old new to bytes. Unit {0} };

    ghost rests = { λ old new. Unit {0} };

    ghost ends = { λ old new. Unit {0} };

    fn receive<T: Wait>(&mut self, _rt: &T) -> Option<Vec<u8>> {
        let Ok(now) = Instant::now(self.rt) else {
            self.is_over = true;
            return None;
        };
        let Some(due) = self.next_due(now) else {
            self.is_over = true;
            return None;
        };
        if now >= due {
            self.due = None;
            return None;
        }
        self.receive_until(due)
    }

    fn send<T: Wait>(&mut self, rt: &T, to: Name, bytes: &[u8]) -> bool {
        self.channels.send(rt, to, bytes)
    }
}

impl<'a, R: Wait + Clock> TimedPost for TimedChannels<'a, R> {
    ghost use Rattle.std.specs.Prelude.{IsTrue};

    ghost over = { λ post. IsTrue post.is_over };

    ghost spreads = { λ old new bytes. Unit {0} };

    ghost misses = { λ old new. Unit {0} };

    fn is_over(&self) -> bool {
        self.is_over
    }

    fn spread<T: Wait>(&mut self, rt: &T, bytes: &[u8]) -> bool {
        let mut are_sent = true;
        for (_, outbox) in self.channels.outboxes {
            are_sent &= hand(rt, self.channels.alloc, outbox, bytes);
        }
        are_sent
    }
}
