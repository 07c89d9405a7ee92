// Thousands of random events over four replicas. What came of them, and what the replicas show between them, goes into one sum, which is that of a
// program that follows the definitions alone: `python3 crates/trace_tests/reference/storm.py`.
use crate::tests::made::{key_of, name, value_of};
use dots::{Field, Key, Name, Refusal, Value};
use hash_path::Fnv1a;
use replica_core::{Call, Outcome};
use replica_world::{Answer, Event, Told, World};
use std::alloc::Global;
use std::panic::Expect;
use std::process::Abort;

// What chooses the events, the sum of what came of them, how many messages were made, and the number of the session that was opened last.
#[derive(Drop)]
struct Storm {
    state: u64,
    sum: u64,
    messages: u64,
    sessions: u64,
}

impl Storm {
    // The next number below the bound, or 0 where that is 0: a linear congruential generator.
    fn next(&mut self, bound: u64) -> u64 {
        self.state = self
            .state
            .wrapping_mul(6_364_136_223_846_793_005)
            .wrapping_add(1_442_695_040_888_963_407);
        (self.state >> 33) % bound.max(1)
    }

    fn add(&mut self, number: u64) {
        self.sum = (self.sum.rotate_left(5) ^ number).wrapping_mul(0x0100_0000_01b3);
    }

    // A replica, which in one of 64 cases is not there.
    fn name(&mut self, rt: &impl Abort) -> Name {
        let number = if self.next(64) == 0 {
            5
        } else {
            self.next(4).wrapping_add(1)
        };
        name(rt, number)
    }

    // One of so many bytes from this one on.
    fn byte(&mut self, first: u8, count: u64) -> u8 {
        first.wrapping_add((self.next(count) % 256) as u8)
    }

    fn key(&mut self, rt: &impl Abort, alloc: Global) -> Key {
        let byte = self.byte(b'a', 8);
        key_of(rt, alloc, &[byte])
    }

    fn field(&mut self, rt: &impl Abort, alloc: Global) -> Field {
        let byte = self.byte(b'f', 3);
        Field::new(alloc, &[byte]).expect(rt, "a field")
    }

    fn value(&mut self, rt: &impl Abort, alloc: Global) -> Value {
        let byte = self.byte(b'p', 8);
        value_of(rt, alloc, &[byte])
    }

    // A message: mostly one of the last ones, and at times one that is not there yet.
    fn message(&mut self) -> u64 {
        let back = if self.next(4) == 0 {
            self.next(self.messages)
        } else {
            self.next(5)
        };
        self.messages
            .saturating_sub(back)
            .wrapping_add(self.next(24) / 23)
    }

    // An own session: mostly one of the last ones.
    fn session(&mut self) -> u64 {
        let back = self.next(24);
        self.sessions.saturating_sub(back)
    }

    fn write(&mut self, rt: &impl Abort, alloc: Global, kind: u64) -> Call {
        let key = self.key(rt, alloc);
        match kind {
            0..=4 => Call::Put(key, Field::empty(), self.value(rt, alloc)),
            5 => {
                let field = self.field(rt, alloc);
                Call::Put(key, field, self.value(rt, alloc))
            }
            6 => Call::Remove(key),
            _ => Call::RemoveField(key, self.field(rt, alloc)),
        }
    }

    fn call(&mut self, rt: &impl Abort, alloc: Global, kind: u64) -> Call {
        match kind {
            0..=7 => self.write(rt, alloc, kind),
            8 => {
                if self.next(8) == 0 {
                    Call::Clear
                } else {
                    Call::Flush
                }
            }
            9 => Call::Flush,
            10 => Call::Ask(self.name(rt)),
            11 => Call::Retry(self.session()),
            _ => Call::Abandon(self.session()),
        }
    }

    // A message for a replica: in three of four cases the one that it is for.
    fn delivery(&mut self, rt: &impl Abort, world: &World, name: Name) -> Event {
        let number = self.message();
        let lost = self.next(4) == 0;
        let whom = addressee_of(rt, world, number);
        let to = if lost { name } else { whom.unwrap_or(name) };
        Event::Deliver(number, to)
    }

    fn event(&mut self, rt: &impl Abort, alloc: Global, world: &World) -> Event {
        let kind = self.next(32);
        let name = self.name(rt);
        match kind {
            13..=31 => self.delivery(rt, world, name),
            _ => Event::Call(name, self.call(rt, alloc, kind)),
        }
    }

    fn outcome(&mut self, outcome: Outcome) {
        self.add(4);
        self.add(match outcome {
            Outcome::Joined => 0,
            Outcome::Sent => 1,
            Outcome::Done => 2,
            Outcome::Ignored => 3,
            Outcome::Mismatch => 4,
            Outcome::Gone => 5,
        });
    }

    fn answer(&mut self, answer: Answer) {
        match answer {
            Answer::Nothing => self.add(0),
            Answer::Dot(dot) => {
                self.add(1);
                self.add(dot.name().number());
                self.add(dot.number());
            }
            Answer::Count(number) => {
                self.add(2);
                self.add(number);
            }
            Answer::Number(number) => {
                self.add(3);
                self.add(number);
                self.sessions = number;
            }
            Answer::Outcome(outcome) => self.outcome(outcome),
            Answer::Closed(was) => {
                self.add(5);
                self.add(u64::from(was));
            }
        }
    }

    fn told(&mut self, told: Result<Told, Refusal>) {
        match told {
            Ok(told) => {
                self.answer(told.answer);
                self.messages = told.made.end.wrapping_sub(1);
            }
            Err(refusal) => {
                self.add(6);
                self.add(u64::from(refusal.number()));
            }
        }
        self.add(self.messages);
    }

    // What the replica of this name shows: its keys, its root digest, and the values of one key.
    fn look(&mut self, rt: &impl Abort, alloc: Global, world: &World, name: Name) {
        self.add(world.size_at(name).expect(rt, "a replica"));
        let digest = world.digest_at(name).expect(rt, "a replica");
        for byte in digest.unwrap_or([0; 32]) {
            self.add(u64::from(byte));
        }
        let key = self.key(rt, alloc);
        self.values(&world.values_of_key_at(name, &key).expect(rt, "memory"));
    }

    fn values(&mut self, values: &[Value]) {
        for value in values {
            self.add(value.bytes().first().copied().map_or(0, u64::from));
        }
    }
}

// Whom the message of this number is for, where it is there and of a session.
fn addressee_of(rt: &impl Abort, world: &World, number: u64) -> Option<Name> {
    let message = world.read(number).expect(rt, "memory");
    message.as_ref().and_then(|it| it.addressee())
}

// The replicas, which are there.
fn look_at_all(rt: &impl Abort, alloc: Global, world: &World, storm: &mut Storm) {
    for number in 1..5 {
        storm.look(rt, alloc, world, name(rt, number));
    }
}

// Adds the four replicas. What that is answered goes into the sum, as all that is answered does.
fn begin(rt: &impl Abort, world: &mut World, storm: &mut Storm) {
    for number in 1..5 {
        storm.told(world.event(Event::Node(name(rt, number))));
    }
}

// So many events, and a look at all replicas behind them.
fn blow(rt: &impl Abort, alloc: Global, world: &mut World, storm: &mut Storm, count: u64) {
    for _ in 0..count {
        let event = storm.event(rt, alloc, world);
        storm.told(world.event(event));
    }
    look_at_all(rt, alloc, world, storm);
}

// The sum of five thousand events.
fn rage(rt: &impl Abort, alloc: Global, world: &mut World) -> u64 {
    let mut storm = Storm {
        state: 2012,
        sum: 0,
        messages: 0,
        sessions: 0,
    };
    begin(rt, world, &mut storm);
    for _ in 0..100 {
        blow(rt, alloc, world, &mut storm, 50);
    }
    storm.sum
}

#[test]
fn five_thousand_random_events_come_to_what_the_definitions_say(rt: HostRuntime) {
    let mut world = World::new(rt.alloc(), Fnv1a);
    let sum = rage(&rt, rt.alloc(), &mut world);
    assert!(rt; sum == 10393990136312103708);
}
