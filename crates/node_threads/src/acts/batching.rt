// The writes of a client that are made at once.
ghost use Rattle.std.specs.Prelude.{◌≡◌, ◌<◌, ◌≤◌, ◌++◌, ◌∷◌, [], ℕ, length, map, take, drop, refl};
ghost use Rattle.std.specs.Vec.{vec_len, vec_capacity};
ghost use Rattle.dots.specs.declared.refusal.Refusal.TheVariants.{OutOfMemory};
ghost use Rattle.hash_path.specs.Fnv1a.{fnv1a};
ghost use Rattle.replica_core.specs.Meaning.{meaning};
ghost use Rattle.replica_core.specs.Writing.{answer_of};
ghost use Rattle.replica_model.specs.History.{Runs};
ghost use Rattle.node_threads.specs.History.{NeverRefuses, entries_of};
ghost use Rattle.node_threads.specs.Batch.{IsStoppedBy, Writes, made_at};

use crate::named::{Named, Naming, Root};
use crate::showing::{place_for, show};
use crate::written::Written;
use dots::Refusal;
use hash_path::Fnv1a;
use replica_core::{Replica, Write, Wrote};
use shared_object::Update;
use std::alloc::Allocator;
use std::sync::{Arc, Wait};

/// Makes writes at once, one after the other: they are one event with one receipt, so whoever reads sees all of them or none. Where one is refused, as
/// for want of memory, it stops before that one: those before it are made, and the reply says so.
///
/// Its only refusal is OutOfMemory, where there is no memory for the reply or the root, and then nothing is made. Takes what the writes take, and one
/// root: where many writes go to one part of the map, all but the first are in place.
#[derive(Drop)]
pub struct Batching<'a, A: Allocator + Copy> {
    /// Where memory for the root and the reply is taken.
    pub alloc: A,
    /// The writes.
    pub writes: &'a [Write<'a, A>],
}

impl<'a, K: Naming, A: Allocator + Copy> Update<Named<K, A>, A> for Batching<'a, A> {
    type Reply = Written<A>;

    ghost event = { λ c reply place. made_at place (take (length reply.wrote.items) c.writes.now) };

    ghost answers = { λ c history reply. Writes K.first history c.writes.now reply.wrote.items reply.refusal };

    ghost refuses = { λ c history refusal. NeverRefuses history refusal };

    fn update<W: Wait>(
        &self,
        rt: &W,
        replica: &mut Replica<Fnv1a, A>,
    ) -> Result<(Written<A>, Arc<Root<A>, A>), Refusal> {
        let room = Vec::with_capacity(self.alloc, self.writes.len())?;
        let place = place_for(self.alloc, replica)?;
        let reply = write_all(replica, self.writes, room);
        let root = show(rt, replica, place);
        Ok((reply, root))
    }

    ghost placed = { λ c reply place. refl };
}

// Makes the writes one after the other, as far as they are not refused, and tells it in a list that has room for all answers.
fn write_all<A: Allocator + Copy>(
    replica: &mut Replica<Fnv1a, A>,
    writes: &[Write<A>],
    room: Vec<Wrote, A>,
) -> Written<A>
    requires empty { room.items ≡ [] }
    requires room { length writes.now ≤ vec_capacity room }
    ensures runs { (place : ℕ) → Runs fnv1a (meaning replica.old) (entries_of (made_at place (take (length result.wrote.items) writes.now)))
        (map answer_of result.wrote.items) (meaning replica.new) }
    ensures stopped { IsStoppedBy (meaning replica.new) (drop (length result.wrote.items) writes.now) result.refusal }
{
    let mut wrote = room;
    for one in writes {
        match replica.write(one) {
            Ok(told) => put_into(&mut wrote, told),
            Err(refusal) => {
                return Written {
                    wrote,
                    refusal: Some(refusal),
                };
            }
        }
    }
    Written {
        wrote,
        refusal: None,
    }
}

// Puts an item at the end of a list in which there is room.
fn put_into<X: Drop, A: Allocator>(list: &mut Vec<X, A>, item: X)
    requires { vec_len list.old < vec_capacity list.old }
    ensures items { list.new.items ≡ list.old.items ++ item ∷ [] }
    ensures capacity { vec_capacity list.old ≤ vec_capacity list.new }
{
    match list.push(item) {
        Ok(()) => {}
        Err(_) => unreachable!(),
    }
}
