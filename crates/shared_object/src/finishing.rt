// The end of a shared object: it is taken out from among its clients.
ghost use Rattle.std.specs.Prelude.{◌≡◌, ◌<◌, ◌≤◌, ◌+◌, ◌++◌, ℕ, List, length, Some, IsTrue, IfSome, IfOk, IfErr, OnErr, MatchBool};
ghost use Rattle.std.specs.List.{slice_get, sum_by};
ghost use Rattle.std.specs.Vec.{vec_len, vec_capacity};
ghost use Rattle.shared_object.specs.History.{Seat};
ghost use Rattle.shared_object.specs.Finishing.{AreAll, AreOfAll, HasClient, IsOwn};

use crate::awaiting::go_on_where;
use crate::client::Client;
use crate::gate::Gate;
use crate::guarded::Guarded;
use crate::object::Object;
use crate::owner::Owner;
use crate::shared::Shared;
use root_cell::Title;
use std::alloc::{Allocator, Global};
use std::sync::Wait;

/// An object that was taken out from among its clients.
#[derive(Drop)]
pub struct Finished<D: Drop> {
    /// The object, after the whole history.
    pub object: D,
    /// How many calls the history has.
    pub operations: u64,
}

/// What comes back where an object was not taken out.
#[derive(Drop)]
pub struct Unfinished<J: Object, S: Drop, A: Allocator + Copy = Global> {
    /// Who hands out its clients.
    pub owner: Owner<J, S, A>,
    /// The clients that were handed in.
    pub clients: Vec<Client<J, S, A>, A>,
}

impl<J: Object, G: Gate + Drop, W: Wait + Drop, A: Allocator + Copy> Owner<
    J,
    Shared<J, G, W, A>,
    A,
> {
    /// Takes the object out, just where these and those that were given back are clients of all places that were taken. Else all comes back, and
    /// nothing has changed. Takes time in the square of the places, whatever the history, and no memory; it waits for its turn, and for readers
    /// that are inside.
    // All clients are of this object, and none of them was made twice: so the history has their calls and no others. That it has stands in no
    // clause before it was compared, and where it had not this would wait for good.
    pub fn finish<T: Wait>(
        self,
        rt: &T,
        clients: Vec<Client<J, Shared<J, G, W, A>, A>, A>,
    ) -> Result<Finished<J::State>, Unfinished<J, Shared<J, G, W, A>, A>>
        ensures finished { IfOk result (λ f. (history : List J.Event) × J.after f.object history × (f.operations ≡ length history) × AreAll J.Event.place history self.taken (self.back ++ clients.items)) }
        ensures refused { OnErr result (¬ AreOfAll self.taken (self.back ++ clients.items)) }
        ensures owner { IfErr result (λ back. back.owner ≡ self) }
        ensures clients { IfErr result (λ back. back.clients.items ≡ clients.items) }
    {
        let taken = self.taken();
        if !are_of_all(self.back(), &clients, taken) {
            return Err(Unfinished {
                owner: self,
                clients,
            });
        }
        let (shared, title, back) = self.into_parts();
        let mut all = gathered(back, clients);
        let guarded = take_out(&shared, rt, title, taken, &mut all);
        drop(all);
        drop(shared);
        Ok(guarded.close())
    }
}

// Takes what is guarded out of the lock, against the title.
fn take_out<J: Object, G: Gate + Drop, W: Wait + Drop, A: Allocator + Copy, T: Wait>(
    shared: &Shared<J, G, W, A>,
    rt: &T,
    title: Title<J::Root, J::Event, J>,
    taken: usize,
    clients: &mut [Client<J, Shared<J, G, W, A>, A>],
) -> Guarded<J, W, A>
    requires { AreOfAll taken clients.old }
    ensures { AreAll J.Event.place result taken clients.old }
{
    let guarded = shared.lock.lock(rt).take(rt, title);
    go_on_where(rt, are_all(&guarded, taken, clients));
    guarded
}

// Whether what is guarded has the calls of these clients, who are of all places that were taken, and no others.
fn are_all<J: Object, G: Gate + Drop, W: Wait + Drop, A: Allocator + Copy>(
    guarded: &Guarded<J, W, A>,
    taken: usize,
    clients: &mut [Client<J, Shared<J, G, W, A>, A>],
) -> bool
    requires { AreOfAll taken clients.old }
    ensures { IsTrue result → AreAll J.Event.place guarded.now taken clients.old }
{
    if !guarded.has_none_from(taken) {
        return false;
    }
    let Some(sum) = total(clients) else {
        return false;
    };
    if sum != guarded.events() {
        return false;
    }
    meet_all(guarded, clients)
}

// Whether what is guarded has just the calls that each client made. The clients have learnt the history in any case.
fn meet_all<J: Object, G: Gate + Drop, W: Wait + Drop, A: Allocator + Copy>(
    guarded: &Guarded<J, W, A>,
    clients: &mut [Client<J, Shared<J, G, W, A>, A>],
) -> bool
    ensures { IsTrue result → ((i : ℕ) (s : Seat J.Event) → slice_get clients.old i ≡ Some s → IsOwn J.Event.place guarded.now s) }
{
    for client in clients.iter_mut() {
        if !client.meet(guarded) {
            return false;
        }
    }
    true
}

// The items of two vectors, in the first of which there is room for all.
fn gathered<X: Drop, A: Allocator>(first: Vec<X, A>, second: Vec<X, A>) -> Vec<X, A>
    requires { vec_len first + vec_len second ≤ vec_capacity first }
    ensures { result.items ≡ first.items ++ second.items }
{
    let mut all = first;
    for item in second {
        match all.push(item) {
            Ok(()) => {}
            Err(_) => unreachable!(),
        }
    }
    all
}

// Whether these are clients of all places that were taken, and as many.
fn are_of_all<J: Object, S: Drop, A: Allocator>(
    back: &[Client<J, S, A>],
    clients: &[Client<J, S, A>],
    taken: usize,
) -> bool
    ensures { MatchBool result (AreOfAll taken (back.now ++ clients.now)) (¬ AreOfAll taken (back.now ++ clients.now)) }
{
    if back.len() > taken {
        return false;
    }
    if clients.len() != taken - back.len() {
        return false;
    }
    has_each(back, clients, taken)
}

// Whether each place that was taken has a client.
fn has_each<J: Object, S: Drop, A: Allocator>(
    back: &[Client<J, S, A>],
    clients: &[Client<J, S, A>],
    taken: usize,
) -> bool
    ensures { MatchBool result ((p : ℕ) → p < taken → HasClient (back.now ++ clients.now) p) ((p : ℕ) × (p < taken) × (¬ HasClient (back.now ++ clients.now) p)) }
{
    for place in 0..taken {
        if !is_among(back, clients, place) {
            return false;
        }
    }
    true
}

// Whether a place has a client among these.
fn is_among<J: Object, S: Drop, A: Allocator>(
    back: &[Client<J, S, A>],
    clients: &[Client<J, S, A>],
    place: usize,
) -> bool
    ensures { MatchBool result (HasClient (back.now ++ clients.now) place) (¬ HasClient (back.now ++ clients.now) place) }
{
    if has(back, place) {
        return true;
    }
    has(clients, place)
}

// Whether a place has a client.
fn has<J: Object, S: Drop, A: Allocator>(clients: &[Client<J, S, A>], place: usize) -> bool
    ensures { MatchBool result (HasClient clients.now place) (¬ HasClient clients.now place) }
{
    for at in 0..clients.len() {
        if clients[at].place() == place {
            return true;
        }
    }
    false
}

// How many calls the clients made, where that can be counted.
fn total<J: Object, S: Drop, A: Allocator>(clients: &[Client<J, S, A>]) -> Option<u64>
    ensures { IfSome result (λ n. n ≡ sum_by (λ s. s.operations) clients.now) }
{
    let mut sum = 0u64;
    for client in clients {
        sum = sum.checked_add(client.operations())?;
    }
    Some(sum)
}
