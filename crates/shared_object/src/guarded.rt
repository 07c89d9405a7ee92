ghost use Rattle.std.specs.Prelude.{◌≡◌, ◌≢◌, ◌<◌, ◌≤◌, ◌+◌, ◌-◌, ◌^◌, ◌++◌, ◌∷◌, [], ℕ, length, slice_index, IfOk, IfErr, IsTrue};
ghost use mathlib.Core.List.{IsPrefix};
ghost use Rattle.shared_object.specs.History.{AreCounts, calls_by};
ghost use Rattle.shared_object.specs.Calling.{IsRefused};

use crate::awaiting::go_on_where;
use crate::finishing::Finished;
use crate::look::Look;
use crate::object::Object;
use crate::update::{Made, Making, Update};
use dots::Refusal;
use root_cell::{Note, View, Writer};
use std::alloc::{Allocator, Global};
use std::marker::Model;
use std::sync::Wait;

/// As many clients as a cell can have.
pub(crate) const PLACES: usize = 64;

/// What lies under the lock: the object, with the writer of its roots, and how many of its calls came from each place. Contracts see
/// its history. It keeps a handle to end the writer with.
pub(crate) struct Guarded<J: Object, W: Wait + Drop, A: Allocator + Copy = Global> {
    object: J::State,
    events: u64,
    counts: [u64; PLACES],
    writer: Writer<J::Root, J::Event, J, A>,
    rt: W,
}

impl<J: Object, W: Wait + Drop, A: Allocator + Copy> Model for Guarded<J, W, A> {
    ghost use Rattle.std.specs.Prelude.{◌≡◌, List, length};
    ghost use Rattle.shared_object.specs.History.{AreCounts};

    ghost Value = { List J.Event };

    ghost view = { λ d. d.writer };

    ghost invariant = { λ d. J.after d.object d.writer × (d.events ≡ length d.writer) × AreCounts J.Event.place d.counts d.writer };
}

impl<J: Object, W: Wait + Drop, A: Allocator + Copy> Drop for Guarded<J, W, A> {
    fn drop(self) {
        let Guarded {
            object: _,
            events: _,
            counts: _,
            writer,
            rt,
        } = self;
        writer.end(&rt);
    }
}

impl<J: Object, W: Wait + Drop, A: Allocator + Copy> Guarded<J, W, A> {
    /// An object to which nothing happened yet.
    pub(crate) fn new(
        object: J::State,
        writer: Writer<J::Root, J::Event, J, A>,
        rt: W,
    ) -> Guarded<J, W, A>
        requires object { J.after object [] }
        requires writer { writer ≡ [] }
        ensures { result ≡ [] }
    {
        Guarded {
            object,
            events: 0,
            counts: no_counts(),
            writer,
            rt,
        }
    }

    /// How many calls came from this place.
    fn count(&self, place: usize) -> u64
        requires { place < 64 }
        ensures { result ≡ length (calls_by J.Event.place place self.now) }
    {
        self.counts[place]
    }

    /// How many calls it had.
    pub(crate) fn events(&self) -> u64
        ensures { result ≡ length self.now }
    {
        self.events
    }

    /// Whether no call came from the places from this one on.
    pub(crate) fn has_none_from(&self, taken: usize) -> bool
        ensures { IsTrue result → ((p : ℕ) → taken ≤ p → calls_by J.Event.place p self.now ≡ []) }
    {
        is_zero_from(&self.counts, taken)
    }

    /// Ends the writer, and gives the object out.
    pub(crate) fn close(self) -> Finished<J::State>
        ensures object { J.after result.object self }
        ensures operations { result.operations ≡ length self }
    {
        let Guarded {
            object,
            events,
            counts: _,
            writer,
            rt,
        } = self;
        writer.end(&rt);
        Finished {
            object,
            operations: events,
        }
    }

    /// Whether the View, once it has learnt all that is published, has seen the history, and so many of its calls came from this place. It
    /// has learnt in any case.
    pub(crate) fn meet(
        &self,
        view: View<J::Root, J::Event, J, A>,
        place: usize,
        operations: u64,
    ) -> (View<J::Root, J::Event, J, A>, bool)
        requires { place < 64 }
        ensures seen { IsPrefix view result.0 }
        ensures whole { IsTrue result.1 → result.0 ≡ self.now }
        ensures own { IsTrue result.1 → length (calls_by J.Event.place place self.now) ≡ operations }
    {
        let mut view = view;
        view.learn(self.writer.tell());
        let entered = match view.enter() {
            Ok(entered) => entered,
            Err(view) => return (view, false),
        };
        let is_whole = entered.events() == self.events;
        let view = entered.leave();
        if self.count(place) != operations {
            return (view, false);
        }
        (view, is_whole)
    }

    /// Looks at the object for a client, who has then seen the history. That its calls are those that are known here stands in no clause, and where
    /// they were not it would wait for good.
    pub(crate) fn inspect<T: Wait, L: Look<J::State>>(
        &self,
        rt: &T,
        view: View<J::Root, J::Event, J, A>,
        place: usize,
        operations: u64,
        look: &L,
    ) -> (View<J::Root, J::Event, J, A>, L::Found)
        requires { place < 64 }
        ensures seen { IsPrefix view result.0 }
        ensures found { (object : J.State) × J.after object result.0 × L.finds look.now object result.1 }
    {
        let (seen, is_met) = self.meet(view, place, operations);
        go_on_where(rt, is_met);
        (seen, look.look(&self.object))
    }

    /// Takes the turn of a client: makes its call, where the client's calls that are known here are just those that it made. They always are, as
    /// a place has one client; that they are stands in no clause, and where they were not it would wait for good.
    pub(crate) fn turn<T: Wait, C: Update<J, A>>(
        self,
        rt: &T,
        view: View<J::Root, J::Event, J, A>,
        place: usize,
        operations: u64,
        update: &C,
    ) -> (
        Guarded<J, W, A>,
        View<J::Root, J::Event, J, A>,
        Result<(C::Reply, Note<J::Root, J::Event, J>), Refusal>,
    )
        requires { place < 64 }
        ensures seen { IfOk result.2 (λ r. IsPrefix view self) }
        ensures own { IfOk result.2 (λ r. length (calls_by J.Event.place place self) ≡ operations) }
        ensures room { IfOk result.2 (λ r. length self < 2 ^ 64 - 1) }
        ensures reply { IfOk result.2 (λ r. C.answers update.now self r.0) }
        ensures receipt { IfOk result.2 (λ r. r.1 ≡ self ++ C.event update.now r.0 place ∷ []) }
        ensures front { IfOk result.2 (λ r. result.1 ≡ self ++ C.event update.now r.0 place ∷ []) }
        ensures guarded { IfOk result.2 (λ r. result.0 ≡ self ++ C.event update.now r.0 place ∷ []) }
        ensures refused { IfErr result.2 (λ e. IsRefused (C.refuses update.now) result.1 e) }
        ensures learnt { IfErr result.2 (λ _. IsPrefix view result.1) }
        ensures whole { IfErr result.2 (λ _. length (calls_by J.Event.place place result.1) ≡ operations) }
        ensures unchanged { IfErr result.2 (λ _. result.0 ≡ self) }
    {
        let (view, is_met) = self.meet(view, place, operations);
        go_on_where(rt, is_met);
        let (guarded, answer) = self.accept(rt, place, update);
        match answer {
            Ok(told) => {
                let mut view = view;
                view.learn(guarded.writer.tell());
                (guarded, view, Ok(told))
            }
            Err(refusal) => (guarded, view, Err(refusal)),
        }
    }

    /// Makes a call for the client at this place, and publishes what the object then is. A refused call changes nothing, and publishes
    /// nothing.
    pub(crate) fn accept<T: Wait, C: Update<J, A>>(
        self,
        rt: &T,
        place: usize,
        update: &C,
    ) -> (
        Guarded<J, W, A>,
        Result<(C::Reply, Note<J::Root, J::Event, J>), Refusal>,
    )
        requires { place < 64 }
        ensures ok { IfOk result.1 (λ r. result.0 ≡ self ++ C.event update.now r.0 place ∷ []) }
        ensures room { IfOk result.1 (λ r. length self < 2 ^ 64 - 1) }
        ensures reply { IfOk result.1 (λ r. C.answers update.now self r.0) }
        ensures receipt { IfOk result.1 (λ r. r.1 ≡ self ++ C.event update.now r.0 place ∷ []) }
        ensures refused { IfErr result.1 (IsRefused (C.refuses update.now) self) }
        ensures unchanged { IfErr result.1 (λ _. result.0 ≡ self) }
    {
        if self.events == u64::MAX {
            return (self, Err(Refusal::NumbersSpent));
        }
        let Guarded {
            object,
            events,
            counts,
            writer,
            rt: own,
        } = self;
        let mut object = object;
        match update.update(rt, &mut object) {
            Ok((reply, root)) => {
                let made = Made {
                    place,
                    update,
                    reply: &reply,
                };
                let writer = writer.publish_placed::<Made<C, C::Reply>, Making<J, A>, T>(
                    rt, root, &made,
                );
                let receipt = writer.tell();
                let guarded = Guarded {
                    object,
                    events: events + 1,
                    counts: counted(counts, place),
                    writer,
                    rt: own,
                };
                (guarded, Ok((reply, receipt)))
            }
            Err(refusal) => {
                let guarded = Guarded {
                    object,
                    events,
                    counts,
                    writer,
                    rt: own,
                };
                (guarded, Err(refusal))
            }
        }
    }
}

// Whether all counts from this place on are 0.
fn is_zero_from(counts: &[u64; PLACES], taken: usize) -> bool
    ensures { IsTrue result → ((p : ℕ) → taken ≤ p → slice_index counts.now p ≡ 0) }
{
    for place in taken..PLACES {
        if counts[place] != 0 {
            return false;
        }
    }
    true
}

// The counts of no calls.
fn no_counts() -> [u64; PLACES]
    ensures { (p : ℕ) → slice_index result p ≡ 0 }
{
    [0; PLACES]
}

// The counts with one more at this place.
fn counted(counts: [u64; PLACES], place: usize) -> [u64; PLACES]
    requires within { place < 64 }
    requires room { slice_index counts place < 2 ^ 64 - 1 }
    ensures here { slice_index result place ≡ slice_index counts place + 1 }
    ensures elsewhere { (p : ℕ) → p ≢ place → slice_index result p ≡ slice_index counts p }
{
    let mut counts = counts;
    counts[place] += 1;
    counts
}
