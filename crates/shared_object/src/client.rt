ghost use Rattle.std.specs.Prelude.{◌≡◌, ◌⊎◌, ◌<◌, ◌≤◌, ◌++◌, ◌∷◌, [], List, length, IfOk, IfErr, IfSome, OnErr, IsTrue};
ghost use mathlib.Core.List.{IsPrefix};
ghost use Rattle.dots.specs.declared.refusal.Refusal.TheVariants.{NoPlace, OutOfMemory};
ghost use Rattle.shared_object.specs.History.{calls_by, made};
ghost use Rattle.shared_object.specs.Calling.{HasNotCalled, IsAccepted, IsRefused};
ghost use Rattle.shared_object.specs.Finishing.{IsOwn};

use crate::gate::Gate;
use crate::guarded::Guarded;
use crate::look::Look;
use crate::object::Object;
use crate::shared::{Shared, look_in_turn, take_turn};
use crate::snapshot::Snapshot;
use crate::update::Update;
use dots::Refusal;
use root_cell::{Entered, Note, View};
use std::alloc::{Allocator, Global};
use std::marker::Model;
use std::sync::{Arc, Wait};

/// A client of a shared object. Contracts see its place, how many of its calls were accepted, and the front of the history that it saw,
/// learnt or wrote. What it reads waits for nobody; what it writes takes its turn.
#[derive(Drop)]
pub struct Client<J: Object, S: Drop, A: Allocator = Global> {
    place: usize,
    operations: u64,
    view: Option<View<J::Root, J::Event, J, A>>,
    shared: Arc<S, A>,
}

impl<J: Object, S: Drop, A: Allocator> Model for Client<J, S, A> {
    ghost use Rattle.std.specs.Prelude.{◌≡◌, ◌<◌, ◌≤◌, IsSome, length};
    ghost use Rattle.shared_object.specs.History.{Seat, calls_by, seen_in};

    ghost Value = { Seat J.Event };

    ghost view = { λ c. record { place = c.place; operations = c.operations; front = seen_in c.view } };

    ghost invariant = { λ c. IsSome c.view × (c.place < 64) × (c.operations ≤ length (calls_by J.Event.place c.place (seen_in c.view))) };
}

impl<J: Object, S: Drop, A: Allocator> Client<J, S, A> {
    /// The client at a place, which made and saw nothing yet.
    pub(crate) fn new(
        place: usize,
        view: View<J::Root, J::Event, J, A>,
        shared: Arc<S, A>,
    ) -> Client<J, S, A>
        requires place { place < 64 }
        requires view { view ≡ [] }
        ensures { result ≡ record { place = place; operations = 0; front = [] } }
    {
        Client {
            place,
            operations: 0,
            view: Some(view),
            shared,
        }
    }

    /// How many of its calls were accepted.
    pub fn operations(&self) -> u64
        ensures { result ≡ self.now.operations }
    {
        self.operations
    }

    /// Its place.
    pub(crate) fn place(&self) -> usize
        ensures { result ≡ self.now.place }
    {
        self.place
    }

    /// Takes in a receipt of another client: afterwards it has seen the longer of its own front and the receipt's, which the other
    /// begins. It waits for nobody, and takes no memory.
    pub fn learn(&mut self, receipt: Note<J::Root, J::Event, J>)
        ensures one { (self.new.front ≡ self.old.front) ⊎ (self.new.front ≡ receipt) }
        ensures told { IsPrefix receipt self.new.front }
        ensures own { HasNotCalled J.Event.place self.old self.new }
    {
        let Some(view) = &mut self.view else {
            unreachable!()
        };
        view.learn(receipt);
    }

    /// How many events the history has that is published, which the client has then seen: so it can tell whether something happened. It waits for
    /// nobody, and takes constant time and no memory. Its only refusal is NoPlace, as that of a look.
    pub fn events(&mut self) -> Result<u64, Refusal>
        ensures events { IfOk result (λ n. n ≡ length self.new.front) }
        ensures own { HasNotCalled J.Event.place self.old self.new }
        ensures err { IfErr result (λ e. e ≡ NoPlace) }
    {
        let Some(view) = self.view.take() else {
            unreachable!()
        };
        let (view, events) = events_at(view);
        self.view = Some(view);
        events.ok_or(Refusal::NoPlace)
    }

    /// Reads off the root that is published. It waits for nobody, and takes what the look takes. It has left before it looks, so however long
    /// that takes nobody waits for it, and the look may itself call the object; only where as many own the root as can be counted is the client
    /// inside while it looks. Its only refusal is NoPlace, where the cell gives no root, as once the object was taken out; that it comes nowhere
    /// else stands in no clause.
    pub fn look<L: Look<J::Root>>(&mut self, look: &L) -> Result<L::Found, Refusal>
        ensures found { IfOk result (λ found. (root : J.Root) × J.stands root self.new.front × L.finds look.now root found) }
        ensures own { HasNotCalled J.Event.place self.old self.new }
        ensures err { IfErr result (λ e. e ≡ NoPlace) }
    {
        let Some(view) = self.view.take() else {
            unreachable!()
        };
        match view.enter() {
            Ok(entered) => {
                let (view, found) = look_at(entered, look);
                self.view = Some(view);
                Ok(found)
            }
            Err(view) => {
                self.view = Some(view);
                Err(Refusal::NoPlace)
            }
        }
    }

    /// The root that is published, to look at as often as wanted. It waits for nobody, and takes constant time and no memory. It is refused with NoPlace as
    /// a look is, and with OutOfMemory where as many own the root as can be counted; that these come nowhere else stands in no clause.
    pub fn snapshot(&mut self) -> Result<Snapshot<J, A>, Refusal>
        ensures front { IfOk result (λ s. s ≡ self.new.front) }
        ensures own { HasNotCalled J.Event.place self.old self.new }
        ensures err { IfErr result (λ e. (e ≡ NoPlace) ⊎ (e ≡ OutOfMemory)) }
    {
        let Some(view) = self.view.take() else {
            unreachable!()
        };
        let (view, snapshot) = snapshot_at(view);
        self.view = Some(view);
        snapshot
    }

    /// Puts the root that is published in the place of the snapshot's, where something was published since. Where nothing was it counts no owner, so
    /// readers on many processors do not wait for each other's counts. It waits for nobody. It is refused as `snapshot` is, which leaves the snapshot as
    /// it was. Takes constant time and no memory, but the time of letting go of what nobody else holds.
    pub fn renew(&mut self, snapshot: &mut Snapshot<J, A>) -> Result<(), Refusal>
        ensures front { IfOk result (λ _. snapshot.new ≡ self.new.front) }
        ensures own { HasNotCalled J.Event.place self.old self.new }
        ensures err { IfErr result (λ e. (e ≡ NoPlace) ⊎ (e ≡ OutOfMemory)) }
        ensures unchanged { IfErr result (λ _. snapshot.new ≡ snapshot.old) }
    {
        self.learn(snapshot.tell());
        let events = self.events()?;
        if events == snapshot.events() {
            return Ok(());
        }
        *snapshot = self.snapshot()?;
        Ok(())
    }
}

impl<J: Object, G: Gate + Drop, W: Wait + Drop, A: Allocator + Copy> Client<
    J,
    Shared<J, G, W, A>,
    A,
> {
    /// Makes a call when its turn has come, and answers its reply and a receipt, which is of the history with the call at its end. A refused
    /// call is not made, though the client may have seen more of the history, and the calls of its place that it has seen then are those that
    /// it made. It is refused with NumbersSpent where the history has 2^64 - 1 events, with what the call itself refuses, else with
    /// OutOfMemory. It leaves the object to those who come after it. Takes what the update takes, and a publish, which takes time in the places; it waits for its turn, and for readers that are
    /// inside, which are so for a few steps and not while they look.
    pub fn call<T: Wait, C: Update<J, A>>(
        &mut self,
        rt: &T,
        update: &C,
    ) -> Result<(C::Reply, Note<J::Root, J::Event, J>), Refusal>
        ensures ok { IfOk result (λ r. (history : List J.Event) × IsAccepted J.Event.place self.old self.new history (C.event update.now r.0 self.old.place) × C.answers update.now history r.0) }
        ensures receipt { IfOk result (λ r. r.1 ≡ self.new.front) }
        ensures refused { IfErr result (λ e. IsRefused (C.refuses update.now) self.new.front e) }
        ensures not_made { OnErr result (HasNotCalled J.Event.place self.old self.new) }
        ensures no_others { OnErr result (calls_by J.Event.place self.new.place self.new.front ≡ made J.Event.place self.new) }
    {
        let Some(view) = self.view.take() else {
            unreachable!()
        };
        let (place, operations) = (self.place, self.operations);
        let (view, answer) = take_turn(&self.shared, rt, view, place, operations, update);
        self.view = Some(view);
        match answer {
            Ok(told) => {
                self.operations = operations + 1;
                Ok(told)
            }
            Err(refusal) => Err(refusal),
        }
    }

    /// Looks at the object itself when its turn has come: at what a root leaves out. Nothing happens by it, and the client has then seen all that
    /// happened. It takes what the look takes, with the lock held, so those that write wait for it; it waits for its turn, for no reader, and passes no
    /// gate. It is not refused; where the object was taken out it waits for good.
    pub fn inspect<T: Wait, L: Look<J::State>>(&mut self, rt: &T, look: &L) -> L::Found
        ensures found { (object : J.State) × J.after object self.new.front × L.finds look.now object result }
        ensures own { HasNotCalled J.Event.place self.old self.new }
    {
        let Some(view) = self.view.take() else {
            unreachable!()
        };
        let (place, operations) = (self.place, self.operations);
        let (view, found) = look_in_turn(&self.shared, rt, view, place, operations, look);
        self.view = Some(view);
        found
    }

    /// Whether the calls of its place at what is guarded are just those that it made. It has learnt the history in any case.
    pub(crate) fn meet(&mut self, guarded: &Guarded<J, W, A>) -> bool
        ensures own { IsTrue result → IsOwn J.Event.place guarded.now self.old }
        ensures not_called { HasNotCalled J.Event.place self.old self.new }
    {
        let Some(view) = self.view.take() else {
            unreachable!()
        };
        let (view, is_met) = guarded.meet(view, self.place, self.operations);
        self.view = Some(view);
        is_met
    }
}

// Enters and leaves: how many events there are, where it could enter.
fn events_at<J: Object, A: Allocator>(
    view: View<J::Root, J::Event, J, A>,
) -> (View<J::Root, J::Event, J, A>, Option<u64>)
    ensures events { IfSome result.1 (λ n. n ≡ length result.0) }
    ensures seen { IsPrefix view result.0 }
{
    match view.enter() {
        Ok(entered) => {
            let events = entered.events();
            (entered.leave(), Some(events))
        }
        Err(view) => (view, None),
    }
}

// Enters, shares the root, and leaves.
fn snapshot_at<J: Object, A: Allocator>(
    view: View<J::Root, J::Event, J, A>,
) -> (
    View<J::Root, J::Event, J, A>,
    Result<Snapshot<J, A>, Refusal>,
)
    ensures front { IfOk result.1 (λ s. s ≡ result.0) }
    ensures seen { IsPrefix view result.0 }
    ensures err { IfErr result.1 (λ e. (e ≡ NoPlace) ⊎ (e ≡ OutOfMemory)) }
{
    match view.enter() {
        Ok(entered) => {
            let root = entered.share();
            let view = entered.leave();
            match root {
                Ok(root) => {
                    let front = view.tell();
                    (view, Ok(Snapshot::new(root, front)))
                }
                Err(_) => (view, Err(Refusal::OutOfMemory)),
            }
        }
        Err(view) => (view, Err(Refusal::NoPlace)),
    }
}

// Leaves, and then looks at the root that was entered. Where as many own that root as can be counted, it looks before it leaves.
fn look_at<J: Object, L: Look<J::Root>, A: Allocator>(
    entered: Entered<J::Root, J::Event, J, A>,
    look: &L,
) -> (View<J::Root, J::Event, J, A>, L::Found)
    ensures view { result.0 ≡ entered.1 }
    ensures found { (root : J.Root) × J.stands root entered.1 × L.finds look.now root result.1 }
{
    match entered.share() {
        Ok(root) => {
            let view = entered.leave();
            let found = look.look(&root);
            (view, found)
        }
        Err(_) => {
            let found = look.look(entered.root());
            (entered.leave(), found)
        }
    }
}
