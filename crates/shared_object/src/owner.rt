ghost use Rattle.std.specs.Prelude.{◌≡◌, ◌⊎◌, ◌↔◌, ◌+◌, ◌-◌, ◌≤◌, [], length, replicate, IfOk, IfErr, IsErrOf, OnOk, OnErr};
ghost use Rattle.std.specs.Vec.{vec_len, vec_capacity};
ghost use Rattle.dots.specs.declared.refusal.Refusal.TheVariants.{NoPlace, OutOfMemory};
ghost use Rattle.shared_object.specs.History.{HandsOut, TakesBack, first_at};
ghost use Rattle.shared_object.specs.Finishing.{NothingHappened};

use crate::client::Client;
use crate::gate::Gate;
use crate::guarded::Guarded;
use crate::lying::Lying;
use crate::object::Object;
use crate::returned::Returned;
use crate::shared::Shared;
use dots::Refusal;
use root_cell::{Title, View, Writer};
use std::alloc::{Allocator, Global};
use std::marker::Model;
use std::sync::{Arc, Mutex, Wait};

/// Who hands out the clients of a shared object, and takes them back. Contracts see how many places were taken, how many are free, and the
/// clients that were given back.
#[derive(Drop)]
pub struct Owner<J: Object, S: Drop, A: Allocator + Copy = Global> {
    shared: Arc<S, A>,
    views: Vec<View<J::Root, J::Event, J, A>, A>,
    back: Vec<Client<J, S, A>, A>,
    taken: usize,
    title: Title<J::Root, J::Event, J>,
}

impl<J: Object, S: Drop, A: Allocator + Copy> Model for Owner<J, S, A> {
    ghost use Rattle.std.specs.Prelude.{◌≡◌, ◌≤◌, ◌+◌, [], length, replicate};
    ghost use Rattle.std.specs.Vec.{vec_capacity};
    ghost use Rattle.shared_object.specs.History.{Places};

    ghost Value = { Places J.Event };

    ghost view = { λ o. record { taken = o.taken; free = length o.views.items; back = o.back.items } };

    // There is room for all clients that can come back.
    ghost invariant = { λ o. (o.taken + length o.views.items ≤ 64) × (o.views.items ≡ replicate (length o.views.items) [])
        × (o.taken + length o.views.items ≤ vec_capacity o.back) };
}

impl<J: Object, G: Gate + Drop, W: Wait + Drop, A: Allocator + Copy> Owner<
    J,
    Shared<J, G, W, A>,
    A,
> {
    /// Shares an object to which nothing happened yet, with the writer, the views and the title of its cell. It keeps the handle to end the
    /// writer with. It may wait, as it lays the object under a lock that it makes. Takes memory for what the clients share, and for all that can be
    /// given back, once. Where there is none, all comes back, and that is its only refusal.
    pub fn new<T: Wait>(
        rt: &T,
        alloc: A,
        object: J::State,
        writer: Writer<J::Root, J::Event, J, A>,
        views: Vec<View<J::Root, J::Event, J, A>, A>,
        title: Title<J::Root, J::Event, J>,
        gate: G,
        handle: W,
    ) -> Result<Owner<J, Shared<J, G, W, A>, A>, Returned<J, G, W, A>>
        requires object { J.after object [] }
        requires writer { writer ≡ [] }
        requires places { vec_len views ≤ 64 }
        requires views { views.items ≡ replicate (vec_len views) [] }
        ensures ok { IfOk result (λ owner. owner ≡ record { taken = 0; free = vec_len views; back = [] }) }
        ensures nothing { IfOk result (λ owner. NothingHappened J.Event.place owner.taken) }
        ensures back { IfErr result (λ back. (back.object ≡ object) × (back.writer ≡ writer) × (back.views ≡ views)
            × (back.gate ≡ gate) × (back.handle ≡ handle)) }
    {
        let Ok(back) = Vec::with_capacity(alloc, views.len()) else {
            return Err(Returned {
                object,
                writer,
                views,
                title,
                gate,
                handle,
            });
        };
        let shared = match Arc::new(
            alloc,
            Shared {
                gate,
                lock: Mutex::new(Lying::new(title)),
            },
        ) {
            Ok(shared) => shared,
            Err(failed) => {
                let Shared { gate, lock } = failed.value;
                let title = lock.into_inner().into_title(rt);
                return Err(Returned {
                    object,
                    writer,
                    views,
                    title,
                    gate,
                    handle,
                });
            }
        };
        let guarded = Guarded::new(object, writer, handle);
        let title = shared.lock.lock(rt).lay(rt, guarded);
        Ok(Owner {
            shared,
            views,
            back,
            taken: 0,
            title,
        })
    }
}

impl<J: Object, S: Drop, A: Allocator + Copy> Owner<J, S, A> {
    /// A client: the one that was given back last, which goes on where it stopped, else the first one at the next place. NoPlace comes exactly
    /// where none is back and no place is free, else OutOfMemory or the client. Takes a reference count, and no memory: OutOfMemory comes only
    /// where that is full.
    pub fn client(&mut self) -> Result<Client<J, S, A>, Refusal>
        ensures client { IfOk result (λ client. HandsOut self.old self.new client) }
        ensures no_place { IsErrOf result Refusal.NoPlace ↔ ((self.old.free ≡ 0) × (self.old.back ≡ [])) }
        ensures refused { IfErr result (λ e. (e ≡ NoPlace) ⊎ (e ≡ OutOfMemory)) }
        ensures unchanged { OnErr result (self.new ≡ self.old) }
    {
        match self.back.pop() {
            Some(client) => Ok(client),
            None => self.first(),
        }
    }

    // The first client at the next place, where none is back.
    fn first(&mut self) -> Result<Client<J, S, A>, Refusal>
        requires { self.old.back ≡ [] }
        ensures client { IfOk result (λ client. client ≡ first_at self.old.taken) }
        ensures taken { OnOk result ((self.new.taken ≡ self.old.taken + 1) × (self.new.free + 1 ≡ self.old.free) × (self.new.back ≡ [])) }
        ensures no_place { IsErrOf result Refusal.NoPlace ↔ (self.old.free ≡ 0) }
        ensures refused { IfErr result (λ e. (e ≡ NoPlace) ⊎ (e ≡ OutOfMemory)) }
        ensures unchanged { OnErr result (self.new ≡ self.old) }
    {
        if self.views.is_empty() {
            return Err(Refusal::NoPlace);
        }
        let shared = Arc::try_clone(&self.shared)?;
        let place = self.taken;
        match self.views.pop() {
            Some(view) => {
                self.taken = place + 1;
                Ok(Client::new(place, view, shared))
            }
            None => Err(Refusal::NoPlace),
        }
    }

    /// Takes a client back, whose place is handed out again then: so any number of clients may come and go. A client that is let go and not
    /// given back keeps its place for good. It comes back itself where as many clients are back as there are places. Takes constant time, and
    /// no memory.
    pub fn give_back(&mut self, client: Client<J, S, A>) -> Result<(), Client<J, S, A>>
        ensures ok { OnOk result (TakesBack self.old self.new client) }
        ensures refused { IfErr result (λ refused. (refused ≡ client) × (self.old.taken + self.old.free ≤ length self.old.back)) }
        ensures unchanged { OnErr result (self.new ≡ self.old) }
    {
        match self.back.push(client) {
            Ok(()) => Ok(()),
            Err(failed) => Err(failed.value),
        }
    }

    /// What its clients share, the title to the cell, and the clients that were given back, with room for all others: for good.
    pub(crate) fn into_parts(
        self,
    ) -> (
        Arc<S, A>,
        Title<J::Root, J::Event, J>,
        Vec<Client<J, S, A>, A>,
    )
        ensures back { result.2.items ≡ self.back }
        ensures room { self.taken ≤ vec_capacity result.2 }
    {
        let Owner {
            shared,
            views,
            back,
            taken: _,
            title,
        } = self;
        drop(views);
        (shared, title, back)
    }

    /// The clients that were given back.
    pub(crate) fn back(&self) -> &[Client<J, S, A>]
        ensures { result.now ≡ self.now.back }
    {
        &self.back
    }

    /// How many places were taken.
    pub(crate) fn taken(&self) -> usize
        ensures { result ≡ self.now.taken }
    {
        self.taken
    }
}
