ghost use Rattle.std.specs.Prelude.{◌≡◌, ◌⊎◌, ◌<◌, ◌-◌, ◌^◌, ◌++◌, ◌∷◌, [], List, length, IfOk, IfErr};
ghost use mathlib.Core.List.{IsPrefix};
ghost use Rattle.shared_object.specs.History.{calls_by};
ghost use Rattle.shared_object.specs.Calling.{IsRefused};

use crate::awaiting::awaited;
use crate::guarded::Guarded;
use crate::look::Look;
use crate::object::Object;
use crate::update::Update;
use dots::Refusal;
use root_cell::{Note, Title, View};
use std::alloc::{Allocator, Global};
use std::marker::Model;
use std::sync::Wait;

/// What lies under the lock of a shared object: the object, or the title to its cell, which lies there before the object does and once that was
/// taken out. So whoever has no title leaves the object there.
#[derive(Drop)]
pub(crate) struct Lying<J: Object, W: Wait + Drop, A: Allocator + Copy = Global> {
    guarded: Option<Guarded<J, W, A>>,
    title: Option<Title<J::Root, J::Event, J>>,
}

impl<J: Object, W: Wait + Drop, A: Allocator + Copy> Model for Lying<J, W, A> {
    ghost use Rattle.std.specs.Prelude.{◌⊎◌, IsSome, List, Option};

    ghost Value = { Option (List J.Event) };

    ghost view = { λ l. l.guarded };

    ghost invariant = { λ l. IsSome l.guarded ⊎ IsSome l.title };
}

impl<J: Object, W: Wait + Drop, A: Allocator + Copy> Lying<J, W, A> {
    /// The title, before the object lies there.
    pub(crate) fn new(title: Title<J::Root, J::Event, J>) -> Lying<J, W, A> {
        Lying {
            guarded: None,
            title: Some(title),
        }
    }

    /// The title.
    pub(crate) fn into_title<T: Wait>(self, rt: &T) -> Title<J::Root, J::Event, J> {
        let Lying { guarded, title } = self;
        drop(guarded);
        awaited(rt, title)
    }

    /// Lays the object there, against the title.
    pub(crate) fn lay<T: Wait>(
        &mut self,
        rt: &T,
        guarded: Guarded<J, W, A>,
    ) -> Title<J::Root, J::Event, J> {
        let before = self.guarded.replace(guarded);
        drop(before);
        awaited(rt, self.title.take())
    }

    /// Takes the object out, against the title.
    pub(crate) fn take<T: Wait>(
        &mut self,
        rt: &T,
        title: Title<J::Root, J::Event, J>,
    ) -> Guarded<J, W, A> {
        drop(self.title.replace(title));
        awaited(rt, self.guarded.take())
    }

    /// Looks at the object for a client, and leaves it there.
    pub(crate) fn inspect<T: Wait, L: Look<J::State>>(
        &mut self,
        rt: &T,
        view: View<J::Root, J::Event, J, A>,
        place: usize,
        operations: u64,
        look: &L,
    ) -> (View<J::Root, J::Event, J, A>, L::Found)
        requires { place < 64 }
        ensures seen { IsPrefix view result.0 }
        ensures found { (object : J.State) × J.after object result.0 × L.finds look.now object result.1 }
    {
        let guarded = awaited(rt, self.guarded.take());
        let told = guarded.inspect(rt, view, place, operations, look);
        drop(self.guarded.replace(guarded));
        told
    }

    /// Takes the turn of a client, and leaves the object there.
    pub(crate) fn turn<T: Wait, C: Update<J, A>>(
        &mut self,
        rt: &T,
        view: View<J::Root, J::Event, J, A>,
        place: usize,
        operations: u64,
        update: &C,
    ) -> (
        View<J::Root, J::Event, J, A>,
        Result<(C::Reply, Note<J::Root, J::Event, J>), Refusal>,
    )
        requires { place < 64 }
        ensures ok { IfOk result.1 (λ r. (history : List J.Event) × IsPrefix view history × (length (calls_by J.Event.place place history) ≡ operations) × (length history < 2 ^ 64 - 1)
            × C.answers update.now history r.0 × (r.1 ≡ history ++ C.event update.now r.0 place ∷ []) × (result.0 ≡ history ++ C.event update.now r.0 place ∷ [])) }
        ensures refused { IfErr result.1 (λ e. IsRefused (C.refuses update.now) result.0 e) }
        ensures learnt { IfErr result.1 (λ _. IsPrefix view result.0) }
        ensures whole { IfErr result.1 (λ _. length (calls_by J.Event.place place result.0) ≡ operations) }
    {
        let guarded = awaited(rt, self.guarded.take());
        let (guarded, view, answer) = guarded.turn(rt, view, place, operations, update);
        drop(self.guarded.replace(guarded));
        (view, answer)
    }
}
