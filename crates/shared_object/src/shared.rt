ghost use Rattle.std.specs.Prelude.{◌≡◌, ◌<◌, ◌-◌, ◌^◌, ◌++◌, ◌∷◌, [], List, length, IfOk, IfErr};
ghost use mathlib.Core.List.{IsPrefix};
ghost use Rattle.shared_object.specs.History.{calls_by};
ghost use Rattle.shared_object.specs.Calling.{IsRefused};

use crate::gate::{Gate, Point};
use crate::look::Look;
use crate::lying::Lying;
use crate::object::Object;
use crate::update::Update;
use dots::Refusal;
use root_cell::{Note, View};
use std::alloc::{Allocator, Global};
use std::sync::{Mutex, Wait};

/// What the clients of an object share: the lock, under which the object lies, and the gate before it.
#[derive(Drop)]
pub struct Shared<J: Object, G: Gate + Drop, W: Wait + Drop, A: Allocator + Copy = Global> {
    pub(crate) gate: G,
    pub(crate) lock: Mutex<Lying<J, W, A>>,
}

/// Takes the turn of a client: makes its call, once the lock is free. The View has seen the history with the call afterwards, or where it
/// is refused maybe more than before.
pub(crate) fn take_turn<
    J: Object,
    G: Gate + Drop,
    W: Wait + Drop,
    A: Allocator + Copy,
    T: Wait,
    C: Update<J, A>,
>(
    shared: &Shared<J, G, W, A>,
    rt: &T,
    view: View<J::Root, J::Event, J, A>,
    place: usize,
    operations: u64,
    update: &C,
) -> (
    View<J::Root, J::Event, J, A>,
    Result<(C::Reply, Note<J::Root, J::Event, J>), Refusal>,
)
    requires { place < 64 }
    ensures ok { IfOk result.1 (λ r. (history : List J.Event) × IsPrefix view history × (length (calls_by J.Event.place place history) ≡ operations) × (length history < 2 ^ 64 - 1)
        × C.answers update.now history r.0 × (r.1 ≡ history ++ C.event update.now r.0 place ∷ []) × (result.0 ≡ history ++ C.event update.now r.0 place ∷ [])) }
    ensures refused { IfErr result.1 (λ e. IsRefused (C.refuses update.now) result.0 e) }
    ensures learnt { IfErr result.1 (λ _. IsPrefix view result.0) }
    ensures whole { IfErr result.1 (λ _. length (calls_by J.Event.place place result.0) ≡ operations) }
{
    shared.gate.pass(Point::Before);
    let mut guard = shared.lock.lock(rt);
    shared.gate.pass(Point::Locked);
    guard.turn(rt, view, place, operations, update)
}

/// Looks at the object for a client, once the lock is free. The View has seen the history then.
pub(crate) fn look_in_turn<
    J: Object,
    G: Gate + Drop,
    W: Wait + Drop,
    A: Allocator + Copy,
    T: Wait,
    L: Look<J::State>,
>(
    shared: &Shared<J, G, W, A>,
    rt: &T,
    view: View<J::Root, J::Event, J, A>,
    place: usize,
    operations: u64,
    look: &L,
) -> (View<J::Root, J::Event, J, A>, L::Found)
    requires { place < 64 }
    ensures seen { IsPrefix view result.0 }
    ensures found { (object : J.State) × J.after object result.0 × L.finds look.now object result.1 }
{
    let mut guard = shared.lock.lock(rt);
    guard.inspect(rt, view, place, operations, look)
}
