ghost use Rattle.std.specs.Prelude.{◌≡◌, length};

use crate::look::Look;
use crate::object::Object;
use root_cell::Note;
use std::alloc::{Allocator, Global};
use std::marker::Model;
use std::sync::Arc;

/// A root that was published, which its holder looks at as often as it likes: each look finds what the object was then, and counts no owner of the root,
/// so readers on many processors do not wait for each other's counts. Contracts see the front of the history that it stands for. It keeps in memory what
/// was replaced since, until it is renewed (`Client::renew`) or dropped.
#[derive(Drop)]
pub struct Snapshot<J: Object, A: Allocator = Global> {
    root: Arc<J::Root, A>,
    front: Note<J::Root, J::Event, J>,
}

impl<J: Object, A: Allocator> Model for Snapshot<J, A> {
    ghost use Rattle.std.specs.Prelude.{List};

    ghost Value = { List J.Event };

    ghost view = { λ s. s.front };

    ghost invariant = { λ s. J.stands s.root.value s.front };
}

impl<J: Object, A: Allocator> Snapshot<J, A> {
    /// The root that stands for this front.
    pub(crate) fn new(root: Arc<J::Root, A>, front: Note<J::Root, J::Event, J>) -> Snapshot<J, A>
        requires { J.stands root.value front }
        ensures { result ≡ front }
    {
        Snapshot { root, front }
    }

    /// How many events the history has that it stands for. Takes constant time, and no memory.
    pub fn events(&self) -> u64
        ensures { result ≡ length self.now }
    {
        self.front.events()
    }

    /// A receipt of the history that it stands for, for a client to learn. Takes constant time, and no memory.
    pub fn tell(&self) -> Note<J::Root, J::Event, J>
        ensures { result ≡ self.now }
    {
        self.front.again()
    }

    /// Reads off the root. It waits for nobody, and takes what the look takes.
    pub fn look<L: Look<J::Root>>(&self, look: &L) -> L::Found
        ensures { (root : J.Root) × J.stands root self.now × L.finds look.now root result }
    {
        look.look(&self.root)
    }
}
