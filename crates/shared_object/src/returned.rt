use crate::object::Object;
use root_cell::{Title, View, Writer};
use std::alloc::{Allocator, Global};

/// What comes back where there was no memory to share an object.
pub struct Returned<J: Object, G: Drop, W: Drop, A: Allocator + Copy = Global> {
    /// The object.
    pub object: J::State,
    /// The writer of its roots.
    pub writer: Writer<J::Root, J::Event, J, A>,
    /// The views of its clients.
    pub views: Vec<View<J::Root, J::Event, J, A>, A>,
    /// The title to its cell.
    pub title: Title<J::Root, J::Event, J>,
    /// The gate.
    pub gate: G,
    /// The handle.
    pub handle: W,
}
