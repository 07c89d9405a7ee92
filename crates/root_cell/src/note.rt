ghost use Rattle.std.specs.Prelude.{◌≡◌, length, MatchBool};
ghost use mathlib.Core.List.{IsPrefix};
ghost use Rattle.root_cell.specs.Rule.{IsLonger};

use crate::brand::Brand;
use crate::front::Front;
use crate::view::View;
use std::alloc::Allocator;
use std::marker::Model;

/// What a Writer or a View told: a front of the cell's list of events, which a View of the same cell can learn. Contracts see the list.
#[derive(Drop)]
pub struct Note<R, E, J: Brand<R, E>> {
    pub(crate) front: Front<R, E, J>,
}

impl<R, E, J: Brand<R, E>> Model for Note<R, E, J> {
    ghost use Rattle.std.specs.Prelude.{List};

    ghost Value = { List E };

    ghost view = { λ n. n.front };
}

impl<R, E, J: Brand<R, E>> Note<R, E, J> {
    /// How many events it tells. Takes constant time, and no memory.
    pub fn events(&self) -> u64
        ensures { result ≡ length self.now }
    {
        self.front.events()
    }

    /// The same Note once more. Takes constant time, and no memory.
    pub fn again(&self) -> Note<R, E, J>
        ensures { result ≡ self.now }
    {
        Note {
            front: self.front.again(),
        }
    }

    /// Whether the View would learn something. If not, it saw or learnt all that the Note tells. Takes constant time, and no
    /// memory.
    pub fn is_ahead_of<A: Allocator>(&self, view: &View<R, E, J, A>) -> bool
    where
        R: Drop,
        ensures { MatchBool result (IsLonger view.now self.now) (IsPrefix self.now view.now) }
    {
        view.front().is_behind(&self.front)
    }
}
