ghost use Rattle.std.specs.Prelude.{◌≡◌, ◌⊎◌, IfOk, IfErr, MatchBool};
ghost use mathlib.Core.List.{IsPrefix};
ghost use Rattle.root_cell.specs.Rule.{IsLonger};

use crate::brand::Brand;
use crate::entered::Entered;
use crate::front::Front;
use crate::note::Note;
use crate::published::Published;
use crate::rule::{Ruled, Showing};
use left_right::reader::Reader;
use std::alloc::{Allocator, Global};
use std::collections::LinkedList;
use std::marker::Model;
use std::mem;

/// A reader's seat at a cell. Contracts see the front that it saw or learnt, a beginning of the cell's one list of events.
#[derive(Drop)]
pub struct View<R: Drop, E, J: Brand<R, E>, A: Allocator = Global> {
    reader: Reader<Published<R, E, A>, LinkedList<E>, Ruled<J>, A>,
    front: Front<R, E, J>,
}

impl<R: Drop, E, J: Brand<R, E>, A: Allocator> Model for View<R, E, J, A> {
    ghost use Rattle.std.specs.Prelude.{List};

    ghost Value = { List E };

    ghost view = { λ v. v.front };
}

impl<R: Drop, E, J: Brand<R, E>, A: Allocator> View<R, E, J, A> {
    /// A seat that has seen this front.
    pub(crate) fn new(
        reader: Reader<Published<R, E, A>, LinkedList<E>, Ruled<J>, A>,
        front: Front<R, E, J>,
    ) -> View<R, E, J, A>
        ensures { result ≡ front }
    {
        View { reader, front }
    }

    /// The front, as the token that shows it.
    pub(crate) fn front(&self) -> &Front<R, E, J>
        ensures { result.now ≡ self.now }
    {
        &self.front
    }

    /// A Note of all that it saw or learnt, for another View of this cell to learn. Takes constant time, and no memory.
    pub fn tell(&self) -> Note<R, E, J>
        ensures { result ≡ self.now }
    {
        Note {
            front: self.front.again(),
        }
    }

    /// Enters what is published. It waits for nobody, and takes constant time and no memory. The View comes back where the Writer
    /// has ended; so it would where less is published than this View saw or learnt, which a cell with its one Writer does not come
    /// to.
    pub fn enter(self) -> Result<Entered<R, E, J, A>, View<R, E, J, A>>
        ensures later { IfOk result (λ e. IsPrefix self e.1) }
        ensures stands { IfOk result (λ e. J.stands e.0 e.1) }
        ensures back { IfErr result (λ v. v ≡ self) }
    {
        let View { reader, front } = self;
        match reader.enter_as::<Showing<J>>() {
            Err(reader) => Err(View { reader, front }),
            Ok(reading) => {
                let entered = Entered::new(reading);
                if entered.front().is_behind(&front) {
                    let View {
                        reader,
                        front: earlier,
                    } = entered.leave();
                    drop(earlier);
                    return Err(View { reader, front });
                }
                drop(front);
                Ok(entered)
            }
        }
    }

    /// Takes in what a Note told: afterwards the View has seen the longer of its own front and the Note's. It takes constant time,
    /// and no memory.
    pub fn learn(&mut self, note: Note<R, E, J>)
        ensures one { (self.new ≡ self.old) ⊎ (self.new ≡ note) }
        ensures own { IsPrefix self.old self.new }
        ensures told { IsPrefix note self.new }
    {
        let Note { front } = note;
        if self.front.is_behind(&front) {
            drop(mem::replace(&mut self.front, front));
        }
    }

    /// Whether the other View of the cell saw or learnt more. If not, this one saw or learnt all that the other did: the fronts of
    /// any two Views are beginnings of one list. Takes constant time, and no memory.
    pub fn is_behind(&self, other: &View<R, E, J, A>) -> bool
        ensures { MatchBool result (IsLonger self.now other.now) (IsPrefix other.now self.now) }
    {
        self.front.is_behind(&other.front)
    }
}
