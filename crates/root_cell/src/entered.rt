ghost use Rattle.std.specs.Prelude.{◌≡◌, length, IfOk, IfErr};
ghost use Rattle.dots.specs.declared.refusal.Refusal.TheVariants.{OutOfMemory};
ghost use Rattle.root_cell.specs.Rule.{StandsIn};

use crate::brand::Brand;
use crate::front::Front;
use crate::published::Published;
use crate::rule::Ruled;
use crate::view::View;
use dots::Refusal;
use left_right::reader::Reading;
use std::alloc::{Allocator, Global};
use std::collections::LinkedList;
use std::marker::Model;
use std::sync::Arc;

/// A View that is inside. Contracts see the root that it entered, and the front that this root stands for. While it is inside the
/// root stays, and the next publish but one waits; whoever shares the root can leave first. It is not `Drop`: it has to `leave`.
pub struct Entered<R: Drop, E, J: Brand<R, E>, A: Allocator = Global> {
    reading: Reading<Published<R, E, A>, LinkedList<E>, Ruled<J>, A>,
    front: Front<R, E, J>,
}

impl<R: Drop, E, J: Brand<R, E>, A: Allocator> Model for Entered<R, E, J, A> {
    ghost use Rattle.std.specs.Prelude.{◌≡◌, List};

    ghost Value = { R × List E };

    ghost view = { λ e. (e.reading.part.value.0, e.front) };

    ghost invariant = { λ e. J.stands e.reading.part.value.0 e.front };
}

impl<R: Drop, E, J: Brand<R, E>, A: Allocator> Entered<R, E, J, A> {
    /// Inside, with what is read.
    pub(crate) fn new(
        reading: Reading<Published<R, E, A>, LinkedList<E>, Ruled<J>, A>,
    ) -> Entered<R, E, J, A>
        requires { StandsIn J.book J.stands reading.part.value }
        ensures root { result ≡ (reading.part.value.0, reading.part.value.1) }
    {
        let published = reading.get();
        let front = Front::new(published.events(), &published.seen());
        Entered { reading, front }
    }

    /// The front, as the token that shows it.
    pub(crate) fn front(&self) -> &Front<R, E, J>
        ensures { result.now ≡ self.now.1 }
    {
        &self.front
    }

    /// The root. It stands for the front. Copies nothing.
    pub fn root(&self) -> &R
        ensures root { result.now ≡ self.now.0 }
        ensures stands { J.stands self.now.0 self.now.1 }
    {
        self.reading.get().root()
    }

    /// The root by a count of owners, so that it stays there once the View has left. Copies nothing. Its only refusal is OutOfMemory, where as
    /// many own it as can be counted.
    pub fn share(&self) -> Result<Arc<R, A>, Refusal>
        ensures root { IfOk result (λ root. root.value ≡ self.now.0) }
        ensures stands { IfOk result (λ root. J.stands root.value self.now.1) }
        ensures err { IfErr result (λ e. e ≡ OutOfMemory) }
    {
        Ok(self.reading.get().share()?)
    }

    /// The number of events that the root stands for.
    pub fn events(&self) -> u64
        ensures { result ≡ length self.now.1 }
    {
        self.front.events()
    }

    /// Leaves. The View has then seen the front that it had entered. It waits for nobody, and takes no memory.
    pub fn leave(self) -> View<R, E, J, A>
        ensures { result ≡ self.1 }
    {
        let Entered { reading, front } = self;
        View::new(reading.leave(), front)
    }
}
