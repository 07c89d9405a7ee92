ghost use Rattle.std.specs.Prelude.{◌≡◌, ◌-◌, ◌<◌, ◌^◌, ◌++◌, ◌∷◌, [], length, drop, IfErr, MatchBool, MatchResult};
ghost use mathlib.Core.List.{IsPrefix};
ghost use Rattle.dots.specs.declared.refusal.Refusal.TheVariants.{OutOfMemory};
ghost use Rattle.root_cell.specs.Book.{head_of};
ghost use Rattle.root_cell.specs.Rule.{IsLonger, StandsIn};

use crate::about::About;
use crate::book::Counted;
use crate::brand::Brand;
use crate::desk::{Desk, add, put_out};
use crate::front::Front;
use crate::note::Note;
use crate::published::Published;
use crate::view::View;
use dots::Refusal;
use left_right::Absorb;
use logbook::Word;
use std::alloc::{Allocator, Global};
use std::marker::Model;
use std::sync::{Arc, Wait};

/// The one writer of a cell. Contracts see the cell's list of events, for which the published root stands. It is not `Drop`: it has
/// to `end`.
pub struct Writer<R: Drop, E, J: Brand<R, E>, A: Allocator = Global>
where
    Published<R, E, A>: Absorb<Published<R, E, A>, State = Published<R, E, A>>,
{
    alloc: A,
    desk: Desk<R, E, J, A>,
    head: Word<E, u64, Counted>,
    front: Front<R, E, J>,
}

impl<R: Drop, E, J: Brand<R, E>, A: Allocator> Model for Writer<R, E, J, A>
where
    Published<R, E, A>: Absorb<Published<R, E, A>, State = Published<R, E, A>>,
{
    ghost use Rattle.std.specs.Prelude.{◌≡◌, List, [], drop};
    ghost use Rattle.root_cell.specs.Book.{head_of};
    ghost use Rattle.root_cell.specs.Rule.{StandsIn};

    ghost Value = { List E };

    ghost view = { λ w. w.front };

    // The published root stands for the front, and nothing pends: not after a publish, and not after one that was refused.
    ghost invariant = { λ w. StandsIn J.book J.stands w.desk.desk.shown.value × (w.desk.desk.shown.value.1 ≡ w.front)
        × (drop w.desk.behind w.desk.log.items ≡ []) × (w.head ≡ head_of J.book) };
}

impl<R: Drop, E, J: Brand<R, E>, A: Allocator + Copy> Writer<R, E, J, A> {
    /// The writer of these copies, which show a root for the front.
    pub(crate) fn new(
        alloc: A,
        desk: Desk<R, E, J, A>,
        head: Word<E, u64, Counted>,
        front: Front<R, E, J>,
    ) -> Writer<R, E, J, A>
        requires stands { StandsIn J.book J.stands desk.desk.shown.value }
        requires shown { desk.desk.shown.value.1 ≡ front }
        requires settled { drop desk.behind desk.log.items ≡ [] }
        requires head { head ≡ head_of J.book }
        ensures { result ≡ front }
    {
        Writer {
            alloc,
            desk,
            head,
            front,
        }
    }

    /// Publishes a root in place of the one that is there, and adds the event that `about` tells to the cell's list. It may wait for
    /// Views to leave. OutOfMemory comes only where no place for the root was found; the cell is then as it was, and nothing pends.
    /// Takes memory for the root, and time in the places; what was published before the last publish is let go.
    pub fn publish<X, M: About<X, E>, W: Wait>(
        self,
        rt: &W,
        root: R,
        about: &X,
    ) -> (Writer<R, E, J, A>, Result<(), Refusal>)
        requires room { length self < 2 ^ 64 - 1 }
        requires stands { J.stands root (self ++ (M.event about.now) ∷ []) }
        ensures front { MatchResult result.1 (λ _. result.0 ≡ self ++ (M.event about.now) ∷ []) (λ _. result.0 ≡ self) }
        ensures err { IfErr result.1 (λ e. e ≡ OutOfMemory) }
    {
        let Writer {
            alloc,
            desk,
            head,
            front,
        } = self;
        let root = match Arc::new(alloc, root) {
            Ok(root) => root,
            Err(failed) => {
                let writer = Writer {
                    alloc,
                    desk,
                    head,
                    front,
                };
                return (writer, Err(failed.into()));
            }
        };
        let writer = Writer {
            alloc,
            desk,
            head,
            front,
        };
        (writer.publish_placed::<X, M, W>(rt, root, about), Ok(()))
    }

    /// Publishes a root that has its place already, and adds the event that `about` tells to the cell's list. It may wait for Views to
    /// leave. It is not refused and takes no memory, so whoever changes something beside the cell can make the place first. Takes time
    /// in the places.
    pub fn publish_placed<X, M: About<X, E>, W: Wait>(
        self,
        rt: &W,
        root: Arc<R, A>,
        about: &X,
    ) -> Writer<R, E, J, A>
        requires room { length self < 2 ^ 64 - 1 }
        requires stands { J.stands root.value (self ++ (M.event about.now) ∷ []) }
        ensures { result ≡ self ++ (M.event about.now) ∷ [] }
    {
        let Writer {
            alloc,
            desk,
            head,
            front,
        } = self;
        let next = add::<R, E, J, X, M, W>(rt, &front, &head, about);
        drop(front);
        let published = Published::new(root, next.events(), next.seen());
        Writer {
            alloc,
            desk: put_out(rt, desk, published),
            head,
            front: next,
        }
    }

    /// Whether something is published that the View neither saw nor learnt. If not, it saw or learnt all that is published. Takes
    /// constant time, and no memory.
    pub fn is_ahead_of(&self, view: &View<R, E, J, A>) -> bool
        ensures { MatchBool result (IsLonger view.now self.now) (IsPrefix self.now view.now) }
    {
        view.front().is_behind(&self.front)
    }

    /// A Note of all that is published, for a View of this cell to learn. It takes constant time, and no memory.
    pub fn tell(&self) -> Note<R, E, J>
        ensures { result ≡ self.now }
    {
        Note {
            front: self.front.again(),
        }
    }

    /// Ends the cell, and answers the root that was published last: no View enters any more. It waits for those that are inside. It is
    /// not refused, and takes time in the places.
    pub fn end<W: Wait>(self, rt: &W) -> Arc<R, A>
        ensures { J.stands result.value self }
    {
        let Writer {
            alloc: _,
            desk,
            head,
            front,
        } = self;
        drop(head);
        drop(front);
        Box::into_inner(desk.take(rt)).into_root()
    }
}
