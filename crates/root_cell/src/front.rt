ghost use Rattle.std.specs.Prelude.{◌≡◌, ◌-◌, ◌<◌, ◌^◌, ◌++◌, ◌∷◌, [], length, MatchBool};
ghost use mathlib.Core.List.{IsPrefix};
ghost use Rattle.root_cell.specs.Book.{head_of};
ghost use Rattle.root_cell.specs.Rule.{IsLonger};

use crate::about::About;
use crate::book::{Adding, Counted, Nothing};
use crate::brand::Brand;
use logbook::{Offer, Seen, Word};
use std::marker::{Model, PhantomData};

/// A front: a beginning of the cell's list of events, which the book has reached. Contracts see the list. It stores its number of
/// events alone.
#[derive(Drop)]
pub struct Front<R, E, J: Brand<R, E>> {
    events: u64,
    seen: Seen<E, u64, Counted>,
    of: PhantomData<(R, J)>,
}

impl<R, E, J: Brand<R, E>> Model for Front<R, E, J> {
    ghost use Rattle.std.specs.Prelude.{◌≡◌, List, length};

    ghost Value = { List E };

    ghost view = { λ f. f.seen.log };

    ghost invariant = { λ f. (f.events ≡ length f.seen.log) × (f.seen.book ≡ J.book) };
}

impl<R, E, J: Brand<R, E>> Front<R, E, J> {
    /// The front that this token shows, of so many events.
    pub fn new(events: u64, seen: &Seen<E, u64, Counted>) -> Front<R, E, J>
        requires book { seen.now.book ≡ J.book }
        requires events { events ≡ length seen.now.log }
        ensures { result ≡ seen.now.log }
    {
        Front {
            events,
            seen: seen.again(),
            of: PhantomData,
        }
    }

    /// Its number of events.
    pub fn events(&self) -> u64
        ensures { result ≡ length self.now }
    {
        self.events
    }

    /// The token that shows it.
    pub fn seen(&self) -> Seen<E, u64, Counted>
        ensures { (result.log ≡ self.now) × (result.book ≡ J.book) }
    {
        self.seen.again()
    }

    /// The same front once more.
    pub fn again(&self) -> Front<R, E, J>
        ensures { result ≡ self.now }
    {
        Front {
            events: self.events,
            seen: self.seen.again(),
            of: PhantomData,
        }
    }

    /// Whether the other front goes on where this one ends. If not, this one begins with the other.
    pub fn is_behind(&self, other: &Front<R, E, J>) -> bool
        ensures { MatchBool result (IsLonger self.now other.now) (IsPrefix other.now self.now) }
    {
        let mut both = self.seen.again();
        both.learn(&other.seen);
        self.events < other.events
    }

    /// Adds the event that a value is about to the cell's list, and says whether it did: it did not where the list is longer than
    /// this front.
    pub fn add<X, M: About<X, E>>(&mut self, head: &Word<E, u64, Counted>, about: &X) -> bool
        requires head { head.now ≡ head_of J.book }
        requires room { length self.old < 2 ^ 64 - 1 }
        ensures { MatchBool result (self.new ≡ self.old ++ (M.event about.now) ∷ []) (length self.old < length self.new) }
    {
        let mut offer: Offer<E, u64, Counted, Nothing> = self
            .seen
            .plain::<Nothing, X, Adding<M>>(about);
        let mut pen = self.seen.no_pen();
        let events = self.events;
        let found = head.compare_exchange::<Adding<M>, Nothing>(
            events,
            events + 1,
            &mut self.seen,
            &mut offer,
            &mut pen,
        );
        self.events = if found == events { events + 1 } else { found };
        found == events
    }
}
