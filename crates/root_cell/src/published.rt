ghost use Rattle.std.specs.Prelude.{◌≡◌, length, IfOk};

use crate::book::Counted;
use left_right::Absorb;
use logbook::Seen;
use std::alloc::{AllocError, Allocator, Global};
use std::marker::Model;
use std::mem;
use std::sync::Arc;

/// What lies in the two copies: a root with the front that it goes out for. Contracts see the root, the front, and the front's book.
/// It names no Brand, so that a struct over a cell is a closed type.
#[derive(Drop)]
pub struct Published<R: Drop, E, A: Allocator = Global> {
    root: Arc<R, A>,
    events: u64,
    seen: Seen<E, u64, Counted>,
}

impl<R: Drop, E, A: Allocator> Model for Published<R, E, A> {
    ghost use Rattle.std.specs.Prelude.{◌≡◌, List, length};
    ghost use Rattle.logbook.specs.Pages.{Book};

    ghost Value = { R × List E × Book };

    ghost view = { λ p. (p.root.value, p.seen.log, p.seen.book) };

    ghost invariant = { λ p. p.events ≡ length p.seen.log };
}

impl<R: Drop, E, A: Allocator> Published<R, E, A> {
    /// The root with the front that the token shows, of so many events.
    pub fn new(root: Arc<R, A>, events: u64, seen: Seen<E, u64, Counted>) -> Published<R, E, A>
        requires { events ≡ length seen.log }
        ensures { result ≡ (root.value, seen.log, seen.book) }
    {
        Published { root, events, seen }
    }

    /// The root.
    pub fn root(&self) -> &R
        ensures { result.now ≡ self.now.0 }
    {
        &self.root
    }

    /// The root by a count of owners, which is refused only where that is full.
    pub fn share(&self) -> Result<Arc<R, A>, AllocError>
        ensures { IfOk result (λ root. root.value ≡ self.now.0) }
    {
        Arc::try_clone(&self.root)
    }

    /// The root, for good.
    pub fn into_root(self) -> Arc<R, A>
        ensures { result.value ≡ self.0 }
    {
        let Published {
            root,
            events: _,
            seen: _,
        } = self;
        root
    }

    /// The front's number of events.
    pub fn events(&self) -> u64
        ensures { result ≡ length self.now.1 }
    {
        self.events
    }

    /// The token that shows the front.
    pub fn seen(&self) -> Seen<E, u64, Counted>
        ensures { (result.log ≡ self.now.1) × (result.book ≡ self.now.2) }
    {
        self.seen.again()
    }

    /// The same once more. It is refused only where the root has as many owners as can be counted.
    pub fn again(&self) -> Result<Published<R, E, A>, AllocError>
        ensures { IfOk result (λ p. p ≡ self.now) }
    {
        Ok(Published {
            root: self.share()?,
            events: self.events,
            seen: self.seen.again(),
        })
    }
}

/// What is published replaces what was published before.
impl<R: Drop, E, A: Allocator> Absorb<Published<R, E, A>> for Published<R, E, A> {
    type State = Published<R, E, A>;

    ghost state = { λ p. p };

    ghost applied = { λ before p. p };

    fn absorb_first(
        &mut self,
        operation: &Published<R, E, A>,
        _other: &Published<R, E, A>,
    ) -> Result<(), AllocError> {
        let again = operation.again()?;
        drop(mem::replace(self, again));
        Ok(())
    }

    fn absorb_second(
        &mut self,
        operation: Published<R, E, A>,
        _other: &Published<R, E, A>,
    ) -> Result<(), Published<R, E, A>> {
        drop(mem::replace(self, operation));
        Ok(())
    }
}
