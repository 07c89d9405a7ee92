// The handle that C holds: a pointer, null where it holds nothing.
ghost use Rattle.std.specs.Prelude.{◌≡◌, Option, IfSome, IsNone};
ghost use Rattle.std.specs.declared.option.Option.TheVariants.{None, Some};
ghost use Rattle.std.specs.Option.{MatchOption};
ghost use Rattle.std.specs.Coded.{coded_option};
ghost use Rattle.ginelm_c.specs.declared.held.Held.{Held};
ghost use Rattle.ginelm_c.specs.contracts.held.Held.{the_row as held_row};

use crate::held::Held;
use crate::loose::Loose;
use std::alloc::Global;
use std::marker::Model;
use std::mem;
use std::ptr::null_mut;

#[repr(C)]
pub struct Handle {
    at: *mut u8,
    alloc: Global,
    ghost value: { Option Held } by { coded_option held_row.coded },
}

impl Model for Handle {
    ghost use Rattle.ginelm_c.specs.Owning.{owns_held};
    ghost use Rattle.ginelm_c.specs.contracts.held.Held.{the_row};

    ghost also_owns = { λ h. owns_held the_row h.alloc h.at h.value };
}

impl Handle {
    pub(crate) fn empty(alloc: Global) -> Handle
        ensures { result.value ≡ None }
    {
        Handle {
            at: null_mut(),
            alloc,
        }
    }

    pub(crate) fn of(loose: Loose<Held, Global>) -> Handle
        ensures { result.value ≡ Some loose.value }
    {
        let Loose { at, alloc } = loose;
        Handle {
            at: at as *mut u8,
            alloc,
        }
    }

    pub(crate) fn into_loose(self) -> Option<Loose<Held, Global>>
        ensures { MatchOption result (self.value ≡ None) (λ l. self.value ≡ Some l.value) }
    {
        let Handle { at, alloc } = self;
        if at.is_null() {
            None
        } else {
            Some(Loose {
                at: at as *mut Held,
                alloc,
            })
        }
    }

    // Takes what it holds out of it.
    pub(crate) fn take(&mut self, alloc: Global) -> Option<Box<Held>>
        ensures held { MatchOption result (self.old.value ≡ None) (λ b. self.old.value ≡ Some b.value) }
        ensures empty { self.new.value ≡ None }
    {
        let whole = mem::replace(self, Handle::empty(alloc));
        let loose = whole.into_loose()?;
        Some(loose.into_box())
    }

    // Holds this from now on, and lets go what it held.
    pub(crate) fn give(&mut self, held: Box<Held>)
        ensures held { self.new.value ≡ Some held.value }
    {
        let whole = mem::replace(self, Handle::of(Loose::of(held)));
        if let Some(old) = whole.into_loose() {
            drop(old.into_box());
        }
    }
}

// C may give a handle to another thread.
unsafe impl Send for Handle {}

pub(crate) fn crosses<T: Send>(_value: &T) {}

// Asks for the proof that it may: nothing else here does.
pub(crate) fn handle_crosses(handle: &Handle) {
    crosses(handle)
}
