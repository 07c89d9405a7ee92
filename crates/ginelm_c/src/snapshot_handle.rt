// The handle of a snapshot that C holds: a pointer, null where it holds nothing. It is made as that of a replica is, and of a type of its own, as
// none with a parameter may cross to C.
ghost use Rattle.std.specs.Prelude.{◌≡◌, Option};
ghost use Rattle.std.specs.declared.option.Option.TheVariants.{None, Some};
ghost use Rattle.std.specs.Option.{MatchOption};
ghost use Rattle.std.specs.Coded.{coded_option};
ghost use Rattle.ginelm_c.specs.declared.snapshot.Snapshot.{Snapshot};
ghost use Rattle.ginelm_c.specs.contracts.snapshot.Snapshot.{the_row as snapshot_row};

use crate::handle::crosses;
use crate::loose::Loose;
use crate::snapshot::Snapshot;
use std::alloc::Global;
use std::marker::Model;
use std::mem;
use std::ptr::null_mut;

#[repr(C)]
pub struct SnapshotHandle {
    at: *mut u8,
    alloc: Global,
    ghost value: { Option Snapshot } by { coded_option snapshot_row.coded },
}

impl Model for SnapshotHandle {
    ghost use Rattle.ginelm_c.specs.Owning.{owns_held};
    ghost use Rattle.ginelm_c.specs.contracts.snapshot.Snapshot.{the_row};

    ghost also_owns = { λ h. owns_held the_row h.alloc h.at h.value };
}

impl SnapshotHandle {
    pub(crate) fn empty(alloc: Global) -> SnapshotHandle
        ensures { result.value ≡ None }
    {
        SnapshotHandle {
            at: null_mut(),
            alloc,
        }
    }

    pub(crate) fn of(loose: Loose<Snapshot, Global>) -> SnapshotHandle
        ensures { result.value ≡ Some loose.value }
    {
        let Loose { at, alloc } = loose;
        SnapshotHandle {
            at: at as *mut u8,
            alloc,
        }
    }

    pub(crate) fn into_loose(self) -> Option<Loose<Snapshot, Global>>
        ensures { MatchOption result (self.value ≡ None) (λ l. self.value ≡ Some l.value) }
    {
        let SnapshotHandle { at, alloc } = self;
        if at.is_null() {
            None
        } else {
            Some(Loose {
                at: at as *mut Snapshot,
                alloc,
            })
        }
    }

    // Takes what it holds out of it.
    pub(crate) fn take(&mut self, alloc: Global) -> Option<Box<Snapshot>>
        ensures held { MatchOption result (self.old.value ≡ None) (λ b. self.old.value ≡ Some b.value) }
        ensures empty { self.new.value ≡ None }
    {
        let whole = mem::replace(self, SnapshotHandle::empty(alloc));
        let loose = whole.into_loose()?;
        Some(loose.into_box())
    }

    // Holds this from now on, and lets go what it held.
    pub(crate) fn give(&mut self, held: Box<Snapshot>)
        ensures held { self.new.value ≡ Some held.value }
    {
        let whole = mem::replace(self, SnapshotHandle::of(Loose::of(held)));
        if let Some(old) = whole.into_loose() {
            drop(old.into_box());
        }
    }
}

// C may give a handle to another thread.
unsafe impl Send for SnapshotHandle {}

// Asks for the proof that it may: nothing else here does.
pub(crate) fn snapshot_crosses(handle: &SnapshotHandle) {
    crosses(handle)
}
