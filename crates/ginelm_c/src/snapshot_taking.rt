// A snapshot is taken and let go, and what changed between two.
ghost use Rattle.std.specs.Prelude.{◌≡◌, ◌≢◌, Some, None, IfOk, OnOk, OnErr};
ghost use Rattle.ginelm_c.specs.Handling.{Between, StaysEmpty, StaysFull};
ghost use Rattle.ginelm_c.specs.Snapshots.{IsTakenOf, TellsSince};
ghost use Rattle.ginelm_c.specs.declared.held.Held.{Held};
ghost use Rattle.ginelm_c.specs.declared.snapshot.Snapshot.{Snapshot};

use crate::answer::{EMPTY, FULL, told};
use crate::handle::Handle;
use crate::held::Held;
use crate::snapshot::Snapshot;
use crate::snapshot_handle::SnapshotHandle;
use crate::texts::Texts;
use dots::Refusal;
use map_changes::changes;
use std::alloc::Global;

// What the replica holds as it is.
fn taken(alloc: Global, held: &mut Held) -> Result<Box<Snapshot>, Refusal>
    ensures ok { IfOk result (λ taken. IsTakenOf held.old taken.value) }
    ensures same { held.new ≡ held.old }
{
    held.replica.seal()?;
    let store = held.replica.share()?;
    let taken = Box::new(
        alloc,
        Snapshot {
            store,
            texts: Texts::Nothing,
        },
    )?;
    Ok(taken)
}

/// Takes a snapshot of what the replica holds: 0, or 15 where the handle of the snapshot holds one, else 14 where that of the replica holds none, else 1
/// where no memory is found. Where it is not 0 both handles stay as they are. It copies nothing but what was written since the last one.
#[unsafe(no_mangle)]
pub extern "C" fn ginelm_snapshot_take(
    alloc: Global,
    here: &mut SnapshotHandle,
    replica: &mut Handle,
) -> u32
    ensures same { replica.new.value ≡ replica.old.value }
    ensures full { here.old.value ≢ None → result ≡ 15 }
    ensures none { here.old.value ≡ None → replica.old.value ≡ None → result ≡ 14 }
    ensures empty { result ≡ 0 → here.old.value ≡ None }
    ensures there { result ≡ 0 → (s : Snapshot) × (here.new.value ≡ Some s) }
    ensures made { result ≡ 0 → (x : Held) → (s : Snapshot) → replica.old.value ≡ Some x → here.new.value ≡ Some s → IsTakenOf x s }
    ensures refused { result ≢ 0 → here.new.value ≡ here.old.value }
{
    if let Some(old) = here.take(alloc) {
        here.give(old);
        return FULL;
    }
    let Some(mut held) = replica.take(alloc) else {
        return EMPTY;
    };
    let taken = taken(alloc, &mut held);
    replica.give(held);
    match taken {
        Ok(taken) => {
            here.give(taken);
            0
        }
        Err(refusal) => told(Err(refusal)),
    }
}

/// Lets the snapshot go, if there is one: the handle is empty then.
#[unsafe(no_mangle)]
pub extern "C" fn ginelm_snapshot_free(alloc: Global, here: &mut SnapshotHandle)
    ensures { here.new.value ≡ None }
{
    drop(here.take(alloc));
}

fn tell_changes(alloc: Global, older: &Snapshot, newer: &mut Snapshot) -> Result<(), Refusal>
    ensures ok { OnOk result (TellsSince older.now newer.old newer.new) }
    ensures unchanged { OnErr result (newer.new ≡ newer.old) }
{
    let keys = changes(alloc, older.store.frozen(), newer.store.frozen())?;
    newer.texts = Texts::Keys(keys);
    Ok(())
}

/// The keys at which two snapshots differ become the texts of the newer one, ascending by bytes: those that one of them alone has, and those under
/// which other values stand. The handles are two, of one replica or of two. 14 where either holds none.
#[unsafe(no_mangle)]
pub extern "C" fn ginelm_snapshot_changes(
    alloc: Global,
    older: &mut SnapshotHandle,
    newer: &mut SnapshotHandle,
) -> u32
    ensures none { StaysEmpty newer.old.value newer.new.value result }
    ensures none_older { StaysEmpty older.old.value older.new.value result }
    ensures same { older.new.value ≡ older.old.value }
    ensures kept { StaysFull newer.old.value newer.new.value }
    ensures done { result ≡ 0 → (o : Snapshot) → older.old.value ≡ Some o → Between newer.old.value newer.new.value (TellsSince o) }
    ensures refused { result ≢ 0 → newer.new.value ≡ newer.old.value }
{
    let Some(from) = older.take(alloc) else {
        return EMPTY;
    };
    let Some(mut to) = newer.take(alloc) else {
        older.give(from);
        return EMPTY;
    };
    let answer = told(tell_changes(alloc, &from, &mut to));
    older.give(from);
    newer.give(to);
    answer
}
