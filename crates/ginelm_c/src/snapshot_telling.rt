// The texts that the last call with a snapshot gave that gives texts.
ghost use Rattle.std.specs.Prelude.{◌≡◌, Some, take};
ghost use Rattle.ginelm_c.specs.Handling.{StaysEmpty};
ghost use Rattle.ginelm_c.specs.Texts.{bytes_at, count_in};
ghost use Rattle.ginelm_c.specs.declared.snapshot.Snapshot.{Snapshot};

use crate::answer::EMPTY;
use crate::snapshot_handle::SnapshotHandle;
use crate::telling::text;
use std::alloc::Global;

/// Tells how many texts the last call with the snapshot gave that gives texts.
#[unsafe(no_mangle)]
pub extern "C" fn ginelm_snapshot_count(
    alloc: Global,
    here: &mut SnapshotHandle,
    count: &mut usize,
) -> u32
    ensures none { StaysEmpty here.old.value here.new.value result }
    ensures same { here.new.value ≡ here.old.value }
    ensures told { (s : Snapshot) → here.old.value ≡ Some s → (result ≡ 0) × (count.new ≡ count_in s.texts) }
{
    let Some(there) = here.take(alloc) else {
        return EMPTY;
    };
    *count = there.texts.count();
    here.give(there);
    0
}

/// Copies the text at this place, from 0, and tells how many bytes it has. 17 where there is too little room: nothing is copied then, and how many
/// bytes it has is told; 18 where there is no text.
#[unsafe(no_mangle)]
pub extern "C" fn ginelm_snapshot_text(
    alloc: Global,
    here: &mut SnapshotHandle,
    at: usize,
    out: &mut [u8],
    needed: &mut usize,
) -> u32
    ensures none { StaysEmpty here.old.value here.new.value result }
    ensures same { here.new.value ≡ here.old.value }
    ensures told { result ≡ 0 → (s : Snapshot) → here.old.value ≡ Some s → bytes_at s.texts at ≡ Some (take needed.new out.new) }
{
    let Some(there) = here.take(alloc) else {
        return EMPTY;
    };
    let mut everyone = 0;
    let answer = text(&there.texts, at, &mut everyone, out, needed);
    here.give(there);
    answer
}
