// The root of a replica, in a place that is made before the replica changes.
ghost use Rattle.std.specs.Prelude.{◌≡◌, IsOkUnless};
ghost use Rattle.delta_ops.specs.LiveMap.{store_state};
ghost use Rattle.replica_core.specs.Meaning.{meaning};

use crate::named::Root;
use dots::Refusal;
use hash_path::Fnv1a;
use replica_core::Replica;
use std::alloc::Allocator;
use std::sync::{Arc, Wait};
use std::{mem, thread};

/// A place for a root. Its only refusal is OutOfMemory.
pub(crate) fn place_for<A: Allocator + Copy>(
    alloc: A,
    replica: &Replica<Fnv1a, A>,
) -> Result<Arc<Root<A>, A>, Refusal>
    ensures { IsOkUnless result Refusal.OutOfMemory }
{
    let root = replica.share()?;
    Ok(Arc::new(alloc, root)?)
}

/// The root of what the replica holds, in this place, of which there is no other owner. A root takes a reference count alone: where that
/// is full it waits until an owner goes.
pub(crate) fn show<A: Allocator + Copy, W: Wait>(
    rt: &W,
    replica: &Replica<Fnv1a, A>,
    place: Arc<Root<A>, A>,
) -> Arc<Root<A>, A>
    ensures { (store_state result.value).at ≡ (meaning replica.now).live.at }
{
    let mut place = place;
    let root = share_in_turn(rt, replica);
    for _ in rt.forever() {
        if let Some(shown) = Arc::get_mut(&mut place) {
            drop(mem::replace(shown, root));
            return place;
        }
        thread::yield_now();
    }
    unreachable!()
}

// The root of what the replica holds.
fn share_in_turn<A: Allocator + Copy, W: Wait>(rt: &W, replica: &Replica<Fnv1a, A>) -> Root<A>
    ensures { (store_state result).at ≡ (meaning replica.now).live.at }
{
    for _ in rt.forever() {
        if let Ok(root) = replica.share() {
            return root;
        }
        thread::yield_now();
    }
    unreachable!()
}
