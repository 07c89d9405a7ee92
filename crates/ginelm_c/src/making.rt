// A replica is made and let go.
ghost use Rattle.std.specs.Prelude.{◌≡◌, ◌≢◌, Some, None, IfOk};
ghost use Rattle.replica_model.specs.Replica.{fresh};
ghost use Rattle.replica_core.specs.Meaning.{meaning};
ghost use Rattle.ginelm_c.specs.Handling.{StaysEmpty};
ghost use Rattle.ginelm_c.specs.declared.held.Held.{Held};

use crate::answer::{EMPTY, FULL, NO_NAME};
use crate::handle::Handle;
use crate::held::Held;
use crate::texts::Texts;
use dots::{Name, Refusal};
use gen_trie::Frozen;
use hash_path::Fnv1a;
use replica_core::Replica;
use std::alloc::Global;

// A replica of this name to which nothing happened yet.
fn fresh(alloc: Global, name: Name) -> Result<Box<Held>, Refusal>
    ensures { IfOk result (λ held. meaning held.value.replica ≡ fresh name) }
{
    let replica = Replica::new(alloc, name, Fnv1a);
    let held = Box::new(
        alloc,
        Held {
            replica,
            texts: Texts::Nothing,
            watched: Frozen::new(alloc, Fnv1a),
        },
    )?;
    Ok(held)
}

/// Makes a replica of this name behind the handle: 0, or 15 where the handle holds one, else 16 where the name is 0, else 1 where no
/// memory is found. Where it is not 0 the handle stays as it is.
#[unsafe(no_mangle)]
pub extern "C" fn ginelm_new(alloc: Global, here: &mut Handle, name: u64) -> u32
    ensures made { result ≡ 0 → (here.old.value ≡ None) × ((x : Held) → here.new.value ≡ Some x → meaning x.replica ≡ fresh name) }
    ensures full { here.old.value ≢ None → result ≡ 15 }
    ensures refused { result ≢ 0 → here.new.value ≡ here.old.value }
{
    if let Some(held) = here.take(alloc) {
        here.give(held);
        return FULL;
    }
    let Some(name) = Name::new(name) else {
        return NO_NAME;
    };
    match fresh(alloc, name) {
        Ok(held) => {
            here.give(held);
            0
        }
        Err(refusal) => u32::from(refusal.number()),
    }
}

/// Lets the replica go, if there is one: the handle is empty then.
#[unsafe(no_mangle)]
pub extern "C" fn ginelm_free(alloc: Global, here: &mut Handle)
    ensures { here.new.value ≡ None }
{
    drop(here.take(alloc));
}

/// Tells the replica's name.
#[unsafe(no_mangle)]
pub extern "C" fn ginelm_name(alloc: Global, here: &mut Handle, name: &mut u64) -> u32
    ensures none { StaysEmpty here.old.value here.new.value result }
    ensures same { here.new.value ≡ here.old.value }
    ensures told { (x : Held) → here.old.value ≡ Some x → (result ≡ 0) × (name.new ≡ (meaning x.replica).name) }
{
    let Some(held) = here.take(alloc) else {
        return EMPTY;
    };
    *name = held.replica.name().number();
    here.give(held);
    0
}
