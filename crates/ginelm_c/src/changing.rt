// What changed since it was last asked.
ghost use Rattle.std.specs.Prelude.{◌≡◌, ◌≢◌, OnOk, OnErr};
ghost use Rattle.ginelm_c.specs.Changing.{TellsChanges};
ghost use Rattle.ginelm_c.specs.Handling.{Between, StaysEmpty, StaysFull};

use crate::answer::{EMPTY, told};
use crate::handle::Handle;
use crate::held::Held;
use crate::texts::Texts;
use dots::Refusal;
use map_changes::changes;
use std::alloc::Global;

fn tell_changes(alloc: Global, held: &mut Held) -> Result<(), Refusal>
    ensures ok { OnOk result (TellsChanges held.old held.new) }
    ensures unchanged { OnErr result (held.new ≡ held.old) }
{
    held.replica.seal()?;
    let now = held.replica.snapshot()?;
    match changes(alloc, &held.watched, &now) {
        Ok(keys) => {
            held.texts = Texts::Keys(keys);
            held.watched = now;
            Ok(())
        }
        Err(refusal) => {
            drop(now);
            Err(refusal)
        }
    }
}

/// The keys at which the map changed since this was last asked become the texts, ascending by bytes: at first, all keys. From then on a write
/// copies what it shares with the map as it was told.
#[unsafe(no_mangle)]
pub extern "C" fn ginelm_changes(alloc: Global, here: &mut Handle) -> u32
    ensures none { StaysEmpty here.old.value here.new.value result }
    ensures kept { StaysFull here.old.value here.new.value }
    ensures done { result ≡ 0 → Between here.old.value here.new.value TellsChanges }
    ensures refused { result ≢ 0 → here.new.value ≡ here.old.value }
{
    let Some(mut held) = here.take(alloc) else {
        return EMPTY;
    };
    let answer = told(tell_changes(alloc, &mut held));
    here.give(held);
    answer
}
