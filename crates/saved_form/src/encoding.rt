// What was saved, as bytes.
ghost use Rattle.std.specs.Prelude.{◌≡◌, IfOk, OnOk, IsOkUnless, ◌++◌};
ghost use Rattle.wire_form.specs.Spelling.{number, IsNumber};
ghost use Rattle.wire_form.specs.Message.{SpellsDelta};
ghost use Rattle.saved_form.specs.Saved.{saved_value, SpellsSaved, sized};

use crate::saved::Saved;
use causal_join::OrMap;
use dots::Refusal;
use std::alloc::Allocator;
use wire_form::encode_delta;

/// The bytes of what was saved: the one spelling that it has. Lets go what it is given, also where it is refused.
///
/// They are `03 02`, the name, the number of the last own synchronisation, how many bytes the next message has, each in eight bytes with the
/// greatest first, and two deltas as they stand in messages: what the replica holds, and what it is to send. No message begins so.
///
/// Its only refusal is OutOfMemory. Takes time in the bytes, and memory for twice as many.
pub fn encode_saved<A: Allocator + Copy>(alloc: A, saved: Saved<A>) -> Result<Vec<u8, A>, Refusal>
    ensures ok { IfOk result (λ bytes. SpellsSaved bytes.items (saved_value saved)) }
    ensures err { IsOkUnless result Refusal.OutOfMemory }
{
    let Saved {
        name,
        opened,
        live,
        group,
    } = saved;
    let live = match spelled(alloc, live) {
        Ok(live) => live,
        Err(refusal) => {
            drop(group);
            return Err(refusal);
        }
    };
    let group = spelled(alloc, group)?;
    let mut out = Vec::from_slice(alloc, &[3, 2])?;
    write_number(&mut out, name.number())?;
    write_number(&mut out, opened)?;
    write_number(&mut out, live.len() as u64)?;
    out.extend_from_slice(live.as_slice())?;
    out.extend_from_slice(group.as_slice())?;
    Ok(out)
}

// The bytes of the message of a delta, which is let go.
fn spelled<A: Allocator + Copy>(alloc: A, delta: OrMap<A>) -> Result<Vec<u8, A>, Refusal>
    ensures ok { IfOk result (λ bytes. SpellsDelta bytes.items delta) }
    ensures err { IsOkUnless result Refusal.OutOfMemory }
{
    encode_delta(alloc, &delta)
}

fn write_number<A: Allocator + Copy>(out: &mut Vec<u8, A>, value: u64) -> Result<(), Refusal>
    ensures fits { IsNumber value }
    ensures ok { OnOk result (out.new.items ≡ out.old.items ++ number value) }
    ensures err { IsOkUnless result Refusal.OutOfMemory }
{
    out.extend_from_slice(&value.to_be_bytes())?;
    Ok(())
}
