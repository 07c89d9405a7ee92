// The own synchronisations of a replica.
ghost use Rattle.std.specs.Prelude.{◌≡◌, ◌≢◌, IfOk, IsSome, OnOk, OnErr, Some, length, map};
ghost use Rattle.std.specs.List.{slice_get};
ghost use Rattle.replica_core.specs.Meaning.{meaning};
ghost use Rattle.replica_model.specs.Step.{Do, Ask, Abandon, Closed, Numbered};
ghost use Rattle.ginelm_c.specs.Handling.{Between, IsSame, Makes, Sent, StaysEmpty, StaysFull};
ghost use Rattle.ginelm_c.specs.Sending.{Retries, named};
ghost use Rattle.ginelm_c.specs.declared.held.Held.{Held};

use crate::answer::{EMPTY, NO_NAME, NO_TEXT, told};
use crate::handle::Handle;
use crate::held::Held;
use crate::named::Named;
use crate::sending::outcome_number;
use crate::texts::Texts;
use dots::{Name, Refusal};
use std::alloc::Global;
use wire_form::Session;

fn ask(held: &mut Held, peer: Name, number: &mut u64) -> Result<(), Refusal>
    ensures ok { OnOk result (Sent held.old held.new (Do (Ask peer)) (Numbered number.new)) }
    ensures unchanged { OnErr result (IsSame held.old held.new) }
    ensures untold { OnErr result (number.new ≡ number.old) }
{
    let (opened, letter) = held.replica.ask_bytes(peer)?;
    held.texts = Texts::Sent(Some(letter));
    *number = opened;
    Ok(())
}

/// Opens a synchronisation with this peer, and tells its number; its first message becomes the text. 16 where the peer's name is 0.
#[unsafe(no_mangle)]
pub extern "C" fn ginelm_ask(alloc: Global, here: &mut Handle, peer: u64, number: &mut u64) -> u32
    ensures none { StaysEmpty here.old.value here.new.value result }
    ensures kept { StaysFull here.old.value here.new.value }
    ensures done { result ≡ 0 → Between here.old.value here.new.value (λ x y. Sent x y (Do (Ask peer)) (Numbered number.new)) }
    ensures refused { result ≢ 0 → Between here.old.value here.new.value IsSame }
    ensures untold { result ≢ 0 → number.new ≡ number.old }
{
    let Some(mut held) = here.take(alloc) else {
        return EMPTY;
    };
    let answer = match Name::new(peer) {
        Some(peer) => told(ask(&mut held, peer, number)),
        None => NO_NAME,
    };
    here.give(held);
    answer
}

fn retry(held: &mut Held, number: u64, outcome: &mut u32) -> Result<(), Refusal>
    ensures ok { OnOk result (Retries held.old held.new number outcome.new) }
    ensures unchanged { OnErr result (IsSame held.old held.new) }
    ensures untold { OnErr result (outcome.new ≡ outcome.old) }
{
    let (came, letters) = held.replica.retry_bytes(number)?;
    held.texts = Texts::Letters(letters);
    *outcome = outcome_number(came);
    Ok(())
}

/// What is to be sent again for the own synchronisation of this number becomes the texts: the outcome is 2, or 4 where none is open.
#[unsafe(no_mangle)]
pub extern "C" fn ginelm_retry(
    alloc: Global,
    here: &mut Handle,
    number: u64,
    outcome: &mut u32,
) -> u32
    ensures none { StaysEmpty here.old.value here.new.value result }
    ensures kept { StaysFull here.old.value here.new.value }
    ensures done { result ≡ 0 → Between here.old.value here.new.value (λ x y. Retries x y number outcome.new) }
    ensures refused { result ≢ 0 → Between here.old.value here.new.value IsSame }
    ensures untold { result ≢ 0 → outcome.new ≡ outcome.old }
{
    let Some(mut held) = here.take(alloc) else {
        return EMPTY;
    };
    let answer = told(retry(&mut held, number, outcome));
    here.give(held);
    answer
}

/// Gives the own synchronisation of this number up, and tells whether it was open.
#[unsafe(no_mangle)]
pub extern "C" fn ginelm_abandon(
    alloc: Global,
    here: &mut Handle,
    number: u64,
    was_open: &mut bool,
) -> u32
    ensures none { StaysEmpty here.old.value here.new.value result }
    ensures kept { StaysFull here.old.value here.new.value }
    ensures done { (x : Held) → (y : Held) → here.old.value ≡ Some x → here.new.value ≡ Some y → (result ≡ 0) × Makes x y (Do (Abandon number)) (Closed was_open.new) }
{
    let Some(mut held) = here.take(alloc) else {
        return EMPTY;
    };
    *was_open = held.replica.abandon(number);
    here.give(held);
    0
}

fn count(held: &Held, opened: &mut usize) -> Result<(), Refusal>
    ensures ok { OnOk result (opened.new ≡ length (meaning held.now.replica).sessions) }
    ensures untold { OnErr result (opened.new ≡ opened.old) }
{
    let sessions = held.replica.sessions()?;
    *opened = sessions.len();
    Ok(())
}

/// Tells how many own synchronisations are open, at most eight.
#[unsafe(no_mangle)]
pub extern "C" fn ginelm_open(alloc: Global, here: &mut Handle, opened: &mut usize) -> u32
    ensures none { StaysEmpty here.old.value here.new.value result }
    ensures same { here.new.value ≡ here.old.value }
    ensures done { result ≡ 0 → (x : Held) → here.old.value ≡ Some x → opened.new ≡ length (meaning x.replica).sessions }
    ensures untold { result ≢ 0 → opened.new ≡ opened.old }
{
    let Some(held) = here.take(alloc) else {
        return EMPTY;
    };
    let answer = told(count(&held, opened));
    here.give(held);
    answer
}

// The synchronisation at this place among those that are open.
fn session_at(held: &Held, at: usize) -> Result<Option<Session>, Refusal>
    ensures ok { IfOk result (λ session. session ≡ slice_get (map (λ o. o.session) (meaning held.now.replica).sessions) at) }
{
    let sessions = held.replica.sessions()?;
    match sessions.get(at) {
        Some(session) => Ok(Some(*session)),
        None => Ok(None),
    }
}

fn session(held: &Held, at: usize, session: &mut Named) -> u32
    ensures done { result ≡ 0 → IsSome (slice_get (map (λ o. o.session) (meaning held.now.replica).sessions) at) }
    ensures named { result ≡ 0 → session.new ≡ named (slice_get (map (λ o. o.session) (meaning held.now.replica).sessions) at) }
{
    match session_at(held, at) {
        Ok(Some(found)) => {
            *session = Named::of(Some(found));
            0
        }
        Ok(None) => NO_TEXT,
        Err(refusal) => u32::from(refusal.number()),
    }
}

/// Tells the own synchronisation at this place, from 0, among those that are open, by number; 18 where there is none.
#[unsafe(no_mangle)]
pub extern "C" fn ginelm_session(
    alloc: Global,
    here: &mut Handle,
    at: usize,
    named: &mut Named,
) -> u32
    ensures none { StaysEmpty here.old.value here.new.value result }
    ensures same { here.new.value ≡ here.old.value }
    ensures done { result ≡ 0 → (x : Held) → here.old.value ≡ Some x
        → named.new ≡ Rattle.ginelm_c.specs.Sending.named (slice_get (map (λ o. o.session) (meaning x.replica).sessions) at) }
{
    let Some(held) = here.take(alloc) else {
        return EMPTY;
    };
    let answer = session(&held, at, named);
    here.give(held);
    answer
}
