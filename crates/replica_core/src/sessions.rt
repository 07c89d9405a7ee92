// The own sessions of a replica: where one is, and copies of them.
ghost use Rattle.std.specs.Prelude.{◌≡◌, ◌==◌, map, IfSome, IsNone, IfOk, IsOkUnless};
ghost use Rattle.wire_form.specs.Session.{same_session};
ghost use Rattle.sync_protocol.specs.Asking.{AskerValue};
ghost use Rattle.replica_core.specs.Tied.{IsFirstAt, NoneIs};

use dots::Refusal;
use hash_path::PathHash;
use std::alloc::Allocator;
use sync_protocol::Asker;
use wire_form::Session;

// The place of this session, or None where it is not among them.
pub(crate) fn place_of<H: PathHash, A: Allocator + Copy>(
    sessions: &[Asker<H, A>],
    session: Session,
) -> Option<usize>
    ensures found { IfSome result (λ place. (a : AskerValue H) × IsFirstAt (λ b. same_session b.session session) sessions.now place a) }
    ensures none { IsNone result → NoneIs (λ b. same_session b.session session) sessions.now }
{
    for place in 0..sessions.len() {
        if sessions[place].session() == session {
            return Some(place);
        }
    }
    None
}

// The place of the session of this number, or None where there is none.
pub(crate) fn place_numbered<H: PathHash, A: Allocator + Copy>(
    sessions: &[Asker<H, A>],
    number: u64,
) -> Option<usize>
    ensures found { IfSome result (λ place. (a : AskerValue H) × IsFirstAt (λ b. b.session.number == number) sessions.now place a) }
    ensures none { IsNone result → NoneIs (λ b. b.session.number == number) sessions.now }
{
    for place in 0..sessions.len() {
        if sessions[place].session().number() == number {
            return Some(place);
        }
    }
    None
}

// Copies of these sessions.
pub(crate) fn copy_sessions<H: PathHash, A: Allocator + Copy>(
    alloc: A,
    sessions: &[Asker<H, A>],
) -> Result<Vec<Asker<H, A>, A>, Refusal>
    ensures ok { IfOk result (λ copies. copies.items ≡ sessions.now) }
    ensures err { IsOkUnless result Refusal.OutOfMemory }
{
    let mut copies = Vec::new(alloc);
    for session in sessions {
        copies.push(session.copy(alloc)?)?;
    }
    Ok(copies)
}

// The sessions by their names, in order.
pub(crate) fn named_sessions<H: PathHash, A: Allocator + Copy>(
    alloc: A,
    sessions: &[Asker<H, A>],
) -> Result<Vec<Session, A>, Refusal>
    ensures ok { IfOk result (λ found. found.items ≡ map (λ a. a.session) sessions.now) }
    ensures err { IsOkUnless result Refusal.OutOfMemory }
{
    let mut found = Vec::with_capacity(alloc, sessions.len())?;
    for session in sessions {
        found.push(session.session())?;
    }
    Ok(found)
}
