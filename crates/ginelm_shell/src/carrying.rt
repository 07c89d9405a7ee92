// The calls by which replicas exchange messages. What is to be sent is written before the answer, a line a message: `send`, the name of the
// replica that it is for or `*` for everyone, and its bytes.
use crate::fault::Fault;
use crate::keeper::Keeper;
use crate::word::{hex, name, number};
use ginelm::{Letter, Name, Outcome, Replica, Taken};
use std::alloc::Global;
use std::io;

/// Carries out a call that sends or takes. Whether it is one.
pub(crate) fn carry_out<K: Keeper>(
    rt: &impl Print,
    alloc: Global,
    kept: &mut K,
    verb: &[u8],
    rest: &[&[u8]],
) -> Result<bool, Fault> {
    match (verb, rest) {
        (b"flush", []) => flush(rt, alloc, kept, None)?,
        (b"flush", [most]) => flush(rt, alloc, kept, Some(number(most).ok_or(Fault::Words)?))?,
        (b"take", [digits]) => take(rt, alloc, kept, &hex(alloc, digits)?)?,
        (b"ask", [peer]) => ask(rt, alloc, kept, peer)?,
        (b"retry", [word]) => retry(rt, alloc, kept.replica(), word)?,
        (b"abandon", [word]) => abandon(rt, alloc, kept, word)?,
        (b"sessions", []) => sessions(rt, kept.replica())?,
        _ => return Ok(false),
    }
    Ok(true)
}

fn flush<K: Keeper>(
    rt: &impl Print,
    alloc: Global,
    kept: &mut K,
    most: Option<u64>,
) -> Result<(), Fault> {
    match kept.unsent(most)? {
        Some(letter) => {
            send(rt, alloc, letter.to, &letter.bytes)?;
            println!(rt; "ok 1")?;
        }
        None => println!(rt; "ok 0")?,
    }
    Ok(())
}

fn take<K: Keeper>(
    rt: &impl Print,
    alloc: Global,
    kept: &mut K,
    bytes: &[u8],
) -> Result<(), Fault> {
    let taken = kept.receive(alloc, bytes)?;
    took(rt, alloc, &taken)
}

fn ask<K: Keeper>(rt: &impl Print, alloc: Global, kept: &mut K, peer: &[u8]) -> Result<(), Fault> {
    let peer = name(peer).ok_or(Fault::Words)?;
    let (opened, letter) = kept.synchronise(alloc, peer)?;
    send(rt, alloc, letter.to, &letter.bytes)?;
    println!(rt; "session {opened}")?;
    Ok(())
}

fn retry(rt: &impl Print, alloc: Global, replica: &Replica, word: &[u8]) -> Result<(), Fault> {
    let session = number(word).ok_or(Fault::Words)?;
    let (outcome, letters) = replica.retry_bytes(session)?;
    send_all(rt, alloc, &letters)?;
    println!(rt; "{}", word_of(outcome))?;
    Ok(())
}

fn abandon<K: Keeper>(
    rt: &impl Print,
    alloc: Global,
    kept: &mut K,
    word: &[u8],
) -> Result<(), Fault> {
    let session = number(word).ok_or(Fault::Words)?;
    let was_open = kept.give_up(alloc, session)?;
    println!(rt; "{}", if was_open { "ok" } else { "ignored" })?;
    Ok(())
}

fn took(rt: &impl Print, alloc: Global, taken: &Taken) -> Result<(), Fault> {
    send_all(rt, alloc, &taken.letters)?;
    print!(rt; "{}", word_of(taken.outcome))?;
    if let Some(session) = taken.session {
        let (asker, answerer, number) = (session.asker(), session.answerer(), session.number());
        print!(rt; " {asker}:{answerer}:{number}")?;
    }
    println!(rt; "")?;
    Ok(())
}

fn send_all(rt: &impl Print, alloc: Global, letters: &[Letter]) -> Result<(), Fault> {
    for letter in letters {
        send(rt, alloc, letter.to, &letter.bytes)?;
    }
    Ok(())
}

/// Tells a message that is to be sent to this replica, or to everyone, whatever memory there is: what is kept already has to be told.
pub(crate) fn send(
    rt: &impl Print,
    alloc: Global,
    to: Option<Name>,
    bytes: &[u8],
) -> io::Result<()> {
    match to {
        Some(name) => print!(rt; "send {name} ")?,
        None => print!(rt; "send * ")?,
    }
    match hex::encode(alloc, bytes) {
        Ok(digits) => println!(rt; "{digits}"),
        Err(_) => send_slowly(rt, bytes),
    }
}

// Writes the digits of the bytes one by one.
fn send_slowly(rt: &impl Print, bytes: &[u8]) -> io::Result<()> {
    for byte in bytes {
        print!(rt; "{byte:02x}")?;
    }
    println!(rt; "")
}

fn sessions(rt: &impl Print, replica: &Replica) -> Result<(), Fault> {
    print!(rt; "sessions")?;
    for session in &replica.sessions()? {
        let (answerer, number) = (session.answerer(), session.number());
        print!(rt; " {number}:{answerer}")?;
    }
    println!(rt; "")?;
    Ok(())
}

fn word_of(outcome: Outcome) -> &'static str {
    match outcome {
        Outcome::Joined => "joined",
        Outcome::Sent => "sent",
        Outcome::Done => "done",
        Outcome::Ignored => "ignored",
        Outcome::Mismatch => "mismatch",
        Outcome::Gone => "gone",
    }
}
