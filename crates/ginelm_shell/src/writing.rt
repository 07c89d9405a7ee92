// The calls that write.
use crate::carrying::send;
use crate::fault::Fault;
use crate::keeper::Keeper;
use crate::word::{field, key, value};
use ginelm::{Field, Write, Wrote};
use replica_store::Written;
use std::alloc::Global;
use std::io;

/// Carries out a call that writes. Whether it is one.
pub(crate) fn carry_out<K: Keeper>(
    rt: &impl Print,
    alloc: Global,
    kept: &mut K,
    verb: &[u8],
    rest: &[&[u8]],
) -> Result<bool, Fault> {
    match (verb, rest) {
        (b"put", [at, text]) => put(rt, alloc, kept, at, text)?,
        (b"putf", [at, within, text]) => put_field(rt, alloc, kept, at, within, text)?,
        (b"remove", [at]) => remove(rt, alloc, kept, at)?,
        (b"removef", [at, within]) => remove_field(rt, alloc, kept, at, within)?,
        (b"clear", []) => write(rt, alloc, kept, &Write::Clear)?,
        (b"replace", [at, text, other]) => replace(rt, alloc, kept, at, text, other)?,
        (b"compact", []) => compact(rt, alloc, kept)?,
        _ => return Ok(false),
    }
    Ok(true)
}

fn put<K: Keeper>(
    rt: &impl Print,
    alloc: Global,
    kept: &mut K,
    at: &[u8],
    text: &[u8],
) -> Result<(), Fault> {
    let (at, text) = (key(alloc, at)?, value(alloc, text)?);
    let within = Field::empty();
    write(rt, alloc, kept, &Write::Put(&at, &within, &text))
}

fn put_field<K: Keeper>(
    rt: &impl Print,
    alloc: Global,
    kept: &mut K,
    at: &[u8],
    within: &[u8],
    text: &[u8],
) -> Result<(), Fault> {
    let (at, within, text) = (key(alloc, at)?, field(alloc, within)?, value(alloc, text)?);
    write(rt, alloc, kept, &Write::Put(&at, &within, &text))
}

fn remove<K: Keeper>(rt: &impl Print, alloc: Global, kept: &mut K, at: &[u8]) -> Result<(), Fault> {
    let at = key(alloc, at)?;
    write(rt, alloc, kept, &Write::Remove(&at))
}

fn remove_field<K: Keeper>(
    rt: &impl Print,
    alloc: Global,
    kept: &mut K,
    at: &[u8],
    within: &[u8],
) -> Result<(), Fault> {
    let (at, within) = (key(alloc, at)?, field(alloc, within)?);
    write(rt, alloc, kept, &Write::RemoveField(&at, &within))
}

fn replace<K: Keeper>(
    rt: &impl Print,
    alloc: Global,
    kept: &mut K,
    at: &[u8],
    text: &[u8],
    other: &[u8],
) -> Result<(), Fault> {
    let (at, text, other) = (key(alloc, at)?, value(alloc, text)?, key(alloc, other)?);
    let within = Field::empty();
    let writes = [Write::Put(&at, &within, &text), Write::Remove(&other)];
    write_all(rt, alloc, kept, &writes)
}

fn compact<K: Keeper>(rt: &impl Print, alloc: Global, kept: &mut K) -> Result<(), Fault> {
    kept.tidy(alloc)?;
    println!(rt; "ok")?;
    Ok(())
}

// Makes a write, and tells it.
fn write<K: Keeper>(
    rt: &impl Print,
    alloc: Global,
    kept: &mut K,
    it: &Write<'_>,
) -> Result<(), Fault> {
    let Written { answer, delta } = kept.make(alloc, it)?;
    tell(rt, alloc, &delta, &[answer])
}

// Makes several writes at once, and tells them.
fn write_all<K: Keeper>(
    rt: &impl Print,
    alloc: Global,
    kept: &mut K,
    all: &[Write<'_>],
) -> Result<(), Fault> {
    let Written { answer, delta } = kept.make_all(alloc, all)?;
    tell(rt, alloc, &delta, &answer)
}

// Tells what is to be sent to everyone, and then what the writes are answered.
fn tell(
    rt: &impl Print,
    alloc: Global,
    delta: &Option<Vec<u8>>,
    answers: &[Wrote],
) -> Result<(), Fault> {
    if let Some(bytes) = delta {
        send(rt, alloc, None, bytes)?;
    }
    print!(rt; "ok")?;
    for answer in answers {
        answered(rt, *answer)?;
    }
    println!(rt; "")?;
    Ok(())
}

// Tells the dot of a put, or how many writes another write observed.
fn answered(rt: &impl Print, answer: Wrote) -> io::Result<()> {
    match answer {
        Wrote::Made(dot) => {
            let (name, number) = (dot.name(), dot.number());
            print!(rt; " {name}:{number}")
        }
        Wrote::Counted(number) => print!(rt; " {number}"),
    }
}
