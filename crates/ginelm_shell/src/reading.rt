// The calls that read.
use crate::call::CALLS;
use crate::fault::Fault;
use crate::word::{field, key};
use ginelm::{Replica, Value};
use std::alloc::Global;
use std::io;

/// Carries out a call that reads. Whether it is one.
pub(crate) fn carry_out(
    rt: &impl Print,
    alloc: Global,
    replica: &Replica,
    verb: &[u8],
    rest: &[&[u8]],
) -> Result<bool, Fault> {
    match (verb, rest) {
        (b"get", [at]) => get(rt, alloc, replica, at)?,
        (b"getf", [at, within]) => get_field(rt, alloc, replica, at, within)?,
        (b"values", [at]) => values_of_key(rt, alloc, replica, at)?,
        (b"fields", [at]) => fields(rt, alloc, replica, at)?,
        (b"contains", [at]) => contains(rt, alloc, replica, at)?,
        (b"help", []) => help(rt)?,
        _ => return of_the_replica(rt, alloc, replica, verb, rest),
    }
    Ok(true)
}

// Carries out a call that reads what no key names. Whether it is one.
fn of_the_replica(
    rt: &impl Print,
    alloc: Global,
    replica: &Replica,
    verb: &[u8],
    rest: &[&[u8]],
) -> Result<bool, Fault> {
    match (verb, rest) {
        (b"keys", []) => keys(rt, replica)?,
        (b"size", []) => println!(rt; "size {}", replica.size())?,
        (b"name", []) => println!(rt; "name {}", replica.name())?,
        (b"digest", []) => digest(rt, alloc, replica.digest())?,
        (b"context", []) => context(rt, replica)?,
        _ => return Ok(false),
    }
    Ok(true)
}

fn get(rt: &impl Print, alloc: Global, replica: &Replica, at: &[u8]) -> Result<(), Fault> {
    let at = key(alloc, at)?;
    Ok(values(rt, &replica.get(&at)?)?)
}

fn get_field(
    rt: &impl Print,
    alloc: Global,
    replica: &Replica,
    at: &[u8],
    within: &[u8],
) -> Result<(), Fault> {
    let (at, within) = (key(alloc, at)?, field(alloc, within)?);
    Ok(values(rt, &replica.get_field(&at, &within)?)?)
}

fn values_of_key(
    rt: &impl Print,
    alloc: Global,
    replica: &Replica,
    at: &[u8],
) -> Result<(), Fault> {
    let at = key(alloc, at)?;
    Ok(values(rt, &replica.values_of_key(&at)?)?)
}

fn contains(rt: &impl Print, alloc: Global, replica: &Replica, at: &[u8]) -> Result<(), Fault> {
    let at = key(alloc, at)?;
    let is_there = if replica.contains(&at) { "yes" } else { "no" };
    println!(rt; "{is_there}")?;
    Ok(())
}

fn values(rt: &impl Print, values: &[Value]) -> io::Result<()> {
    print!(rt; "=")?;
    for value in values {
        print!(rt; " {value}")?;
    }
    println!(rt; "")
}

fn fields(rt: &impl Print, alloc: Global, replica: &Replica, at: &[u8]) -> Result<(), Fault> {
    let at = key(alloc, at)?;
    print!(rt; "fields")?;
    for field in &replica.fields(&at)? {
        print!(rt; " {field}")?;
    }
    println!(rt; "")?;
    Ok(())
}

fn keys(rt: &impl Print, replica: &Replica) -> Result<(), Fault> {
    print!(rt; "keys")?;
    for key in &replica.keys()? {
        print!(rt; " {key}")?;
    }
    println!(rt; "")?;
    Ok(())
}

fn digest(rt: &impl Print, alloc: Global, digest: Option<[u8; 32]>) -> Result<(), Fault> {
    match digest {
        Some(digest) => {
            let digits = hex::encode(alloc, digest)?;
            println!(rt; "digest {digits}")?;
        }
        None => println!(rt; "digest -")?,
    }
    Ok(())
}

// Up to which number the writes of each name were seen, and then each that was seen beside these.
fn context(rt: &impl Print, replica: &Replica) -> io::Result<()> {
    print!(rt; "context")?;
    for (name, number) in replica.context().vector() {
        print!(rt; " {name}:{number}")?;
    }
    cloud(rt, replica)?;
    println!(rt; "")
}

fn cloud(rt: &impl Print, replica: &Replica) -> io::Result<()> {
    for dot in replica.context().cloud() {
        let (name, number) = (dot.name(), dot.number());
        print!(rt; " +{name}:{number}")?;
    }
    Ok(())
}

fn help(rt: &impl Print) -> io::Result<()> {
    for (_, words, what) in CALLS {
        println!(rt; "# {words:24}{what}")?;
    }
    println!(rt; "ok")
}
