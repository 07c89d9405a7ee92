// A phone that is lost and comes back from what it saved, and one that comes back with no memory and is told so.
#![tactic(auto)]

use anyhow::{Context, Result};
use ginelm::{
    Fnv1a, Key, Letter, Name, Refusal, Replica, Value, decode, decode_saved, encode_saved,
};
use std::alloc::Global;

// A device of this name, which is new. It stands in a box, as one that is a local is dear to prove.
fn device(alloc: Global, number: u64) -> Result<Box<Replica>> {
    let name = Name::new(number).context("a name is a number from 1 on")?;
    Ok(Box::new(alloc, Replica::new(alloc, name, Fnv1a))?)
}

fn put(alloc: Global, here: &mut Replica, thing: &[u8], number: &[u8]) -> Result<(), Refusal> {
    here.put(&Key::new(alloc, thing)?, &Value::new(alloc, number)?)?;
    Ok(())
}

// What the device is, as bytes that a file may keep.
fn save(alloc: Global, here: &Replica) -> Result<Vec<u8>, Refusal> {
    let checkpoint = here.checkpoint()?;
    let saved = checkpoint.saved(alloc)?;
    encode_saved(alloc, saved)
}

// The device that comes back from these bytes.
fn come_back(alloc: Global, bytes: &[u8]) -> Result<Box<Replica>> {
    let saved = decode_saved(alloc, bytes)?;
    let here = Replica::resume(alloc, Fnv1a, saved)?;
    Ok(Box::new(alloc, here)?)
}

// What the device made, and the bytes that were saved before it is sent.
fn save_and_send(alloc: Global, here: &mut Replica, file: &mut Vec<u8>) -> Result<Letter> {
    let letter = here.flush_bytes()?.context("something was put")?;
    *file = save(alloc, here)?;
    Ok(letter)
}

// Takes a letter in, unless it tells that the name of this device was used before.
fn take(alloc: Global, here: &mut Replica, letter: &Letter) -> Result<bool> {
    let message = decode(alloc, &letter.bytes)?;
    if here.has_lost(&message) {
        return Ok(false);
    }
    here.deliver(&message)?;
    Ok(true)
}

fn main(rt: HostRuntime) -> Result<()> {
    let alloc = rt.alloc();
    let mut file = Vec::new(alloc);
    let mut phone = device(alloc, 1)?;
    let mut laptop = device(alloc, 2)?;
    put(alloc, &mut phone, b"apples", b"3")?;
    let apples = save_and_send(alloc, &mut phone, &mut file)?;
    put(alloc, &mut phone, b"bread", b"1")?;
    drop(phone);
    let mut phone = come_back(alloc, &file)?;
    println!(&rt; "the phone is back with {} thing", phone.size())?;
    take(alloc, &mut laptop, &apples)?;
    put(alloc, &mut laptop, b"apples", b"5")?;
    let more = laptop
        .flush_bytes()?
        .context("the laptop changed the apples")?;
    let taken = take(alloc, &mut phone, &more)?;
    println!(&rt; "it takes the laptop's letter: {taken}")?;
    println!(&rt; "both hold the same: {}", phone.digest() == laptop.digest())?;
    let mut forgetful = device(alloc, 1)?;
    let taken = take(alloc, &mut forgetful, &more)?;
    println!(&rt; "with no memory it takes it: {taken}")?;
    Ok(())
}
