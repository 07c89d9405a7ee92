// Two baskets of one household. Each device writes when it likes: one message is lost, another comes twice, and a synchronisation makes
// both baskets the same.
#![tactic(auto)]

use anyhow::{Context, Result};
use ginelm::{Dot, Fnv1a, Key, Name, Outcome, Refusal, Replica, Value};
use std::alloc::Global;

// A device of this name, with nothing in its basket. It stands in a box, as one that is a local is dear to prove.
fn device(alloc: Global, number: u64) -> Result<Box<Replica>> {
    let name = Name::new(number).context("a name is a number from 1 on")?;
    Ok(Box::new(alloc, Replica::new(alloc, name, Fnv1a))?)
}

fn put(alloc: Global, basket: &mut Replica, thing: &[u8], number: &[u8]) -> Result<Dot, Refusal> {
    basket.put(&Key::new(alloc, thing)?, &Value::new(alloc, number)?)
}

// Brings what the answerer has seen to the asker, letter by letter. Answers whether it ended well.
fn synchronise(alloc: Global, asker: &mut Replica, answerer: &mut Replica) -> Result<bool> {
    let (_, hello) = asker.ask_bytes(answerer.name())?;
    let mut letters = vec![in alloc; hello]?;
    for _ in 0..u64::MAX {
        let letter = letters.pop().context("it goes on as long as it waits")?;
        let mut answers = answerer.take_bytes(&letter.bytes)?.letters;
        let answer = answers
            .pop()
            .context("each letter of an asker is answered")?;
        let mut taken = asker.take_bytes(&answer.bytes)?;
        if taken.outcome == Outcome::Done {
            return Ok(true);
        }
        letters.append(&mut taken.letters)?;
    }
    Ok(false)
}

fn print_thing(rt: &impl Print, basket: &Replica, key: &Key) -> Result<()> {
    print!(rt; " {key}")?;
    for number in &basket.get(key)? {
        print!(rt; " {number}")?;
    }
    Ok(())
}

// Prints a line with the things of the basket, each with its numbers: more than one, where devices wrote without knowing of each other.
fn print(rt: &impl Print, name: &str, basket: &Replica) -> Result<()> {
    print!(rt; "{name}:")?;
    for key in &basket.keys()? {
        print_thing(rt, basket, key)?;
    }
    Ok(println!(rt; "")?)
}

fn main(rt: HostRuntime) -> Result<()> {
    let mut phone = device(rt.alloc(), 1)?;
    let mut laptop = device(rt.alloc(), 2)?;
    put(rt.alloc(), &mut phone, b"apples", b"3")?;
    let _lost = phone.flush_bytes()?;
    put(rt.alloc(), &mut laptop, b"apples", b"5")?;
    put(rt.alloc(), &mut laptop, b"bread", b"1")?;
    put(rt.alloc(), &mut laptop, b"milk", b"2")?;
    let letter = laptop.flush_bytes()?.context("three things were put")?;
    phone.take_bytes(&letter.bytes)?;
    phone.take_bytes(&letter.bytes)?;
    phone.remove(&Key::new(rt.alloc(), b"milk")?)?;
    print(&rt, "phone", &phone)?;
    print(&rt, "laptop", &laptop)?;
    let ended = synchronise(rt.alloc(), &mut laptop, &mut phone)?;
    println!(rt; "synchronised: {ended}")?;
    print(&rt, "phone", &phone)?;
    print(&rt, "laptop", &laptop)
}
