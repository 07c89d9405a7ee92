// Lines come in and are answered.
use crate::call::usage;
use crate::fault::Fault;
use crate::keeper::Keeper;
use crate::word::words;
use crate::{carrying, reading, writing};
use ginelm::Replica;
use std::alloc::Global;
use std::io::{self, BufRead, BufReader, Write};

/// Carries out each line and answers it, to the end of the input or until the file has failed that the replica is kept in: whether it came to the
/// end. A line that is no call, or is refused, is answered by what was wanted, and changes nothing.
pub(crate) fn run<R: Input + Print + AllocGlobal, K: Keeper>(
    rt: &R,
    kept: &mut K,
    prompts: bool,
) -> io::Result<bool> {
    let alloc = rt.alloc();
    prompt(rt, kept.replica(), prompts)?;
    for line in BufReader::new(alloc, rt.reader())?.split(alloc, b'\n') {
        answer(rt, alloc, kept, &line?)?;
        if kept.has_failed() {
            return Ok(false);
        }
        prompt(rt, kept.replica(), prompts)?;
    }
    Ok(true)
}

// Writes what stands before a line.
fn prompt(rt: &impl Print, replica: &Replica, prompts: bool) -> io::Result<()> {
    if prompts {
        let name = replica.name();
        print!(rt; "{name}> ")?;
    }
    io::writer(rt).flush()
}

// Answers a line. One of blanks, or that begins with `#`, is passed over.
fn answer<K: Keeper>(rt: &impl Print, alloc: Global, kept: &mut K, line: &[u8]) -> io::Result<()> {
    let words = words(alloc, line)?;
    let (verb, rest) = match words.as_slice() {
        [] | [[b'#', ..], ..] => return Ok(()),
        [verb, rest @ ..] => (*verb, rest),
    };
    match carry_out(rt, alloc, kept, verb, rest) {
        Ok(()) => Ok(()),
        Err(Fault::Words) => println!(rt; "error wanted {}", usage(verb)),
        Err(Fault::Refused(refusal)) => println!(rt; "error {refusal}"),
        Err(Fault::Lost) => println!(rt;
            "error the name of this replica was used without its memory: start anew with another name"
        ),
        Err(Fault::Unkept) => println!(rt; "error this replica is kept in no file"),
        Err(Fault::Failed(error)) => println!(rt; "error {error}"),
        Err(Fault::Output(error)) => Err(error),
    }
}

fn carry_out<K: Keeper>(
    rt: &impl Print,
    alloc: Global,
    kept: &mut K,
    verb: &[u8],
    rest: &[&[u8]],
) -> Result<(), Fault> {
    if reading::carry_out(rt, alloc, kept.replica(), verb, rest)? {
        return Ok(());
    }
    if writing::carry_out(rt, alloc, kept, verb, rest)? {
        return Ok(());
    }
    if carrying::carry_out(rt, alloc, kept, verb, rest)? {
        return Ok(());
    }
    Err(Fault::Words)
}
