// One replica behind standard input and output: a call a line, and messages in hexadecimal digits. A host that links nothing starts this
// process, writes calls to it, carries what it is told to send, and gives what came to it by `take`. With a file the replica is kept there:
// what a call did is on the disk before it is answered.
#![tactic(auto)]

mod call;
mod carrying;
mod fault;
mod keeper;
mod kept;
mod reading;
mod shell;
mod unkept;
mod wanted;
mod word;
mod writing;

use crate::shell::run;
use crate::wanted::{HELP, VERSION, Wanted, read_words};
use anyhow::Result;
use ginelm::{Fnv1a, Name, Replica};
use replica_store::Store;
use sqlite::{FileFrom, FileStore, Start, Unknown};
use std::env;
use std::process::ExitCode;

// The status that says whether all went well.
fn status(is_well: bool) -> ExitCode {
    if is_well {
        ExitCode::SUCCESS
    } else {
        ExitCode::from(1)
    }
}

// Runs a replica that is new, and is kept nowhere.
fn run_unkept(rt: &HostRuntime, name: Name, prompts: bool) -> Result<ExitCode> {
    let replica = Replica::new(rt.alloc(), name, Fnv1a);
    let mut replica = Box::new(rt.alloc(), replica)?;
    let ran = run(rt, &mut *replica, prompts);
    drop(replica);
    Ok(status(ran?))
}

// The replica in the file. It stands in a box, as one that is a local is dear to prove.
fn open<S: Start>(
    rt: &HostRuntime,
    path: &str,
    start: S,
    name: Name,
) -> Result<Box<Store<FileStore<FileFrom<S>>>>> {
    let store = Store::open(rt, path, start, Fnv1a, name)?;
    Ok(Box::new(rt.alloc(), store)?)
}

// Runs the replica in the file.
fn run_kept<S: Start>(
    rt: &HostRuntime,
    path: &str,
    start: S,
    name: Name,
    prompts: bool,
) -> Result<ExitCode> {
    match open(rt, path, start, name) {
        Ok(mut kept) => {
            let ran = run(rt, &mut *kept, prompts);
            drop(kept);
            Ok(status(ran?))
        }
        Err(error) => {
            eprintln!(rt; "{path}: {error}")?;
            Ok(status(false))
        }
    }
}

fn main(rt: HostRuntime) -> Result<ExitCode> {
    let words: Vec<String> = env::args(&rt)?.skip(1).collect(rt.alloc())?;
    match read_words(&words) {
        Wanted::Run(name, prompts) => run_unkept(&rt, name, prompts),
        Wanted::RunIn(path, name, prompts) => run_kept(&rt, path, Unknown, name, prompts),
        Wanted::Help => {
            print!(rt; "{HELP}")?;
            Ok(ExitCode::SUCCESS)
        }
        Wanted::Version => {
            println!(rt; "{VERSION}")?;
            Ok(ExitCode::SUCCESS)
        }
        Wanted::Fault => {
            eprint!(rt; "{HELP}")?;
            Ok(ExitCode::from(2))
        }
    }
}
