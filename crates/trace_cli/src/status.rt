ghost use Rattle.std.specs.Prelude.{◌≡◌, ◌≤◌, ◌⊎◌, ◌||◌, ◌++◌, ◌≢◌, [], List, true, None, IfSome, IsSome};
ghost use Rattle.std.specs.Io.KnownBytes.{Appends, IsAtEnd};
ghost use Rattle.trace_cli.specs.Output.{Given, IsGiven, IsGivenFront};
ghost use Rattle.trace_cli.specs.Status.{status_of};
ghost use Rattle.trace_cli.specs.Turns.{AreInTurn};
ghost use Rattle.trace_cli.specs.Reads.{Reading, ReadsLead};
ghost use Rattle.trace_cli.specs.Streams.{TakenBytes, Written};
ghost use Rattle.trace_cli.specs.Watched.{inner_of, calls_of, has_failed, IsNew};

use crate::running::{READ_CALLS, run};
use crate::source::Source;
use crate::watched::Watched;
use dots::Refusal;
use std::alloc::Allocator;
use std::io::Write;

/// The status of an outcome: 0 where the whole trace ran, 1 at a fault in it, 2 where reading or writing failed, and 3
/// where memory ran out.
fn status_of(outcome: Result<(), Refusal>) -> u8
    ensures { result ≡ status_of outcome }
{
    match outcome {
        Ok(()) => 0,
        Err(Refusal::Input | Refusal::Output) => 2,
        Err(Refusal::OutOfMemory) => 3,
        Err(_) => 1,
    }
}

/// Runs the trace that the reader gives as `run` does, and answers the status that a program ends with: 0 where the whole
/// trace ran, 1 at a fault in it, 2 where reading or writing failed, or more than 1,000,000,000 reads would be made, and 3
/// where memory ran out. Takes what `run` does.
pub fn run_to_status<R: Source<W>, W: Write, A: Allocator + Copy>(
    alloc: A,
    reader: &mut Watched<R>,
    writer: &mut Watched<W>,
) -> u8
    requires reader_is_new { IsNew reader.old }
    requires writer_is_new { IsNew writer.old }
    // The whole input was read, and what it is given, which is no fault, was written.
    ensures ran { result ≡ 0 → TakenBytes (R.left (inner_of reader.old)) (R.left (inner_of reader.new)) (λ input.
        IsAtEnd (R.left (inner_of reader.new)) × ((given : Given) × IsGiven input given ×
        Appends (W.contents (inner_of writer.old)) (W.contents (inner_of writer.new)) given.text × (given.fault ≡ None))) }
    // What was read is given a fault, whatever the reader has left, and up to its line all was written.
    ensures faulted { result ≡ 1 → TakenBytes (R.left (inner_of reader.old)) (R.left (inner_of reader.new)) (λ read.
        (given : Given) × IsGiven read given ×
        Appends (W.contents (inner_of writer.old)) (W.contents (inner_of writer.new)) given.text × IsSome given.fault ×
        IfSome (R.left (inner_of reader.new)) (λ rest. IsGiven (read ++ rest) given)) }
    // A stream failed, just then, or as many reads were made as may be.
    ensures failed { result ≡ 2 → ((has_failed reader.new || has_failed writer.new) ≡ true) ⊎ (calls_of reader.new ≡ READ_CALLS) }
    ensures told { (has_failed reader.new || has_failed writer.new) ≡ true → result ≡ 2 }
    // Else memory ran out.
    ensures known { result ≤ 3 }
    // Where not the whole of it was, a front of what is given to whole lines that were read, or to all of them, was written.
    ensures front { result ≢ 0 → TakenBytes (R.left (inner_of reader.old)) (R.left (inner_of reader.new)) (λ read.
        Written (W.contents (inner_of writer.old)) (W.contents (inner_of writer.new)) (λ text. IsGivenFront read text)) }
    ensures in_turn { (reads : List (Reading W)) × ReadsLead R.gives (inner_of reader.old) reads (inner_of reader.new)
        × AreInTurn W.contents (W.contents (inner_of writer.old)) [] reads }
{
    let outcome = run(alloc, reader, writer);
    status_of(outcome)
}
