ghost use Rattle.std.specs.Prelude.{◌≡◌, ◌≢◌, ◌≤◌, ◌<◌, ◌+◌, ◌*◌, ◌^◌, ◌++◌, ◌⊎◌, [], List, length, true, false, Some, None, OnOk, OnErr, IfOk, IfErr, IfSome, IsErrOf, IsOkUnless};
ghost use Rattle.std.specs.Io.KnownBytes.{Appends, IsAtEnd};
ghost use Rattle.trace_cli.specs.Ends.{LeavesWriter};
ghost use Rattle.trace_cli.specs.Lines.{has_newline};
ghost use Rattle.trace_cli.specs.TraceRun.{point_of, Leads, Stops, IsFrontFrom};
ghost use Rattle.trace_words.specs.Fault.{is_fault, ends_run};
ghost use Rattle.trace_cli.specs.Output.{Given, IsGiven, IsGivenFront};
ghost use Rattle.trace_cli.specs.Turns.{IsAnswered, AreInTurn};
ghost use Rattle.trace_cli.specs.Reads.{Reading, ReadsLead};
ghost use Rattle.trace_cli.specs.Streams.{TakenBytes, Written};
ghost use Rattle.trace_cli.specs.Watched.{inner_of, calls_of, has_failed, has_gone_on, is_flushed, IsNew, IsSettled};

use crate::flushing::write_out;
use crate::source::Source;
use crate::trace_run::TraceRun;
use crate::watched::Watched;
use dots::Refusal;
use std::alloc::Allocator;
use std::io::Write;
use trace_words::is_fault;

/// At most so many reads are made of one trace.
pub(crate) const READ_CALLS: u64 = 1_000_000_000;

/// Runs the trace that the reader gives, and writes its answers.
///
/// Both streams are new. Reads at most 256 bytes a call, and at most 1,000,000,000 times. The answers to the lines that end
/// in what a read gave are written together, and flushed, before more is read. The first failure of the reader (Input) or the writer
/// (Output) ends the run, as does a fault (BadLine, UnknownReplica, UnknownMessage, NameTaken), whose line is written first, and
/// want of memory (OutOfMemory). A trace that takes more reads than these is answered Input too.
///
/// Takes time in the bytes of the trace, and what its commands take; and memory in a line, in the answers to what one read gave, in what
/// the replicas hold, and in all messages and accepted events, which are kept to the end.
pub fn run<R: Source<W>, W: Write, A: Allocator + Copy>(
    alloc: A,
    reader: &mut Watched<R>,
    writer: &mut Watched<W>,
) -> Result<(), Refusal>
    requires reader_is_new { IsNew reader.old }
    requires writer_is_new { IsNew writer.old }

    // The whole input was read, and what it is given was written, and nothing else.
    ensures ok { OnOk result (TakenBytes (R.left (inner_of reader.old)) (R.left (inner_of reader.new)) (λ input.
        IsAtEnd (R.left (inner_of reader.new)) × ((given : Given) × IsGiven input given ×
        Appends (W.contents (inner_of writer.old)) (W.contents (inner_of writer.new)) given.text × (given.fault ≡ None)))) }
    // What was read is given just this fault, whatever the reader has left.
    ensures fault { IfErr result (λ refusal. is_fault refusal ≡ true →
        TakenBytes (R.left (inner_of reader.old)) (R.left (inner_of reader.new)) (λ read.
        (given : Given) × IsGiven read given ×
        Appends (W.contents (inner_of writer.old)) (W.contents (inner_of writer.new)) given.text × (given.fault ≡ Some refusal) ×
        IfSome (R.left (inner_of reader.new)) (λ rest. IsGiven (read ++ rest) given))) }
    // Whatever the refusal, a front of what is given to whole lines that were read, or to all of them, was written.
    ensures front { OnErr result (TakenBytes (R.left (inner_of reader.old)) (R.left (inner_of reader.new)) (λ read.
        Written (W.contents (inner_of writer.old)) (W.contents (inner_of writer.new)) (λ text. IsGivenFront read text))) }
    // Where reading failed, each whole line that was read was answered.
    ensures answered { IsErrOf result Refusal.Input →
        TakenBytes (R.left (inner_of reader.old)) (R.left (inner_of reader.new)) (λ read.
        IsAnswered (W.contents (inner_of writer.old)) (W.contents (inner_of writer.new)) read) }
    // Whatever the outcome, the reads that were made asked for a byte each, and each was made when all lines whose ends
    // had been read were answered, and the answers flushed.
    ensures in_turn { (reads : List (Reading W)) × ReadsLead R.gives (inner_of reader.old) reads (inner_of reader.new)
        × AreInTurn W.contents (W.contents (inner_of writer.old)) [] reads }

    ensures refusal { IfErr result (λ refusal. ends_run refusal ≡ true) }
    ensures input { IsErrOf result Refusal.Input → (has_failed reader.new ≡ true) ⊎ (calls_of reader.new ≡ READ_CALLS) }
    ensures output { IsErrOf result Refusal.Output → has_failed writer.new ≡ true }
    // A failure of either stream ends the run: nothing more is asked of that stream.
    ensures reader_failed { has_failed reader.new ≡ true → IsErrOf result Refusal.Input }
    ensures writer_failed { has_failed writer.new ≡ true → IsErrOf result Refusal.Output }
    ensures ended { (has_gone_on reader.new ≡ false) × (has_gone_on writer.new ≡ false) }
    // All that was written was flushed.
    ensures flushed { has_failed writer.new ≡ false → is_flushed writer.new ≡ true }
    ensures calls { calls_of reader.new ≤ READ_CALLS }
    ensures pieces { TakenBytes (R.left (inner_of reader.old)) (R.left (inner_of reader.new)) (λ read.
        length read ≤ 256 * calls_of reader.new) }
{
    let mut trace_run = TraceRun::new(alloc);
    'calls: for _ in 0..READ_CALLS {
        let mut piece = [0; 256];
        let Ok(count) = reader.read_beside(writer, &mut piece) else {
            drop(trace_run);
            return Err(Refusal::Input);
        };
        if count == 0 {
            let ended = trace_run.finish(writer);
            drop(trace_run);
            return ended;
        }
        if let Err(refusal) = answer(alloc, &mut trace_run, writer, &piece[..count]) {
            drop(trace_run);
            return Err(refusal);
        }
    }
    drop(trace_run);
    Err(Refusal::Input)
}

/// Feeds the piece to the run of a trace, and writes the answers to the lines that end in it together.
fn answer<W: Write, A: Allocator + Copy>(
    alloc: A,
    trace_run: &mut TraceRun<A>,
    writer: &mut Watched<W>,
    piece: &[u8],
) -> Result<(), Refusal>
    requires sound { IsSettled writer.old }
    requires room { trace_run.old.number + length piece.now < 2 ^ 64 }
    requires one_line { has_newline trace_run.old.line.items ≡ false }
    ensures ok { OnOk result (Written (W.contents (inner_of writer.old)) (W.contents (inner_of writer.new)) (λ text.
        Leads (point_of trace_run.old) piece.now text (point_of trace_run.new))) }
    ensures one_line { OnOk result (has_newline trace_run.new.line.items ≡ false) }
    ensures number { OnOk result (trace_run.new.number ≤ trace_run.old.number + length piece.now) }
    ensures fault { IfErr result (λ refusal. is_fault refusal ≡ true →
        Written (W.contents (inner_of writer.old)) (W.contents (inner_of writer.new)) (λ text.
        Stops (point_of trace_run.old) piece.now text refusal)) }
    ensures front { OnErr result (Written (W.contents (inner_of writer.old)) (W.contents (inner_of writer.new)) (λ text.
        IsFrontFrom (point_of trace_run.old) piece.now text)) }
    ensures refusal { IfErr result (λ refusal. ends_run refusal ≡ true) }
    ensures input { IfErr result (λ refusal. refusal ≢ Refusal.Input) }
    ensures writer { LeavesWriter result writer.new }
{
    let mut answers = Watched::new(Vec::new(alloc));
    let fed = trace_run.feed(&mut answers, piece);
    let text = answers.into_inner();
    write_out(writer, text.as_slice())?;
    match fed {
        Ok(()) => Ok(()),
        // What is held in memory fails for want of memory alone.
        Err(Refusal::Output) => Err(Refusal::OutOfMemory),
        Err(refusal) => Err(refusal),
    }
}

/// Feeds the whole input to a new run of a trace, and ends it.
fn run_all<W: Write, A: Allocator + Copy>(
    alloc: A,
    input: &[u8],
    writer: &mut Watched<W>,
) -> Result<(), Refusal>
    requires sound { IsSettled writer.old }
    ensures ok { OnOk result ((given : Given) × IsGiven input.now given ×
        Appends (W.contents (inner_of writer.old)) (W.contents (inner_of writer.new)) given.text) }
    ensures fault { IfErr result (λ refusal. is_fault refusal ≡ true → (given : Given) × IsGiven input.now given ×
        Appends (W.contents (inner_of writer.old)) (W.contents (inner_of writer.new)) given.text) }
{
    let mut trace_run = TraceRun::new(alloc);
    if let Err(refusal) = trace_run.feed(writer, input) {
        drop(trace_run);
        return Err(refusal);
    }
    let ended = trace_run.finish(writer);
    drop(trace_run);
    ended
}

/// The text that the whole trace is given, its fault's line with it. Takes what `run` does, and the text. The one refusal is
/// OutOfMemory.
pub fn run_bytes<A: Allocator + Copy>(alloc: A, input: &[u8]) -> Result<Vec<u8, A>, Refusal>
    ensures output { IfOk result (λ text. (given : Given) × IsGiven input.now given × (text.items ≡ given.text)) }
    ensures err { IsOkUnless result Refusal.OutOfMemory }
{
    let mut writer = Watched::new(Vec::new(alloc));
    match run_all(alloc, input, &mut writer) {
        Ok(()) => Ok(writer.into_inner()),
        Err(refusal) if is_fault(refusal) => Ok(writer.into_inner()),
        Err(_) => Err(Refusal::OutOfMemory),
    }
}
