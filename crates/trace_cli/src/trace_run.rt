ghost use Rattle.std.specs.Prelude.{◌≡◌, ◌≢◌, ◌+◌, ◌<◌, ◌≤◌, ◌^◌, ◌++◌, ◌∷◌, [], length, true, false, Some, None, OnOk, OnErr, IfErr};
ghost use Rattle.trace_cli.specs.Lines.{has_newline};
ghost use Rattle.trace_words.specs.Fault.{is_fault, ends_run};
ghost use Rattle.trace_cli.specs.Output.{GivesFront};
ghost use Rattle.trace_cli.specs.Streams.{Written};

use crate::watched::Watched;
use crate::writing::write_reply;
use dots::Refusal;
use std::alloc::{Allocator, Global};
use std::io::Write;
use trace_world::Machine;

/// A trace that is being read: the machine, what was read of the current line, and that line's number.
#[derive(Drop)]
pub(crate) struct TraceRun<A: Allocator + Copy = Global> {
    alloc: A,
    machine: Machine<A>,
    line: Vec<u8, A>,
    number: u64,
}

impl<A: Allocator + Copy> TraceRun<A> {
    ghost use Rattle.trace_cli.specs.TraceRun.{point_of, start_point, GivesAt, Leads, Stops, IsFrontFrom};
    ghost use Rattle.trace_cli.specs.Watched.{inner_of, IsSettled};
    ghost use Rattle.trace_cli.specs.Ends.{LeavesWriter};

    /// The start of a trace.
    pub fn new(alloc: A) -> TraceRun<A>
        ensures { point_of result ≡ start_point }
    {
        TraceRun {
            alloc,
            machine: Machine::new(alloc),
            line: Vec::new(alloc),
            number: 1,
        }
    }

    /// Carries out the line that was read, and writes its answer.
    fn end_line<W: Write>(&mut self, writer: &mut Watched<W>) -> Result<(), Refusal>
        requires sound { IsSettled writer.old }
        requires room { self.old.number + 1 < 2 ^ 64 }
        requires one_line { has_newline self.old.line.items ≡ false }
        ensures ok { OnOk result (Written (W.contents (inner_of writer.old)) (W.contents (inner_of writer.new)) (λ text.
            Leads (point_of self.old) (10 ∷ []) text (point_of self.new))) }
        ensures line { OnOk result (self.new.line.items ≡ []) }
        ensures number { OnOk result (self.new.number ≡ self.old.number + 1) }
        ensures fault { IfErr result (λ refusal. is_fault refusal ≡ true →
            Written (W.contents (inner_of writer.old)) (W.contents (inner_of writer.new)) (λ text.
            Stops (point_of self.old) (10 ∷ []) text refusal)) }
        ensures front { OnErr result (Written (W.contents (inner_of writer.old)) (W.contents (inner_of writer.new)) (λ text.
            IsFrontFrom (point_of self.old) (10 ∷ []) text)) }
        ensures refusal { IfErr result (λ refusal. ends_run refusal ≡ true) }
        ensures input { IfErr result (λ refusal. refusal ≢ Refusal.Input) }
        ensures writer { LeavesWriter result writer.new }
    {
        let reply = self.machine.carry_out(self.line.as_slice())?;
        write_reply(self.alloc, writer, self.number, reply)?;
        self.line.clear();
        self.number += 1;
        Ok(())
    }

    /// Takes the next byte of the trace.
    fn take<W: Write>(&mut self, writer: &mut Watched<W>, byte: u8) -> Result<(), Refusal>
        requires sound { IsSettled writer.old }
        requires room { self.old.number + 1 < 2 ^ 64 }
        requires one_line { has_newline self.old.line.items ≡ false }
        ensures ok { OnOk result (Written (W.contents (inner_of writer.old)) (W.contents (inner_of writer.new)) (λ text.
            Leads (point_of self.old) (byte ∷ []) text (point_of self.new))) }
        ensures one_line { OnOk result (has_newline self.new.line.items ≡ false) }
        ensures number { OnOk result (self.new.number ≤ self.old.number + 1) }
        ensures fault { IfErr result (λ refusal. is_fault refusal ≡ true →
            Written (W.contents (inner_of writer.old)) (W.contents (inner_of writer.new)) (λ text.
            Stops (point_of self.old) (byte ∷ []) text refusal)) }
        ensures front { OnErr result (Written (W.contents (inner_of writer.old)) (W.contents (inner_of writer.new)) (λ text.
            IsFrontFrom (point_of self.old) (byte ∷ []) text)) }
        ensures refusal { IfErr result (λ refusal. ends_run refusal ≡ true) }
        ensures input { IfErr result (λ refusal. refusal ≢ Refusal.Input) }
        ensures writer { LeavesWriter result writer.new }
    {
        if byte == b'\n' {
            return self.end_line(writer);
        }
        self.line.push(byte)?;
        Ok(())
    }

    /// Takes the next piece of the trace, of any length.
    pub fn feed<W: Write>(&mut self, writer: &mut Watched<W>, piece: &[u8]) -> Result<(), Refusal>
        requires sound { IsSettled writer.old }
        requires room { self.old.number + length piece.now < 2 ^ 64 }
        requires one_line { has_newline self.old.line.items ≡ false }
        ensures ok { OnOk result (Written (W.contents (inner_of writer.old)) (W.contents (inner_of writer.new)) (λ text.
            Leads (point_of self.old) piece.now text (point_of self.new))) }
        ensures one_line { OnOk result (has_newline self.new.line.items ≡ false) }
        ensures number { OnOk result (self.new.number ≤ self.old.number + length piece.now) }
        ensures fault { IfErr result (λ refusal. is_fault refusal ≡ true →
            Written (W.contents (inner_of writer.old)) (W.contents (inner_of writer.new)) (λ text.
            Stops (point_of self.old) piece.now text refusal)) }
        ensures front { OnErr result (Written (W.contents (inner_of writer.old)) (W.contents (inner_of writer.new)) (λ text.
            IsFrontFrom (point_of self.old) piece.now text)) }
        ensures refusal { IfErr result (λ refusal. ends_run refusal ≡ true) }
        ensures input { IfErr result (λ refusal. refusal ≢ Refusal.Input) }
        ensures writer { LeavesWriter result writer.new }
    {
        for byte in piece {
            self.take(writer, *byte)?;
        }
        Ok(())
    }

    /// Ends the trace: a last line without its end is carried out where it has a byte.
    pub fn finish<W: Write>(&mut self, writer: &mut Watched<W>) -> Result<(), Refusal>
        requires sound { IsSettled writer.old }
        requires room { self.old.number + 1 < 2 ^ 64 }
        requires one_line { has_newline self.old.line.items ≡ false }
        ensures ok { OnOk result (Written (W.contents (inner_of writer.old)) (W.contents (inner_of writer.new)) (λ text.
            GivesAt (point_of self.old) [] (record { text = text; fault = None }))) }
        ensures fault { IfErr result (λ refusal. is_fault refusal ≡ true →
            Written (W.contents (inner_of writer.old)) (W.contents (inner_of writer.new)) (λ text.
            GivesAt (point_of self.old) [] (record { text = text; fault = Some refusal }))) }
        ensures front { OnErr result (Written (W.contents (inner_of writer.old)) (W.contents (inner_of writer.new)) (λ text.
            GivesFront self.old.machine self.old.number self.old.line.items text)) }
        ensures refusal { IfErr result (λ refusal. ends_run refusal ≡ true) }
        ensures input { IfErr result (λ refusal. refusal ≢ Refusal.Input) }
        ensures writer { LeavesWriter result writer.new }
    {
        if self.line.is_empty() {
            return Ok(());
        }
        self.end_line(writer)
    }
}
