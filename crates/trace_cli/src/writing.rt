ghost use Rattle.std.specs.Prelude.{◌≡◌, ◌≢◌, ◌+◌, ◌<◌, ◌≤◌, ◌++◌, ◌∷◌, [], true, OnOk, OnErr, IfErr, IfOk, IsOkUnless, string_bytes, ◌⊎◌};
ghost use Rattle.std.specs.Io.KnownBytes.{Appends};
ghost use Rattle.trace_words.specs.Answer.{Faulted};
ghost use Rattle.trace_words.specs.Fault.{is_fault, ends_run};
ghost use Rattle.trace_cli.specs.Output.{fault_line, answer_text};
ghost use Rattle.trace_words.specs.Reply.{answer_of, TellsFaults, TraceGoesOn};
ghost use Rattle.trace_cli.specs.Streams.{Written, IsFront};
ghost use Rattle.trace_cli.specs.Watched.{inner_of, IsSettled};
ghost use Rattle.trace_cli.specs.Ends.{LeavesWriter};

use crate::flushing::write_out;
use crate::watched::Watched;
use dots::Refusal;
use std::alloc::Allocator;
use std::io::Write;
use trace_words::Reply;

/// Writes the text and the end of its line.
fn write_line<W: Write, A: Allocator + Copy>(
    writer: &mut Watched<W>,
    mut text: Vec<u8, A>,
) -> Result<(), Refusal>
    requires sound { IsSettled writer.old }
    ensures ok { OnOk result (Appends (W.contents (inner_of writer.old)) (W.contents (inner_of writer.new)) (text.items ++ 10 ∷ [])) }
    ensures front { OnErr result (Written (W.contents (inner_of writer.old)) (W.contents (inner_of writer.new)) (λ part.
        IsFront part (text.items ++ 10 ∷ []))) }
    ensures refusal { IfErr result (λ refusal. (refusal ≡ Refusal.Output) ⊎ (refusal ≡ Refusal.OutOfMemory)) }
    ensures writer { LeavesWriter result writer.new }
{
    text.push(b'\n')?;
    write_out(writer, text.as_slice())
}

/// The line that tells a fault: `error line <number>: <word>`, with its end.
fn fault_text<A: Allocator + Copy>(
    alloc: A,
    number: u64,
    refusal: Refusal,
) -> Result<String<A>, Refusal>
    ensures ok { IfOk result (λ text. string_bytes text ≡ fault_line number refusal) }
    ensures err { IsOkUnless result Refusal.OutOfMemory }
{
    let mut text = format!(in alloc; "error line {number}: ")?;
    text.push_str(refusal.word())?;
    text.push('\n')?;
    Ok(text)
}

/// Writes the line that tells a fault.
fn write_fault<W: Write, A: Allocator + Copy>(
    alloc: A,
    writer: &mut Watched<W>,
    number: u64,
    refusal: Refusal,
) -> Result<(), Refusal>
    requires sound { IsSettled writer.old }
    ensures ok { OnOk result (Appends (W.contents (inner_of writer.old)) (W.contents (inner_of writer.new)) (fault_line number refusal)) }
    ensures front { OnErr result (Written (W.contents (inner_of writer.old)) (W.contents (inner_of writer.new)) (λ part.
        IsFront part (fault_line number refusal))) }
    ensures refusal { IfErr result (λ refusal. (refusal ≡ Refusal.Output) ⊎ (refusal ≡ Refusal.OutOfMemory)) }
    ensures writer { LeavesWriter result writer.new }
{
    let text = fault_text(alloc, number, refusal)?;
    write_out(writer, text.as_bytes())
}

/// Writes a reply to the line of this number. A reply that is a fault is answered as that refusal, once its line is
/// written.
pub(crate) fn write_reply<W: Write, A: Allocator + Copy>(
    alloc: A,
    writer: &mut Watched<W>,
    number: u64,
    reply: Reply<A>,
) -> Result<(), Refusal>
    requires tells { TellsFaults reply }
    requires sound { IsSettled writer.old }
    ensures ok { OnOk result (Appends (W.contents (inner_of writer.old)) (W.contents (inner_of writer.new))
        (answer_text (answer_of reply) number)) }
    ensures goes_on { OnOk result (TraceGoesOn (answer_of reply)) }
    ensures fault { IfErr result (λ refusal. is_fault refusal ≡ true → (answer_of reply ≡ Faulted refusal) ×
        Appends (W.contents (inner_of writer.old)) (W.contents (inner_of writer.new)) (answer_text (answer_of reply) number)) }
    ensures front { OnErr result (Written (W.contents (inner_of writer.old)) (W.contents (inner_of writer.new)) (λ part.
        IsFront part (answer_text (answer_of reply) number))) }
    ensures refusal { IfErr result (λ refusal. ends_run refusal ≡ true) }
    ensures input { IfErr result (λ refusal. refusal ≢ Refusal.Input) }
    ensures writer { LeavesWriter result writer.new }
{
    match reply {
        Reply::Silent => Ok(()),
        Reply::Told(text) => write_line(writer, text),
        Reply::Faulted(refusal) => {
            write_fault(alloc, writer, number, refusal)?;
            Err(refusal)
        }
    }
}
