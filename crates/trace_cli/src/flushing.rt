ghost use Rattle.std.specs.Prelude.{◌≡◌, OnOk, OnErr, IfErr};
ghost use Rattle.std.specs.Io.KnownBytes.{Appends};
ghost use Rattle.trace_cli.specs.Streams.{Written, IsFront};
ghost use Rattle.trace_cli.specs.Watched.{inner_of, IsSettled, IsBroken};

use crate::watched::Watched;
use dots::Refusal;
use std::io::Write;

/// Writes the whole text and flushes it, or answers Output at the first failure. A piece that is taken in part is written
/// on from there. Takes time in the text, and no memory.
pub fn write_out<W: Write>(writer: &mut Watched<W>, text: &[u8]) -> Result<(), Refusal>
    requires sound { IsSettled writer.old }
    ensures ok { OnOk result (Appends (W.contents (inner_of writer.old)) (W.contents (inner_of writer.new)) text.now) }
    ensures front { OnErr result (Written (W.contents (inner_of writer.old)) (W.contents (inner_of writer.new)) (λ part.
        IsFront part text.now)) }
    ensures refusal { IfErr result (λ refusal. refusal ≡ Refusal.Output) }
    ensures sound { OnOk result (IsSettled writer.new) }
    ensures broken { OnErr result (IsBroken writer.new) }
{
    let mut rest = text;
    while !rest.is_empty() {
        let Ok(count) = writer.write(rest) else {
            return Err(Refusal::Output);
        };
        if count == 0 {
            return Err(Refusal::Output);
        }
        rest = &rest[count..];
    }
    if writer.flush().is_err() {
        return Err(Refusal::Output);
    }
    Ok(())
}
