// A post over two streams.
ghost use Rattle.std.specs.Prelude.{◌≡◌, ◌⊎◌, ◌+◌, ◌<◌, ◌^◌, ◌++◌, [], ◌∷◌, length, IfSome, IfOk, OnOk};
ghost use Rattle.std.specs.Io.KnownBytes.{Appends, Consumes};
ghost use Rattle.std.specs.Int.{to_be_bytes, w32};
ghost use Rattle.node_threads.specs.Frames.{framed, addressed};

use crate::frames_end::FramesEnd;
use crate::post::Post;
use dots::{Name, Refusal};
use std::alloc::Global;
use std::io::{self, ErrorKind, Read, Write};
use std::sync::Wait;

/// A post over two streams, as they join a process to the one that started it. What comes in is a frame each, and so is what goes out: the number
/// of its bytes, four bytes with the highest first, and these bytes. What goes out begins with the name that it is for, eight bytes with the
/// highest first. It ends where the input does, or with what is refused, and neither stream is asked for anything then.
#[derive(Drop)]
pub struct Frames<I: Read + Drop, O: Write + Drop> {
    alloc: Global,
    input: I,
    output: O,
    longest: u32,
    end: Option<FramesEnd>,
}

impl<I: Read + Drop, O: Write + Drop> Frames<I, O> {
    /// A post over these streams, by which frames of at most so many bytes come and go.
    pub fn new(alloc: Global, input: I, output: O, longest: u32) -> Frames<I, O> {
        Frames {
            alloc,
            input,
            output,
            longest,
            end: None,
        }
    }

    /// How it ended, or None where it has not.
    pub fn end(&self) -> Option<FramesEnd> {
        self.end
    }
}

impl<I: Read + Drop, O: Write + Drop> Post for Frames<I, O> {
    ghost use Rattle.std.specs.Prelude.{◌≡◌, ◌⊎◌, ◌++◌, IsSome};
    ghost use Rattle.std.specs.Io.KnownBytes.{Appends, Consumes};
    ghost use Rattle.node_threads.specs.Frames.{framed, addressed};

    // A frame was read, or written. Where none was written all stayed, or the frames ended and nothing was read; and where none comes any more they
    // ended, and nothing was written.
    ghost receives = { λ old new bytes. Consumes (I.remaining old.input) (I.remaining new.input) (framed bytes) × (new.output ≡ old.output) };

    ghost sends = { λ old new to bytes. Appends (O.contents old.output) (O.contents new.output) (framed (addressed to bytes)) × (new.input ≡ old.input) };

    ghost rests = { λ old new. (new ≡ old) ⊎ (IsSome new.end × (new.input ≡ old.input)) };

    ghost ends = { λ old new. IsSome new.end × (new.output ≡ old.output) };

    fn receive<T: Wait>(&mut self, _rt: &T) -> Option<Vec<u8>> {
        if self.end.is_some() {
            return None;
        }
        match frame_of(self.alloc, &mut self.input, self.longest) {
            Ok(bytes) => Some(bytes),
            Err(end) => {
                self.end = Some(end);
                None
            }
        }
    }

    fn send<T: Wait>(&mut self, _rt: &T, to: Name, bytes: &[u8]) -> bool {
        if self.end.is_some() {
            return false;
        }
        let Some(head) = head_of(bytes.len(), self.longest) else {
            return false;
        };
        match put_frame(&mut self.output, head, to, bytes) {
            Ok(()) => true,
            Err(_) => {
                self.end = Some(FramesEnd::Refused(Refusal::Output));
                false
            }
        }
    }
}

// The bytes of the frame that comes next.
fn frame_of<I: Read>(alloc: Global, input: &mut I, longest: u32) -> Result<Vec<u8>, FramesEnd>
    ensures { IfOk result (λ bytes. Consumes (I.remaining input.old) (I.remaining input.new) (framed bytes.items)) }
{
    let count = count_of(input)?;
    if count > longest {
        return Err(FramesEnd::Refused(Refusal::TooLong));
    }
    bytes_of(alloc, input, count)
}

// The number of bytes of the frame that comes next.
fn count_of<I: Read>(input: &mut I) -> Result<u32, FramesEnd>
    ensures { IfOk result (λ count. Consumes (I.remaining input.old) (I.remaining input.new) (to_be_bytes w32 count)) }
{
    let first = first_of(input)?;
    let [second, third, fourth] = rest_of(input)?;
    Ok(number_of([first, second, third, fourth]))
}

// The byte that a frame begins with. The frames end well only where none comes.
fn first_of<I: Read>(input: &mut I) -> Result<u8, FramesEnd>
    ensures { IfOk result (λ byte. Consumes (I.remaining input.old) (I.remaining input.new) (byte ∷ [])) }
{
    let mut byte = [0u8; 1];
    match input.read_exact(&mut byte) {
        Ok(()) => Ok(byte[0]),
        Err(error) => Err(ended_by(&error)),
    }
}

// The three bytes behind it.
fn rest_of<I: Read>(input: &mut I) -> Result<[u8; 3], FramesEnd>
    ensures { IfOk result (λ bytes. Consumes (I.remaining input.old) (I.remaining input.new) bytes) }
{
    let mut bytes = [0u8; 3];
    match input.read_exact(&mut bytes) {
        Ok(()) => Ok(bytes),
        Err(_) => Err(FramesEnd::Refused(Refusal::Input)),
    }
}

// The number that these bytes are, with the highest first.
fn number_of(head: [u8; 4]) -> u32
    ensures { to_be_bytes w32 result ≡ head }
{
    u32::from_be_bytes(head)
}

// So many bytes that come next.
fn bytes_of<I: Read>(alloc: Global, input: &mut I, count: u32) -> Result<Vec<u8>, FramesEnd>
    ensures bytes { IfOk result (λ bytes. Consumes (I.remaining input.old) (I.remaining input.new) bytes.items) }
    ensures count { IfOk result (λ bytes. length bytes.items ≡ count) }
{
    let mut bytes = Vec::new(alloc);
    if bytes.resize(count as usize, 0).is_err() {
        return Err(FramesEnd::Refused(Refusal::OutOfMemory));
    }
    match input.read_exact(&mut bytes) {
        Ok(()) => Ok(bytes),
        Err(_) => Err(FramesEnd::Refused(Refusal::Input)),
    }
}

// What a failure to read a frame's first byte ends the frames with.
fn ended_by(error: &io::Error) -> FramesEnd {
    if error.kind() == ErrorKind::UnexpectedEof {
        FramesEnd::Over
    } else {
        FramesEnd::Refused(Refusal::Input)
    }
}

// The number of bytes of a frame with a name and so many bytes, where it is no longer than this.
fn head_of(count: usize, longest: u32) -> Option<u32>
    ensures { IfSome result (λ head. head ≡ count + 8) }
{
    let head = u32::try_from(count.checked_add(8)?).ok()?;
    if head > longest {
        return None;
    }
    Some(head)
}

// Writes a frame of a name and bytes.
fn put_frame<O: Write>(output: &mut O, head: u32, to: Name, bytes: &[u8]) -> io::Result<()>
    requires { head ≡ length bytes.now + 8 }
    ensures { OnOk result (Appends (O.contents output.old) (O.contents output.new) (framed (addressed to bytes.now))) }
{
    output.write_all(&head.to_be_bytes())?;
    output.write_all(&to.number().to_be_bytes())?;
    output.write_all(bytes)?;
    output.flush()
}
