ghost use Rattle.std.specs.Prelude.{ℕ, List, Option, Result, ⊤};
ghost use Rattle.std.specs.Io.{WritesAtMost};
ghost use Rattle.std.specs.Io.KnownBytes.{Keeps, WriteAppends};
ghost use Rattle.std_io.specs.declared.io.error.Error.{Error};

use std::io;
use std::io::Write;

/// What bytes are pushed into. Every writer is one.
///
/// What a push or a flush does are relations that each sink has for itself, as those of a `Source`.
pub trait Sink {
    // The bytes that were pushed, where they are known.
    ghost held: { Self → Option (List ℕ) };

    // One push of the piece led from the first sink to the second: how many bytes it took, or the error that it met.
    ghost takes: { Self → Self → Result ℕ Error → List ℕ → Type 0 };

    // One flush led from the first sink to the second, and went well or met this error.
    ghost flushes: { Self → Self → Result (Unit {0}) Error → Type 0 };

    /// One write of at most the piece's length.
    fn push(&mut self, piece: &[u8]) -> io::Result<usize>
        ensures bound { WritesAtMost result piece.now }
        ensures bytes { WriteAppends (held self.old) (held self.new) result piece.now }
        ensures takes { takes self.old self.new result piece.now };

    /// One flush.
    fn drain(&mut self) -> io::Result<()>
        ensures bytes { Keeps (held self.old) (held self.new) }
        ensures flushes { flushes self.old self.new result };
}

impl<W: Write> Sink for W {
    ghost held = { W.contents };

    ghost takes = { λ _ _ _ _. ⊤ };

    ghost flushes = { λ _ _ _. ⊤ };

    fn push(&mut self, piece: &[u8]) -> io::Result<usize> {
        self.write(piece)
    }

    fn drain(&mut self) -> io::Result<()> {
        self.flush()
    }
}
