ghost use Rattle.std.specs.Prelude.{ℕ, List, Option, Result, ⊤};
ghost use Rattle.std.specs.Io.{ReadsAtMost};
ghost use Rattle.std.specs.Io.KnownBytes.{ReadConsumes};
ghost use Rattle.std_io.specs.declared.io.error.Error.{Error};
ghost use Rattle.trace_cli.specs.declared.watched.Watched.{Watched};

use crate::watched::Watched;
use std::io;
use std::io::Read;

/// What bytes are pulled from, beside a writer of this type. Every reader is one, beside every writer.
///
/// What a pull does is a relation that each source has for itself, and the writer as it is then is a part of it. A type
/// over sources knows nothing of it, so only a pull that was made shows it: no such type can invent what a source gave, nor
/// a failure of it, nor alter its error, nor say of a pull that the writer was then as it became only later.
pub trait Source<W> {
    // The bytes that pulls will give from here on, where they are known.
    ghost left: { Self → Option (List ℕ) };

    // One pull beside the writer led from the first source to the second: how many bytes it gave or the error that it met,
    // and the piece.
    ghost gives: { Self → Self → Watched W → Result ℕ Error → List ℕ → Type 0 };

    /// One read of at most the piece's length.
    fn pull(&mut self, beside: &Watched<W>, piece: &mut [u8]) -> io::Result<usize>
        ensures bound { ReadsAtMost result piece.new }
        ensures bytes { ReadConsumes (left self.old) (left self.new) result piece.new }
        ensures gives { gives self.old self.new beside.now result piece.new };
}

impl<R: Read, W> Source<W> for R {
    ghost left = { R.remaining };

    ghost gives = { λ _ _ _ _ _. ⊤ };

    fn pull(&mut self, _beside: &Watched<W>, piece: &mut [u8]) -> io::Result<usize> {
        self.read(piece)
    }
}
