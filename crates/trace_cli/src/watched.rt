ghost use Rattle.std.specs.Prelude.{◌≡◌, ◌||◌, ◌+◌, ◌-◌, ◌^◌, min, is_ok, is_err, false};
ghost use Rattle.std.specs.Io.{ReadsAtMost, WritesAtMost};
ghost use Rattle.std.specs.Io.KnownBytes.{Keeps, ReadConsumes, WriteAppends};

use crate::sink::Sink;
use crate::source::Source;
use std::io;
use std::io::Write;

/// A reader or a writer that is watched: it passes reads, writes and flushes on, counts the reads and writes, and
/// remembers whether any of the three failed, whether one more was asked after that, and whether all that was written
/// was flushed. It keeps no bytes: each call takes what the one that it passes on takes.
#[derive(Drop)]
pub struct Watched<T> {
    inner: T,
    calls: u64,
    failed: bool,
    went_on: bool,
    flushed: bool,
}

impl<T> Watched<T> {
    ghost use Rattle.trace_cli.specs.Watched.{inner_of, calls_of, has_failed, has_gone_on, is_flushed, IsNew};

    /// Watches `inner`, of which nothing was asked yet.
    pub fn new(inner: T) -> Watched<T>
        ensures inner { inner_of result ≡ inner }
        ensures fresh { IsNew result }
    {
        Watched {
            inner,
            calls: 0,
            failed: false,
            went_on: false,
            flushed: true,
        }
    }

    /// What was watched, as the calls have left it.
    pub fn into_inner(self) -> T
        ensures { result ≡ inner_of self }
    {
        let Watched { inner, .. } = self;
        inner
    }

    /// How many reads and writes were made. It stays at 2^64 - 1.
    pub fn calls(&self) -> u64
        ensures { result ≡ calls_of self.now }
    {
        self.calls
    }

    /// Whether any read, write or flush gave an error, or a write took nothing of a piece that had bytes.
    pub fn failed(&self) -> bool
        ensures { result ≡ has_failed self.now }
    {
        self.failed
    }

    /// Whether anything was asked after the first failure.
    pub fn went_on(&self) -> bool
        ensures { result ≡ has_gone_on self.now }
    {
        self.went_on
    }

    /// Whether a flush went well after the last write, or nothing was written yet.
    pub fn flushed(&self) -> bool
        ensures { result ≡ is_flushed self.now }
    {
        self.flushed
    }
}

impl<R> Watched<R> {
    ghost use Rattle.trace_cli.specs.Watched.{inner_of, calls_of, has_failed, has_gone_on, is_flushed};

    /// One read of at most the piece's length, beside a writer, which stays as it is.
    pub fn read_beside<W>(&mut self, writer: &Watched<W>, piece: &mut [u8]) -> io::Result<usize>
    where
        R: Source<W>,
        ensures bound { ReadsAtMost result piece.new }
        ensures bytes { ReadConsumes (R.left (inner_of self.old)) (R.left (inner_of self.new)) result piece.new }
        ensures gives { R.gives (inner_of self.old) (inner_of self.new) writer.now result piece.new }
        ensures calls { calls_of self.new ≡ min (calls_of self.old + 1) (2 ^ 64 - 1) }
        ensures failed { has_failed self.new ≡ (has_failed self.old || is_err result) }
        ensures went_on { has_gone_on self.new ≡ (has_gone_on self.old || has_failed self.old) }
        ensures flushed { is_flushed self.new ≡ is_flushed self.old }
    {
        self.calls = self.calls.saturating_add(1);
        self.went_on = self.went_on || self.failed;
        let result = self.inner.pull(writer, piece);
        self.failed = self.failed || result.is_err();
        result
    }
}

impl<W: Sink> Write for Watched<W> {
    ghost use Rattle.trace_cli.specs.Watched.{inner_of, calls_of, has_failed, has_gone_on, is_flushed, took_nothing};

    ghost contents = { λ w. W.held (inner_of w) };

    fn write(&mut self, buf: &[u8]) -> io::Result<usize>
        ensures bound { WritesAtMost result buf.now }
        ensures bytes { WriteAppends (W.held (inner_of self.old)) (W.held (inner_of self.new)) result buf.now }
        ensures takes { W.takes (inner_of self.old) (inner_of self.new) result buf.now }
        ensures calls { calls_of self.new ≡ min (calls_of self.old + 1) (2 ^ 64 - 1) }
        ensures failed { has_failed self.new ≡ (has_failed self.old || took_nothing result buf.now) }
        ensures went_on { has_gone_on self.new ≡ (has_gone_on self.old || has_failed self.old) }
        ensures flushed { is_flushed self.new ≡ false }
    {
        self.calls = self.calls.saturating_add(1);
        self.went_on = self.went_on || self.failed;
        self.flushed = false;
        let result = self.inner.push(buf);
        let took_nothing = match &result {
            Ok(count) => *count == 0 && !buf.is_empty(),
            Err(_) => true,
        };
        self.failed = self.failed || took_nothing;
        result
    }

    fn flush(&mut self) -> io::Result<()>
        ensures bytes { Keeps (W.held (inner_of self.old)) (W.held (inner_of self.new)) }
        ensures flushes { W.flushes (inner_of self.old) (inner_of self.new) result }
        ensures calls { calls_of self.new ≡ calls_of self.old }
        ensures failed { has_failed self.new ≡ (has_failed self.old || is_err result) }
        ensures went_on { has_gone_on self.new ≡ (has_gone_on self.old || has_failed self.old) }
        ensures flushed { is_flushed self.new ≡ (is_flushed self.old || is_ok result) }
    {
        self.went_on = self.went_on || self.failed;
        let result = self.inner.drain();
        self.failed = self.failed || result.is_err();
        self.flushed = self.flushed || result.is_ok();
        result
    }
}
