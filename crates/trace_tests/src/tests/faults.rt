ghost use Rattle.trace_cli.specs.Watched.{IsNew};

use crate::tests::rows::{
    BESIDE_A_CLEAR, BESIDE_A_CLEAR_TEXT, PAGES_UNDER_ONE_INDEX, PAGES_UNDER_ONE_INDEX_TEXT,
};
use dots::Refusal;
use std::alloc::Global;
use std::io;
use std::io::{Read, Write};
use trace_cli::{Watched, run};

pub(crate) const TRACE: &str =
    "node 1\nnode 2\nput 1 a x\nput 2 a y\nflush 1\nflush 2\ndeliver 1 2\ndeliver 2 1\nget 1 a\nget 2 a\nput 1 a z\nflush 1\ndeliver 3 2\nget 1 a\nget 2 a\nflush 2\n";

pub(crate) const TEXT: &str =
    "ok\nok\nok 1:1\nok 2:1\nsent 1:delta\nsent 2:delta\njoined\njoined\n= x y\n= x y\nok 1:2\nsent 3:delta\njoined\n= z\n= z\nempty\n";

/// Gives so many bytes a call, and fails at the call of this number, counted from 1.
#[derive(Drop)]
struct Pieces<'a> {
    rest: &'a [u8],
    piece: usize,
    calls_left: u64,
}

impl<'a> Read for Pieces<'a> {
    fn read(&mut self, buf: &mut [u8]) -> io::Result<usize> {
        self.calls_left = self.calls_left.saturating_sub(1);
        if self.calls_left == 0 {
            return Err(io::Error::from(io::ErrorKind::Other));
        }
        let count = self.piece.min(buf.len()).min(self.rest.len());
        let (piece, rest) = self.rest.split_at(count);
        buf[..count].copy_from_slice(piece);
        self.rest = rest;
        Ok(count)
    }
}

/// Takes so many bytes a write, and fails at the call of this number, counted from 1: a flush is a call too. A write that
/// stalls takes no byte, in the place of an error.
#[derive(Drop)]
struct Taking {
    text: Vec<u8>,
    piece: usize,
    calls_left: u64,
    stalls: bool,
}

impl Taking {
    fn fails(&mut self) -> bool {
        self.calls_left = self.calls_left.saturating_sub(1);
        self.calls_left == 0
    }
}

impl Write for Taking {
    fn write(&mut self, buf: &[u8]) -> io::Result<usize> {
        if self.fails() {
            if self.stalls {
                return Ok(0);
            }
            return Err(io::Error::from(io::ErrorKind::Other));
        }
        let count = self.piece.min(buf.len());
        self.text.extend_from_slice(&buf[..count])?;
        Ok(count)
    }

    fn flush(&mut self) -> io::Result<()> {
        if self.fails() {
            return Err(io::Error::from(io::ErrorKind::Other));
        }
        Ok(())
    }
}

// One that fails takes a byte a write, and one that stalls three.
fn taker(alloc: Global, stalls: bool, calls: u64) -> Watched<Taking>
    ensures { IsNew result }
{
    Watched::new(Taking {
        text: Vec::new(alloc),
        piece: if stalls { 3 } else { 1 },
        calls_left: calls,
        stalls,
    })
}

/// How many whole lines are in the text.
pub(crate) fn lines(text: &[u8]) -> usize {
    text.iter().filter(|byte| **byte == b'\n').count()
}

// The traces of which each read and each write fails in turn, with what they are given: of puts, of a clear beside a put, and of a
// synchronisation by pages.
const TRACES: [(&str, &str); 3] = [
    (TRACE, TEXT),
    (BESIDE_A_CLEAR, BESIDE_A_CLEAR_TEXT),
    (PAGES_UNDER_ONE_INDEX, PAGES_UNDER_ONE_INDEX_TEXT),
];

// Whether a run whose writer fails at this call has written a front of the text, and ends with Output; None where it does not fail.
fn fails_at(alloc: Global, trace: &str, text: &str, stalls: bool, call: u64) -> Option<bool> {
    let mut reader = Watched::new(trace.as_bytes());
    let mut writer = taker(alloc, stalls, call);
    let outcome = run(alloc, &mut reader, &mut writer);
    let failed = writer.failed();
    let written = writer.into_inner();
    let is_front = text.as_bytes().starts_with(written.text.as_slice());
    let is_whole = written.text.as_slice() == text.as_bytes();
    if outcome.is_ok() && !failed && is_whole {
        return None;
    }
    Some(is_front && failed && outcome == Err(Refusal::Output))
}

// How many writes and flushes fail in turn before the run comes through. None where one of them did not end it as it should.
fn write_failures(alloc: Global, trace: &str, text: &str, stalls: bool) -> Option<u64> {
    for call in 1..10_000 {
        match fails_at(alloc, trace, text, stalls, call) {
            None => return Some(call),
            Some(true) => {}
            Some(false) => return None,
        }
    }
    None
}

#[test]
fn each_write_may_fail_or_stall_in_turn_and_each_flush_fail(rt: HostRuntime) {
    for (trace, text) in TRACES {
        for stalls in [false, true] {
            let count = write_failures(rt.alloc(), trace, text, stalls);
            assert!(rt; count > Some(20), "stalls: {stalls}");
        }
    }
}

// Whether a run whose reader fails at this call has answered each whole line that was read, and ends with Input; None where it does
// not fail.
fn stops_at(alloc: Global, trace: &str, text: &str, piece: usize, call: u64) -> Option<bool> {
    let bytes = trace.as_bytes();
    let mut reader = Watched::new(Pieces {
        rest: bytes,
        piece,
        calls_left: call,
    });
    let mut writer = Watched::new(Vec::new(alloc));
    let outcome = run(alloc, &mut reader, &mut writer);
    let failed = reader.failed();
    let given = writer.into_inner();
    if outcome.is_ok() && !failed && given.as_slice() == text.as_bytes() {
        return None;
    }
    let read = bytes.len().saturating_sub(reader.into_inner().rest.len());
    let is_answered = lines(given.as_slice()) == lines(bytes.get(..read).unwrap_or(bytes));
    let is_front = text.as_bytes().starts_with(given.as_slice());
    Some(is_front && is_answered && failed && outcome == Err(Refusal::Input))
}

// How many reads fail in turn before the run comes through. None where one of them did not end it as it should.
fn read_failures(alloc: Global, trace: &str, text: &str, piece: usize) -> Option<u64> {
    for call in 1..10_000 {
        match stops_at(alloc, trace, text, piece, call) {
            None => return Some(call),
            Some(true) => {}
            Some(false) => return None,
        }
    }
    None
}

#[test]
fn each_read_may_fail_in_turn_and_whole_lines_were_answered(rt: HostRuntime) {
    for (trace, text) in TRACES {
        for piece in [1, 7] {
            assert!(rt; read_failures(rt.alloc(), trace, text, piece) > Some(20));
        }
    }
}
