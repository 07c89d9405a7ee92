use crate::tests::faults::{TRACE, lines};
use std::alloc::Global;
use std::io;
use std::io::{Read, Write};
use std::process::Abort;
use std::sync::Arc;
use std::sync::atomic::AtomicU64;
use std::sync::atomic::Ordering::SeqCst;
use trace_cli::{Watched, run};

/// Gives a line a call, and tells whether each time all lines that were given before had been answered, and the answers flushed.
#[derive(Drop)]
struct Lines<'a> {
    rest: &'a [u8],
    given: u64,
    answered: Arc<AtomicU64, Global>,
    in_turn: bool,
}

/// How many bytes the first line has, with its end.
fn first_line(text: &[u8]) -> usize {
    match text.iter().position(|byte| *byte == b'\n') {
        Some(at) => at.saturating_add(1),
        None => text.len(),
    }
}

impl<'a> Read for Lines<'a> {
    fn read(&mut self, buf: &mut [u8]) -> io::Result<usize> {
        self.in_turn = self.in_turn && self.answered.load(SeqCst) == self.given;
        self.given = self.given.saturating_add(1);
        let count = first_line(self.rest).min(buf.len()).min(self.rest.len());
        let (line, rest) = self.rest.split_at(count);
        buf[..count].copy_from_slice(line);
        self.rest = rest;
        Ok(count)
    }
}

/// Counts the lines that were written, and tells the count at each flush.
#[derive(Drop)]
struct Counting {
    lines: u64,
    answered: Arc<AtomicU64, Global>,
}

impl Write for Counting {
    fn write(&mut self, buf: &[u8]) -> io::Result<usize> {
        self.lines = self.lines.saturating_add(lines(buf) as u64);
        Ok(buf.len())
    }

    fn flush(&mut self) -> io::Result<()> {
        self.answered.store(self.lines, SeqCst);
        Ok(())
    }
}

/// Whether each line is answered before the next is read, and all sixteen are.
fn are_answered_in_turn(rt: &impl Abort, alloc: Global) -> bool {
    let answered = Arc::new(alloc, AtomicU64::new(0)).expect(rt, "memory");
    let mut reader = Watched::new(Lines {
        rest: TRACE.as_bytes(),
        given: 0,
        answered: Arc::try_clone(&answered).expect(rt, "a count"),
        in_turn: true,
    });
    let mut writer = Watched::new(Counting {
        lines: 0,
        answered: Arc::try_clone(&answered).expect(rt, "a count"),
    });
    let is_answered = run(alloc, &mut reader, &mut writer) == Ok(());
    let is_in_turn = reader.into_inner().in_turn;
    let is_all = answered.load(SeqCst) == 16;
    is_answered && is_in_turn && is_all
}

#[test]
fn each_line_is_answered_before_the_next_is_read(rt: HostRuntime) {
    let is_so = are_answered_in_turn(&rt, rt.alloc());
    assert!(rt; is_so);
}
