use std::io;
use std::io::{Read, Write};

/// Gives at most three bytes a call.
#[derive(Drop)]
pub(crate) struct Given<'a> {
    pub(crate) rest: &'a [u8],
}

impl<'a> Read for Given<'a> {
    fn read(&mut self, buf: &mut [u8]) -> io::Result<usize> {
        let count = buf.len().min(self.rest.len()).min(3);
        let (piece, rest) = self.rest.split_at(count);
        buf[..count].copy_from_slice(piece);
        self.rest = rest;
        Ok(count)
    }
}

/// Takes at most five bytes a write, and none once it has as many as it is for.
#[derive(Drop)]
pub(crate) struct Taken<'a> {
    pub(crate) bytes: &'a mut Vec<u8>,
    pub(crate) most: usize,
}

impl<'a> Write for Taken<'a> {
    fn write(&mut self, buf: &[u8]) -> io::Result<usize> {
        let room = self.most.saturating_sub(self.bytes.len());
        let count = buf.len().min(room).min(5);
        self.bytes.extend_from_slice(&buf[..count])?;
        Ok(count)
    }

    fn flush(&mut self) -> io::Result<()> {
        Ok(())
    }
}
