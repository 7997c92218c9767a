//! The bytes of a script, as the program reads them.

use std::io;
use std::io::{ErrorKind, Read};

/// Gives the bytes, then so many bytes `x`, and then ends or fails.
#[derive(Drop)]
pub struct Script<'a> {
    pub bytes: &'a [u8],
    pub padding: usize,
    pub is_broken: bool,
}

impl Read for Script<'_> {
    fn read(&mut self, buf: &mut [u8]) -> io::Result<usize> {
        if !self.bytes.is_empty() {
            return self.bytes.read(buf);
        }
        let count = buf.len().min(self.padding);
        if count == 0 && self.is_broken {
            return Err(io::Error::from(ErrorKind::BrokenPipe));
        }
        buf[..count].fill(b'x');
        self.padding -= count;
        Ok(count)
    }
}
