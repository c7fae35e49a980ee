//! Readers and writers that give little, take little or fail.
ghost use Rattle.std.specs.Prelude.{◌≡◌, Some, false};
ghost use Rattle.irkit_streams.specs.Streams.{has_failed};

use irkit_driver::Watched;
use std::alloc::Global;
use std::io;
use std::io::{ErrorKind, Read, Write};

/// Gives one byte a call, and fails at the call after so many.
#[derive(Drop)]
pub struct Dripping<'a> {
    pub rest: &'a [u8],
    pub calls: u64,
}

impl<'a> Read for Dripping<'a> {
    ghost remaining = { λ r. Some r.rest.now };

    fn read(&mut self, buf: &mut [u8]) -> io::Result<usize> {
        if self.calls == 0 {
            return Err(io::Error::from(ErrorKind::Interrupted));
        }
        self.calls -= 1;
        let n = buf.len().min(1);
        self.rest.read(&mut buf[..n])
    }
}

/// Takes at most so many bytes a call. Once it has no room, it fails or takes none.
#[derive(Drop)]
pub struct Narrow {
    pub taken: Vec<u8>,
    pub step: usize,
    pub room: usize,
    pub fails: bool,
}

impl Write for Narrow {
    ghost contents = { λ w. Some w.taken.items };

    fn write(&mut self, buf: &[u8]) -> io::Result<usize> {
        let n = buf.len().min(self.step).min(self.room);
        if n == 0 && self.fails {
            return Err(io::Error::from(ErrorKind::Interrupted));
        }
        self.taken.extend_from_slice(&buf[..n])?;
        self.room -= n;
        Ok(n)
    }

    fn flush(&mut self) -> io::Result<()> {
        Ok(())
    }
}

/// A writer of that room, which takes so many bytes a call and then fails or takes none.
pub fn writer_of(alloc: Global, step: usize, room: usize, fails: bool) -> Watched<Narrow>
    ensures { has_failed result ≡ false }
{
    Watched::new(Narrow {
        taken: Vec::new(alloc),
        step,
        room,
        fails,
    })
}

/// Takes all, and fails to pass it on.
#[derive(Drop)]
pub struct Clogged;

impl Write for Clogged {
    fn write(&mut self, buf: &[u8]) -> io::Result<usize> {
        Ok(buf.len())
    }

    fn flush(&mut self) -> io::Result<()> {
        Err(io::Error::from(ErrorKind::Interrupted))
    }
}
