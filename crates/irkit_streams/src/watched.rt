//! A reader or a writer that remembers whether one of its calls failed, and counts its reads.
ghost use Rattle.std.specs.Prelude.{◌≡◌, ◌+◌, ◌||◌, ◌==◌, cond, is_err, MatchResult, true, false};
ghost use Rattle.std.specs.Io.{ReadsAtMost, WritesAtMost};
ghost use Rattle.std.specs.Io.KnownBytes.{Keeps, ReadConsumes, WriteAppends};
ghost use Rattle.irkit_streams.specs.Streams.{has_failed, calls_of, counted, ends_of, inner_of, IsUnread};

use std::io;
use std::io::{Read, Write};

/// Wraps a reader or a writer, tells whether a call has failed or a write has taken none, and counts the reads.
#[derive(Drop)]
pub struct Watched<T> {
    inner: T,
    failed: bool,
    calls: u64,
    ends: u64,
}

impl<T> Watched<T> {
    /// Watches this from here on: no call has failed yet.
    pub fn new(inner: T) -> Self
        ensures inner { inner_of result ≡ inner }
        ensures fresh { has_failed result ≡ false }
        ensures unread { calls_of result ≡ 0 }
        ensures unended { ends_of result ≡ 0 }
    {
        Watched {
            inner,
            failed: false,
            calls: 0,
            ends: 0,
        }
    }

    /// Whether one of its calls has failed, or a write has taken none.
    pub fn has_failed(&self) -> bool
        ensures { result ≡ has_failed self.now }
    {
        self.failed
    }

    /// How often it was read. The count stops at the largest number.
    pub fn calls(&self) -> u64
        ensures { result ≡ calls_of self.now }
    {
        self.calls
    }

    /// How many of these reads gave no byte, as each does that meets the end.
    pub fn ends(&self) -> u64
        ensures { result ≡ ends_of self.now }
    {
        self.ends
    }

    /// What it watches.
    pub fn inner(&self) -> &T
        ensures { result.now ≡ inner_of self.now }
    {
        &self.inner
    }
}

impl<T: Read> Read for Watched<T> {
    ghost remaining = { λ w. T.remaining (inner_of w) };

    fn read(&mut self, buf: &mut [u8]) -> io::Result<usize>
        ensures bound { ReadsAtMost result buf.new }
        ensures bytes { ReadConsumes (T.remaining (inner_of self.old)) (T.remaining (inner_of self.new))
            result buf.new }
        ensures watched { has_failed self.new ≡ (has_failed self.old || is_err result) }
        ensures calls { calls_of self.new ≡ counted (calls_of self.old + 1) }
        ensures ends { MatchResult result
            (λ n. ends_of self.new ≡ cond (n == 0) (counted (ends_of self.old + 1)) (ends_of self.old))
            (λ _. ends_of self.new ≡ ends_of self.old) }
    {
        let outcome = self.inner.read(buf);
        self.calls = self.calls.saturating_add(1);
        match outcome {
            Ok(0) => self.ends = self.ends.saturating_add(1),
            Ok(_) => {}
            Err(_) => self.failed = true,
        }
        outcome
    }
}

impl<T: Write> Write for Watched<T> {
    ghost contents = { λ w. T.contents (inner_of w) };

    fn write(&mut self, buf: &[u8]) -> io::Result<usize>
        ensures bound { WritesAtMost result buf.now }
        ensures bytes { WriteAppends (T.contents (inner_of self.old)) (T.contents (inner_of self.new)) result buf.now }
        ensures watched { MatchResult result (λ n. has_failed self.new ≡ (has_failed self.old || n == 0))
            (λ _. has_failed self.new ≡ true) }
        ensures unread { IsUnread self.old self.new }
    {
        let outcome = self.inner.write(buf);
        if let Ok(1..) = outcome {} else {
            self.failed = true;
        }
        outcome
    }

    fn flush(&mut self) -> io::Result<()>
        ensures bytes { Keeps (T.contents (inner_of self.old)) (T.contents (inner_of self.new)) }
        ensures watched { has_failed self.new ≡ (has_failed self.old || is_err result) }
        ensures unread { IsUnread self.old self.new }
    {
        let outcome = self.inner.flush();
        if outcome.is_err() {
            self.failed = true;
        }
        outcome
    }
}
