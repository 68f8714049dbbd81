// std's readers and writers as devices that tell no bytes.
ghost use Rattle.std.specs.Prelude.{◌≡◌, ◌<◌, length, take, None, IfOk, OnErr};
ghost use Rattle.std.specs.Io.{ReadsAtMost, WritesAtMost};
ghost use Rattle.std.specs.Io.KnownBytes.{Appends, ReadConsumes, WriteAppends};
ghost use Rattle.col_prog.specs.Adapters.{reader_of, reader_faults, writer_of, writer_faults};
ghost use Rattle.col_prog.specs.Device.{HasCause, Fits, TakesRoom, faults_after};
ghost use Rattle.col_prog.specs.Reading.{AppendsFront};

use super::{Failed, Sink, Source};
use std::io::{Read, Write};

/// std's reader as a source that tells no bytes. Each of its errors is a fault.
#[derive(Drop)]
pub struct ReadSource<R: Read> {
    inner: R,
    faults: u64,
}

impl<R: Read> ReadSource<R> {
    /// A source that reads from `inner`.
    pub fn new(inner: R) -> Self
        ensures reader { reader_of result ≡ inner }
        ensures faults { reader_faults result ≡ 0 }
    {
        ReadSource { inner, faults: 0 }
    }
}

impl<R: Read> Source for ReadSource<R> {
    ghost left = { λ _. None };

    ghost faults = { λ s. s.faults };

    /// Gives what the reader gives. The count of faults is raised exactly where that is an error.
    fn read(&mut self, piece: &mut [u8]) -> Result<usize, Failed>
        ensures bound { ReadsAtMost result piece.new }
        ensures bytes { ReadConsumes None None result piece.new }
        ensures cause { HasCause (reader_faults self.old) (reader_faults self.new) result }
        ensures faults { reader_faults self.new ≡ faults_after (reader_faults self.old) result }
        ensures reader { ReadConsumes (R.remaining (reader_of self.old))
            (R.remaining (reader_of self.new)) result piece.new }
    {
        match self.inner.read(piece) {
            Ok(count) => Ok(count),
            Err(_) => {
                self.faults = self.faults.saturating_add(1);
                Err(Failed)
            }
        }
    }
}

/// std's writer as a sink that tells no bytes. It is flushed after each write. A writer's errors
/// are faults, a flush that fails among them, and so is a writer that takes nothing.
#[derive(Drop)]
pub struct WriteSink<W: Write> {
    inner: W,
    faults: u64,
}

impl<W: Write> WriteSink<W> {
    /// A sink that writes to `inner`.
    pub fn new(inner: W) -> Self
        ensures writer { writer_of result ≡ inner }
        ensures faults { writer_faults result ≡ 0 }
    {
        WriteSink { inner, faults: 0 }
    }

    /// The writer, with what it was given.
    pub fn into_inner(self) -> W
        ensures writer { result ≡ writer_of self }
    {
        self.inner
    }
}

impl<W: Write> Sink for WriteSink<W> {
    ghost contents = { λ _. None };

    ghost room = { λ _. None };

    ghost faults = { λ s. s.faults };

    /// Takes what the writer takes, and flushes. The count of faults is raised exactly where that
    /// failed, or where the writer took nothing from a piece that isn't empty. Where the flush
    /// failed, the writer has taken a front of the piece.
    fn write(&mut self, piece: &[u8]) -> Result<usize, Failed>
        requires fits { Fits None (length piece.now) }
        ensures bound { WritesAtMost result piece.now }
        ensures progress { IfOk result (λ count. 0 < length piece.now → 0 < count) }
        ensures bytes { WriteAppends None None result piece.now }
        ensures room { TakesRoom None None result }
        ensures cause { HasCause (writer_faults self.old) (writer_faults self.new) result }
        ensures faults { writer_faults self.new ≡ faults_after (writer_faults self.old) result }
        ensures writer { IfOk result (λ count. Appends (W.contents (writer_of self.old))
            (W.contents (writer_of self.new)) (take count piece.now)) }

        // A front of the piece has reached the writer where it failed only when it was flushed.
        ensures failed { OnErr result (AppendsFront (W.contents (writer_of self.old))
            (W.contents (writer_of self.new)) piece.now) }
    {
        let count = match self.inner.write(piece) {
            Ok(count) => count,
            Err(_) => {
                self.faults = self.faults.saturating_add(1);
                return Err(Failed);
            }
        };
        if count == 0 && !piece.is_empty() || self.inner.flush().is_err() {
            self.faults = self.faults.saturating_add(1);
            return Err(Failed);
        }
        Ok(count)
    }
}
