// Devices in memory, whose listed calls fail.
ghost use Rattle.std.specs.Prelude.{◌≡◌, ◌<◌, [], length, min, None, Some, IfOk, IsErr, IsTrue, is_err};
ghost use Rattle.std.specs.Io.{ReadsAtMost, WritesAtMost};
ghost use Rattle.std.specs.Io.KnownBytes.{ReadConsumes, WriteAppends};
ghost use Rattle.col_prog.specs.Device.{HasCause, Fits, TakesRoom};
ghost use Rattle.col_prog.specs.Memory.{no_calls, is_listed, after_call};

use super::copying::copy_front;
use super::{Failed, Sink, Source};
use std::alloc::Global;
use std::marker::Model;

/// Gives the bytes of a list, with calls that fail.
#[derive(Drop)]
pub struct MemorySource {
    bytes: Vec<u8>,
    at: usize,
    step: usize,
    fails: Vec<u64>,
    number: u64,
    faults: u64,
}

impl Model for MemorySource {
    ghost use Rattle.std.specs.Prelude.{◌<◌, ◌≤◌, length, drop};
    ghost use Rattle.col_prog.specs.Memory.{MemoryInput};

    ghost Value = { MemoryInput };

    ghost view = { λ s. record {
      left = drop s.at s.bytes.items;
      step = s.step;
      calls = record { fails = s.fails.items; number = s.number; faults = s.faults };
    } };

    ghost invariant = { λ s. (s.at ≤ length s.bytes.items) × (0 < s.step) };
}

impl MemorySource {
    /// A source of the bytes, which gives at most `step` of them a call. A call fails exactly where
    /// its number, from 0, is in `fails`.
    pub fn new(bytes: Vec<u8>, step: usize, fails: Vec<u64>) -> Self
        requires step { 0 < step }
        ensures fresh { result ≡
            record { left = bytes.items; step = step; calls = no_calls fails.items } }
    {
        MemorySource {
            bytes,
            at: 0,
            step,
            fails,
            number: 0,
            faults: 0,
        }
    }
}

impl Source for MemorySource {
    ghost left = { λ s. Some s.left };

    ghost faults = { λ s. s.calls.faults };

    /// Gives as many bytes as there are, as the piece holds, and as a step allows. It fails exactly
    /// at the listed calls.
    fn read(&mut self, piece: &mut [u8]) -> Result<usize, Failed>
        ensures bound { ReadsAtMost result piece.new }
        ensures bytes { ReadConsumes (Some self.old.left) (Some self.new.left) result piece.new }
        ensures cause { HasCause self.old.calls.faults self.new.calls.faults result }
        ensures listed { is_err result ≡ is_listed self.old.calls }
        ensures count { IfOk result (λ count.
            count ≡ min (min (length self.old.left) (length piece.new)) self.old.step) }
        ensures step { self.new.step ≡ self.old.step }
        ensures calls { self.new.calls ≡ after_call self.old.calls result }
    {
        let number = self.number;
        self.number = self.number.saturating_add(1);
        if self.fails.contains(&number) {
            self.faults = self.faults.saturating_add(1);
            return Err(Failed);
        }
        let count = copy_front(&self.bytes[self.at..], self.step, piece);
        self.at += count;
        Ok(count)
    }
}

/// Keeps what is written in a list, with calls that fail.
#[derive(Drop)]
pub struct MemorySink {
    bytes: Vec<u8>,
    step: usize,
    fails: Vec<u64>,
    number: u64,
    faults: u64,
}

impl Model for MemorySink {
    ghost use Rattle.std.specs.Prelude.{◌<◌};
    ghost use Rattle.col_prog.specs.Memory.{MemoryOutput};

    ghost Value = { MemoryOutput };

    ghost view = { λ s. record {
      written = s.bytes.items;
      step = s.step;
      calls = record { fails = s.fails.items; number = s.number; faults = s.faults };
    } };

    ghost invariant = { λ s. 0 < s.step };
}

impl MemorySink {
    /// A sink that takes at most `step` bytes a call. A call whose number, from 0, is in `fails`
    /// fails. Any other call fails for want of memory alone.
    pub fn new(alloc: Global, step: usize, fails: Vec<u64>) -> Self
        requires step { 0 < step }
        ensures fresh { result ≡
            record { written = []; step = step; calls = no_calls fails.items } }
    {
        MemorySink {
            bytes: Vec::new(alloc),
            step,
            fails,
            number: 0,
            faults: 0,
        }
    }

    /// The bytes written.
    pub fn bytes(&self) -> &[u8]
        ensures written { result.now ≡ self.now.written }
    {
        &self.bytes
    }
}

impl Sink for MemorySink {
    ghost contents = { λ s. Some s.written };

    ghost room = { λ _. None };

    ghost faults = { λ s. s.calls.faults };

    /// Takes as much of the piece as a step allows. It fails at the listed calls, and else for want
    /// of memory alone.
    fn write(&mut self, piece: &[u8]) -> Result<usize, Failed>
        requires fits { Fits None (length piece.now) }
        ensures bound { WritesAtMost result piece.now }
        ensures progress { IfOk result (λ count. 0 < length piece.now → 0 < count) }
        ensures bytes { WriteAppends (Some self.old.written) (Some self.new.written) result piece.now }
        ensures room { TakesRoom None None result }
        ensures cause { HasCause self.old.calls.faults self.new.calls.faults result }
        ensures listed { IsTrue (is_listed self.old.calls) → IsErr result }
        ensures count { IfOk result (λ count. count ≡ min (length piece.now) self.old.step) }
        ensures step { self.new.step ≡ self.old.step }
        ensures calls { self.new.calls ≡ after_call self.old.calls result }
    {
        let number = self.number;
        self.number = self.number.saturating_add(1);
        let count = piece.len().min(self.step);
        if self.fails.contains(&number) || self.bytes.extend_from_slice(&piece[..count]).is_err() {
            self.faults = self.faults.saturating_add(1);
            return Err(Failed);
        }
        Ok(count)
    }
}
