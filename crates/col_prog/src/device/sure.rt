// Devices over given lists, which never fail.
ghost use Rattle.std.specs.Prelude.{◌≡◌, ◌<◌, [], length, take, min, Some, Ok, IfOk};
ghost use Rattle.std.specs.Io.{ReadsAtMost, WritesAtMost};
ghost use Rattle.std.specs.Io.KnownBytes.{ReadConsumes, WriteAppends};
ghost use Rattle.col_prog.specs.Device.{HasCause, Fits, TakesRoom};

use super::copying::{copy_front, copy_into};
use super::{Failed, Sink, Source};
use std::marker::Model;

/// Gives the bytes of a list, and never fails.
#[derive(Drop)]
pub struct SureSource {
    bytes: Vec<u8>,
    at: usize,
    step: usize,
}

impl Model for SureSource {
    ghost use Rattle.std.specs.Prelude.{◌<◌, ◌≤◌, length, drop};
    ghost use Rattle.col_prog.specs.Memory.{SureInput};

    ghost Value = { SureInput };

    ghost view = { λ s. record { left = drop s.at s.bytes.items; step = s.step } };

    ghost invariant = { λ s. (s.at ≤ length s.bytes.items) × (0 < s.step) };
}

impl SureSource {
    /// A source of the bytes, which gives at most `step` of them a call.
    pub fn new(bytes: Vec<u8>, step: usize) -> Self
        requires step { 0 < step }
        ensures fresh { result ≡ record { left = bytes.items; step = step } }
    {
        SureSource { bytes, at: 0, step }
    }
}

impl Source for SureSource {
    ghost left = { λ s. Some s.left };

    ghost faults = { λ _. 0 };

    /// Gives as many bytes as there are, as the piece holds, and as a step allows.
    fn read(&mut self, piece: &mut [u8]) -> Result<usize, Failed>
        ensures bound { ReadsAtMost result piece.new }
        ensures bytes { ReadConsumes (Some self.old.left) (Some self.new.left) result piece.new }
        ensures cause { HasCause 0 0 result }
        ensures count { result ≡
            Ok (min (min (length self.old.left) (length piece.new)) self.old.step) }
        ensures step { self.new.step ≡ self.old.step }
    {
        let count = copy_front(&self.bytes[self.at..], self.step, piece);
        self.at += count;
        Ok(count)
    }
}

/// Writes over the room that it was given, and never fails.
#[derive(Drop)]
pub struct SureSink {
    room: Vec<u8>,
    at: usize,
    step: usize,
}

impl Model for SureSink {
    ghost use Rattle.std.specs.Prelude.{◌<◌, ◌≤◌, ◌-◌, length, take};
    ghost use Rattle.col_prog.specs.Memory.{SureOutput};

    ghost Value = { SureOutput };

    ghost view = { λ s. record {
      written = take s.at s.room.items;
      room = length s.room.items - s.at;
      step = s.step;
    } };

    ghost invariant = { λ s. (s.at ≤ length s.room.items) × (0 < s.step) };
}

impl SureSink {
    /// A sink that writes over the room, at most `step` bytes a call.
    pub fn new(room: Vec<u8>, step: usize) -> Self
        requires step { 0 < step }
        ensures fresh { result ≡ record { written = []; room = length room.items; step = step } }
    {
        SureSink { room, at: 0, step }
    }

    /// The bytes written.
    pub fn bytes(&self) -> &[u8]
        ensures written { result.now ≡ self.now.written }
    {
        &self.room[..self.at]
    }
}

impl Sink for SureSink {
    ghost contents = { λ s. Some s.written };

    ghost room = { λ s. Some s.room };

    ghost faults = { λ _. 0 };

    /// Takes as much of the piece as a step allows.
    fn write(&mut self, piece: &[u8]) -> Result<usize, Failed>
        requires fits { Fits (Some self.old.room) (length piece.now) }
        ensures bound { WritesAtMost result piece.now }
        ensures progress { IfOk result (λ count. 0 < length piece.now → 0 < count) }
        ensures bytes { WriteAppends (Some self.old.written) (Some self.new.written) result piece.now }
        ensures room { TakesRoom (Some self.old.room) (Some self.new.room) result }
        ensures cause { HasCause 0 0 result }
        ensures count { result ≡ Ok (min (length piece.now) self.old.step) }
        ensures step { self.new.step ≡ self.old.step }
    {
        let count = copy_into(piece, self.step, &mut self.room, self.at);
        self.at += count;
        Ok(count)
    }
}
