// What bytes are read from and written to.
ghost use Rattle.std.specs.Prelude.{◌<◌, List, ℕ, Option, length, IfOk};
ghost use Rattle.std.specs.Io.{ReadsAtMost, WritesAtMost};
ghost use Rattle.std.specs.Io.KnownBytes.{ReadConsumes, WriteAppends};
ghost use Rattle.col_prog.specs.Device.{HasCause, Fits, TakesRoom};

mod adapters;
mod copying;
mod memory;
mod sure;

pub use adapters::{ReadSource, WriteSink};
pub use memory::{MemorySink, MemorySource};
pub use sure::{SureSink, SureSource};

/// A device failed, and its count of faults rose.
#[derive(Clone, Copy, Debug, PartialEq, Eq)]
pub struct Failed;

/// What bytes are read from. A source that tells its bytes tells them after each call too.
pub trait Source {
    /// The bytes that are left, where it tells them.
    ghost left: { Self → Option (List ℕ) };

    /// How often it has failed. The count stays at 2^64 - 1 once it is there.
    ghost faults: { Self → ℕ };

    /// Puts the next bytes at the front of the piece, and answers how many. Zero for a piece that
    /// isn't empty is the end of input. `Failed` takes no byte.
    fn read(&mut self, piece: &mut [u8]) -> Result<usize, Failed>
        ensures bound { ReadsAtMost result piece.new }
        ensures bytes { ReadConsumes (left self.old) (left self.new) result piece.new }
        ensures cause { HasCause (faults self.old) (faults self.new) result };
}

/// What bytes are written to. A sink that tells its bytes tells them after each call too.
pub trait Sink {
    /// The bytes written, where it tells them.
    ghost contents: { Self → Option (List ℕ) };

    /// How many bytes it still takes, where that is limited.
    ghost room: { Self → Option ℕ };

    /// How often it has failed. The count stays at 2^64 - 1 once it is there.
    ghost faults: { Self → ℕ };

    /// Takes a front of the piece, of one byte at least where it isn't empty, and answers how long
    /// that is. `Failed` adds no byte to those that the sink tells, and leaves the room as it was.
    /// A sink that tells no bytes may have handed on a front of the piece before it failed.
    fn write(&mut self, piece: &[u8]) -> Result<usize, Failed>
        requires fits { Fits (room self.old) (length piece.now) }
        ensures bound { WritesAtMost result piece.now }
        ensures progress { IfOk result (λ count. 0 < length piece.now → 0 < count) }
        ensures bytes { WriteAppends (contents self.old) (contents self.new) result piece.now }
        ensures room { TakesRoom (room self.old) (room self.new) result }
        ensures cause { HasCause (faults self.old) (faults self.new) result };
}
