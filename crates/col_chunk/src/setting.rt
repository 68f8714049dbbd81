//! Writes of one slot of a column.

ghost use Rattle.std.specs.Prelude.{◌≡◌, ◌+◌, ◌<◌, OnErr, OnOk, Ok, length, slice_set, take};
ghost use Rattle.col_types.specs.PolarsError.{Becomes};
ghost use Rattle.col_model.specs.ChunkCalls.{slot_set};
ghost use Rattle.col_chunk.specs.Chunks.{joined, lengths_of};

use crate::{ArrayOf, Chunk, SetChunk};
use col_types::{IsSorted, PolarsResult};
use std::alloc::{AllocError, Global};

impl<C: SetChunk> ArrayOf<C> {
    /// Writes the slot of a row, in place where nobody else has the memory; there is then no claim on
    /// order. Where memory is wanting the column stays as it was.
    pub fn set_slot(&mut self, index: usize, slot: C::Slot) -> PolarsResult<()>
        requires row { index < length self.old.column.slots }
        ensures column { Becomes result self.old self.new (Ok (slot_set index
            (C.slot_of slot) self.old)) }
    {
        let alloc = *self.chunks.allocator();
        set_in(alloc, self.chunks.as_mut_slice(), index, slot)?;
        self.flag = IsSorted::Not;
        Ok(())
    }
}

/// Writes the slot of a row.
fn set_in<C: SetChunk>(
    alloc: Global,
    chunks: &mut [C],
    index: usize,
    slot: C::Slot,
) -> Result<(), AllocError>
    requires row { index < length (joined C.slots chunks.old) }
    ensures ok { OnOk result (joined C.slots chunks.new
        ≡ slice_set (joined C.slots chunks.old) index (C.slot_of slot)) }
    ensures err { OnErr result (joined C.slots chunks.new ≡ joined C.slots chunks.old) }
    ensures lengths { lengths_of C.slots chunks.new ≡ lengths_of C.slots chunks.old }
{
    let (at, place) = chunk_of(chunks, index);
    let chunk = &mut chunks[at];
    chunk.set(alloc, place, slot)
}

/// The number of the chunk that has a row, and where it has it.
fn chunk_of<C: Chunk>(chunks: &[C], index: usize) -> (usize, usize)
    requires row { index < length (joined C.slots chunks.now) }
    ensures chunk { result.0 < length chunks.now }
    ensures before { index ≡ length (joined C.slots (take result.0 chunks.now)) + result.1 }
    ensures inside { index < length (joined C.slots (take (result.0 + 1) chunks.now)) }
{
    let mut left = index;
    let mut at = 0;
    for chunk in chunks {
        let len = chunk.len();
        if left < len {
            return (at, left);
        }
        left -= len;
        at += 1;
    }
    unreachable!()
}
