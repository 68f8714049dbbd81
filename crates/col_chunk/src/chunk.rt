//! What a run of slots that lie together can do.

ghost use Rattle.std.specs.Prelude.{◌≡◌, ◌+◌, ◌<◌, ◌≤◌, ◌∷◌, ◌++◌, [], Bool, true, IfOk, OnOk, OnErr, List, Option, None, is_some, length, take, drop, replicate, slice_index_or, slice_set};
ghost use Rattle.std.specs.List.{list_all};
ghost use Rattle.col_types.specs.declared.data_type.DataType.{DataType};
ghost use Rattle.col_model.specs.Value.{Value};
ghost use Rattle.col_model.specs.ChunkCalls.{null_count};

use std::alloc::{AllocError, Global};

/// A run of slots in memory that its parts and copies share. What it keeps is its own affair: all
/// that is said of it is said of its slots.
pub trait Chunk: Drop {
    /// Writes slots one after another, to be made a chunk.
    type Builder: Drop;

    /// The type of a column of such chunks.
    ghost dtype: { DataType };

    /// The slots of a chunk.
    ghost slots: { Self → List (Option Value) };

    /// The slots that a builder holds.
    ghost written: { Self.Builder → List (Option Value) };

    /// Whether a slot may stand in such a chunk.
    ghost is_slot: { Option Value → Bool };

    /// Does nothing. Says that each slot may stand there.
    fn known(&self)
        ensures fit { list_all is_slot (slots self.now) ≡ true };

    /// The number of slots.
    fn len(&self) -> usize
        ensures len { result ≡ length (slots self.now) };

    /// Whether a slot is valid.
    fn is_valid(&self, index: usize) -> bool
        requires inside { index < length (slots self.now) }
        ensures valid { result ≡ is_some (slice_index_or (slots self.now) index None) };

    /// The number of nulls.
    fn null_count(&self) -> usize
        ensures nulls { result ≡ null_count (slots self.now) };

    /// A part, in the same memory.
    fn share(&self, offset: usize, len: usize) -> Result<Self, AllocError>
        requires inside { offset + len ≤ length (slots self.now) }
        ensures slots { IfOk result (λ part. slots part
            ≡ take len (drop offset (slots self.now))) };

    /// The same slots in a buffer that has no room for others. The same memory where it is one.
    fn shrunk(&self, alloc: Global) -> Result<Self, AllocError>
        ensures slots { IfOk result (λ chunk. slots chunk ≡ slots self.now) };

    /// So many nulls.
    fn nulls(alloc: Global, len: usize) -> Result<Self, AllocError>
        ensures slots { IfOk result (λ chunk. slots chunk ≡ replicate len None) };

    /// One slot, so many times.
    fn repeat(&self, alloc: Global, index: usize, len: usize) -> Result<Self, AllocError>
        requires inside { index < length (slots self.now) }
        ensures slots { IfOk result (λ chunk. slots chunk
            ≡ replicate len (slice_index_or (slots self.now) index None)) };

    /// A builder with room for so many slots.
    fn builder(alloc: Global, room: usize) -> Result<Self::Builder, AllocError>
        ensures slots { IfOk result (λ builder. written builder ≡ []) };

    /// Writes a part behind what was written.
    fn copy_onto(
        &self,
        offset: usize,
        len: usize,
        builder: &mut Self::Builder,
    ) -> Result<(), AllocError>
        requires inside { offset + len ≤ length (slots self.now) }
        ensures slots { OnOk result (written builder.new ≡ written builder.old
            ++ take len (drop offset (slots self.now))) };

    /// Writes one slot behind what was written.
    fn push_onto(&self, index: usize, builder: &mut Self::Builder) -> Result<(), AllocError>
        requires inside { index < length (slots self.now) }
        ensures slots { OnOk result (written builder.new ≡ written builder.old
            ++ slice_index_or (slots self.now) index None ∷ []) };

    /// A chunk of what was written.
    fn build(alloc: Global, builder: Self::Builder) -> Result<Self, AllocError>
        ensures slots { IfOk result (λ chunk. slots chunk ≡ written builder) };
}

/// A chunk whose slots can be read for as long as it is borrowed.
pub trait View<'a>: Chunk {
    /// What a reader is given of a slot.
    type Slot;

    /// The slot that was given.
    ghost slot_of: { Self.Slot → Option Value };

    /// The slot at an index.
    fn get(&'a self, index: usize) -> Self::Slot
        requires inside { index < length (Self.slots self.now) }
        ensures slot { slot_of result ≡ slice_index_or (Self.slots self.now) index None };
}

/// A chunk whose slots can be written, in place where nobody else has its memory.
pub trait SetChunk: Chunk {
    /// A slot.
    type Slot: Drop;

    /// The slot that is given.
    ghost slot_of: { Self.Slot → Option Value };

    /// Writes a slot. Where memory is wanting the chunk stays as it was.
    fn set(&mut self, alloc: Global, index: usize, slot: Self::Slot) -> Result<(), AllocError>
        requires inside { index < length (Self.slots self.old) }
        ensures ok { OnOk result (Self.slots self.new
            ≡ slice_set (Self.slots self.old) index (slot_of slot)) }
        ensures err { OnErr result (Self.slots self.new ≡ Self.slots self.old) }
        ensures len { length (Self.slots self.new) ≡ length (Self.slots self.old) };
}
