//! The rows of a column at which a mask is true.

ghost use Rattle.std.specs.Prelude.{◌≡◌, ◌≢◌, ◌+◌, ◌-◌, ◌<◌, ◌≤◌, ◌^◌, ◌++◌, IfOk, OnOk, drop, length, take};
ghost use Rattle.col_types.specs.PolarsError.{GivesBy};
ghost use Rattle.col_types.specs.declared.is_sorted.IsSorted.TheVariants.{Not};
ghost use Rattle.col_model.specs.Chunked.{Chunked, column_of};
ghost use Rattle.col_chunk.specs.Chunks.{joined};
ghost use Rattle.col_filter.specs.Filters.{filtered, filtered_slots, kept_slots};

use crate::columns::of_one;
use crate::masks::{count_true, holds, spread};
use col_boolean::{BitChunk, BooleanChunked};
use col_chunk::{ArrayOf, Chunk};
use col_types::{PolarsError, PolarsResult};
use std::alloc::{AllocError, Global};

/// Columns whose rows a mask picks.
pub trait ChunkFilter: Drop {
    /// The column.
    ghost column: { Self → Chunked };

    /// The rows at which the mask is true, in their order; a null counts as false. One row of a mask
    /// stands for all rows. Refused where the mask has neither one row nor as many as the column
    /// (`Lengths`, which tells the column's number and then the mask's).
    fn filter(&self, alloc: Global, mask: &BooleanChunked) -> PolarsResult<Self>
        ensures column { GivesBy (λ answer. column_of (column answer)) result
            (filtered mask.now.column.slots (column_of (column self.now))) };
}

impl<C: Chunk> ChunkFilter for ArrayOf<C> {
    ghost column = { λ array. array };

    fn filter(&self, alloc: Global, mask: &BooleanChunked) -> PolarsResult<Self> {
        if mask.len() != self.len() && mask.len() != 1 {
            return Err(PolarsError::Lengths {
                left: self.len(),
                right: mask.len(),
            });
        }
        let answer = filtered_column(alloc, self, mask)?;
        Ok(answer)
    }
}

/// The rows at which the mask is true, in one chunk.
#[tactic(auto, using(crate::proofs::KeptLaws::kept_laws))]
fn filtered_column<C: Chunk>(
    alloc: Global,
    column: &ArrayOf<C>,
    mask: &BooleanChunked,
) -> Result<ArrayOf<C>, AllocError>
    requires rows { length mask.now.column.slots ≢ length column.now.column.slots
        → length mask.now.column.slots ≡ 1 }
    ensures column { IfOk result (λ answer. column_of answer
        ≡ record column.now.column {
          slots = filtered_slots mask.now.column.slots column.now.column.slots;
          flag = Not;
        }) }
{
    column.known();
    let name = column.name().clone()?;
    let mask = spread(alloc, mask, column.len())?;
    let chunk = kept_chunk(alloc, column.chunks(), &mask)?;
    of_one(alloc, name, chunk)
}

/// The slots of chunks at whose places the mask is true, in one chunk.
fn kept_chunk<C: Chunk>(alloc: Global, chunks: &[C], mask: &BitChunk) -> Result<C, AllocError>
    requires rows { length mask.now ≡ length (joined C.slots chunks.now) }
    requires short { length mask.now < 2 ^ 32 }
    ensures slots { IfOk result (λ answer. C.slots answer
        ≡ kept_slots mask.now (joined C.slots chunks.now)) }
{
    let mut builder = C::builder(alloc, count_true(mask))?;
    let mut start = 0;
    for chunk in chunks {
        keep_onto(chunk, mask, start, &mut builder)?;
        start += chunk.len();
    }
    C::build(alloc, builder)
}

/// Writes the slots of a chunk at which the mask is true behind what was written. The mask's rows
/// for the chunk begin at a start. Runs of slots are copied at once.
fn keep_onto<C: Chunk>(
    chunk: &C,
    mask: &BitChunk,
    start: usize,
    builder: &mut C::Builder,
) -> Result<(), AllocError>
    requires inside { start + length (C.slots chunk.now) ≤ length mask.now }
    requires short { length mask.now < 2 ^ 32 }
    ensures slots { OnOk result (C.written builder.new ≡ C.written builder.old
        ++ kept_slots (drop start mask.now) (C.slots chunk.now)) }
{
    let len = chunk.len();
    let mut from = 0;
    for row in 0..len {
        if !holds(mask, start + row) {
            copy_run(chunk, from, row, builder)?;
            from = row + 1;
        }
    }
    copy_run(chunk, from, len, builder)
}

/// Writes the slots from one place to another behind what was written.
fn copy_run<C: Chunk>(
    chunk: &C,
    from: usize,
    to: usize,
    builder: &mut C::Builder,
) -> Result<(), AllocError>
    requires order { from ≤ to }
    requires inside { to ≤ length (C.slots chunk.now) }
    ensures slots { OnOk result (C.written builder.new ≡ C.written builder.old
        ++ take (to - from) (drop from (C.slots chunk.now))) }
{
    if from == to {
        return Ok(());
    }
    chunk.copy_onto(from, to - from, builder)
}
