//! Tests of the slots of a column for null.

ghost use Rattle.std.specs.Prelude.{◌≡◌, ◌++◌, IfOk, OnOk, Ok, if◌then◌else◌, is_none, is_some, not};
ghost use Rattle.col_types.specs.PolarsError.{GivesBy};
ghost use Rattle.col_model.specs.Chunked.{Chunked, column_of};
ghost use Rattle.col_chunk.specs.Chunks.{joined};
ghost use Rattle.col_filter.specs.Nulls.{is_not_null_slots, is_null_slots, tested_slots, truths_of};

use crate::columns::of_one;
use col_boolean::{BitBuilder, BitChunk, BooleanChunked};
use col_chunk::{ArrayOf, Chunk};
use col_types::PolarsResult;
use std::alloc::{AllocError, Global};

/// Columns whose slots can be tested for null.
pub trait ChunkNulls {
    /// The column.
    ghost column: { Self → Chunked };

    /// Whether each slot is null, under the column's name. No answer's slot is null.
    fn is_null(&self, alloc: Global) -> PolarsResult<BooleanChunked>
        ensures column { GivesBy column_of result (Ok (truths_of (column_of (column self.now))
            (is_null_slots (column_of (column self.now)).slots))) };

    /// Whether each slot is valid, under the column's name. No answer's slot is null.
    fn is_not_null(&self, alloc: Global) -> PolarsResult<BooleanChunked>
        ensures column { GivesBy column_of result (Ok (truths_of (column_of (column self.now))
            (is_not_null_slots (column_of (column self.now)).slots))) };
}

impl<C: Chunk> ChunkNulls for ArrayOf<C> {
    ghost column = { λ array. array };

    fn is_null(&self, alloc: Global) -> PolarsResult<BooleanChunked> {
        let answer = tested_column(alloc, self, false)?;
        Ok(answer)
    }

    fn is_not_null(&self, alloc: Global) -> PolarsResult<BooleanChunked> {
        let answer = tested_column(alloc, self, true)?;
        Ok(answer)
    }
}

/// Whether each slot is valid, or whether it is null, in one chunk.
#[tactic(auto, using(crate::proofs::TestLaws::test_laws))]
fn tested_column<C: Chunk>(
    alloc: Global,
    column: &ArrayOf<C>,
    valid: bool,
) -> Result<BooleanChunked, AllocError>
    ensures column { IfOk result (λ answer. column_of answer ≡ truths_of column.now.column
        (tested_slots (if valid then is_some else is_none) column.now.column.slots)) }
{
    column.known();
    let name = column.name().clone()?;
    let chunk = tested_chunk(alloc, column.chunks(), valid)?;
    of_one(alloc, name, chunk)
}

/// Whether each slot of chunks is valid, or whether it is null.
fn tested_chunk<C: Chunk>(alloc: Global, chunks: &[C], valid: bool) -> Result<BitChunk, AllocError>
    ensures slots { IfOk result (λ answer. answer
        ≡ tested_slots (if valid then is_some else is_none) (joined C.slots chunks.now)) }
{
    let mut builder = BitChunk::builder(alloc, 0)?;
    for chunk in chunks {
        test_onto(chunk, valid, &mut builder)?;
    }
    BitChunk::build(alloc, builder)
}

/// Writes whether each slot of a chunk is valid, or whether it is null, behind what was written.
fn test_onto<C: Chunk>(chunk: &C, valid: bool, builder: &mut BitBuilder) -> Result<(), AllocError>
    ensures slots { OnOk result (builder.new ≡ builder.old
        ++ tested_slots (if valid then is_some else is_none) (C.slots chunk.now)) }
{
    for row in 0..chunk.len() {
        builder.push(Some(passes(chunk.is_valid(row), valid)))?;
    }
    Ok(())
}

/// Whether a slot that is valid or null is one that is asked for.
fn passes(is_valid: bool, valid: bool) -> bool
    ensures passes { result ≡ (if valid then is_valid else not is_valid) }
{
    if valid { is_valid } else { !is_valid }
}
