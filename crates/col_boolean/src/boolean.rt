//! Columns of truth values, and how they are made.

ghost use Rattle.std.specs.Prelude.{◌≡◌, IfErr, IfOk, length};
ghost use Rattle.std.specs.Iterator.{IsFinite};
ghost use Rattle.col_types.specs.PolarsError.{Gives};
ghost use Rattle.col_types.specs.declared.data_type.DataType.{Boolean};
ghost use Rattle.col_model.specs.ChunkCalls.{new_column, unless_too_long};
ghost use Rattle.col_model.specs.Items.{AnswersItems};
ghost use Rattle.col_chunk.specs.Chunks.{word_slots};
ghost use Rattle.col_chunk.specs.Items.{StopsAtLimit, option_slots};
ghost use Rattle.col_boolean.specs.Bits.{truth};

use crate::BitChunk;
use col_chunk::{ArrayOf, Chunk, ROW_LIMIT};
use col_types::{PlSmallStr, PolarsError, PolarsResult};
use std::alloc::{AllocError, Global};

/// A column of truth values.
pub type BooleanChunked = ArrayOf<BitChunk>;

/// How columns of truth values are made.
pub trait NewBoolean {
    /// A column of these values in one chunk. Refused at 2^32 rows or more (`TooLong`).
    fn from_slice(alloc: Global, name: PlSmallStr, values: &[bool]) -> PolarsResult<BooleanChunked>
        ensures column { Gives result (new_column name Boolean (word_slots truth values.now)) };

    /// A column of these values in one chunk. Refused at 2^32 rows or more (`TooLong`).
    fn from_vec(alloc: Global, name: PlSmallStr, values: Vec<bool>) -> PolarsResult<BooleanChunked>
        ensures column { Gives result (new_column name Boolean (word_slots truth values.items)) };

    /// A column of these items in their order, in one chunk. None is null. The iterator has to end.
    /// Refused at the item 2^32 (`TooLong`, which tells that number), and none is read after it.
    fn from_iter_options<I: Iterator<Item = Option<bool>>>(
        alloc: Global,
        name: PlSmallStr,
        items: I,
    ) -> PolarsResult<BooleanChunked>
        requires can { I.can_next items }
        requires ends { IsFinite (I.remaining items) }
        ensures column { AnswersItems I.next_gives items (λ read.
            new_column name Boolean (option_slots truth read)) result }
        ensures stops { IfErr result StopsAtLimit };
}

impl NewBoolean for BooleanChunked {
    fn from_slice(
        alloc: Global,
        name: PlSmallStr,
        values: &[bool],
    ) -> PolarsResult<BooleanChunked> {
        of_values(alloc, name, values)
    }

    fn from_vec(
        alloc: Global,
        name: PlSmallStr,
        values: Vec<bool>,
    ) -> PolarsResult<BooleanChunked> {
        of_values(alloc, name, values.as_slice())
    }

    fn from_iter_options<I: Iterator<Item = Option<bool>>>(
        alloc: Global,
        name: PlSmallStr,
        items: I,
    ) -> PolarsResult<BooleanChunked> {
        match read_items(alloc, items) {
            Ok(chunk) => BooleanChunked::from_chunk(alloc, name, chunk),
            Err(refusal) => Err(refusal),
        }
    }
}

/// A column of these values in one chunk.
#[tactic(auto, using(crate::proofs::ColumnLaws::plain_laws))]
fn of_values(alloc: Global, name: PlSmallStr, values: &[bool]) -> PolarsResult<BooleanChunked>
    ensures column { Gives result (new_column name Boolean (word_slots truth values.now)) }
{
    if values.len() >= ROW_LIMIT {
        return Err(PolarsError::TooLong {
            len: values.len() as u64,
        });
    }
    let chunk = chunk_of(alloc, values)?;
    BooleanChunked::from_chunk(alloc, name, chunk)
}

/// A chunk of these values.
fn chunk_of(alloc: Global, values: &[bool]) -> Result<BitChunk, AllocError>
    ensures slots { IfOk result (λ chunk. chunk ≡ word_slots truth values.now) }
{
    let mut builder = BitChunk::builder(alloc, values.len())?;
    for value in values {
        builder.push(Some(*value))?;
    }
    BitChunk::build(alloc, builder)
}

/// A chunk of these items in their order. It stops as `from_iter_options` does.
#[tactic(auto, using(crate::proofs::ColumnLaws::option_slots_more))]
fn read_items<I: Iterator<Item = Option<bool>>>(alloc: Global, items: I) -> PolarsResult<BitChunk>
    requires can { I.can_next items }
    requires ends { IsFinite (I.remaining items) }
    ensures chunk { AnswersItems I.next_gives items (λ read.
        unless_too_long (length read) (option_slots truth read)) result }
    ensures stops { IfErr result StopsAtLimit }
{
    let mut builder = BitChunk::builder(alloc, 0)?;
    let mut count = 0;
    for item in items {
        count += 1;
        if count == ROW_LIMIT {
            return Err(PolarsError::TooLong { len: count as u64 });
        }
        builder.push(item)?;
    }
    let chunk = BitChunk::build(alloc, builder)?;
    Ok(chunk)
}
