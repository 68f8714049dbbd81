//! Texts and bytes behind one another, row by row.
#![tactic(auto, using(crate::proofs::ColumnLaws::joined_laws))]

ghost use Rattle.std.specs.Prelude.{◌≡◌, ◌<◌, ◌^◌, true, IfOk, IfSome, Ok, Some, length};
ghost use Rattle.col_types.specs.PolarsError.{GivesBy};
ghost use Rattle.col_types.specs.declared.is_sorted.IsSorted.TheVariants.{Not};
ghost use Rattle.col_types.specs.declared.data_type.DataType.{Binary, String as StringType};
ghost use Rattle.col_model.specs.Broadcast.{broadcast_length, operand_row};
ghost use Rattle.col_model.specs.Chunked.{Chunked, column_of};
ghost use Rattle.col_string.specs.Texts.{bytes_value, extended_column, extended_slots, joined_column, joined_slots};

use crate::readings::bytes_at;
use crate::{BinaryChunked, ByteReading, PlainBytes, RunChunk, StringChunked};
use col_chunk::{ArrayOf, Chunk};
use col_types::{PlSmallStr, PolarsError, PolarsResult};
use std::alloc::{AllocError, Global};

/// What is put behind texts.
pub trait StringArithmetic {
    /// The column.
    ghost column: { Self → Chunked };

    /// The right text behind the left one, row by row, null where a row is. One row of either
    /// stands for all; the name is the left column's. Refused where the lengths don't fit each
    /// other (`Lengths`).
    fn try_add(&self, alloc: Global, rhs: &StringChunked) -> PolarsResult<StringChunked>
        ensures column { GivesBy column_of result (joined_column StringType
            (column_of (column self.now)) (column_of rhs.now)) };

    /// The text behind each valid row.
    fn try_add_str(&self, alloc: Global, rhs: &str) -> PolarsResult<StringChunked>
        ensures column { GivesBy column_of result (Ok (extended_column StringType rhs.now
            (column_of (column self.now)))) };
}

/// What is put behind bytes.
pub trait BinaryArithmetic {
    /// The column.
    ghost column: { Self → Chunked };

    /// The right bytes behind the left ones, row by row, null where a row is. One row of either
    /// stands for all; the name is the left column's. Refused where the lengths don't fit each
    /// other (`Lengths`).
    fn try_add(&self, alloc: Global, rhs: &BinaryChunked) -> PolarsResult<BinaryChunked>
        ensures column { GivesBy column_of result (joined_column Binary
            (column_of (column self.now)) (column_of rhs.now)) };

    /// The bytes behind each valid row.
    fn try_add_bytes(&self, alloc: Global, rhs: &[u8]) -> PolarsResult<BinaryChunked>
        ensures column { GivesBy column_of result (Ok (extended_column Binary rhs.now
            (column_of (column self.now)))) };
}

impl StringArithmetic for StringChunked {
    ghost column = { λ array. array };

    fn try_add(&self, alloc: Global, rhs: &StringChunked) -> PolarsResult<StringChunked> {
        join(alloc, self, rhs)
    }

    fn try_add_str(&self, alloc: Global, rhs: &str) -> PolarsResult<StringChunked> {
        extend(alloc, self, rhs.as_bytes())
    }
}

impl BinaryArithmetic for BinaryChunked {
    ghost column = { λ array. array };

    fn try_add(&self, alloc: Global, rhs: &BinaryChunked) -> PolarsResult<BinaryChunked> {
        join(alloc, self, rhs)
    }

    fn try_add_bytes(&self, alloc: Global, rhs: &[u8]) -> PolarsResult<BinaryChunked> {
        extend(alloc, self, rhs)
    }
}

/// The rows of two columns behind each other.
fn join<R: ByteReading>(
    alloc: Global,
    left: &ArrayOf<RunChunk<PlainBytes, R>>,
    right: &ArrayOf<RunChunk<PlainBytes, R>>,
) -> PolarsResult<ArrayOf<RunChunk<PlainBytes, R>>>
    ensures column { GivesBy column_of result (joined_column R.dtype
        (column_of left.now) (column_of right.now)) }
{
    match common_rows(left.len(), right.len()) {
        None => Err(PolarsError::Lengths {
            left: left.len(),
            right: right.len(),
        }),
        Some(rows) => {
            let name = left.name().clone()?;
            let left = left.to_chunk(alloc)?;
            let right = right.to_chunk(alloc)?;
            let chunk = joined_rows(alloc, &left, &right, rows)?;
            let answer = one_chunk(alloc, name, chunk, rows)?;
            Ok(answer)
        }
    }
}

/// A column with these bytes behind each valid row.
fn extend<R: ByteReading>(
    alloc: Global,
    column: &ArrayOf<RunChunk<PlainBytes, R>>,
    bytes: &[u8],
) -> PolarsResult<ArrayOf<RunChunk<PlainBytes, R>>>
    requires fits { R.is_value (bytes_value bytes.now) ≡ true }
    ensures column { GivesBy column_of result (Ok (extended_column R.dtype bytes.now
        (column_of column.now))) }
{
    let name = column.name().clone()?;
    let chunk = column.to_chunk(alloc)?;
    let chunk = extended_rows(alloc, &chunk, bytes)?;
    let answer = one_chunk(alloc, name, chunk, column.len())?;
    Ok(answer)
}

/// A column of one chunk, with so many rows.
fn one_chunk<C: Chunk>(
    alloc: Global,
    name: PlSmallStr,
    chunk: C,
    rows: usize,
) -> Result<ArrayOf<C>, AllocError>
    requires rows { rows ≡ length (C.slots chunk) }
    requires short { rows < 2 ^ 32 }
    ensures column { IfOk result (λ answer. column_of answer ≡ record {
      name = name;
      dtype = C.dtype;
      slots = C.slots chunk;
      flag = Not;
    }) }
{
    let mut chunks = Vec::new(alloc);
    chunks.push(chunk)?;
    Ok(ArrayOf::from_chunks(name, chunks, rows))
}

/// So many rows of two chunks behind each other.
fn joined_rows<R: ByteReading>(
    alloc: Global,
    left: &RunChunk<PlainBytes, R>,
    right: &RunChunk<PlainBytes, R>,
    rows: usize,
) -> Result<RunChunk<PlainBytes, R>, AllocError>
    requires rows { broadcast_length (length left.now) (length right.now) ≡ Some rows }
    ensures slots { IfOk result (λ answer. answer ≡ joined_slots left.now right.now rows) }
{
    let mut builder = RunChunk::builder(alloc, rows)?;
    for row in 0..rows {
        let x = bytes_at(left, operand_row(left.len(), row));
        let y = bytes_at(right, operand_row(right.len(), row));
        builder.push_both(x, y)?;
    }
    RunChunk::build(alloc, builder)
}

/// The rows of a chunk with these bytes behind each valid one.
fn extended_rows<R: ByteReading>(
    alloc: Global,
    chunk: &RunChunk<PlainBytes, R>,
    bytes: &[u8],
) -> Result<RunChunk<PlainBytes, R>, AllocError>
    requires fits { R.is_value (bytes_value bytes.now) ≡ true }
    ensures slots { IfOk result (λ answer. answer ≡ extended_slots bytes.now chunk.now) }
{
    let mut builder = RunChunk::builder(alloc, chunk.len())?;
    for row in 0..chunk.len() {
        builder.push_both(bytes_at(chunk, row), Some(bytes))?;
    }
    RunChunk::build(alloc, builder)
}

/// The common number of rows, or the other's where one is 1.
fn common_rows(left: usize, right: usize) -> Option<usize>
    requires left { left < 2 ^ 32 }
    requires right { right < 2 ^ 32 }
    ensures rows { result ≡ broadcast_length left right }
    ensures short { IfSome result (λ rows. rows < 2 ^ 32) }
{
    if left == right {
        Some(left)
    } else if left == 1 {
        Some(right)
    } else if right == 1 {
        Some(left)
    } else {
        None
    }
}

/// The row of an operand that stands in an answer's row: one row stands for all.
fn operand_row(rows: usize, row: usize) -> usize
    ensures row { result ≡ operand_row rows row }
{
    if rows == 1 { 0 } else { row }
}
