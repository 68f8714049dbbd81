//! Sums of columns of truth values.

ghost use Rattle.std.specs.Prelude.{◌≡◌, ◌+ℤ◌, ◌<◌, ◌^◌, pos, IfOk, IfSome, Ok, Some, length};
ghost use Rattle.std.specs.Int.{w32};
ghost use Rattle.std.specs.Option.{option_map};
ghost use Rattle.col_types.specs.PolarsError.{GivesBy};
ghost use Rattle.col_types.specs.declared.data_type.DataType.{UInt32};
ghost use Rattle.col_types.specs.declared.is_sorted.IsSorted.TheVariants.{Not};
ghost use Rattle.col_model.specs.Arithmetic.{Unsigned, wrapped_value};
ghost use Rattle.col_model.specs.Broadcast.{broadcast_length, operand_row};
ghost use Rattle.col_model.specs.Chunked.{Chunked, column_of};
ghost use Rattle.col_model.specs.Value.{on_slots, whole};
ghost use Rattle.col_rule.specs.Columns.{paired_column};
ghost use Rattle.col_boolean.specs.Bits.{truth};
ghost use Rattle.col_boolean.specs.Sums.{sum_slots, sum_value};

use crate::{BitChunk, BooleanChunked};
use col_chunk::{ArrayOf, Chunk, IdxCa, View, WordChunk};
use col_types::{PolarsError, PolarsResult};
use std::alloc::{AllocError, Global};

/// What is computed of columns of truth values.
pub trait BooleanArithmetic {
    /// The column.
    ghost column: { Self → Chunked };

    /// How many of two truth values are true, row by row, null where a row is. One row of either
    /// stands for all; the name is the left column's. Refused where the lengths don't fit each
    /// other (`Lengths`).
    fn try_add(&self, alloc: Global, rhs: &BooleanChunked) -> PolarsResult<IdxCa>
        ensures column { GivesBy column_of result (paired_column sum_value UInt32
            (column_of (column self.now)) (column_of rhs.now)) };
}

impl BooleanArithmetic for BooleanChunked {
    ghost column = { λ array. array };

    fn try_add(&self, alloc: Global, rhs: &BooleanChunked) -> PolarsResult<IdxCa> {
        match common_rows(self.len(), rhs.len()) {
            None => Err(PolarsError::Lengths {
                left: self.len(),
                right: rhs.len(),
            }),
            Some(rows) => {
                let answer = sum_columns(alloc, self, rhs, rows)?;
                Ok(answer)
            }
        }
    }
}

/// So many rows of the sum of two columns.
#[tactic(auto, using(crate::proofs::SumLaws::sum_laws))]
fn sum_columns(
    alloc: Global,
    left: &BooleanChunked,
    right: &BooleanChunked,
    rows: usize,
) -> Result<IdxCa, AllocError>
    requires rows { broadcast_length (length left.now.column.slots)
        (length right.now.column.slots) ≡ Some rows }
    requires short { rows < 2 ^ 32 }
    ensures column { IfOk result (λ answer. column_of answer ≡ record {
      name = left.now.column.name;
      dtype = UInt32;
      slots = sum_slots left.now.column.slots right.now.column.slots rows;
      flag = Not;
    }) }
{
    let name = left.name().clone()?;
    let left = left.to_chunk(alloc)?;
    let right = right.to_chunk(alloc)?;
    let sums = sum_rows(alloc, &left, &right, rows)?;
    let mut chunks = Vec::new(alloc);
    chunks.push(sums)?;
    Ok(ArrayOf::from_chunks(name, chunks, rows))
}

/// So many sums, row by row.
#[tactic(auto, using(crate::proofs::SumLaws::sum_laws))]
fn sum_rows(
    alloc: Global,
    left: &BitChunk,
    right: &BitChunk,
    rows: usize,
) -> Result<WordChunk<u32>, AllocError>
    requires rows { broadcast_length (length left.now) (length right.now) ≡ Some rows }
    ensures slots { IfOk result (λ sums. sums ≡ sum_slots left.now right.now rows) }
{
    let mut builder = WordChunk::builder(alloc, rows)?;
    for row in 0..rows {
        let x = left.get(operand_row(left.len(), row));
        let y = right.get(operand_row(right.len(), row));
        builder.push(sum_of(x, y))?;
    }
    WordChunk::build(alloc, builder)
}

/// The common number of rows, or the other's where one is 1.
fn common_rows(left: usize, right: usize) -> Option<usize>
    requires left { left < 2 ^ 32 }
    requires right { right < 2 ^ 32 }
    ensures rows { result ≡ broadcast_length left right }
    ensures short { IfSome result (λ rows. rows < 2 ^ 32) }
{
    if left == right {
        Some(left)
    } else if left == 1 {
        Some(right)
    } else if right == 1 {
        Some(left)
    } else {
        None
    }
}

/// The row of an operand that stands in an answer's row: one row stands for all.
fn operand_row(rows: usize, row: usize) -> usize
    ensures row { result ≡ operand_row rows row }
{
    if rows == 1 { 0 } else { row }
}

/// The sum of two optional truth values.
#[tactic(auto, using(crate::proofs::SumLaws::readings))]
fn sum_of(left: Option<bool>, right: Option<bool>) -> Option<u32>
    ensures sum { option_map (λ x. whole (wrapped_value (Unsigned w32) (pos x))) result
        ≡ on_slots sum_value (option_map (λ value. whole (truth value)) left)
        (option_map (λ value. whole (truth value)) right) }
{
    match (left, right) {
        (Some(x), Some(y)) => Some(number(x) + number(y)),
        _ => None,
    }
}

/// 1 for true and 0 for false.
fn number(value: bool) -> u32
    ensures number { pos result ≡ truth value }
    ensures small { result < 2 }
{
    if value { 1 } else { 0 }
}
