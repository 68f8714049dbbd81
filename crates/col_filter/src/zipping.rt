//! Rows of two columns, as a mask picks between them.

ghost use Rattle.std.specs.Prelude.{◌+◌, ◌≢◌, ◌≤◌, false, if◌then◌else◌, ◌≡◌, ◌<◌, ◌^◌, ◌++◌, IfOk, IfSome, OnOk, Ok, length};
ghost use Rattle.col_types.specs.PolarsError.{GivesBy};
ghost use Rattle.col_model.specs.Broadcast.{broadcast_length, operand_row};
ghost use Rattle.col_model.specs.Chunked.{Chunked, column_of};
ghost use Rattle.col_filter.specs.Zips.{apart, met_rows, slots_for, zipped, zipped_column, zipped_rows};
ghost use Rattle.col_filter.specs.Zips.{zipped_slots};

use crate::columns::of_one;
use crate::masks::holds;
use col_boolean::{BitChunk, BooleanChunked};
use col_chunk::{ArrayOf, Chunk};
use col_types::{PolarsError, PolarsResult};
use std::alloc::{AllocError, Global};

/// Columns whose rows a mask picks, or those of another one in their place.
pub trait ChunkZip: Drop {
    /// The column.
    ghost column: { Self → Chunked };

    /// Row by row this column's slot where the mask is true, and the other's where it is false or
    /// null, under this column's name. One row of any of the three stands for all. Refused where two
    /// numbers of rows are neither equal nor 1 (`Lengths`, which tells the first such pair): of the
    /// columns, of this column and the mask, of the other one and the mask.
    fn zip_with(&self, alloc: Global, mask: &BooleanChunked, other: &Self) -> PolarsResult<Self>
        ensures column { GivesBy (λ answer. column_of (column answer)) result
            (zipped mask.now.column.slots (column_of (column self.now))
            (column_of (column other.now))) };
}

impl<C: Chunk> ChunkZip for ArrayOf<C> {
    ghost column = { λ array. array };

    fn zip_with(&self, alloc: Global, mask: &BooleanChunked, other: &Self) -> PolarsResult<Self> {
        match rows_of_three(mask.len(), self.len(), other.len()) {
            Err(refusal) => Err(refusal),
            Ok(rows) => {
                let answer = zipped_columns(alloc, mask, self, other, rows)?;
                Ok(answer)
            }
        }
    }
}

/// The number of rows of a mask and two columns, or which of them don't fit each other.
fn rows_of_three(mask: usize, first: usize, second: usize) -> PolarsResult<usize>
    requires mask { mask < 2 ^ 32 }
    requires first { first < 2 ^ 32 }
    requires second { second < 2 ^ 32 }
    ensures rows { result ≡ zipped_rows mask first second }
    ensures met { IfOk result (λ rows. met_rows mask first second ≡ Ok rows) }
    ensures short { IfOk result (λ rows. rows < 2 ^ 32) }
{
    match apart(first, second) {
        Some(refusal) => return Err(refusal),
        None => {}
    }
    match apart(first, mask) {
        Some(refusal) => return Err(refusal),
        None => {}
    }
    match apart(second, mask) {
        Some(refusal) => return Err(refusal),
        None => {}
    }
    rows_met(mask, first, second)
}

/// That two numbers of rows don't fit each other.
fn apart(left: usize, right: usize) -> Option<PolarsError>
    requires left { left < 2 ^ 32 }
    requires right { right < 2 ^ 32 }
    ensures apart { result ≡ apart left right }
{
    match common_rows(left, right) {
        Some(_) => None,
        None => Some(PolarsError::Lengths { left, right }),
    }
}

/// The rows that the first column and the mask give, and then the second column.
fn rows_met(mask: usize, first: usize, second: usize) -> PolarsResult<usize>
    requires mask { mask < 2 ^ 32 }
    requires first { first < 2 ^ 32 }
    requires second { second < 2 ^ 32 }
    ensures rows { result ≡ met_rows mask first second }
    ensures short { IfOk result (λ rows. rows < 2 ^ 32) }
{
    match common_rows(first, mask) {
        None => Err(PolarsError::Lengths {
            left: first,
            right: mask,
        }),
        Some(rows) => match common_rows(rows, second) {
            None => Err(PolarsError::Lengths {
                left: rows,
                right: second,
            }),
            Some(rows) => Ok(rows),
        },
    }
}

/// The common number of rows, or the other's where one is 1.
fn common_rows(left: usize, right: usize) -> Option<usize>
    requires left { left < 2 ^ 32 }
    requires right { right < 2 ^ 32 }
    ensures rows { result ≡ broadcast_length left right }
    ensures short { IfSome result (λ rows. rows < 2 ^ 32) }
{
    if left == right {
        Some(left)
    } else if left == 1 {
        Some(right)
    } else if right == 1 {
        Some(left)
    } else {
        None
    }
}

/// So many rows of two columns, in one chunk.
#[tactic(auto, using(crate::proofs::ZipLaws::zip_laws))]
fn zipped_columns<C: Chunk>(
    alloc: Global,
    mask: &BooleanChunked,
    first: &ArrayOf<C>,
    second: &ArrayOf<C>,
    rows: usize,
) -> Result<ArrayOf<C>, AllocError>
    requires rows { met_rows (length mask.now.column.slots) (length first.now.column.slots)
        (length second.now.column.slots) ≡ Ok rows }
    requires short { rows < 2 ^ 32 }
    ensures column { IfOk result (λ answer. column_of answer ≡ zipped_column
        mask.now.column.slots first.now.column second.now.column rows) }
{
    first.known();
    let name = first.name().clone()?;
    let mask = mask.to_chunk(alloc)?;
    let first = first.to_chunk(alloc)?;
    let second = second.to_chunk(alloc)?;
    let chunk = zipped_chunk(alloc, &mask, &first, &second, rows)?;
    of_one(alloc, name, chunk)
}

/// So many rows of two chunks. Runs of rows of one of them are copied at once.
#[tactic(auto, using(crate::proofs::ZipLaws::zip_laws))]
fn zipped_chunk<C: Chunk>(
    alloc: Global,
    mask: &BitChunk,
    first: &C,
    second: &C,
    rows: usize,
) -> Result<C, AllocError>
    requires rows { met_rows (length mask.now) (length (C.slots first.now))
        (length (C.slots second.now)) ≡ Ok rows }
    ensures slots { IfOk result (λ chunk. C.slots chunk
        ≡ zipped_slots mask.now (C.slots first.now) (C.slots second.now) rows) }
{
    let mut builder = C::builder(alloc, rows)?;
    let mut from = 0;
    let mut is_first = true;
    for row in 0..rows {
        let is_true = holds(mask, operand_row(mask.len(), row));
        if differ(is_true, is_first) {
            copy_rows(
                side(first, second, is_first),
                from,
                row - from,
                &mut builder,
            )?;
            from = row;
            is_first = is_true;
        }
    }
    copy_rows(
        side(first, second, is_first),
        from,
        rows - from,
        &mut builder,
    )?;
    C::build(alloc, builder)
}

/// Whether two truth values aren't equal.
fn differ(left: bool, right: bool) -> bool
    ensures differ { (result ≡ false) → left ≡ right }
{
    left != right
}

/// The first chunk, or the second one.
fn side<'a, C: Chunk>(first: &'a C, second: &'a C, is_first: bool) -> &'a C
    ensures side { C.slots result.now
        ≡ (if is_first then C.slots first.now else C.slots second.now) }
{
    if is_first { first } else { second }
}

/// Writes the slots that an operand has for so many rows from one on behind what was written: one row
/// stands for all.
fn copy_rows<C: Chunk>(
    chunk: &C,
    from: usize,
    count: usize,
    builder: &mut C::Builder,
) -> Result<(), AllocError>
    requires inside { length (C.slots chunk.now) ≢ 1
        → from + count ≤ length (C.slots chunk.now) }
    ensures slots { OnOk result (C.written builder.new ≡ C.written builder.old
        ++ slots_for (C.slots chunk.now) from count) }
{
    if chunk.len() != 1 {
        return chunk.copy_onto(from, count, builder);
    }
    for _row in 0..count {
        chunk.push_onto(0, builder)?;
    }
    Ok(())
}

/// The row of an operand that stands in an answer's row: one row stands for all.
fn operand_row(rows: usize, row: usize) -> usize
    ensures row { result ≡ operand_row rows row }
{
    if rows == 1 { 0 } else { row }
}
