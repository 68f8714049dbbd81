//! Parts of a column, and its rows moved, in the same memory.

ghost use Rattle.std.specs.Prelude.{◌≡◌, ◌+◌, ◌-◌, ◌<◌, ◌≤◌, ◌++◌, ◌^◌, ◌+ℤ◌, min, pos, unsigned_abs, IfOk, None, OnOk, Ok, drop, length, replicate, slice_index_or, take};
ghost use Rattle.std.specs.Option.{option_and_then};
ghost use Rattle.col_types.specs.PolarsError.{GivesBy};
ghost use Rattle.col_model.specs.Chunked.{column_of};
ghost use Rattle.col_model.specs.ChunkCalls.{columns_of, place_of, row_of, rows_between, sliced, split};
ghost use Rattle.col_model.specs.Broadcast.{column_slots, row_before};
ghost use Rattle.col_model.specs.OperatorCalls.{shifted};
ghost use Rattle.col_chunk.specs.Chunks.{joined, moved_slots};

use crate::{ArrayOf, Chunk};
use col_types::{IsSorted, PolarsResult};
use std::alloc::{AllocError, Global};

impl<C: Chunk> ArrayOf<C> {
    /// So many rows from an offset on, from the end where it is negative, cut to the column.
    pub fn slice(&self, alloc: Global, offset: i64, length: usize) -> PolarsResult<Self>
        ensures column { GivesBy column_of result (Ok (sliced offset length self.now.column)) }
    {
        let (from, to) = bounds(offset, length, self.len);
        self.between(alloc, from, to)
    }

    /// The rows before an offset and those from it on, counted from the end where it is negative and
    /// cut to the column.
    pub fn split_at(&self, alloc: Global, offset: i64) -> PolarsResult<(Self, Self)>
        ensures columns { GivesBy columns_of result (Ok (split offset self.now.column)) }
    {
        let (row, _) = bounds(offset, 0, self.len);
        match (
            self.between(alloc, 0, row),
            self.between(alloc, row, self.len),
        ) {
            (Ok(before), Ok(behind)) => Ok((before, behind)),
            (Err(refusal), _) | (_, Err(refusal)) => Err(refusal),
        }
    }

    /// The rows from one to another.
    fn between(&self, alloc: Global, from: usize, to: usize) -> PolarsResult<Self>
        requires from { from ≤ length self.now.column.slots }
        requires to { to ≤ length self.now.column.slots }
        ensures column { GivesBy column_of result (Ok (rows_between from to self.now.column)) }
    {
        let name = self.name.clone()?;
        let len = to.saturating_sub(from);
        let mut chunks = Vec::new(alloc);
        share_onto(&mut chunks, self.chunks.as_slice(), from, len)?;
        Ok(ArrayOf {
            name,
            chunks,
            len,
            flag: self.flag,
        })
    }

    /// The rows so many further down, or up for a negative number; null where none moves to. What
    /// stays is in the same memory.
    pub fn shift(&self, alloc: Global, periods: i64) -> PolarsResult<Self>
        ensures column { GivesBy column_of result (Ok (shifted self.now.column periods)) }
    {
        let name = self.name.clone()?;
        let chunks = shifted_chunks(alloc, self.chunks.as_slice(), self.len, periods)?;
        Ok(ArrayOf {
            name,
            chunks,
            len: self.len,
            flag: IsSorted::Not,
        })
    }
}

/// The first of so many rows from an offset on, and the row behind the last one.
fn bounds(offset: i64, length: usize, rows: usize) -> (usize, usize)
    requires short { rows < 2 ^ 32 }
    ensures from { result.0 ≡ row_of rows (place_of offset rows) }
    ensures to { result.1 ≡ row_of rows (place_of offset rows +ℤ pos length) }
    ensures from_inside { result.0 ≤ rows }
    ensures to_inside { result.1 ≤ rows }
{
    let place = if offset < 0 {
        rows as i128 + i128::from(offset)
    } else {
        i128::from(offset)
    };
    (row_of(rows, place), row_of(rows, place + length as i128))
}

/// A place cut to the rows.
fn row_of(rows: usize, place: i128) -> usize
    ensures row { result ≡ row_of rows place }
    ensures inside { result ≤ rows }
{
    if place < 0 {
        0
    } else if place < rows as i128 {
        place as usize
    } else {
        rows
    }
}

/// The chunks of the rows so many further down, row by row.
fn shifted_chunks<C: Chunk>(
    alloc: Global,
    chunks: &[C],
    len: usize,
    periods: i64,
) -> Result<Vec<C>, AllocError>
    requires len { len ≡ length (joined C.slots chunks.now) }
    ensures slots { IfOk result (λ answer. joined C.slots answer.items
        ≡ column_slots (λ row. option_and_then (λ r. slice_index_or
        (joined C.slots chunks.now) r None) (row_before (length
        (joined C.slots chunks.now)) periods row)) (length (joined C.slots chunks.now))) }
    ensures len { IfOk result (λ answer. length (joined C.slots answer.items) ≡ len) }
{
    let answer = moved(alloc, chunks, len, periods)?;
    Ok(answer)
}

/// The chunks of the rows so many further down, or up for a negative number.
fn moved<C: Chunk>(
    alloc: Global,
    chunks: &[C],
    len: usize,
    periods: i64,
) -> Result<Vec<C>, AllocError>
    requires len { len ≡ length (joined C.slots chunks.now) }
    ensures slots { IfOk result (λ answer. joined C.slots answer.items
        ≡ moved_slots periods (joined C.slots chunks.now)) }
{
    let distance = distance(periods, len);
    if periods < 0 {
        moved_up(alloc, chunks, distance, len - distance)
    } else {
        moved_down(alloc, chunks, distance, len - distance)
    }
}

/// How many rows are left without one that moves to them.
fn distance(periods: i64, len: usize) -> usize
    ensures distance { result ≡ min (unsigned_abs periods) len }
{
    let distance = periods.unsigned_abs();
    if distance < len as u64 {
        distance as usize
    } else {
        len
    }
}

/// Nulls, and then the first rows.
fn moved_down<C: Chunk>(
    alloc: Global,
    chunks: &[C],
    distance: usize,
    kept: usize,
) -> Result<Vec<C>, AllocError>
    requires len { distance + kept ≡ length (joined C.slots chunks.now) }
    ensures slots { IfOk result (λ answer. joined C.slots answer.items
        ≡ replicate distance None ++ take kept (joined C.slots chunks.now)) }
{
    let mut answer = Vec::new(alloc);
    answer.push(C::nulls(alloc, distance)?)?;
    share_onto(&mut answer, chunks, 0, kept)?;
    Ok(answer)
}

/// The last rows, and then nulls.
fn moved_up<C: Chunk>(
    alloc: Global,
    chunks: &[C],
    distance: usize,
    kept: usize,
) -> Result<Vec<C>, AllocError>
    requires len { distance + kept ≡ length (joined C.slots chunks.now) }
    ensures slots { IfOk result (λ answer. joined C.slots answer.items
        ≡ take kept (drop distance (joined C.slots chunks.now)) ++ replicate distance None) }
{
    let mut answer = Vec::new(alloc);
    share_onto(&mut answer, chunks, distance, kept)?;
    answer.push(C::nulls(alloc, distance)?)?;
    Ok(answer)
}

/// Puts the chunks of some of the rows behind others, in the same memory.
pub(crate) fn share_onto<C: Chunk>(
    parts: &mut Vec<C>,
    chunks: &[C],
    offset: usize,
    len: usize,
) -> Result<(), AllocError>
    requires inside { offset + len ≤ length (joined C.slots chunks.now) }
    ensures slots { OnOk result (joined C.slots parts.new.items
        ≡ joined C.slots parts.old.items ++ take len (drop offset (joined C.slots chunks.now))) }
{
    let mut skip = offset;
    let mut left = len;
    for chunk in chunks {
        if left == 0 {
            return Ok(());
        }
        let size = chunk.len();
        if skip >= size {
            skip -= size;
            continue;
        }
        let taken = left.min(size - skip);
        parts.push(chunk.share(skip, taken)?)?;
        skip = 0;
        left -= taken;
    }
    Ok(())
}
