// Columns of as many rows as there may be, and one more.
use crate::subject::{NAME, Nulls, OTHER_NAME, in_one_chunk, slot_at, slots_from};
use crate::tally::Tally;
use anyhow::Result;
use col_chunk::Int64Chunked;
use col_types::{PlSmallStr, PolarsError, PolarsResult};
use std::alloc::Global;

/// A column has fewer rows than this.
const ROW_LIMIT: usize = 1 << 32;

/// How many rows lie in one buffer, and how often a column of them is put behind itself.
const PIECE: u32 = 1 << 20;

const DOUBLINGS: u32 = 11;

/// How many rows there are then, and in how many chunks.
const HALF: usize = 1 << 31;

const HALF_CHUNKS: usize = 1 << 11;

/// The refusal of one row too many.
const FULL: PolarsError = PolarsError::TooLong { len: 1 << 32 };

/// Calls that are refused at 2^32 rows, and what they leave.
pub fn check_limits(alloc: Global, tally: &mut Tally) -> Result<()> {
    for length in [ROW_LIMIT, ROW_LIMIT + 1, usize::MAX] {
        let name = PlSmallStr::from_str(alloc, NAME)?;
        let refusal = PolarsError::TooLong { len: length as u64 };
        let answer = Int64Chunked::full_null(alloc, name, length);
        tally.expect_refused("full_null", answer, &refusal);
    }
    let half = half_full(alloc)?;
    check_half(&half, tally);
    check_refused(alloc, &half, tally)?;
    check_owned(half.try_clone(alloc)?, half.try_clone(alloc)?, tally);
    check_half(&half, tally);
    check_last_row(alloc, half, tally)
}

/// A column of 2^31 rows, which are the same ones in the same memory many times over.
fn half_full(alloc: Global) -> PolarsResult<Int64Chunked> {
    let slots = slots_from(alloc, Nulls::EverySecond, 0, PIECE)?;
    let mut column = in_one_chunk(alloc, NAME, slots.as_slice())?;
    for _ in 0..DOUBLINGS {
        let same = column.try_clone(alloc)?;
        column.append(&same)?;
    }
    Ok(column)
}

/// Whether a row of such a column has the slot that it was made with.
fn check_slot(column: &Int64Chunked, row: u32, tally: &mut Tally) {
    let slot = slot_at(Nulls::EverySecond, row % PIECE);
    tally.expect_slot("get", column, row as usize, slot);
}

/// Whether the column of 2^31 rows is as it was made, at its ends and where two chunks meet.
fn check_half(half: &Int64Chunked, tally: &mut Tally) {
    tally.expect("name", half.name().as_str() == NAME);
    tally.expect("len", half.len() == HALF);
    tally.expect("n_chunks", half.n_chunks() == HALF_CHUNKS);
    for row in [0, 1, PIECE - 1, PIECE, (1 << 31) - PIECE, (1 << 31) - 1] {
        check_slot(half, row, tally);
    }
}

/// `append` and `extend` of as many rows again.
fn check_refused(alloc: Global, half: &Int64Chunked, tally: &mut Tally) -> Result<()> {
    let mut column = half.try_clone(alloc)?;
    tally.expect_refused("append", column.append(half), &FULL);
    check_half(&column, tally);
    tally.expect_refused("extend", column.extend(half), &FULL);
    check_half(&column, tally);
    Ok(())
}

/// `append_owned` of as many rows again, which hands them back.
fn check_owned(column: Int64Chunked, half: Int64Chunked, tally: &mut Tally) {
    let mut column = column;
    match column.append_owned(half) {
        Ok(()) => tally.expect("append_owned", false),
        Err((other, refusal)) => {
            tally.expect("append_owned", refusal == FULL);
            check_half(&other, tally);
        }
    }
    check_half(&column, tally);
}

/// The greatest number of rows, and one row more.
fn check_last_row(alloc: Global, half: Int64Chunked, tally: &mut Tally) -> Result<()> {
    let behind = half.slice(alloc, 0, HALF - 1)?;
    let mut column = half;
    column.append(&behind)?;
    tally.expect("append", column.len() == ROW_LIMIT - 1);
    let row = in_one_chunk(alloc, OTHER_NAME, &[Some(1)])?;
    tally.expect_refused("append", column.append(&row), &FULL);
    tally.expect_refused("extend", column.extend(&row), &FULL);
    tally.expect("append", column.len() == ROW_LIMIT - 1);
    for row in [0, 1 << 31, u32::MAX - 1] {
        check_slot(&column, row, tally);
    }
    let last = slot_at(Nulls::EverySecond, (u32::MAX - 1) % PIECE);
    let part = column.slice(alloc, -1, usize::MAX)?;
    tally.expect_slots("slice", &part, &[last]);
    Ok(())
}
