// A long column: many columns that share its buffers, and writes where nobody does.
use crate::subject::{NAME, word_at};
use crate::tally::Tally;
use crate::writes::set_slot;
use anyhow::Result;
use col_chunk::Int64Chunked;
use col_types::{PlSmallStr, PolarsResult};
use std::alloc::Global;

/// How many rows the column has.
const ROWS: u32 = 1_000_000;

/// How many slices, shifted columns and clones of it are there at once.
const PARTS: u32 = 4_000;

/// How many rows each slice has, and how many further down the next one begins.
const PART_ROWS: usize = 1_000;

const STEP: i64 = 249;

/// How many rows are written, and how far apart.
const WRITES: u32 = 200_000;

const GAP: u32 = 5;

/// Every so manieth slot is null.
const NULL_STEP: u32 = 1_000;

/// The slot of a row of the column that is moved so far, null where none moves to.
fn slot_of(row: u32, periods: i64) -> Option<i64> {
    let from = u32::try_from(i64::from(row).wrapping_sub(periods)).ok()?;
    if from >= ROWS || from % NULL_STEP == 0 {
        None
    } else {
        Some(word_at(from))
    }
}

fn long_column(alloc: Global) -> PolarsResult<Int64Chunked> {
    let mut words = Vec::with_capacity(alloc, ROWS as usize)?;
    for row in 0..ROWS {
        words.push(word_at(row))?;
    }
    let name = PlSmallStr::from_str(alloc, NAME)?;
    let mut column = Int64Chunked::from_vec(alloc, name, words)?;
    for at in 0..ROWS / NULL_STEP {
        set_slot(&mut column, (at * NULL_STEP) as usize, None)?;
    }
    Ok(column)
}

/// Columns that share the long one's buffers.
#[derive(Drop)]
struct Part {
    /// Some of its rows, from one on.
    slice: Int64Chunked,
    first: i64,
    /// All of them, moved so far.
    moved: Int64Chunked,
    periods: i64,
    clone: Int64Chunked,
}

impl Part {
    /// Each part's slice begins further down, and its other column is moved up to 16 rows down or up.
    fn new(alloc: Global, column: &Int64Chunked, at: u32) -> PolarsResult<Part> {
        let first = i64::from(at).wrapping_mul(STEP);
        let periods = i64::from(at % 33).wrapping_sub(16);
        Ok(Part {
            slice: column.slice(alloc, first, PART_ROWS)?,
            first,
            moved: column.shift(alloc, periods)?,
            periods,
            clone: column.try_clone(alloc)?,
        })
    }

    fn check_slice(&self, tally: &mut Tally) {
        tally.expect("slice", self.slice.len() == PART_ROWS);
        let periods = self.first.wrapping_neg();
        check_slots("slice", &self.slice, periods, [0, 1, 500, 999], tally);
    }

    /// What a part has once a slot of each slice is written.
    fn check_written(&self, tally: &mut Tally) {
        let periods = self.first.wrapping_neg();
        check_slots("set_slot", &self.slice, periods, [0, 2], tally);
        tally.expect_slot("set_slot", &self.slice, 1, WRITTEN);
        tally.expect("shift", self.moved.len() == ROWS as usize);
        let rows = [0, 16, 500_000, ROWS - 1];
        check_slots("shift", &self.moved, self.periods, rows, tally);
        check_whole(&self.clone, tally);
    }
}

/// Whether rows of a column have the slots of the long one, which are moved so far.
fn check_slots<const N: usize>(
    call: &'static str,
    column: &Int64Chunked,
    periods: i64,
    rows: [u32; N],
    tally: &mut Tally,
) {
    for row in rows {
        tally.expect_slot(call, column, row as usize, slot_of(row, periods));
    }
}

/// Whether a column has the rows of the long one.
fn check_whole(column: &Int64Chunked, tally: &mut Tally) {
    tally.expect("try_clone", column.len() == ROWS as usize);
    check_slots("try_clone", column, 0, [0, 1, 500_001, ROWS - 1], tally);
}

/// What is written to row 1 of each slice.
const WRITTEN: Option<i64> = Some(-7);

/// 4,000 slices, shifted columns and clones of one column, each of them read once all are there. Then
/// each slice is written: as many copies of the whole column would not fit into memory.
pub fn check_parts(alloc: Global, tally: &mut Tally) -> Result<()> {
    let column = long_column(alloc)?;
    let mut parts = Vec::new(alloc);
    for at in 0..PARTS {
        parts.push(Part::new(alloc, &column, at)?)?;
    }
    for part in &parts {
        part.check_slice(tally);
    }
    for part in parts.iter_mut() {
        set_slot(&mut part.slice, 1, WRITTEN)?;
    }
    for part in &parts {
        part.check_written(tally);
    }
    check_whole(&column, tally);
    Ok(())
}

/// What is written to a row: a word or null.
fn written(row: u32) -> Option<i64> {
    if row % 3 == 0 {
        None
    } else {
        Some(i64::from(row))
    }
}

/// 200,000 writes to a column that nobody shares, and the slots that were written with those before
/// and behind them.
pub fn check_writes(alloc: Global, tally: &mut Tally) -> Result<()> {
    let mut column = long_column(alloc)?;
    for at in 0..WRITES {
        let row = at * GAP + 2;
        set_slot(&mut column, row as usize, written(row))?;
    }
    for at in 0..WRITES {
        let row = at * GAP + 2;
        check_slots("before", &column, 0, [row - 1], tally);
        tally.expect_slot("set_slot", &column, row as usize, written(row));
        check_slots("behind", &column, 0, [row + 1], tally);
    }
    Ok(())
}
