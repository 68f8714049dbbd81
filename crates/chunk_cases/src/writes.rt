// Writes of one slot, which no column may see that shares the memory.
use crate::plain::{Order, Rows};
use crate::subject::{NAME, Subject};
use crate::tally::Tally;
use anyhow::Result;
use col_chunk::Int64Chunked;
use col_types::{PolarsError, PolarsResult};
use std::alloc::Global;

/// What is written to a row, one after another.
const WRITTEN: [Option<i64>; 4] = [Some(i64::MIN), None, None, Some(-7)];

/// `set_slot` at both ends, in the middle, and about the end of a word of validity. The first write to a
/// clone copies the buffers, each one behind it has them to itself.
pub fn check_writes(alloc: Global, subject: &Subject, tally: &mut Tally) -> Result<()> {
    let slots = subject.slots.as_slice();
    let rows = slots.len();
    for row in [0, rows / 2, 62, 63, 64, rows.saturating_sub(1)] {
        if row < rows {
            check_row(&mut subject.column.try_clone(alloc)?, slots, row, tally)?;
            tally.expect_slots("the cloned one", &subject.column, slots);
        }
    }
    if rows > 1 {
        check_slice(alloc, subject, tally)?;
    }
    tally.expect_slots("the sliced one", &subject.column, slots);
    Ok(())
}

/// Writes to a slice, and to the column that a slice was taken of.
fn check_slice(alloc: Global, subject: &Subject, tally: &mut Tally) -> Result<()> {
    let slots = subject.slots.as_slice();
    let (_, behind) = slots.split_at(slots.len().min(1));
    check_row(
        &mut subject.column.slice(alloc, 1, usize::MAX)?,
        behind,
        0,
        tally,
    )?;
    let mut column = subject.column.try_clone(alloc)?;
    let slice = column.slice(alloc, 1, usize::MAX)?;
    check_row(&mut column, slots, 1, tally)?;
    tally.expect_slots("the slice", &slice, behind);
    Ok(())
}

/// Writes each of the slots to a row of a column with these slots.
fn check_row(
    column: &mut Int64Chunked,
    slots: &[Option<i64>],
    row: usize,
    tally: &mut Tally,
) -> Result<()> {
    for slot in WRITTEN {
        set_slot(column, row, slot)?;
        let order = Order::Written { row, slot };
        tally.expect_column("set_slot", column, NAME, &Rows { slots, order });
    }
    Ok(())
}

/// Writes the slot of a row. Refused where there is no such row (`OutOfBounds`).
pub fn set_slot(column: &mut Int64Chunked, row: usize, slot: Option<i64>) -> PolarsResult<()> {
    let len = column.len();
    if row >= len {
        return Err(PolarsError::OutOfBounds { index: row, len });
    }
    column.set_slot(row, slot)
}
