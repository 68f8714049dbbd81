// Calls that put the rows of one column behind those of another.
use crate::lengths::Lengths;
use crate::plain::{Order, Rows};
use crate::subject::{Case, Layout, Nulls, Subject};
use crate::tally::Tally;
use anyhow::Result;
use col_chunk::Int64Chunked;
use col_types::PolarsResult;
use std::alloc::Global;

/// What is put behind: no rows, a part of a chunk, several chunks, nulls.
const OTHERS: [Case; 4] = [
    Case {
        rows: 0,
        layout: Layout::OneChunk,
        nulls: Nulls::NoSlot,
    },
    Case {
        rows: 65,
        layout: Layout::Slice { first: 63 },
        nulls: Nulls::EverySecond,
    },
    Case {
        rows: 3,
        layout: Layout::RowChunks,
        nulls: Nulls::NoSlot,
    },
    Case {
        rows: 64,
        layout: Layout::OneChunk,
        nulls: Nulls::EachSlot,
    },
];

/// `append`, `extend`, `append_owned`.
pub fn check_appending(alloc: Global, subject: &Subject, tally: &mut Tally) -> Result<()> {
    for case in &OTHERS {
        check_behind(alloc, subject, &Subject::new(alloc, case)?, tally)?;
    }
    check_behind(alloc, subject, subject, tally)
}

fn check_behind(
    alloc: Global,
    subject: &Subject,
    other: &Subject,
    tally: &mut Tally,
) -> Result<()> {
    let (column, behind) = (&subject.column, &other.column);
    let rows = Rows {
        slots: subject.slots.as_slice(),
        order: Order::Followed(other.slots.as_slice()),
    };
    let lengths = Lengths::Followed(column, behind);
    tally.expect_chunks("append", appended(alloc, column, behind), &rows, &lengths)?;
    let answer = appended_owned(alloc, column, behind);
    tally.expect("append_owned", answer.is_ok());
    tally.expect_chunks("append_owned", answer, &rows, &lengths)?;
    // It makes the last chunk longer, or makes one where there is none.
    let lengths = Lengths::Extended(column, other.slots.len());
    tally.expect_chunks("extend", extended(alloc, column, behind), &rows, &lengths)?;
    tally.expect_slots("the shorter one", column, subject.slots.as_slice());
    tally.expect_slots("the other one", behind, other.slots.as_slice());
    Ok(())
}

fn appended(
    alloc: Global,
    column: &Int64Chunked,
    behind: &Int64Chunked,
) -> PolarsResult<Int64Chunked> {
    let mut column = column.try_clone(alloc)?;
    column.append(behind)?;
    Ok(column)
}

fn appended_owned(
    alloc: Global,
    column: &Int64Chunked,
    behind: &Int64Chunked,
) -> PolarsResult<Int64Chunked> {
    let behind = behind.try_clone(alloc)?;
    let mut column = column.try_clone(alloc)?;
    match column.append_owned(behind) {
        Ok(()) => Ok(column),
        Err((_, refusal)) => Err(refusal),
    }
}

fn extended(
    alloc: Global,
    column: &Int64Chunked,
    behind: &Int64Chunked,
) -> PolarsResult<Int64Chunked> {
    let mut column = column.try_clone(alloc)?;
    column.extend(behind)?;
    Ok(column)
}
