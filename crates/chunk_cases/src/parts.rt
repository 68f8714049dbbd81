// Calls that answer a part of a column, or its rows moved.
use crate::plain::{self, Order, Rows};
use crate::subject::{NAME, Subject};
use crate::tally::Tally;
use anyhow::Result;
use std::alloc::Global;

/// Where parts begin: about both ends of a column and of a word of validity, and far outside.
const OFFSETS: [i64; 15] = [
    0,
    1,
    62,
    63,
    64,
    65,
    129,
    130,
    -1,
    -63,
    -64,
    -65,
    -130,
    i64::MIN,
    i64::MAX,
];

/// How many rows the parts are to have.
const LENGTHS: [usize; 7] = [0, 1, 63, 64, 65, 129, usize::MAX];

/// How far rows are moved.
const PERIODS: [i64; 13] = [
    0,
    1,
    -1,
    63,
    -63,
    64,
    -64,
    128,
    -128,
    130,
    -130,
    i64::MIN,
    i64::MAX,
];

/// `slice`, `split_at`, `shift`.
pub fn check_parts(alloc: Global, subject: &Subject, tally: &mut Tally) -> Result<()> {
    for offset in OFFSETS {
        for length in LENGTHS {
            check_slice(alloc, subject, offset, length, tally)?;
        }
        check_split(alloc, subject, offset, tally)?;
    }
    for periods in PERIODS {
        check_shift(alloc, subject, periods, tally)?;
    }
    Ok(())
}

fn check_slice(
    alloc: Global,
    subject: &Subject,
    offset: i64,
    length: usize,
    tally: &mut Tally,
) -> Result<()> {
    let slots = subject.slots.as_slice();
    let from = plain::place_of(slots.len(), offset);
    let rows = plain::between(slots, from, from.wrapping_add(length as i128));
    tally.expect_answer("slice", subject.column.slice(alloc, offset, length), &rows)
}

fn check_split(alloc: Global, subject: &Subject, offset: i64, tally: &mut Tally) -> Result<()> {
    let slots = subject.slots.as_slice();
    let place = plain::place_of(slots.len(), offset);
    let (before, behind) = subject.column.split_at(alloc, offset)?;
    let rows = plain::between(slots, 0, place);
    tally.expect_column("split_at, before", &before, NAME, &rows);
    let rows = plain::between(slots, place, slots.len() as i128);
    tally.expect_column("split_at, behind", &behind, NAME, &rows);
    Ok(())
}

fn check_shift(alloc: Global, subject: &Subject, periods: i64, tally: &mut Tally) -> Result<()> {
    let slots = subject.slots.as_slice();
    let place = 0i128.wrapping_sub(i128::from(periods));
    let rows = slots.len();
    let order = Order::From { place, rows };
    let answer = subject.column.shift(alloc, periods);
    tally.expect_answer("shift", answer, &Rows { slots, order })
}
