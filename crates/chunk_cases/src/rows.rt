// Calls that answer other rows: by their numbers, backwards, without nulls, one so many times.
use crate::plain::{self, Order, Rows};
use crate::subject::{Subject, in_one_chunk, in_row_chunks};
use crate::tally::Tally;
use anyhow::Result;
use col_chunk::IdxCa;
use col_types::{PolarsError, PolarsResult};
use std::alloc::{AllocError, Global};

/// A column has fewer rows than this.
const ROW_LIMIT: usize = 1 << 32;

/// The name of columns of indices, which no answer may have.
const INDEX_NAME: &str = "index";

/// How many times one row is repeated.
const REPEATS: [usize; 4] = [0, 1, 64, 65];

/// Which rows are named.
enum Naming {
    Nothing,
    /// Each row, from the last to the first.
    Backwards,
    /// Some rows, some of them twice, and every third index null.
    Scattered,
}

const NAMINGS: [Naming; 3] = [Naming::Nothing, Naming::Backwards, Naming::Scattered];

/// The indices of some of so many rows.
fn indices_of(alloc: Global, naming: &Naming, rows: u32) -> Result<Vec<Option<u32>>, AllocError> {
    let mut indices = Vec::new(alloc);
    if let Naming::Nothing = naming {
        return Ok(indices);
    }
    for at in 0..rows {
        let index = match naming {
            Naming::Scattered if at % 3 == 2 => None,
            Naming::Scattered => Some(at.wrapping_mul(at) % rows),
            Naming::Nothing | Naming::Backwards => Some(rows - 1 - at),
        };
        indices.push(index)?;
    }
    if let Naming::Scattered = naming {
        indices.push(None)?;
    }
    Ok(indices)
}

/// `reverse`, `drop_nulls`, `take`, `take_slice`, `new_from_index`.
pub fn check_rows(alloc: Global, subject: &Subject, tally: &mut Tally) -> Result<()> {
    check_turned(alloc, subject, tally)?;
    let rows = u32::try_from(subject.slots.len())?;
    for naming in &NAMINGS {
        let indices = indices_of(alloc, naming, rows)?;
        check_take(alloc, subject, indices.as_slice(), tally)?;
    }
    check_outside(alloc, subject, rows, tally)?;
    check_repeats(alloc, subject, tally)
}

/// `reverse`, `drop_nulls`.
fn check_turned(alloc: Global, subject: &Subject, tally: &mut Tally) -> Result<()> {
    let slots = subject.slots.as_slice();
    let order = Order::Backwards;
    let answer = subject.column.reverse(alloc);
    tally.expect_answer("reverse", answer, &Rows { slots, order })?;
    let words = plain::valid(alloc, slots)?;
    let rows = Rows::of_words(words.as_slice());
    tally.expect_answer("drop_nulls", subject.column.drop_nulls(alloc), &rows)
}

/// `take` by indices in one chunk, in chunks of one row, and in a part of a chunk; `take_slice` by those
/// that aren't null.
fn check_take(
    alloc: Global,
    subject: &Subject,
    indices: &[Option<u32>],
    tally: &mut Tally,
) -> Result<()> {
    let whole = in_one_chunk(alloc, INDEX_NAME, indices)?;
    let part = whole.slice(alloc, 1, usize::MAX);
    let (_, behind) = indices.split_at(indices.len().min(1));
    check_taken(alloc, subject, "take by a slice", part, behind, tally)?;
    check_taken(alloc, subject, "take", Ok(whole), indices, tally)?;
    let parted = in_row_chunks(alloc, INDEX_NAME, indices);
    check_taken(alloc, subject, "take by chunks", parted, indices, tally)?;
    let numbers = plain::valid(alloc, indices)?;
    check_take_slice(alloc, subject, numbers.as_slice(), tally)
}

/// `take` by a column of these indices.
fn check_taken(
    alloc: Global,
    subject: &Subject,
    call: &'static str,
    column: PolarsResult<IdxCa>,
    indices: &[Option<u32>],
    tally: &mut Tally,
) -> Result<()> {
    let slots = subject.slots.as_slice();
    let order = Order::Named(indices);
    let answer = subject.column.take(alloc, &column?);
    tally.expect_answer(call, answer, &Rows { slots, order })
}

/// `take_slice` by these indices.
fn check_take_slice(
    alloc: Global,
    subject: &Subject,
    indices: &[u32],
    tally: &mut Tally,
) -> Result<()> {
    let slots = subject.slots.as_slice();
    let order = Order::Numbered(indices);
    let answer = subject.column.take_slice(alloc, indices);
    tally.expect_answer("take_slice", answer, &Rows { slots, order })
}

/// The first index past the end is named, whatever stands before and behind it.
fn check_outside(alloc: Global, subject: &Subject, rows: u32, tally: &mut Tally) -> Result<()> {
    let past = rows.saturating_add(5);
    for [first, second] in [[rows, past], [past, rows], [u32::MAX, rows]] {
        let refusal = PolarsError::OutOfBounds {
            index: first as usize,
            len: rows as usize,
        };
        let answer = subject.column.take_slice(alloc, &[first, second]);
        tally.expect_refused("take_slice", answer, &refusal);
        let indices = [None, Some(first), None, Some(second)];
        let indices = in_row_chunks(alloc, INDEX_NAME, &indices)?;
        let answer = subject.column.take(alloc, &indices);
        tally.expect_refused("take", answer, &refusal);
    }
    Ok(())
}

/// `new_from_index`: inside, past the end, and at too many rows, of which a row past the end comes
/// first.
fn check_repeats(alloc: Global, subject: &Subject, tally: &mut Tally) -> Result<()> {
    let rows = subject.slots.len();
    for row in [0, rows / 2, rows.saturating_sub(1)] {
        if row < rows {
            check_repeated(alloc, subject, row, tally)?;
        }
    }
    for row in [rows, rows.saturating_add(64), usize::MAX] {
        let refusal = PolarsError::OutOfBounds {
            index: row,
            len: rows,
        };
        for length in [0, 1, ROW_LIMIT] {
            let answer = subject.column.new_from_index(alloc, row, length);
            tally.expect_refused("new_from_index", answer, &refusal);
        }
    }
    Ok(())
}

/// The slot of a row of the column, so many times or too many.
fn check_repeated(alloc: Global, subject: &Subject, row: usize, tally: &mut Tally) -> Result<()> {
    let slots = subject.slots.as_slice();
    for times in REPEATS {
        let order = Order::Repeated { row, times };
        let answer = subject.column.new_from_index(alloc, row, times);
        tally.expect_answer("new_from_index", answer, &Rows { slots, order })?;
    }
    for length in [ROW_LIMIT, usize::MAX] {
        let answer = subject.column.new_from_index(alloc, row, length);
        let refusal = PolarsError::TooLong { len: length as u64 };
        tally.expect_refused("new_from_index", answer, &refusal);
    }
    Ok(())
}
