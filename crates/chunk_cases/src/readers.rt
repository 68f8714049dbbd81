// Calls that read a column, make one of plain words, or copy it whole.
use crate::lengths::Lengths;
use crate::plain::{self, Order, Rows};
use crate::subject::{Layout, NAME, OTHER_NAME, Subject};
use crate::tally::Tally;
use anyhow::Result;
use col_chunk::Int64Chunked;
use col_types::{PlSmallStr, PolarsResult};
use std::alloc::Global;

/// `name`, `len`, `null_count`, `get`, `n_chunks`, `chunk_len`, `chunk`.
pub fn check_readers(subject: &Subject, tally: &mut Tally) {
    let column = &subject.column;
    let slots = subject.slots.as_slice();
    let rows = slots.len();
    let mut nulls = 0usize;
    for slot in slots {
        if slot.is_none() {
            nulls = nulls.saturating_add(1);
        }
    }
    tally.expect("name", column.name().as_str() == NAME);
    tally.expect("len", column.len() == rows);
    tally.expect("null_count", column.null_count() == nulls);
    tally.expect_slots("get", column, slots);
    let alike = chunks_have_slots(column, slots, tally);
    tally.expect("chunk", alike);
    // How many rows each chunk has, where the calls that made the column tell it.
    match subject.layout {
        Layout::RowChunks if rows > 0 => {
            tally.expect_lengths("chunk_len", column, &Lengths::Rows(rows));
        }
        Layout::OneChunk | Layout::RowChunks => {
            tally.expect_lengths("chunk_len", column, &Lengths::One(rows));
        }
        Layout::Slice { .. } => {}
    }
}

/// Whether the views of all chunks, one after another, have these slots.
fn chunks_have_slots(column: &Int64Chunked, slots: &[Option<i64>], tally: &mut Tally) -> bool {
    let mut alike = true;
    let mut row = 0usize;
    for index in 0..column.n_chunks() {
        let view = column.chunk(index);
        alike = alike && view.len() == column.chunk_len(index);
        for at in 0..view.len() {
            tally.add_read();
            alike = alike && slots.get(row).copied() == Some(view.get(at));
            row = row.saturating_add(1);
        }
    }
    alike && row == slots.len()
}

/// `from_slice`, `from_vec`, `full_null`.
pub fn check_makers(alloc: Global, subject: &Subject, tally: &mut Tally) -> Result<()> {
    let words = plain::valid(alloc, subject.slots.as_slice())?;
    let name = PlSmallStr::from_str(alloc, NAME)?;
    let answer = Int64Chunked::from_slice(alloc, name, words.as_slice());
    check_made("from_slice", answer, words.as_slice(), tally)?;
    let name = PlSmallStr::from_str(alloc, NAME)?;
    let copy = Vec::from_slice(alloc, words.as_slice())?;
    let answer = Int64Chunked::from_vec(alloc, name, copy);
    check_made("from_vec", answer, words.as_slice(), tally)?;
    let times = subject.slots.len();
    let name = PlSmallStr::from_str(alloc, NAME)?;
    let answer = Int64Chunked::full_null(alloc, name, times);
    let order = Order::Repeated { row: 0, times };
    let rows = Rows {
        slots: &[None],
        order,
    };
    tally.expect_chunks("full_null", answer, &rows, &Lengths::One(times))
}

/// A column of these words in one chunk.
fn check_made(
    call: &'static str,
    answer: PolarsResult<Int64Chunked>,
    words: &[i64],
    tally: &mut Tally,
) -> Result<()> {
    let lengths = Lengths::One(words.len());
    tally.expect_chunks(call, answer, &Rows::of_words(words), &lengths)
}

/// `try_clone`, `rechunk`, `shrink_to_fit`, `rename`.
pub fn check_copies(alloc: Global, subject: &Subject, tally: &mut Tally) -> Result<()> {
    let column = &subject.column;
    let slots = subject.slots.as_slice();
    let order = Order::Each;
    let rows = Rows { slots, order };
    let lengths = Lengths::One(slots.len());
    tally.expect_chunks("rechunk", column.rechunk(alloc), &rows, &lengths)?;
    let lengths = Lengths::Same(column);
    tally.expect_chunks("try_clone", column.try_clone(alloc), &rows, &lengths)?;
    let name = PlSmallStr::from_str(alloc, OTHER_NAME)?;
    let mut copy = column.try_clone(alloc)?;
    copy.rename(name);
    tally.expect_column("rename", &copy, OTHER_NAME, &rows);
    copy.shrink_to_fit()?;
    tally.expect_column("shrink_to_fit", &copy, OTHER_NAME, &rows);
    tally.expect_lengths("shrink_to_fit", &copy, &lengths);
    tally.expect_slots("the copied one", column, slots);
    Ok(())
}
