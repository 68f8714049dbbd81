//! Cases by hand: that a mask picks rows, picks between two columns, and what is told of nulls. The
//! clauses say the rest.
use crate::same::{has_words, holds};
use col_boolean::{BooleanChunked, NewBoolean};
use col_chunk::Int64Chunked;
use col_filter::{ChunkFilter, ChunkNulls, ChunkZip};
use col_types::{PlSmallStr, PolarsError, PolarsResult};
use std::alloc::Global;
use std::process::Abort;

/// A column of these optional words.
fn words(rt: &impl Abort, alloc: Global, slots: &[Option<i64>]) -> Int64Chunked {
    let name = PlSmallStr::from_str(alloc, "a").expect(rt, "a name");
    Int64Chunked::from_iter_options(alloc, name, slots.iter().copied()).expect(rt, "a column")
}

/// A mask of these optional values.
fn mask(rt: &impl Abort, alloc: Global, slots: &[Option<bool>]) -> BooleanChunked {
    let name = PlSmallStr::from_str(alloc, "m").expect(rt, "a name");
    BooleanChunked::from_iter_options(alloc, name, slots.iter().copied()).expect(rt, "a mask")
}

/// The answer has these slots.
fn gives(rt: &impl Abort, answer: PolarsResult<Int64Chunked>, slots: &[Option<i64>]) {
    has_words(rt, &answer.expect(rt, "rows"), slots);
}

/// The truth values are these.
fn tells(rt: &impl Abort, answer: PolarsResult<BooleanChunked>, values: &[bool]) {
    let column = answer.expect(rt, "truth values");
    let mut alike = column.len() == values.len();
    for (row, value) in values.iter().enumerate() {
        alike = alike && row < column.len() && column.get(row) == Some(*value);
    }
    holds(rt, "other values", alike);
}

/// Whether the lengths 3 and 2 were refused.
fn is_refused(answer: PolarsResult<Int64Chunked>) -> bool {
    matches!(&answer, Err(PolarsError::Lengths { left: 3, right: 2 }))
}

#[test]
fn a_mask_picks_rows(rt: HostRuntime) {
    let alloc = rt.alloc();
    let column = words(&rt, alloc, &[Some(1), None, Some(3)]);
    let picks = mask(&rt, alloc, &[Some(true), Some(false), None]);
    gives(&rt, column.filter(alloc, &picks), &[Some(1)]);
    let all = mask(&rt, alloc, &[Some(true)]);
    gives(&rt, column.filter(alloc, &all), &[Some(1), None, Some(3)]);
    let none = mask(&rt, alloc, &[None]);
    gives(&rt, column.filter(alloc, &none), &[]);
    let short = mask(&rt, alloc, &[Some(true), Some(false)]);
    holds(&rt, "lengths", is_refused(column.filter(alloc, &short)));
}

#[test]
fn a_mask_picks_between_two_columns(rt: HostRuntime) {
    let alloc = rt.alloc();
    let column = words(&rt, alloc, &[Some(1), Some(2), Some(3)]);
    let picks = mask(&rt, alloc, &[Some(true), Some(false), None]);
    let other = words(&rt, alloc, &[Some(9)]);
    let zipped = column.zip_with(alloc, &picks, &other);
    gives(&rt, zipped, &[Some(1), Some(9), Some(9)]);
    let short = mask(&rt, alloc, &[Some(true), Some(false)]);
    let own = column.zip_with(alloc, &short, &other);
    holds(&rt, "own length", is_refused(own));
    let others = other.zip_with(alloc, &short, &column);
    holds(&rt, "other length", is_refused(others));
}

#[test]
fn nulls_are_told(rt: HostRuntime) {
    let alloc = rt.alloc();
    let column = words(&rt, alloc, &[Some(1), None, Some(3)]);
    tells(&rt, column.is_null(alloc), &[false, true, false]);
    tells(&rt, column.is_not_null(alloc), &[true, false, true]);
}

#[test]
fn chunks_that_do_not_line_up(rt: HostRuntime) {
    let alloc = rt.alloc();
    let mut column = words(&rt, alloc, &[Some(1), Some(2)]);
    let tail = words(&rt, alloc, &[Some(3), None, Some(5)]);
    column.append(&tail).expect(&rt, "memory");
    let mut picks = mask(&rt, alloc, &[Some(false), Some(true), Some(true)]);
    let more = mask(&rt, alloc, &[Some(true), Some(false)]);
    picks.append(&more).expect(&rt, "memory");
    gives(&rt, column.filter(alloc, &picks), &[Some(2), Some(3), None]);
    let other = words(&rt, alloc, &[Some(9)]);
    let zipped = column.zip_with(alloc, &picks, &other);
    gives(&rt, zipped, &[Some(9), Some(2), Some(3), None, Some(9)]);
}
