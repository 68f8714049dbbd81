//! Columns of any type from typed ones, and back: that each call succeeds, at values by hand.

use crate::same::holds;
use col_chunk::{ChunkedArray, Word};
use col_logical::{Int32Logical, Int64Logical};
use col_series::*;
use std::alloc::Global;
use std::process::Abort;

const MILLIS: TimeUnit = TimeUnit::Milliseconds;

/// A column of these words in a chunk each, behind a chunk without rows, named `t`.
fn words<T: Word>(rt: &impl Abort, alloc: Global, values: &[T]) -> ChunkedArray<T> {
    let name = PlSmallStr::from_str(alloc, "t").expect(rt, "a name");
    let mut column = ChunkedArray::from_slice(alloc, name, &values[..0]).expect(rt, "no row");
    for value in values {
        let name = PlSmallStr::from_str(alloc, "t").expect(rt, "a name");
        let row = ChunkedArray::from_slice(alloc, name, &[*value]).expect(rt, "a row");
        column.append(&row).expect(rt, "a row more");
    }
    column
}

/// How many bits the column's words have.
fn bits(column: &Series) -> u32 {
    match column.physical() {
        Physical::Int32(_) => 32,
        Physical::Int64(_) => 64,
    }
}

/// The column's chunks have so many rows in all, and there are so many of them.
fn has_chunks(rt: &impl Abort, column: &Series, chunks: usize, rows: usize) {
    let mut sum = 0usize;
    let mut count = 0usize;
    for len in column.chunk_lengths() {
        sum = sum.wrapping_add(len);
        count = count.wrapping_add(1);
    }
    let counted = column.n_chunks() == chunks && count == chunks;
    holds(rt, "chunks", counted && sum == rows);
}

#[test]
fn dates_are_words_of_32_bits(rt: HostRuntime) {
    let alloc = rt.alloc();
    let column = words(&rt, alloc, [7i32, -1].as_slice())
        .into_date()
        .into_series(alloc)
        .expect(&rt, "dates");
    has_chunks(&rt, &column, 3, 2);
    holds(&rt, "type", column.date().is_ok() && column.time().is_err());
    holds(&rt, "bits", bits(&column) == 32);
}

#[test]
fn moments_are_words_of_64_bits(rt: HostRuntime) {
    let alloc = rt.alloc();
    let moments = words(&rt, alloc, [7i64].as_slice()).into_datetime(MILLIS, None);
    let column = moments.into_series(alloc).expect(&rt, "moments");
    holds(
        &rt,
        "type",
        column.datetime().is_ok() && column.duration().is_err(),
    );
    holds(&rt, "bits", bits(&column) == 64);
    holds(&rt, "nulls", column.null_count() == 0);
}

#[test]
fn lengths_and_times_are_told_apart(rt: HostRuntime) {
    let alloc = rt.alloc();
    let lengths = words(&rt, alloc, [7i64].as_slice())
        .into_duration(MILLIS)
        .into_series(alloc)
        .expect(&rt, "lengths");
    holds(
        &rt,
        "type",
        lengths.duration().is_ok() && lengths.datetime().is_err(),
    );
    let times = words(&rt, alloc, [7i64].as_slice())
        .into_time(alloc)
        .expect(&rt, "times");
    let times = times.into_series(alloc).expect(&rt, "times");
    holds(&rt, "type", times.time().is_ok() && times.date().is_err());
}
