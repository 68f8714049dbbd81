//! Calls of columns of moments and lengths of time, over the words of a column.

use anyhow::Result;
use col_arith::SeriesArith;
use col_chunk::Int64Chunked;
use col_series::{DataType, Series, TimeUnit};
use std::alloc::Global;

const MICROS: TimeUnit = TimeUnit::Microseconds;

/// The words as moments in microseconds, in the same memory.
fn moments(alloc: Global, words: &Int64Chunked) -> Result<Series> {
    let words = words.try_clone(alloc)?;
    Ok(Series::from_int64(alloc, words, DataType::Datetime(MICROS, None))?)
}

/// The same as lengths of time.
fn lengths(alloc: Global, words: &Int64Chunked) -> Result<Series> {
    let words = words.try_clone(alloc)?;
    Ok(Series::from_int64(alloc, words, DataType::Duration(MICROS))?)
}

/// The moments with the lengths of time added.
pub fn later(alloc: Global, words: &Int64Chunked) -> Result<Series> {
    let moments = moments(alloc, words)?;
    let lengths = lengths(alloc, words)?;
    Ok(moments.try_add(alloc, &lengths)?)
}

/// The moments in another unit.
pub fn in_unit(alloc: Global, words: &Int64Chunked, unit: TimeUnit) -> Result<Series> {
    let moments = moments(alloc, words)?;
    Ok(moments.cast(alloc, &DataType::Datetime(unit, None))?)
}
