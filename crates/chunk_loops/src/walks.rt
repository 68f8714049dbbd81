// Sums by walks, which ask the column for no row by its number.
use anyhow::Result;
use col_chunk::{Chunk, Int64Chunked, Place, View, WordChunk};
use std::alloc::Global;

/// How many rows a run has, but for the last one: those of a chunk of another column, say.
const RUN: usize = 1_000;

/// The sum by views of the chunks.
pub fn sum_by_views(column: &Int64Chunked) -> i64 {
    let mut total = 0i64;
    for index in 0..column.n_chunks() {
        let view = column.chunk(index);
        for row in 0..view.len() {
            total = total.wrapping_add(view.get(row).unwrap_or(0));
        }
    }
    total
}

/// The sum by runs of rows, which needn't be those of the chunks.
pub fn sum_by_runs(alloc: Global, column: &Int64Chunked) -> Result<i64> {
    let mut total = 0i64;
    let mut place = Place::start();
    let mut left = column.len();
    while left > 0 {
        let rows = left.min(RUN);
        let (chunk, next) = column.next_rows(alloc, place, rows)?;
        total = total.wrapping_add(sum_of(&chunk));
        place = next;
        left -= rows;
    }
    Ok(total)
}

fn sum_of(chunk: &WordChunk<i64>) -> i64 {
    let mut total = 0i64;
    for row in 0..chunk.len() {
        total = total.wrapping_add(chunk.get(row).unwrap_or(0));
    }
    total
}
