// Walks of a column by runs of rows, which needn't be those of its chunks.
use crate::subject::Subject;
use crate::tally::Tally;
use anyhow::Result;
use col_chunk::{Chunk, Place, View, WordChunk};
use std::alloc::Global;

/// How many rows each run has, but for the last one.
const RUNS: [usize; 5] = [1, 7, 63, 64, 200];

/// `next_rows` from the first row to the last.
pub fn check_walks(alloc: Global, subject: &Subject, tally: &mut Tally) -> Result<()> {
    for run in RUNS {
        let alike = walk_has_slots(alloc, subject, run, tally)?;
        tally.expect("next_rows", alike);
    }
    Ok(())
}

/// Whether the runs, one after another, have the column's slots.
fn walk_has_slots(alloc: Global, subject: &Subject, run: usize, tally: &mut Tally) -> Result<bool> {
    let column = &subject.column;
    let mut slots = subject.slots.as_slice();
    let mut alike = true;
    let mut place = Place::start();
    let mut left = column.len();
    while left > 0 {
        let rows = left.min(run.max(1));
        let (chunk, next) = column.next_rows(alloc, place, rows)?;
        let (front, rest) = slots.split_at(rows.min(slots.len()));
        alike = alike && run_has_slots(&chunk, front, tally);
        slots = rest;
        place = next;
        left -= rows;
    }
    Ok(alike && slots.is_empty())
}

/// Whether a run of rows has exactly these slots.
fn run_has_slots(chunk: &WordChunk<i64>, slots: &[Option<i64>], tally: &mut Tally) -> bool {
    let mut alike = chunk.len() == slots.len();
    for row in 0..chunk.len() {
        tally.add_read();
        alike = alike && slots.get(row).copied() == Some(chunk.get(row));
    }
    alike
}
