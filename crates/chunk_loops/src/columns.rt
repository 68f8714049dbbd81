// The columns that the calls are made on.
use anyhow::{Result, ensure};
use col_chunk::{IdxCa, Int64Chunked};
use col_types::{PlSmallStr, PolarsError, PolarsResult};
use std::alloc::Global;

/// A word that looks random, from the one before it.
fn word_after(word: i64) -> i64 {
    word.wrapping_mul(6_364_136_223_846_793_005)
        .wrapping_add(1_442_695_040_888_963_407)
}

/// Writes a slot. Refused where there is no such row (`OutOfBounds`).
fn set_slot(column: &mut Int64Chunked, row: usize, slot: Option<i64>) -> PolarsResult<()> {
    let len = column.len();
    if row >= len {
        return Err(PolarsError::OutOfBounds { index: row, len });
    }
    column.set_slot(row, slot)
}

/// Writes a word. Refused where there is no such row (`OutOfBounds`).
pub fn set_word(column: &mut Int64Chunked, row: usize, word: i64) -> PolarsResult<()> {
    set_slot(column, row, Some(word))
}

/// A column of the words from a row on, in one chunk, where each slot of a row that the step divides is
/// null, unless the step is 0.
fn chunk_of(alloc: Global, words: &[i64], first: usize, null_step: usize) -> Result<Int64Chunked> {
    let name = PlSmallStr::from_str(alloc, "words")?;
    let mut column = Int64Chunked::from_slice(alloc, name, words)?;
    if null_step > 0 {
        for row in 0..words.len() {
            if first.wrapping_add(row) % null_step == 0 {
                set_slot(&mut column, row, None)?;
            }
        }
    }
    Ok(column)
}

/// So many words of 48 bits, which so fit as ticks of a finer unit.
fn words(alloc: Global, rows: usize) -> Result<Vec<i64>> {
    let mut words = Vec::with_capacity(alloc, rows)?;
    let mut word = 1i64;
    for _ in 0..rows {
        word = word_after(word);
        words.push(word >> 16)?;
    }
    Ok(words)
}

/// A column of so many words in chunks of so many rows, which are parts of one buffer, as those of a
/// script are, or in memory of their own.
pub fn column_of(
    alloc: Global,
    rows: usize,
    null_step: usize,
    chunk_rows: usize,
    memory: &str,
) -> Result<Int64Chunked> {
    ensure!(chunk_rows > 0, "chunks without rows");
    let words = words(alloc, rows)?;
    let whole = chunk_of(alloc, words.as_slice(), 0, null_step)?;
    let mut column = whole.slice(alloc, 0, 0)?;
    let mut first = 0usize;
    for words in words.as_slice().chunks(chunk_rows) {
        let part = match memory {
            "shared" => {
                let offset = i64::try_from(first).unwrap_or(i64::MAX);
                whole.slice(alloc, offset, words.len())?
            }
            _ => chunk_of(alloc, words, first, null_step)?,
        };
        column.append(&part)?;
        first = first.wrapping_add(chunk_rows);
    }
    Ok(column)
}

/// Each row of the column once, far apart.
pub fn scattered_rows(alloc: Global, rows: usize) -> Result<IdxCa> {
    let mut scattered = Vec::with_capacity(alloc, rows)?;
    for at in 0..rows {
        scattered.push(row_at(at, rows))?;
    }
    Ok(IdxCa::from_vec(alloc, PlSmallStr::from_str(alloc, "rows")?, scattered)?)
}

/// The row at a place of scattered ones: 7,919 is prime, so no row comes twice unless it divides their
/// number.
fn row_at(at: usize, rows: usize) -> u32 {
    let row = at.wrapping_mul(7_919).checked_rem(rows).unwrap_or(0);
    u32::try_from(row).unwrap_or(0)
}
