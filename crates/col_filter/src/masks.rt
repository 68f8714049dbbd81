//! Masks: which of their rows are true.

ghost use Rattle.std.specs.Prelude.{◌≡◌, ◌<◌, IfOk, None, count_by, length, slice_index_or};
ghost use Rattle.col_filter.specs.Filters.{is_true_slot, spread_slots};

use col_boolean::{BitChunk, BooleanChunked};
use col_chunk::{Chunk, View};
use std::alloc::{AllocError, Global};

/// Whether a mask is true in a row. A null is not.
pub(crate) fn holds(mask: &BitChunk, row: usize) -> bool
    requires inside { row < length mask.now }
    ensures holds { result ≡ is_true_slot (slice_index_or mask.now row None) }
{
    match mask.get(row) {
        Some(value) => value,
        None => false,
    }
}

/// How many rows of a mask are true.
pub(crate) fn count_true(mask: &BitChunk) -> usize
    ensures count { result ≡ count_by is_true_slot mask.now }
{
    let mut count = 0;
    for row in 0..mask.len() {
        if holds(mask, row) {
            count += 1;
        }
    }
    count
}

/// A mask for so many rows in one chunk: one row alone stands for all.
pub(crate) fn spread(
    alloc: Global,
    mask: &BooleanChunked,
    rows: usize,
) -> Result<BitChunk, AllocError>
    ensures slots { IfOk result (λ chunk. chunk ≡ spread_slots rows mask.now.column.slots) }
{
    let chunk = mask.to_chunk(alloc)?;
    if chunk.len() == 1 {
        return chunk.repeat(alloc, 0, rows);
    }
    Ok(chunk)
}
