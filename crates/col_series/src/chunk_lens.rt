//! The lengths of a column's chunks.

ghost use Rattle.std.specs.Prelude.{◌≡◌, ◌<◌, length, slice_index};
ghost use Rattle.std.specs.Iterator.{YieldsFirstBy, item_count};

use crate::columns::Physical;
use crate::series::Series;
use std::marker::Model;

/// The lengths of a column's chunks, in order.
#[derive(Drop)]
pub struct ChunkLenIter<'a> {
    column: &'a Series,
    next: usize,
}

impl<'a> Model for ChunkLenIter<'a> {
    ghost use Rattle.std.specs.Prelude.{◌≤◌, ℕ, List, length, drop};

    ghost Value = { List ℕ };

    ghost view = { λ it. drop it.next it.column.now.chunk_lengths };

    ghost invariant = { λ it. it.next ≤ length it.column.now.chunk_lengths };
}

impl<'a> Iterator for ChunkLenIter<'a> {
    type Item = usize;

    ghost next_gives = { YieldsFirstBy (λ len. len) (λ rest. rest) };

    ghost remaining = { item_count (λ rest. rest) };

    fn next(&mut self) -> Option<usize> {
        if self.next == self.column.n_chunks() {
            return None;
        }
        let len = self.column.chunk_len(self.next);
        self.next += 1;
        Some(len)
    }
}

impl Series {
    /// The number of rows of each chunk, in order. It takes no memory.
    pub fn chunk_lengths(&self) -> ChunkLenIter<'_>
        ensures lengths { result ≡ self.now.chunk_lengths }
    {
        ChunkLenIter {
            column: self,
            next: 0,
        }
    }

    /// The number of rows of a chunk.
    fn chunk_len(&self, index: usize) -> usize
        requires chunk { index < length self.now.chunk_lengths }
        ensures rows { result ≡ slice_index self.now.chunk_lengths index }
    {
        match self.physical() {
            Physical::Int32(words) => words.chunk_len(index),
            Physical::Int64(words) => words.chunk_len(index),
        }
    }
}
