//! The slots of a column of words, read one after another where they lie.

ghost use Rattle.std.specs.Prelude.{◌≡◌, ◌<◌, ◌≤◌, ◌^◌, [], length, slice_index_or};
ghost use Rattle.std.specs.Iterator.{YieldsFirstBy};
ghost use Rattle.std.specs.Option.{option_map};
ghost use Rattle.col_model.specs.Value.{whole};
ghost use Rattle.col_chunk.specs.Chunks.{rows_from};

use col_chunk::{Chunk, ChunkedArray, Place, View, Word, WordChunk};
use std::marker::Model;

/// The slots from a place on. Contracts see their list.
#[derive(Drop)]
pub(crate) struct Slots<'a, T: Word> {
    chunks: &'a [WordChunk<T>],
    chunk: usize,
    skip: usize,
    left: usize,
}

impl<'a, T: Word> Model for Slots<'a, T> {
    ghost use Rattle.std.specs.Prelude.{◌≡◌, List, Option, length};
    ghost use Rattle.col_model.specs.Value.{Value as SlotValue};
    ghost use Rattle.col_chunk.specs.Chunks.{rows_from};

    ghost Value = { List (Option SlotValue) };

    ghost view = { λ s. rows_from (λ chunk. chunk) s.chunk s.skip s.chunks.now };

    ghost invariant = { λ s. s.left
        ≡ length (rows_from (λ chunk. chunk) s.chunk s.skip s.chunks.now) };
}

impl<'a, T: Word> Slots<'a, T> {
    /// All slots of a column.
    pub(crate) fn of(array: &'a ChunkedArray<T>) -> Self
        ensures slots { result ≡ array.now.column.slots }
        ensures short { length result < 2 ^ 32 }
    {
        Slots {
            chunks: array.chunks(),
            chunk: 0,
            skip: 0,
            left: array.len(),
        }
    }

    /// How many there are.
    pub(crate) fn remaining(&self) -> usize
        ensures slots { result ≡ length self.now }
    {
        self.left
    }

    /// Takes the first of them.
    pub(crate) fn take_first(&mut self) -> Option<Option<T>>
        ensures first { YieldsFirstBy (λ slot. option_map (λ x. whole (T.reading x)) slot)
            (λ rest. rest) self.old result self.new }
    {
        if self.left == 0 {
            return None;
        }
        let place = first_rows(self.chunks, self.chunk, self.skip);
        if place.chunk == self.chunks.len() {
            return None;
        }
        let slot = self.chunks[place.chunk].get(place.skip);
        self.chunk = place.chunk;
        self.skip = place.skip + 1;
        self.left -= 1;
        Some(slot)
    }
}

/// The same place in chunks, in the first one that has rows from it on.
fn first_rows<T: Word>(chunks: &[WordChunk<T>], chunk: usize, skip: usize) -> Place
    ensures same { rows_from (λ chunk. chunk) result.chunk result.skip chunks.now
        ≡ rows_from (λ chunk. chunk) chunk skip chunks.now }
    ensures chunk { result.chunk ≤ length chunks.now }
    ensures room { result.skip < usize.MAX }
    ensures inside { result.chunk < length chunks.now
        → result.skip < length (slice_index_or chunks.now result.chunk []) }
{
    let mut skip = skip;
    for at in chunk..chunks.len() {
        let size = chunks[at].len();
        if skip < size {
            return Place { chunk: at, skip };
        }
        skip -= size;
    }
    Place {
        chunk: chunks.len(),
        skip: 0,
    }
}
