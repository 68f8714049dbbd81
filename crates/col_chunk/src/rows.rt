//! Rows that are copied: backwards, without nulls, one so many times.

ghost use Rattle.std.specs.Prelude.{◌≡◌, ◌+◌, ◌++◌, ◌<◌, IfOk, OnOk, Ok, filter, is_some, length, reverse};
ghost use Rattle.col_types.specs.PolarsError.{GivesBy};
ghost use Rattle.col_model.specs.Chunked.{column_of};
ghost use Rattle.col_model.specs.ChunkCalls.{repeated, turned, without_nulls};
ghost use Rattle.col_chunk.specs.Chunks.{joined};

use crate::array::{ROW_LIMIT, of_one, place_of, whole};
use crate::{ArrayOf, Chunk};
use col_types::{IsSorted, PolarsError, PolarsResult};
use std::alloc::{AllocError, Global};

impl<C: Chunk> ArrayOf<C> {
    /// The rows from the last to the first.
    pub fn reverse(&self, alloc: Global) -> PolarsResult<Self>
        ensures column { GivesBy column_of result (Ok (turned self.now.column)) }
    {
        let name = self.name.clone()?;
        let all = whole(alloc, self.chunks.as_slice(), self.len)?;
        let chunk = turned_chunk(alloc, &all)?;
        of_one(alloc, name, chunk, self.flag.reverse())
    }

    /// The valid rows.
    pub fn drop_nulls(&self, alloc: Global) -> PolarsResult<Self>
        ensures column { GivesBy column_of result (Ok (without_nulls self.now.column)) }
    {
        let name = self.name.clone()?;
        let chunk = valid_slots(alloc, self.chunks.as_slice(), self.len)?;
        of_one(alloc, name, chunk, self.flag)
    }

    /// The slot of a row, so many times. Refused where there is no such row (`OutOfBounds`), then at
    /// 2^32 rows or more (`TooLong`).
    pub fn new_from_index(&self, alloc: Global, index: usize, length: usize) -> PolarsResult<Self>
        ensures column { GivesBy column_of result (repeated index length self.now.column) }
    {
        if index >= self.len {
            return Err(PolarsError::OutOfBounds {
                index,
                len: self.len,
            });
        }
        if length >= ROW_LIMIT {
            return Err(PolarsError::TooLong { len: length as u64 });
        }
        let name = self.name.clone()?;
        let (chunk, place) = place_of(self.chunks.as_slice(), index);
        let chunk = chunk.repeat(alloc, place, length)?;
        of_one(alloc, name, chunk, IsSorted::Not)
    }
}

/// The slots from the last to the first.
fn turned_chunk<C: Chunk>(alloc: Global, chunk: &C) -> Result<C, AllocError>
    ensures slots { IfOk result (λ answer. C.slots answer ≡ reverse (C.slots chunk.now)) }
{
    let mut builder = C::builder(alloc, chunk.len())?;
    let mut left = chunk.len();
    while left > 0 {
        left -= 1;
        chunk.push_onto(left, &mut builder)?;
    }
    C::build(alloc, builder)
}

/// The valid slots of the chunks.
fn valid_slots<C: Chunk>(alloc: Global, chunks: &[C], room: usize) -> Result<C, AllocError>
    ensures slots { IfOk result (λ answer. C.slots answer
        ≡ filter is_some (joined C.slots chunks.now)) }
{
    let mut builder = C::builder(alloc, room)?;
    for chunk in chunks {
        keep_valid(chunk, &mut builder)?;
    }
    C::build(alloc, builder)
}

/// Writes the valid slots of a chunk behind what was written.
fn keep_valid<C: Chunk>(chunk: &C, builder: &mut C::Builder) -> Result<(), AllocError>
    ensures slots { OnOk result (C.written builder.new ≡ C.written builder.old
        ++ filter is_some (C.slots chunk.now)) }
{
    for index in 0..chunk.len() {
        if chunk.is_valid(index) {
            chunk.push_onto(index, builder)?;
        }
    }
    Ok(())
}
