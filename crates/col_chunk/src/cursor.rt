//! A walk of chunks by runs of rows, for columns whose chunks don't line up.

ghost use Rattle.std.specs.Prelude.{◌≡◌, ◌≤◌, ◌++◌, IfOk, OnOk, drop, length, take};
ghost use Rattle.col_chunk.specs.Chunks.{rows_from, rows_left};

use crate::{ArrayOf, Chunk};
use std::alloc::{AllocError, Global};

/// A place in a column: so many rows into one of its chunks.
#[derive(Clone, Copy)]
pub struct Place {
    pub chunk: usize,
    pub skip: usize,
}

impl Place {
    /// The first row.
    pub fn start() -> Self
        ensures place { result ≡ record { chunk = 0; skip = 0 } }
    {
        Place { chunk: 0, skip: 0 }
    }
}

impl<C: Chunk> ArrayOf<C> {
    /// So many rows from a place on in one chunk, and the place behind them. The same memory where
    /// one chunk has them. A walk from the start on takes the time of the chunks, and of the slots
    /// where rows are asked for that lie in several.
    pub fn next_rows(
        &self,
        alloc: Global,
        place: Place,
        len: usize,
    ) -> Result<(C, Place), AllocError>
        requires inside { len ≤ length (rows_left place.chunk place.skip self.now) }
        ensures slots { IfOk result (λ answer. C.slots answer.0
            ≡ take len (rows_left place.chunk place.skip self.now)) }
        ensures rest { IfOk result (λ answer. rows_left answer.1.chunk answer.1.skip self.now
            ≡ drop len (rows_left place.chunk place.skip self.now)) }
    {
        rows_at(alloc, self.chunks.as_slice(), place, len)
    }
}

/// So many rows of chunks from a place on in one chunk, and the place behind them.
fn rows_at<C: Chunk>(
    alloc: Global,
    chunks: &[C],
    place: Place,
    len: usize,
) -> Result<(C, Place), AllocError>
    requires inside { len ≤ length (rows_from C.slots place.chunk place.skip chunks.now) }
    ensures slots { IfOk result (λ answer. C.slots answer.0
        ≡ take len (rows_from C.slots place.chunk place.skip chunks.now)) }
    ensures rest { IfOk result (λ answer. rows_from C.slots answer.1.chunk answer.1.skip chunks.now
        ≡ drop len (rows_from C.slots place.chunk place.skip chunks.now)) }
{
    let start = first_rows(chunks, place);
    if start.chunk < chunks.len() {
        let chunk = &chunks[start.chunk];
        let size = chunk.len();
        if start.skip <= size && len <= size - start.skip {
            let part = chunk.share(start.skip, len)?;
            let next = Place {
                chunk: start.chunk,
                skip: start.skip + len,
            };
            return Ok((part, next));
        }
    }
    let mut builder = C::builder(alloc, len)?;
    let next = copy_from(chunks, start, len, &mut builder)?;
    let chunk = C::build(alloc, builder)?;
    Ok((chunk, next))
}

/// The same place, in the first chunk that has rows from it on.
fn first_rows<C: Chunk>(chunks: &[C], place: Place) -> Place
    ensures same { rows_from C.slots result.chunk result.skip chunks.now
        ≡ rows_from C.slots place.chunk place.skip chunks.now }
{
    let mut skip = place.skip;
    for at in place.chunk..chunks.len() {
        let size = chunks[at].len();
        if skip < size {
            return Place { chunk: at, skip };
        }
        skip -= size;
    }
    Place {
        chunk: chunks.len(),
        skip: 0,
    }
}

/// Writes so many rows from a place on behind what was written.
fn copy_from<C: Chunk>(
    chunks: &[C],
    place: Place,
    len: usize,
    builder: &mut C::Builder,
) -> Result<Place, AllocError>
    requires inside { len ≤ length (rows_from C.slots place.chunk place.skip chunks.now) }
    ensures slots { OnOk result (C.written builder.new ≡ C.written builder.old
        ++ take len (rows_from C.slots place.chunk place.skip chunks.now)) }
    ensures rest { IfOk result (λ next. rows_from C.slots next.chunk next.skip chunks.now
        ≡ drop len (rows_from C.slots place.chunk place.skip chunks.now)) }
{
    let mut skip = place.skip;
    let mut left = len;
    for at in place.chunk..chunks.len() {
        let chunk = &chunks[at];
        let size = chunk.len();
        if skip >= size {
            skip -= size;
            continue;
        }
        let room = size - skip;
        if left <= room {
            chunk.copy_onto(skip, left, builder)?;
            return Ok(Place {
                chunk: at,
                skip: skip + left,
            });
        }
        chunk.copy_onto(skip, room, builder)?;
        skip = 0;
        left -= room;
    }
    Ok(Place {
        chunk: chunks.len(),
        skip: 0,
    })
}
