//! Rows by their numbers.

ghost use Rattle.std.specs.Prelude.{◌≡◌, ◌+◌, ◌-◌, ◌<◌, ◌≤◌, ◌^◌, ◌∷◌, ◌++◌, [], IfOk, List, None, OnOk, Option, length, map, pos, slice_index_or};
ghost use Rattle.std.specs.List.{find};
ghost use Rattle.std.specs.Option.{option_and_then};
ghost use Rattle.col_types.specs.PolarsError.{GivesBy};
ghost use Rattle.col_model.specs.Value.{Value};
ghost use Rattle.col_model.specs.Chunked.{column_of};
ghost use Rattle.col_model.specs.ChunkCalls.{is_outside, named_row, slot_named, taken};
ghost use Rattle.col_chunk.specs.Chunks.{joined, row_past, starts_of, word_slots};

use crate::array::{ROW_LIMIT, of_one, shared, whole};
use crate::{ArrayOf, Chunk, IdxCa, View, WordChunk};
use col_kernel::Word;
use col_types::{IdxSize, IsSorted, PolarsError, PolarsResult};
use std::alloc::{AllocError, Global};

impl<C: Chunk> ArrayOf<C> {
    /// The rows that indices name, null for a null one. Refused where one is past the end, with the
    /// first such index (`OutOfBounds`). Each row's chunk is found by halving, in one
    /// chunk of all rows where many are asked for.
    pub fn take(&self, alloc: Global, indices: &IdxCa) -> PolarsResult<Self>
        ensures column { GivesBy column_of result
            (taken indices.now.column.slots self.now.column) }
    {
        match first_outside(indices.chunks.as_slice(), self.len) {
            Some(index) => {
                return Err(PolarsError::OutOfBounds {
                    index,
                    len: self.len,
                });
            }
            None => {}
        }
        let name = self.name.clone()?;
        let chunks = chunks_for(alloc, self.chunks.as_slice(), self.len, indices.len)?;
        let chunk = gathered(
            alloc,
            chunks.as_slice(),
            indices.chunks.as_slice(),
            indices.len,
        )?;
        of_one(alloc, name, chunk, IsSorted::Not)
    }

    /// The rows of these numbers. Refused where one is past the end, with the first such number
    /// (`OutOfBounds`), then at 2^32 numbers or more (`TooLong`).
    pub fn take_slice(&self, alloc: Global, indices: &[IdxSize]) -> PolarsResult<Self>
        ensures column { GivesBy column_of result
            (taken (word_slots ⟦<u32 as Word>⟧.reading indices.now) self.now.column) }
    {
        let numbers = Numbers { numbers: indices };
        match outside_in(&numbers, self.len) {
            Some(index) => {
                return Err(PolarsError::OutOfBounds {
                    index,
                    len: self.len,
                });
            }
            None => {}
        }
        let len = indices.len();
        if len >= ROW_LIMIT {
            return Err(PolarsError::TooLong { len: len as u64 });
        }
        let name = self.name.clone()?;
        let chunks = chunks_for(alloc, self.chunks.as_slice(), self.len, len)?;
        let chunk = gathered_one(alloc, chunks.as_slice(), &numbers)?;
        of_one(alloc, name, chunk, IsSorted::Not)
    }
}

/// Numbers of rows, null or not, one after another.
trait Indices {
    /// The numbers as slots.
    ghost rows: { Self → List (Option Value) };

    /// How many there are.
    fn count(&self) -> usize
        ensures count { result ≡ length (rows self.now) };

    /// The row that one names, none for a null one.
    fn row_at(&self, at: usize) -> Option<usize>
        requires inside { at < length (rows self.now) }
        ensures row { result ≡ named_row (slice_index_or (rows self.now) at None) };
}

impl Indices for WordChunk<IdxSize> {
    ghost rows = { λ chunk. chunk };

    fn count(&self) -> usize {
        self.len()
    }

    fn row_at(&self, at: usize) -> Option<usize> {
        match self.get(at) {
            Some(index) => Some(row_of(index)),
            None => None,
        }
    }
}

/// Numbers of rows, none of them null.
#[derive(Drop)]
struct Numbers<'a> {
    numbers: &'a [IdxSize],
}

impl<'a> Indices for Numbers<'a> {
    ghost rows = { λ list. word_slots ⟦<u32 as Word>⟧.reading list.numbers.now };

    fn count(&self) -> usize {
        self.numbers.len()
    }

    fn row_at(&self, at: usize) -> Option<usize> {
        Some(row_of(self.numbers[at]))
    }
}

/// The row of a number.
fn row_of(index: IdxSize) -> usize
    ensures row { ⟦<u32 as Word>⟧.reading index ≡ pos result }
{
    index as usize
}

/// The row, where it is past the end.
fn row_past(rows: usize, row: Option<usize>) -> Option<usize>
    ensures row { result ≡ row_past rows row }
{
    match row {
        Some(row) if row >= rows => Some(row),
        _ => None,
    }
}

/// The first index past the end, if there is one.
fn first_outside(indices: &[WordChunk<IdxSize>], rows: usize) -> Option<usize>
    ensures index { result ≡ option_and_then named_row
        (find (is_outside rows) (joined (λ chunk. chunk) indices.now)) }
{
    for chunk in indices {
        match outside_in(chunk, rows) {
            Some(index) => return Some(index),
            None => {}
        }
    }
    None
}

/// The first index past the end in one run of them.
fn outside_in<I: Indices>(indices: &I, rows: usize) -> Option<usize>
    ensures index { result ≡ option_and_then named_row
        (find (is_outside rows) (I.rows indices.now)) }
{
    for at in 0..indices.count() {
        match row_past(rows, indices.row_at(at)) {
            Some(index) => return Some(index),
            None => {}
        }
    }
    None
}

/// The same chunks, or one of all rows where an eighth of the rows or more are asked for: to copy all
/// of them once costs less then than to look for each one's chunk.
fn chunks_for<C: Chunk>(
    alloc: Global,
    chunks: &[C],
    rows: usize,
    count: usize,
) -> Result<Vec<C>, AllocError>
    requires rows { rows ≡ length (joined C.slots chunks.now) }
    ensures slots { IfOk result (λ copies. joined C.slots copies.items
        ≡ joined C.slots chunks.now) }
{
    if count < rows / 8 {
        return shared(alloc, chunks);
    }
    let mut all = Vec::new(alloc);
    all.push(whole(alloc, chunks, rows)?)?;
    Ok(all)
}

/// The slots that the indices of chunks name.
fn gathered<C: Chunk>(
    alloc: Global,
    chunks: &[C],
    indices: &[WordChunk<IdxSize>],
    room: usize,
) -> Result<C, AllocError>
    requires short { length (joined C.slots chunks.now) < 2 ^ 32 }
    ensures slots { IfOk result (λ answer. C.slots answer
        ≡ map (slot_named (joined C.slots chunks.now)) (joined (λ chunk. chunk) indices.now)) }
{
    let starts = starts(alloc, chunks)?;
    let null = C::nulls(alloc, 1)?;
    let mut builder = C::builder(alloc, room)?;
    for part in indices {
        gather_onto(chunks, starts.as_slice(), &null, part, &mut builder)?;
    }
    C::build(alloc, builder)
}

/// The slots that one run of indices names.
fn gathered_one<C: Chunk, I: Indices>(
    alloc: Global,
    chunks: &[C],
    indices: &I,
) -> Result<C, AllocError>
    requires short { length (joined C.slots chunks.now) < 2 ^ 32 }
    ensures slots { IfOk result (λ answer. C.slots answer
        ≡ map (slot_named (joined C.slots chunks.now)) (I.rows indices.now)) }
{
    let starts = starts(alloc, chunks)?;
    let null = C::nulls(alloc, 1)?;
    let mut builder = C::builder(alloc, indices.count())?;
    gather_onto(chunks, starts.as_slice(), &null, indices, &mut builder)?;
    C::build(alloc, builder)
}

/// Writes the slots that indices name behind what was written.
fn gather_onto<C: Chunk, I: Indices>(
    chunks: &[C],
    starts: &[usize],
    null: &C,
    indices: &I,
    builder: &mut C::Builder,
) -> Result<(), AllocError>
    requires starts { starts.now ≡ starts_of C.slots 0 chunks.now }
    requires null { C.slots null.now ≡ None ∷ [] }
    ensures slots { OnOk result (C.written builder.new ≡ C.written builder.old
        ++ map (slot_named (joined C.slots chunks.now)) (I.rows indices.now)) }
{
    for at in 0..indices.count() {
        push_row(chunks, starts, null, indices.row_at(at), builder)?;
    }
    Ok(())
}

/// Writes the slot of a row, null where there is none.
#[tactic(auto, using(crate::proofs::StartLaws::start_laws))]
fn push_row<C: Chunk>(
    chunks: &[C],
    starts: &[usize],
    null: &C,
    row: Option<usize>,
    builder: &mut C::Builder,
) -> Result<(), AllocError>
    requires starts { starts.now ≡ starts_of C.slots 0 chunks.now }
    requires null { C.slots null.now ≡ None ∷ [] }
    ensures slots { OnOk result (C.written builder.new ≡ C.written builder.old
        ++ option_and_then (λ row. slice_index_or (joined C.slots chunks.now) row None) row ∷ []) }
{
    match row {
        Some(row) => {
            if row < starts[chunks.len()] {
                let (chunk, place) = halved(chunks, starts, row);
                return chunk.push_onto(place, builder);
            }
        }
        None => {}
    }
    null.push_onto(0, builder)
}

/// Where each chunk starts, and where the last one ends.
fn starts<C: Chunk>(alloc: Global, chunks: &[C]) -> Result<Vec<usize>, AllocError>
    requires short { length (joined C.slots chunks.now) < 2 ^ 32 }
    ensures starts { IfOk result (λ starts. starts.items ≡ starts_of C.slots 0 chunks.now) }
{
    let mut starts = Vec::new(alloc);
    let mut rows = 0;
    for chunk in chunks {
        starts.push(rows)?;
        rows += chunk.len();
    }
    starts.push(rows)?;
    Ok(starts)
}

/// The chunk that has a row, and where it has it, found by halving.
#[tactic(auto, using(crate::proofs::StartLaws::start_laws))]
fn halved<'a, C: Chunk>(chunks: &'a [C], starts: &[usize], row: usize) -> (&'a C, usize)
    requires starts { starts.now ≡ starts_of C.slots 0 chunks.now }
    requires row { row < length (joined C.slots chunks.now) }
    ensures inside { result.1 < length (C.slots result.0.now) }
    ensures slot { slice_index_or (C.slots result.0.now) result.1 None
        ≡ slice_index_or (joined C.slots chunks.now) row None }
{
    let at = halving(starts, row);
    (&chunks[at], row - starts[at])
}

/// The last of ascending starts, but for the one behind all, that isn't past a row.
fn halving(starts: &[usize], row: usize) -> usize
    requires first { slice_index_or starts.now 0 0 ≡ 0 }
    requires behind { row < slice_index_or starts.now (length starts.now - 1) 0 }
    ensures at { result + 1 < length starts.now }
    ensures from { slice_index_or starts.now result 0 ≤ row }
    ensures to { row < slice_index_or starts.now (result + 1) 0 }
{
    let mut low = 0;
    let mut high = starts.len() - 1;
    while high - low > 1 {
        let middle = low + (high - low) / 2;
        if starts[middle] <= row {
            low = middle;
        } else {
            high = middle;
        }
    }
    low
}
