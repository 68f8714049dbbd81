//! A column in chunks, whatever its chunks keep.

ghost use Rattle.std.specs.Prelude.{◌≡◌, true, ◌+◌, ◌<◌, ◌^◌, IfOk, None, Ok, length, slice_index, slice_index_or};
ghost use Rattle.std.specs.List.{list_all};
ghost use Rattle.col_types.specs.PolarsError.{Becomes, Gives};
ghost use Rattle.col_types.specs.declared.is_sorted.IsSorted.TheVariants.{Not};
ghost use Rattle.col_model.specs.Chunked.{in_one_chunk};
ghost use Rattle.col_model.specs.ChunkCalls.{new_column, null_column, null_count, renamed};
ghost use Rattle.col_model.specs.Sortedness.{is_flag_true};
ghost use Rattle.col_chunk.specs.Chunks.{joined, lengths_of};

use crate::{Chunk, View};
use col_types::{IsSorted, PlSmallStr, PolarsError, PolarsResult};
use std::alloc::{AllocError, Global};
use std::marker::Model;

/// A column has fewer rows than this.
pub const ROW_LIMIT: usize = 1 << 32;

/// A column: a name, a claim on the order of its slots, and chunks.
#[derive(Drop)]
pub struct ArrayOf<C: Chunk> {
    pub(crate) name: PlSmallStr,
    pub(crate) chunks: Vec<C>,
    pub(crate) len: usize,
    pub(crate) flag: IsSorted,
}

impl<C: Chunk> Model for ArrayOf<C> {
    ghost use Rattle.std.specs.Coded.{codes};
    ghost use Rattle.col_types.specs.contracts.data_type.DataType as data_type;
    ghost use Rattle.col_model.specs.Chunked.{Chunked};

    ghost Value = { Chunked };

    ghost coded = { Prim.hlevel (codes, data_type.the_row.coded) };

    ghost use Rattle.std.specs.Prelude.{◌≡◌, ◌<◌, ◌^◌, length};
    ghost use Rattle.col_types.specs.declared.is_sorted.IsSorted.TheVariants.{Not};
    ghost use Rattle.col_chunk.specs.Chunks.{joined, lengths_of};

    ghost view = { λ a. record {
      column = record {
        name = a.name;
        dtype = C.dtype;
        slots =
            joined C.slots a.chunks.items;
        flag = a.flag;
      };
      chunk_lengths = lengths_of C.slots
          a.chunks.items;
    } };

    ghost invariant = { λ a. (a.len
        ≡ length (joined C.slots a.chunks.items)) × (a.len < 2 ^ 32) × (a.flag ≡ Not) };
}

impl<C: Chunk> ArrayOf<C> {
    /// A column of one chunk. Refused at 2^32 rows or more (`TooLong`).
    pub fn from_chunk(alloc: Global, name: PlSmallStr, chunk: C) -> PolarsResult<Self>
        ensures column { Gives result (new_column name C.dtype (C.slots chunk)) }
    {
        let len = chunk.len();
        if len >= ROW_LIMIT {
            return Err(PolarsError::TooLong { len: len as u64 });
        }
        let mut chunks = Vec::new(alloc);
        chunks.push(chunk)?;
        Ok(ArrayOf {
            name,
            chunks,
            len,
            flag: IsSorted::Not,
        })
    }

    /// A column of so many nulls. Refused at 2^32 rows or more (`TooLong`).
    pub fn full_null(alloc: Global, name: PlSmallStr, length: usize) -> PolarsResult<Self>
        ensures column { Gives result (null_column name C.dtype length) }
    {
        if length >= ROW_LIMIT {
            return Err(PolarsError::TooLong { len: length as u64 });
        }
        let chunk = C::nulls(alloc, length)?;
        let mut chunks = Vec::new(alloc);
        chunks.push(chunk)?;
        Ok(ArrayOf {
            name,
            chunks,
            len: length,
            flag: IsSorted::Not,
        })
    }

    /// The name.
    pub fn name(&self) -> &PlSmallStr
        ensures name { result.now ≡ self.now.column.name }
    {
        &self.name
    }

    /// The number of rows.
    pub fn len(&self) -> usize
        ensures rows { result ≡ length self.now.column.slots }
        ensures short { result < 2 ^ 32 }
    {
        self.len
    }

    /// The number of nulls. Takes the time of the words of validity.
    pub fn null_count(&self) -> usize
        ensures nulls { result ≡ null_count self.now.column.slots }
    {
        nulls_in(self.chunks.as_slice())
    }

    /// The number of chunks.
    pub fn n_chunks(&self) -> usize
        ensures chunks { result ≡ length self.now.chunk_lengths }
    {
        self.chunks.len()
    }

    /// The number of rows of a chunk.
    pub fn chunk_len(&self, index: usize) -> usize
        requires chunk { index < length self.now.chunk_lengths }
        ensures rows { result ≡ slice_index self.now.chunk_lengths index }
    {
        self.chunks[index].len()
    }

    /// The slot of a row.
    pub fn get<'a>(&'a self, index: usize) -> C::Slot
    where
        C: View<'a>,
        requires row { index < length self.now.column.slots }
        ensures slot { C.slot_of result ≡ slice_index_or self.now.column.slots index None }
    {
        let (chunk, place) = place_of(self.chunks.as_slice(), index);
        chunk.get(place)
    }

    /// Does nothing. Says what holds of each column.
    pub fn known(&self)
        ensures dtype { self.now.column.dtype ≡ C.dtype }
        ensures short { length self.now.column.slots < 2 ^ 32 }
        ensures fit { list_all C.is_slot self.now.column.slots ≡ true }
        ensures sorted { is_flag_true self.now.column.flag self.now.column.slots ≡ true }
        ensures unmarked { self.now.column.flag ≡ Not }
    {
        all_known(self.chunks.as_slice());
        let _ = &self.flag;
    }

    /// Sets the name.
    pub fn rename(&mut self, name: PlSmallStr)
        ensures column { self.new ≡ renamed name self.old }
    {
        self.name = name;
    }

    /// The same column, in the same memory.
    pub fn try_clone(&self, alloc: Global) -> PolarsResult<Self>
        ensures column { Gives result (Ok self.now) }
    {
        let name = self.name.clone()?;
        let chunks = shared(alloc, self.chunks.as_slice())?;
        Ok(ArrayOf {
            name,
            chunks,
            len: self.len,
            flag: self.flag,
        })
    }

    /// The same rows in one chunk. The same memory where they are in one.
    pub fn rechunk(&self, alloc: Global) -> PolarsResult<Self>
        ensures column { Gives result (Ok (in_one_chunk self.now.column)) }
    {
        let name = self.name.clone()?;
        let chunk = whole(alloc, self.chunks.as_slice(), self.len)?;
        of_one(alloc, name, chunk, self.flag)
    }

    /// Gives back memory that no row needs.
    pub fn shrink_to_fit(&mut self) -> PolarsResult<()>
        ensures column { Becomes result self.old self.new (Ok self.old) }
    {
        let mut chunks = all_shrunk(*self.chunks.allocator(), self.chunks.as_slice())?;
        chunks.shrink_to_fit();
        self.chunks = chunks;
        Ok(())
    }
}

/// A column of one chunk.
pub(crate) fn of_one<C: Chunk>(
    alloc: Global,
    name: PlSmallStr,
    chunk: C,
    flag: IsSorted,
) -> PolarsResult<ArrayOf<C>>
    requires short { length (C.slots chunk) < 2 ^ 32 }
    requires flag { flag ≡ Not }
    ensures column { Gives result (Ok (in_one_chunk
        (record { name = name; dtype = C.dtype; slots = C.slots chunk; flag = flag }))) }
{
    let len = chunk.len();
    let mut chunks = Vec::new(alloc);
    chunks.push(chunk)?;
    Ok(ArrayOf {
        name,
        chunks,
        len,
        flag,
    })
}

/// The chunk that has a row, and where it has it.
pub(crate) fn place_of<C: Chunk>(chunks: &[C], index: usize) -> (&C, usize)
    requires row { index < length (joined C.slots chunks.now) }
    ensures inside { result.1 < length (C.slots result.0.now) }
    ensures slot { slice_index_or (C.slots result.0.now) result.1 None
        ≡ slice_index_or (joined C.slots chunks.now) index None }
{
    let mut left = index;
    for chunk in chunks {
        let len = chunk.len();
        if left < len {
            return (chunk, left);
        }
        left -= len;
    }
    unreachable!()
}

/// How many slots are null.
fn nulls_in<C: Chunk>(chunks: &[C]) -> usize
    requires short { length (joined C.slots chunks.now) < 2 ^ 32 }
    ensures nulls { result ≡ null_count (joined C.slots chunks.now) }
{
    let mut nulls = 0;
    for chunk in chunks {
        nulls += chunk.null_count();
    }
    nulls
}

/// Says that each slot of the chunks may stand there.
fn all_known<C: Chunk>(chunks: &[C])
    ensures fit { list_all C.is_slot (joined C.slots chunks.now) ≡ true }
{
    for chunk in chunks {
        chunk.known();
    }
}

/// The same chunks, in the same memory.
pub(crate) fn shared<C: Chunk>(alloc: Global, chunks: &[C]) -> Result<Vec<C>, AllocError>
    ensures slots { IfOk result (λ copies. joined C.slots copies.items
        ≡ joined C.slots chunks.now) }
    ensures lengths { IfOk result (λ copies. lengths_of C.slots copies.items
        ≡ lengths_of C.slots chunks.now) }
{
    let mut copies = Vec::with_capacity(alloc, chunks.len())?;
    for chunk in chunks {
        copies.push(chunk.share(0, chunk.len())?)?;
    }
    Ok(copies)
}

/// The same chunks, each without room for other slots.
fn all_shrunk<C: Chunk>(alloc: Global, chunks: &[C]) -> Result<Vec<C>, AllocError>
    ensures slots { IfOk result (λ copies. joined C.slots copies.items
        ≡ joined C.slots chunks.now) }
    ensures lengths { IfOk result (λ copies. lengths_of C.slots copies.items
        ≡ lengths_of C.slots chunks.now) }
{
    let mut copies = Vec::with_capacity(alloc, chunks.len())?;
    for chunk in chunks {
        copies.push(chunk.shrunk(alloc)?)?;
    }
    Ok(copies)
}

/// All slots in one chunk: the same memory where they are in one.
pub(crate) fn whole<C: Chunk>(alloc: Global, chunks: &[C], len: usize) -> Result<C, AllocError>
    requires len { len ≡ length (joined C.slots chunks.now) }
    ensures slots { IfOk result (λ chunk. C.slots chunk ≡ joined C.slots chunks.now) }
{
    if chunks.len() == 1 {
        return chunks[0].share(0, len);
    }
    let mut builder = C::builder(alloc, len)?;
    for chunk in chunks {
        chunk.copy_onto(0, chunk.len(), &mut builder)?;
    }
    C::build(alloc, builder)
}
