//! Columns of words: their names, how they are made, and their chunks.

ghost use Rattle.std.specs.Prelude.{◌≡◌, ◌<◌, length, slice_index_or, None};
ghost use Rattle.std.specs.Option.{option_map};
ghost use Rattle.col_types.specs.PolarsError.{Gives};
ghost use Rattle.col_model.specs.Value.{whole};
ghost use Rattle.col_model.specs.Words.{word_dtype};
ghost use Rattle.col_model.specs.ChunkCalls.{chunk_slots, new_column};
ghost use Rattle.col_chunk.specs.Chunks.{word_slots};

use crate::array::ROW_LIMIT;
use crate::word_chunk::from_buffers;
use crate::{ArrayOf, Chunk, View, WordChunk};
use col_kernel::Word;
use col_types::{PlSmallStr, PolarsError, PolarsResult};
use std::alloc::Global;
use std::marker::Model;

/// A column of optional words of one width.
pub type ChunkedArray<T> = ArrayOf<WordChunk<T>>;

/// A column of signed words of 8 bits.
pub type Int8Chunked = ChunkedArray<i8>;

/// A column of signed words of 16 bits.
pub type Int16Chunked = ChunkedArray<i16>;

/// A column of signed words of 32 bits.
pub type Int32Chunked = ChunkedArray<i32>;

/// A column of signed words of 64 bits.
pub type Int64Chunked = ChunkedArray<i64>;

/// A column of signed words of 128 bits.
pub type Int128Chunked = ChunkedArray<i128>;

/// A column of unsigned words of 8 bits.
pub type UInt8Chunked = ChunkedArray<u8>;

/// A column of unsigned words of 16 bits.
pub type UInt16Chunked = ChunkedArray<u16>;

/// A column of unsigned words of 32 bits.
pub type UInt32Chunked = ChunkedArray<u32>;

/// A column of unsigned words of 64 bits.
pub type UInt64Chunked = ChunkedArray<u64>;

/// A column of numbers of rows.
pub type IdxCa = UInt32Chunked;

impl<T: Word> ArrayOf<WordChunk<T>> {
    /// A column of these words in one chunk. Refused at 2^32 rows or more (`TooLong`).
    #[tactic(auto, using(crate::proofs::WordLaws::plain_laws))]
    pub fn from_slice(alloc: Global, name: PlSmallStr, values: &[T]) -> PolarsResult<Self>
        ensures column { Gives result (new_column name (word_dtype T.word_type)
            (word_slots T.reading values.now)) }
    {
        if values.len() >= ROW_LIMIT {
            return Err(PolarsError::TooLong {
                len: values.len() as u64,
            });
        }
        let values = Vec::from_slice(alloc, values)?;
        Self::from_vec(alloc, name, values)
    }

    /// A column of these words, in their memory, in one chunk. Refused at 2^32 rows or more
    /// (`TooLong`).
    #[tactic(auto, using(crate::proofs::WordLaws::plain_laws))]
    pub fn from_vec(alloc: Global, name: PlSmallStr, values: Vec<T>) -> PolarsResult<Self>
        ensures column { Gives result (new_column name (word_dtype T.word_type)
            (word_slots T.reading values.items)) }
    {
        if values.len() >= ROW_LIMIT {
            return Err(PolarsError::TooLong {
                len: values.len() as u64,
            });
        }
        let chunk = from_buffers(alloc, values, None)?;
        Self::from_chunk(alloc, name, chunk)
    }

    /// A chunk, to be read where it lies.
    pub fn chunk(&self, index: usize) -> ChunkView<'_, T>
        requires chunk { index < length self.now.chunk_lengths }
        ensures slots { result ≡ chunk_slots index self.now }
    {
        ChunkView {
            chunk: &self.chunks[index],
        }
    }
}

/// A chunk that is read where it lies. Contracts see the list of its slots.
#[derive(Drop)]
pub struct ChunkView<'a, T: Word> {
    chunk: &'a WordChunk<T>,
}

impl<'a, T: Word> Model for ChunkView<'a, T> {
    ghost use Rattle.std.specs.Prelude.{List, Option};
    ghost use Rattle.col_model.specs.Value.{Value as SlotValue};

    ghost Value = { List (Option SlotValue) };

    ghost view = { λ v. v.chunk.now };
}

impl<T: Word> ChunkView<'_, T> {
    /// The number of slots.
    pub fn len(&self) -> usize
        ensures len { result ≡ length self.now }
    {
        self.chunk.len()
    }

    /// The slot at an index.
    pub fn get(&self, index: usize) -> Option<T>
        requires inside { index < length self.now }
        ensures slot { option_map (λ x. whole (T.reading x)) result
            ≡ slice_index_or self.now index None }
    {
        self.chunk.get(index)
    }
}
