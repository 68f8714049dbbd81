//! Columns of bytes, and how they are made.

ghost use Rattle.std.specs.Prelude.{◌≡◌, ◌∷◌, ◌++◌, [], IfErr, IfOk, OnOk, length};
ghost use Rattle.std.specs.Iterator.{IsFinite};
ghost use Rattle.std.specs.Option.{option_map};
ghost use Rattle.col_types.specs.PolarsError.{Gives};
ghost use Rattle.col_types.specs.declared.data_type.DataType.{Binary};
ghost use Rattle.col_model.specs.ChunkCalls.{new_column, unless_too_long};
ghost use Rattle.col_model.specs.Items.{AnswersItems};
ghost use Rattle.col_chunk.specs.Items.{StopsAtLimit};
ghost use Rattle.col_string.specs.Texts.{bytes_slots, bytes_value, optional_slots};

use crate::{AsBytes, PlainBytes, RunBuilder, RunChunk};
use col_chunk::{ArrayOf, Chunk, ROW_LIMIT};
use col_types::{PlSmallStr, PolarsError, PolarsResult};
use std::alloc::{AllocError, Global};

/// Optional bytes.
pub type BinaryChunk = RunChunk<PlainBytes, AsBytes>;

/// A column of bytes.
pub type BinaryChunked = ArrayOf<BinaryChunk>;

impl RunBuilder<PlainBytes, AsBytes> {
    /// Writes one slot behind those that were written.
    pub fn push(&mut self, slot: Option<&[u8]>) -> Result<(), AllocError>
        ensures slots { OnOk result (self.new
            ≡ self.old ++ option_map (λ bytes. bytes_value bytes.now) slot.entry ∷ []) }
    {
        match slot {
            Some(bytes) => self.push_bytes(bytes),
            None => self.push_null(),
        }
    }
}

/// How columns of bytes are made.
pub trait NewBinary {
    /// A column of these values in one chunk. Refused at 2^32 rows or more (`TooLong`).
    fn from_slice(alloc: Global, name: PlSmallStr, values: &[&[u8]]) -> PolarsResult<BinaryChunked>
        ensures column { Gives result (new_column name Binary
            (bytes_slots (λ bytes. bytes.now) values.now)) };
}

/// How columns of bytes are made of items that come one by one.
pub trait BinaryItems<'a, I: Iterator<Item = Option<&'a [u8]>>> {
    /// A column of these items in their order, in one chunk. None is null. The iterator has to end.
    /// Refused at the item 2^32 (`TooLong`, which tells that number), and none is read after it.
    fn from_iter_options(alloc: Global, name: PlSmallStr, items: I) -> PolarsResult<BinaryChunked>
        requires can { I.can_next items }
        requires ends { IsFinite (I.remaining items) }
        ensures column { AnswersItems I.next_gives items (λ read.
            new_column name Binary (optional_slots (λ bytes. bytes.now) read)) result }
        ensures stops { IfErr result StopsAtLimit };
}

impl NewBinary for BinaryChunked {
    #[tactic(auto, using(crate::proofs::ColumnLaws::plain_laws))]
    fn from_slice(
        alloc: Global,
        name: PlSmallStr,
        values: &[&[u8]],
    ) -> PolarsResult<BinaryChunked> {
        if values.len() >= ROW_LIMIT {
            return Err(PolarsError::TooLong {
                len: values.len() as u64,
            });
        }
        let chunk = chunk_of(alloc, values)?;
        BinaryChunked::from_chunk(alloc, name, chunk)
    }
}

impl<'a, I: Iterator<Item = Option<&'a [u8]>>> BinaryItems<'a, I> for BinaryChunked {
    fn from_iter_options(alloc: Global, name: PlSmallStr, items: I) -> PolarsResult<BinaryChunked> {
        match read_items(alloc, items) {
            Ok(chunk) => BinaryChunked::from_chunk(alloc, name, chunk),
            Err(refusal) => Err(refusal),
        }
    }
}

/// A chunk of these values.
fn chunk_of(alloc: Global, values: &[&[u8]]) -> Result<BinaryChunk, AllocError>
    ensures slots { IfOk result (λ chunk. chunk ≡ bytes_slots (λ bytes. bytes.now) values.now) }
{
    let mut builder = BinaryChunk::builder(alloc, values.len())?;
    for value in values {
        builder.push(Some(*value))?;
    }
    BinaryChunk::build(alloc, builder)
}

/// A chunk of these items in their order. It stops as `from_iter_options` does.
#[tactic(auto, using(crate::proofs::ColumnLaws::option_laws))]
fn read_items<'a, I: Iterator<Item = Option<&'a [u8]>>>(
    alloc: Global,
    items: I,
) -> PolarsResult<BinaryChunk>
    requires can { I.can_next items }
    requires ends { IsFinite (I.remaining items) }
    ensures chunk { AnswersItems I.next_gives items (λ read.
        unless_too_long (length read) (optional_slots (λ bytes. bytes.now) read)) result }
    ensures stops { IfErr result StopsAtLimit }
{
    let mut builder = BinaryChunk::builder(alloc, 0)?;
    let mut count = 0;
    for item in items {
        count += 1;
        if count == ROW_LIMIT {
            return Err(PolarsError::TooLong { len: count as u64 });
        }
        builder.push(item)?;
    }
    let chunk = BinaryChunk::build(alloc, builder)?;
    Ok(chunk)
}
