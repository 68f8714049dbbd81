//! Columns of words that an iterator gives.

ghost use Rattle.std.specs.Prelude.{IfErr, length};
ghost use Rattle.std.specs.Iterator.{IsFinite};
ghost use Rattle.col_model.specs.ChunkCalls.{new_column, unless_too_long};
ghost use Rattle.col_model.specs.Items.{AnswersItems};
ghost use Rattle.col_model.specs.Words.{word_dtype};
ghost use Rattle.col_chunk.specs.Items.{StopsAtLimit, option_slots};

use crate::array::ROW_LIMIT;
use crate::{ArrayOf, Chunk, WordChunk};
use col_kernel::Word;
use col_types::{PlSmallStr, PolarsError, PolarsResult};
use std::alloc::{AllocError, Global};

impl<T: Word> ArrayOf<WordChunk<T>> {
    /// A column of these items in their order, in one chunk. None is null. The iterator has to end.
    /// Refused at the item 2^32 (`TooLong`, which tells that number), and none is read after it.
    pub fn from_iter_options<I: Iterator<Item = Option<T>>>(
        alloc: Global,
        name: PlSmallStr,
        items: I,
    ) -> PolarsResult<Self>
        requires can { I.can_next items }
        requires ends { IsFinite (I.remaining items) }
        ensures column { AnswersItems I.next_gives items (λ read.
            new_column name (word_dtype T.word_type) (option_slots T.reading read)) result }
        ensures stops { IfErr result StopsAtLimit }
    {
        match read_items(alloc, items) {
            Ok(chunk) => Self::from_chunk(alloc, name, chunk),
            Err(refusal) => Err(refusal),
        }
    }
}

/// A chunk of these items in their order. It stops as `from_iter_options` does.
#[tactic(auto, using(crate::proofs::ItemLaws::option_slots_more))]
fn read_items<T: Word, I: Iterator<Item = Option<T>>>(
    alloc: Global,
    items: I,
) -> PolarsResult<WordChunk<T>>
    requires can { I.can_next items }
    requires ends { IsFinite (I.remaining items) }
    ensures chunk { AnswersItems I.next_gives items (λ read.
        unless_too_long (length read) (option_slots T.reading read)) result }
    ensures stops { IfErr result StopsAtLimit }
{
    let mut builder = WordChunk::builder(alloc, 0)?;
    let mut count = 0;
    for item in items {
        count += 1;
        if count == ROW_LIMIT {
            return Err(PolarsError::TooLong { len: count as u64 });
        }
        builder.push(item)?;
    }
    let chunk = WordChunk::build(alloc, builder)?;
    Ok(chunk)
}
