//! Columns under a rule for one word.

ghost use Rattle.std.specs.Prelude.{◌≡◌, ◌+◌, ◌≤◌, ◌<◌, ◌++◌, IfOk, IfSome, OnOk, Ok, length};
ghost use Rattle.col_types.specs.PolarsError.{Gives, GivesBy};
ghost use Rattle.col_types.specs.declared.is_sorted.IsSorted.TheVariants.{Not};
ghost use Rattle.col_model.specs.Value.{on_slot};
ghost use Rattle.col_model.specs.Words.{word_dtype};
ghost use Rattle.col_model.specs.ColumnCalls.{first_lost};
ghost use Rattle.col_chunk.specs.Chunks.{joined, lengths_of};
ghost use Rattle.col_rule.specs.Rules.{mapped, or_later};
ghost use Rattle.col_rule.specs.Columns.{mapped_chunks};

use crate::chunk::change;
use crate::rule::SlotRule;
use col_chunk::{ArrayOf, Chunk, ChunkedArray, WordBuilder, WordChunk};
use col_kernel::Word;
use col_types::{PlSmallStr, PolarsResult};
use std::alloc::{AllocError, Global};

/// A column under a rule, and the first row that became null or wrapped.
#[derive(Drop)]
pub struct ChangedArray<U: Word> {
    pub array: ChunkedArray<U>,
    pub lost: Option<usize>,
}

/// The rule at each row, in the same chunks, and the first row that it doesn't keep.
pub fn change_array<T: Word, U: Word, R: SlotRule<T, U>>(
    alloc: Global,
    rule: &R,
    array: &ChunkedArray<T>,
) -> PolarsResult<ChangedArray<U>>
    ensures column { GivesBy (λ changed. changed.array) result (Ok
        (mapped_chunks (R.value rule.now) (word_dtype U.word_type) array.now)) }
    ensures lost { IfOk result (λ changed. changed.lost
        ≡ first_lost (on_slot (R.kept rule.now)) 0 array.now.column.slots) }
{
    let name = array.name().clone()?;
    let changed = change_named(alloc, name, rule, array)?;
    Ok(changed)
}

/// The rule at each row, in the same chunks.
pub fn map_array<T: Word, U: Word, R: SlotRule<T, U>>(
    alloc: Global,
    rule: &R,
    array: &ChunkedArray<T>,
) -> PolarsResult<ChunkedArray<U>>
    ensures column { Gives result (Ok
        (mapped_chunks (R.value rule.now) (word_dtype U.word_type) array.now)) }
{
    let name = array.name().clone()?;
    let changed = change_named(alloc, name, rule, array)?;
    Ok(changed.array)
}

/// The rule at each row, in the same chunks, under a name.
pub(crate) fn change_named<T: Word, U: Word, R: SlotRule<T, U>>(
    alloc: Global,
    name: PlSmallStr,
    rule: &R,
    array: &ChunkedArray<T>,
) -> Result<ChangedArray<U>, AllocError>
    ensures column { IfOk result (λ changed. changed.array ≡ record {
      column = record {
        name = name;
        dtype = word_dtype U.word_type;
        slots = mapped (R.value rule.now) array.now.column.slots;
        flag = Not;
      };
      chunk_lengths = array.now.chunk_lengths;
    }) }
    ensures lost { IfOk result (λ changed. changed.lost
        ≡ first_lost (on_slot (R.kept rule.now)) 0 array.now.column.slots) }
{
    let len = array.len();
    let (whole, lost) = change_all(alloc, rule, array.chunks(), len)?;
    let chunks = cut_like(alloc, &whole, array.chunks())?;
    let array = ArrayOf::from_chunks(name, chunks, len);
    Ok(ChangedArray { array, lost })
}

/// The rule at each row of chunks, in one buffer.
#[tactic(auto, using(crate::proofs::ArrayLaws::one_chunk))]
fn change_all<T: Word, U: Word, R: SlotRule<T, U>>(
    alloc: Global,
    rule: &R,
    chunks: &[WordChunk<T>],
    len: usize,
) -> Result<(WordChunk<U>, Option<usize>), AllocError>
    requires len { length (joined (λ chunk. chunk) chunks.now) ≡ len }
    ensures slots { IfOk result (λ changed. changed.0
        ≡ mapped (R.value rule.now) (joined (λ chunk. chunk) chunks.now)) }
    ensures lost { IfOk result (λ changed. changed.1
        ≡ first_lost (on_slot (R.kept rule.now)) 0 (joined (λ chunk. chunk) chunks.now)) }
{
    match chunks {
        [chunk] => {
            let changed = change(alloc, rule, chunk)?;
            Ok((changed.chunk, changed.lost))
        }
        _ => change_chunks(alloc, rule, chunks, len),
    }
}

/// The rule at each row of several chunks, in one buffer.
#[tactic(auto, using(crate::proofs::ArrayLaws::array_laws))]
fn change_chunks<T: Word, U: Word, R: SlotRule<T, U>>(
    alloc: Global,
    rule: &R,
    chunks: &[WordChunk<T>],
    len: usize,
) -> Result<(WordChunk<U>, Option<usize>), AllocError>
    requires len { length (joined (λ chunk. chunk) chunks.now) ≡ len }
    ensures slots { IfOk result (λ changed. changed.0
        ≡ mapped (R.value rule.now) (joined (λ chunk. chunk) chunks.now)) }
    ensures lost { IfOk result (λ changed. changed.1
        ≡ first_lost (on_slot (R.kept rule.now)) 0 (joined (λ chunk. chunk) chunks.now)) }
{
    let mut builder = WordChunk::builder(alloc, len)?;
    let mut lost = None;
    let mut start = 0;
    for chunk in chunks {
        let len = chunk.len();
        let changed = change(alloc, rule, chunk)?;
        lost = or_later(lost, start, changed.lost, len);
        copy_all(&changed.chunk, &mut builder)?;
        start += len;
    }
    let whole = WordChunk::build(alloc, builder)?;
    Ok((whole, lost))
}

/// Writes all slots of a chunk behind what was written.
#[tactic(auto, using(crate::proofs::ArrayLaws::all_taken))]
pub(crate) fn copy_all<U: Word>(
    chunk: &WordChunk<U>,
    builder: &mut WordBuilder<U>,
) -> Result<(), AllocError>
    ensures slots { OnOk result (builder.new ≡ builder.old ++ chunk.now) }
{
    chunk.copy_onto(0, chunk.len(), builder)
}

/// Parts of a chunk that are as long as other chunks, one after another, in the same memory.
fn cut_like<T: Word, U: Word>(
    alloc: Global,
    whole: &WordChunk<U>,
    like: &[WordChunk<T>],
) -> Result<Vec<WordChunk<U>>, AllocError>
    requires len { length whole.now ≡ length (joined (λ chunk. chunk) like.now) }
    ensures slots { IfOk result (λ parts. joined (λ chunk. chunk) parts.items ≡ whole.now) }
    ensures lengths { IfOk result (λ parts. lengths_of (λ chunk. chunk) parts.items
        ≡ lengths_of (λ chunk. chunk) like.now) }
{
    let rows = whole.len();
    let mut parts = Vec::with_capacity(alloc, like.len())?;
    let mut start = 0;
    for chunk in like {
        let len = chunk.len();
        parts.push(whole.share(start, len)?)?;
        start += len;
    }
    Ok(parts)
}

/// A row that is known, or else one of the next so many rows.
fn or_later(lost: Option<usize>, start: usize, next: Option<usize>, len: usize) -> Option<usize>
    requires inside { IfSome next (λ row. row < len) }
    requires fits { start + len ≤ usize.MAX }
    ensures row { result ≡ or_later lost start next }
{
    match lost {
        Some(row) => Some(row),
        None => match next {
            Some(row) => Some(start + row),
            None => None,
        },
    }
}
