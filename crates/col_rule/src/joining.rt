//! Two columns under a rule, whose chunks need not line up.

ghost use Rattle.std.specs.Prelude.{◌≡◌, ◌<◌, ◌^◌, IfOk, None, Ok, length, replicate};
ghost use Rattle.col_types.specs.PolarsError.{GivesBy};
ghost use Rattle.col_types.specs.declared.is_sorted.IsSorted.TheVariants.{Not};
ghost use Rattle.col_model.specs.Words.{word_dtype};
ghost use Rattle.col_model.specs.Chunked.{column_of};
ghost use Rattle.col_chunk.specs.Chunks.{joined};
ghost use Rattle.col_rule.specs.Rules.{paired};
ghost use Rattle.col_rule.specs.Columns.{paired_column};

use crate::array::{change_named, copy_all};
use crate::chunk::meet;
use crate::rule::{PairRule, WithLeft, WithRight};
use col_chunk::{ArrayOf, Chunk, ChunkedArray, Place, WordChunk};
use col_kernel::Word;
use col_types::{PlSmallStr, PolarsError, PolarsResult};
use std::alloc::{AllocError, Global};

/// The rule at each row of two columns, with the left column's name. One row stands for all.
/// Refused where the lengths don't fit each other (`Lengths`).
pub fn meet_arrays<T: Word, U: Word, V: Word, R: PairRule<T, U, V>>(
    alloc: Global,
    rule: &R,
    left: &ChunkedArray<T>,
    right: &ChunkedArray<U>,
) -> PolarsResult<ChunkedArray<V>>
    ensures column { GivesBy column_of result (paired_column (R.value rule.now)
        (word_dtype V.word_type) left.now.column right.now.column) }
{
    if left.len() == right.len() {
        let answer = meet_rows(alloc, rule, left, right)?;
        return Ok(answer);
    }
    if left.len() == 1 {
        let answer = meet_left_row(alloc, rule, left, right)?;
        return Ok(answer);
    }
    if right.len() == 1 {
        let answer = meet_right_row(alloc, rule, left, right)?;
        return Ok(answer);
    }
    Err(PolarsError::Lengths {
        left: left.len(),
        right: right.len(),
    })
}

/// The rule at each row of two columns of one length.
#[tactic(auto, using(crate::proofs::RowLaws::equal_rows, crate::proofs::RowLaws::paired_long, crate::proofs::ArrayLaws::one_chunk))]
fn meet_rows<T: Word, U: Word, V: Word, R: PairRule<T, U, V>>(
    alloc: Global,
    rule: &R,
    left: &ChunkedArray<T>,
    right: &ChunkedArray<U>,
) -> Result<ChunkedArray<V>, AllocError>
    requires equal_lengths { length left.now.column.slots ≡ length right.now.column.slots }
    ensures column { IfOk result (λ answer. paired_column (R.value rule.now)
        (word_dtype V.word_type) left.now.column right.now.column ≡ Ok answer.column) }
{
    let len = left.len();
    let name = left.name().clone()?;
    let mut chunks = Vec::new(alloc);
    chunks.push(meet_all(alloc, rule, left.chunks(), right)?)?;
    Ok(ArrayOf::from_chunks(name, chunks, len))
}

/// The rule at each row of the right column, with the one row of the left one.
fn meet_left_row<T: Word, U: Word, V: Word, R: PairRule<T, U, V>>(
    alloc: Global,
    rule: &R,
    left: &ChunkedArray<T>,
    right: &ChunkedArray<U>,
) -> Result<ChunkedArray<V>, AllocError>
    requires one { length left.now.column.slots ≡ 1 }
    ensures column { IfOk result (λ answer. paired_column (R.value rule.now)
        (word_dtype V.word_type) left.now.column right.now.column ≡ Ok answer.column) }
{
    let name = left.name().clone()?;
    match left.get(0) {
        Some(word) => {
            let changed = change_named(alloc, name, &WithLeft { rule, left: word }, right)?;
            Ok(changed.array)
        }
        None => null_rows(alloc, name, right.len()),
    }
}

/// The rule at each row of the left column, with the one row of the right one.
fn meet_right_row<T: Word, U: Word, V: Word, R: PairRule<T, U, V>>(
    alloc: Global,
    rule: &R,
    left: &ChunkedArray<T>,
    right: &ChunkedArray<U>,
) -> Result<ChunkedArray<V>, AllocError>
    requires one { length right.now.column.slots ≡ 1 }
    ensures column { IfOk result (λ answer. paired_column (R.value rule.now)
        (word_dtype V.word_type) left.now.column right.now.column ≡ Ok answer.column) }
{
    let name = left.name().clone()?;
    match right.get(0) {
        Some(word) => {
            let changed = change_named(alloc, name, &WithRight { rule, right: word }, left)?;
            Ok(changed.array)
        }
        None => null_rows(alloc, name, left.len()),
    }
}

/// A column of so many nulls.
fn null_rows<V: Word>(
    alloc: Global,
    name: PlSmallStr,
    rows: usize,
) -> Result<ChunkedArray<V>, AllocError>
    requires short { rows < 2 ^ 32 }
    ensures column { IfOk result (λ answer. answer.column ≡ record {
      name = name;
      dtype = word_dtype V.word_type;
      slots = replicate rows None;
      flag = Not;
    }) }
{
    let mut chunks = Vec::new(alloc);
    chunks.push(WordChunk::nulls(alloc, rows)?)?;
    Ok(ArrayOf::from_chunks(name, chunks, rows))
}

/// The rule at each row, in one buffer.
#[tactic(auto, using(crate::proofs::ArrayLaws::one_chunk))]
fn meet_all<T: Word, U: Word, V: Word, R: PairRule<T, U, V>>(
    alloc: Global,
    rule: &R,
    left: &[WordChunk<T>],
    right: &ChunkedArray<U>,
) -> Result<WordChunk<V>, AllocError>
    requires equal_lengths { length (joined (λ chunk. chunk) left.now)
        ≡ length right.now.column.slots }
    ensures slots { IfOk result (λ answer. answer
        ≡ paired (R.value rule.now) (joined (λ chunk. chunk) left.now) right.now.column.slots) }
{
    match left {
        [chunk] => {
            let other = right.to_chunk(alloc)?;
            meet(alloc, rule, chunk, &other)
        }
        _ => meet_chunks(alloc, rule, left, right),
    }
}

/// The rule at each row of several chunks, in one buffer.
fn meet_chunks<T: Word, U: Word, V: Word, R: PairRule<T, U, V>>(
    alloc: Global,
    rule: &R,
    left: &[WordChunk<T>],
    right: &ChunkedArray<U>,
) -> Result<WordChunk<V>, AllocError>
    requires equal_lengths { length (joined (λ chunk. chunk) left.now)
        ≡ length right.now.column.slots }
    ensures slots { IfOk result (λ answer. answer
        ≡ paired (R.value rule.now) (joined (λ chunk. chunk) left.now) right.now.column.slots) }
{
    let rows = right.len();
    let mut builder = WordChunk::builder(alloc, rows)?;
    let mut place = Place::start();
    for chunk in left {
        let len = chunk.len();
        let (other, next) = right.next_rows(alloc, place, len)?;
        copy_all(&meet(alloc, rule, chunk, &other)?, &mut builder)?;
        place = next;
    }
    let whole = WordChunk::build(alloc, builder)?;
    Ok(whole)
}
