//! Columns of items that come one by one.

ghost use Rattle.std.specs.Prelude.{◌≡◌, ◌+◌, ◌<◌, ◌^◌, true, IfOk, OnOk, Ok, Some, length};
ghost use Rattle.std.specs.Iterator.{IsFinite};
ghost use Rattle.col_types.specs.PolarsError.{GivesBy};
ghost use Rattle.col_model.specs.Column.{is_built_type, physical_word};
ghost use Rattle.col_model.specs.Items.{AnswersItems};
ghost use Rattle.col_logical.specs.Logical.{lie_in_the_day};
ghost use Rattle.col_civil.specs.Made.{column_of_items, slots_of_items, with_item};

use crate::rules::ItemRule;
use col_chunk::{ArrayOf, Chunk, ROW_LIMIT, Word, WordBuilder, WordChunk};
use col_logical::{Logical, LogicalKind};
use col_types::{PlSmallStr, PolarsError, PolarsResult};
use std::alloc::Global;

/// A column of these items in their order, in one chunk. Refused where an item is, and at the item
/// 2^32 (`TooLong`, which tells that number).
pub(crate) fn from_items<K, A, T, R, I>(
    alloc: Global,
    name: PlSmallStr,
    rule: &R,
    items: I,
) -> PolarsResult<Logical<K, T>>
where
    K: LogicalKind,
    T: Word,
    R: ItemRule<A, T>,
    I: Iterator<Item = A>,
    requires can { I.can_next items }
    requires ends { IsFinite (I.remaining items) }
    requires kind { K.is_type (R.dtype rule.now) ≡ true }
    requires typed { is_built_type (R.dtype rule.now) ≡ true }
    requires stored { physical_word (R.dtype rule.now) ≡ Some T.word_type }
    ensures column { AnswersItems I.next_gives items
        (column_of_items name (R.dtype rule.now) (R.read rule.now)) result }
{
    let chunk = match read_items(alloc, rule, items) {
        Ok(chunk) => chunk,
        Err(refusal) => return Err(refusal),
    };
    let words = ArrayOf::from_chunk(alloc, name, chunk)?;
    Ok(Logical::new_logical(words, rule.dtype()))
}

/// A chunk of these items in their order.
#[tactic(auto, using(crate::proofs::ItemLaws::slots_of_items_more))]
fn read_items<A, T: Word, R: ItemRule<A, T>, I: Iterator<Item = A>>(
    alloc: Global,
    rule: &R,
    items: I,
) -> PolarsResult<WordChunk<T>>
    requires can { I.can_next items }
    requires ends { IsFinite (I.remaining items) }
    ensures chunk { AnswersItems I.next_gives items (slots_of_items (R.read rule.now)) result }
    ensures short { IfOk result (λ chunk. length chunk < 2 ^ 32) }
    ensures day { IfOk result (λ chunk. lie_in_the_day (R.dtype rule.now) chunk ≡ true) }
{
    let mut builder = WordChunk::builder(alloc, 0)?;
    let mut row = 0;
    for item in items {
        if let Err(refusal) = add_item(rule, &mut builder, row, item) {
            return Err(refusal);
        }
        row += 1;
    }
    let chunk = WordChunk::build(alloc, builder)?;
    Ok(chunk)
}

/// Writes the slot of one more item behind those that were written.
#[tactic(auto, using(crate::proofs::ItemLaws::day_more))]
fn add_item<A, T: Word, R: ItemRule<A, T>>(
    rule: &R,
    builder: &mut WordBuilder<T>,
    row: usize,
    item: A,
) -> PolarsResult<()>
    requires row { row ≡ length builder.old }
    requires short { row < 2 ^ 32 }
    requires day { lie_in_the_day (R.dtype rule.now) builder.old ≡ true }
    ensures slots { GivesBy (λ _. builder.new) result
        (with_item (R.read rule.now) (Ok builder.old) item) }
    ensures row { OnOk result (row + 1 ≡ length builder.new) }
    ensures short { OnOk result (row + 1 < 2 ^ 32) }
    ensures day { OnOk result (lie_in_the_day (R.dtype rule.now) builder.new ≡ true) }
{
    let slot = match rule.slot(row as u32, item) {
        Ok(slot) => slot,
        Err(refusal) => return Err(refusal),
    };
    let rows = row + 1;
    if rows == ROW_LIMIT {
        return Err(PolarsError::TooLong { len: rows as u64 });
    }
    builder.push(slot)?;
    Ok(())
}
