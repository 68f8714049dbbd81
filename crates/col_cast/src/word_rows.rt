//! Columns of words as columns of other words and of truth values.

ghost use Rattle.std.specs.Prelude.{◌≡◌, true, IfOk, Ok, Some};
ghost use Rattle.std.specs.List.{list_all};
ghost use Rattle.std.specs.Int.{w8, w64};
ghost use Rattle.col_types.specs.PolarsError.{GivesBy};
ghost use Rattle.col_types.specs.declared.cast_options.CastOptions.TheVariants.{NonStrict};
ghost use Rattle.col_model.specs.Arithmetic.{Unsigned};
ghost use Rattle.col_model.specs.CastTable.{in_word, narrowed};
ghost use Rattle.col_model.specs.ColumnCalls.{first_lost};
ghost use Rattle.col_model.specs.Formula.{NonZero, X, slot_by, value_of};
ghost use Rattle.col_model.specs.Words.{is_word_slot, word_dtype};
ghost use Rattle.col_logical.specs.Logical.{is_time};
ghost use Rattle.col_rule.specs.Columns.{mapped_chunks};
ghost use Rattle.col_cast.specs.Casts.{word_of};
ghost use Rattle.col_cast.specs.Passed.{made_array, made_lost, made_word};

use crate::cast_word::{CastWord, Made};
use crate::word_rules::{InTheDay, Narrowing, TruthOf};
use col_chunk::ChunkedArray;
use col_kernel::Word;
use col_rule::{ChangedArray, change_array};
use col_types::{CastOptions, DataType, PolarsResult};
use std::alloc::Global;

/// The words that a cast made.
pub(crate) fn passed<U: CastWord>(made: Made) -> ChangedArray<U>
    requires own { U.word_type ≡ made_word made }
    ensures array { result.array ≡ made_array made }
    ensures lost { result.lost ≡ made_lost made }
{
    match U::passed(made) {
        Some(changed) => changed,
        None => unreachable!(),
    }
}

/// Words as they are, each of which the other word holds.
pub(crate) fn same_words<T: Word, U: Word>(
    alloc: Global,
    values: &ChunkedArray<T>,
) -> PolarsResult<ChangedArray<U>>
    requires held { list_all (is_word_slot U.word_type) values.now.column.slots ≡ true }
    ensures column { GivesBy (λ changed. changed.array) result
        (Ok (mapped_chunks (λ x. value_of X x x) (word_dtype U.word_type) values.now)) }
    ensures lost { IfOk result (λ changed. changed.lost
        ≡ first_lost (slot_by X) 0 values.now.column.slots) }
{
    let rule = Narrowing {
        options: CastOptions::NonStrict,
    };
    change_array(alloc, &rule, values)
}

/// Words as words of a type.
pub(crate) fn reread<T: Word, U: CastWord>(
    alloc: Global,
    values: &ChunkedArray<T>,
    target: &DataType,
    options: CastOptions,
) -> PolarsResult<ChangedArray<U>>
    requires target { word_of target.now ≡ Some U.word_type }
    ensures column { GivesBy (λ changed. changed.array) result (Ok (mapped_chunks
        (λ x. value_of (in_word target.now options U.word_type) x x)
        (word_dtype U.word_type) values.now)) }
    ensures lost { IfOk result (λ changed. changed.lost ≡ first_lost
        (slot_by (in_word target.now NonStrict U.word_type)) 0 values.now.column.slots) }
{
    if !is_time(target) {
        return change_array(alloc, &Narrowing { options }, values);
    }
    match change_array::<T, i64, InTheDay>(alloc, &InTheDay { options }, values) {
        Ok(changed) => Ok(passed(Made::Ticks(changed))),
        Err(refusal) => Err(refusal),
    }
}

fn is_time(dtype: &DataType) -> bool
    ensures time { result ≡ is_time dtype.now }
{
    matches!(dtype, DataType::Time)
}

/// Whether words aren't 0, as truth values.
pub(crate) fn truths<T: Word, U: CastWord>(
    alloc: Global,
    values: &ChunkedArray<T>,
) -> PolarsResult<ChangedArray<U>>
    requires target { U.word_type ≡ Unsigned w8 }
    ensures column { GivesBy (λ changed. changed.array) result
        (Ok (mapped_chunks (λ x. value_of (NonZero X) x x) (word_dtype U.word_type) values.now)) }
    ensures lost { IfOk result (λ changed. changed.lost
        ≡ first_lost (slot_by (NonZero X)) 0 values.now.column.slots) }
{
    match change_array(alloc, &TruthOf, values) {
        Ok(changed) => Ok(passed(Made::Truths(changed))),
        Err(refusal) => Err(refusal),
    }
}
