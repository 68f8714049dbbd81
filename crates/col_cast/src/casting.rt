//! Columns of words under a rule of the cast table.

ghost use Rattle.std.specs.Prelude.{◌≡◌, true, IfOk, Ok, Some};
ghost use Rattle.std.specs.List.{list_all};
ghost use Rattle.col_types.specs.PolarsError.{Gives, GivesBy};
ghost use Rattle.col_model.specs.Column.{is_slot_of};
ghost use Rattle.col_model.specs.ColumnCalls.{first_lost};
ghost use Rattle.col_model.specs.Formula.{slot_by, value_of};
ghost use Rattle.col_model.specs.Words.{word_dtype};
ghost use Rattle.col_rule.specs.Columns.{mapped_chunks};
ghost use Rattle.col_cast.specs.Casts.{kept_in, rule_in, word_of};

use crate::cast_word::CastWord;
use crate::row::Row;
use crate::rule::CastRule;
use crate::tick_rows::{as_days, as_ticks};
use crate::word_rows::{reread, same_words, truths};
use col_chunk::ChunkedArray;
use col_rule::ChangedArray;
use col_types::PolarsResult;
use std::alloc::Global;

/// The rule at each row of a column, in the same chunks, and the first row that is lost: whose
/// valid slot becomes null, or wraps. The words are those that keep the two types, and each slot
/// is one of the first type. Refused where memory is wanting (`NoMemory`).
pub fn cast_words<T: CastWord, U: CastWord>(
    alloc: Global,
    rule: &CastRule,
    values: &ChunkedArray<T>,
) -> PolarsResult<ChangedArray<U>>
    requires source { word_of rule.now.from ≡ Some T.word_type }
    requires target { word_of rule.now.to ≡ Some U.word_type }
    requires values { list_all (is_slot_of rule.now.from) values.now.column.slots ≡ true }
    ensures column { GivesBy (λ changed. changed.array) result (Ok (mapped_chunks
        (λ x. value_of (rule_in rule.now).formula x x) (word_dtype U.word_type) values.now)) }
    ensures lost { IfOk result (λ changed. changed.lost
        ≡ first_lost (slot_by (kept_in rule.now)) 0 values.now.column.slots) }
{
    match rule.row() {
        Row::Same | Row::Number => same_words(alloc, values),
        Row::Reread => reread(alloc, values, rule.to_type(), rule.options()),
        Row::Truth => truths(alloc, values),
        Row::Day(unit) => as_days(alloc, values, unit, rule.options()),
        Row::Ticks(row) => as_ticks(alloc, values, row),
    }
}

/// The rule at each row of a column, in the same chunks, under the same conditions. Refused where
/// memory is wanting (`NoMemory`).
pub fn apply_rule<T: CastWord, U: CastWord>(
    alloc: Global,
    rule: &CastRule,
    values: &ChunkedArray<T>,
) -> PolarsResult<ChunkedArray<U>>
    requires source { word_of rule.now.from ≡ Some T.word_type }
    requires target { word_of rule.now.to ≡ Some U.word_type }
    requires values { list_all (is_slot_of rule.now.from) values.now.column.slots ≡ true }
    ensures column { Gives result (Ok (mapped_chunks
        (λ x. value_of (rule_in rule.now).formula x x) (word_dtype U.word_type) values.now)) }
{
    match cast_words::<T, U>(alloc, rule, values) {
        Ok(changed) => Ok(changed.array),
        Err(refusal) => Err(refusal),
    }
}
