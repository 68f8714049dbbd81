//! The casts of a column.

ghost use Rattle.std.specs.Prelude.{◌≡◌, ◌<◌, ◌^◌, true, length, IfSome, Ok, Some};
ghost use Rattle.std.specs.List.{list_all};
ghost use Rattle.std.specs.Option.{option_map};
ghost use Rattle.std.specs.Int.{w32, w64};
ghost use Rattle.col_types.specs.PolarsError.{Gives, GivesBy};
ghost use Rattle.col_types.specs.declared.cast_options.CastOptions.TheVariants.{NonStrict, Strict};
ghost use Rattle.col_types.specs.declared.error.PolarsError.TheVariants.{Strict as Refused};
ghost use Rattle.col_model.specs.Arithmetic.{Signed};
ghost use Rattle.col_model.specs.CastTable.{cast_rule};
ghost use Rattle.col_model.specs.Chunked.{column_of};
ghost use Rattle.col_model.specs.Column.{is_built_type, is_slot_of, physical_word};
ghost use Rattle.col_model.specs.ColumnCalls.{cast_of, is_built_target};
ghost use Rattle.col_model.specs.ColumnCalls.{strict_refusal, unless_refused};
ghost use Rattle.col_logical.specs.Logical.{lie_in_the_day, retyped};
ghost use Rattle.col_cast.specs.Casts.{rule_in, ruled};
ghost use Rattle.col_series.specs.Casts.{cast_by, cast_nulls, cast_under};

use crate::columns::Physical;
use crate::series::{Series, is_in_32_bits};
use crate::{CastOptions, DataType, PolarsError, PolarsResult};
use col_cast::{CastRule, CastWord, cast_rule, cast_words};
use col_chunk::ChunkedArray;
use col_rule::ChangedArray;
use std::alloc::Global;

impl Series {
    /// The column in another type; a value that has no room there becomes null. Refused where no
    /// column can have the type (`BadType`), then where no cast leads to it and a slot is valid
    /// (`CastPair`).
    pub fn cast(&self, alloc: Global, dtype: &DataType) -> PolarsResult<Series>
        requires built_target { is_built_target dtype.now ≡ true }
        ensures column { GivesBy column_of result (cast_of self.now.column dtype.now NonStrict) }
    {
        self.cast_with_options(alloc, dtype, CastOptions::NonStrict)
    }

    /// As `cast`, and then refused where a valid slot would become null (`Strict`, with the least
    /// such row).
    pub fn strict_cast(&self, alloc: Global, dtype: &DataType) -> PolarsResult<Series>
        requires built_target { is_built_target dtype.now ≡ true }
        ensures column { GivesBy column_of result (cast_of self.now.column dtype.now Strict) }
    {
        self.cast_with_options(alloc, dtype, CastOptions::Strict)
    }

    /// The column in another type, by the options: `Strict` as `strict_cast`, `NonStrict` as
    /// `cast`, and `Overflowing` as `cast`, but a day that the word of dates has no room for wraps.
    pub fn cast_with_options(
        &self,
        alloc: Global,
        dtype: &DataType,
        options: CastOptions,
    ) -> PolarsResult<Series>
        requires built_target { is_built_target dtype.now ≡ true }
        ensures column { GivesBy column_of result (cast_of self.now.column dtype.now options) }
    {
        self.known();
        if dtype.is_bad_target() {
            return Err(PolarsError::BadType {
                dtype: dtype.kind(),
            });
        }
        cast_to(alloc, self, dtype, options)
    }
}

/// The column in a type that columns have.
fn cast_to(
    alloc: Global,
    column: &Series,
    target: &DataType,
    options: CastOptions,
) -> PolarsResult<Series>
    requires built_type { is_built_type target.now ≡ true }
    ensures column { GivesBy column_of result (cast_under options
        (cast_rule column.now.column.dtype target.now options) target.now column.now.column) }
{
    column.known();
    match cast_rule(column.dtype(), target, options) {
        Some(rule) => under_rule(alloc, column, &rule, target, options),
        None => nulls(alloc, column, target),
    }
}

/// The column in a type by a rule. One that keeps each slot shares the buffers.
fn under_rule(
    alloc: Global,
    column: &Series,
    rule: &CastRule,
    target: &DataType,
    options: CastOptions,
) -> PolarsResult<Series>
    requires built_type { is_built_type target.now ≡ true }
    requires rule { ruled column.now.column.dtype target.now options ≡ Some rule.now }
    ensures column { GivesBy column_of result
        (cast_by options (rule_in rule.now).formula target.now column.now.column) }
{
    column.known();
    if rule.keeps_words() {
        return shared(alloc, column, target);
    }
    match column.physical() {
        Physical::Int32(words) => in_type(alloc, words, rule, target, options),
        Physical::Int64(words) => in_type(alloc, words, rule, target, options),
    }
}

/// The words of a column in a type by a rule.
fn in_type<W: CastWord>(
    alloc: Global,
    words: &ChunkedArray<W>,
    rule: &CastRule,
    target: &DataType,
    options: CastOptions,
) -> PolarsResult<Series>
    requires built_source { is_built_type rule.now.from ≡ true }
    requires built_type { is_built_type target.now ≡ true }
    requires rule { ruled rule.now.from target.now options ≡ Some rule.now }
    requires stored { physical_word rule.now.from ≡ Some W.word_type }
    requires values { list_all (is_slot_of rule.now.from) words.now.column.slots ≡ true }
    requires short { length words.now.column.slots < 2 ^ 32 }
    ensures column { GivesBy column_of result
        (cast_by options (rule_in rule.now).formula target.now words.now.column) }
{
    if is_in_32_bits(target) {
        return match cast_words::<W, i32>(alloc, rule, words) {
            Ok(changed) => of_days(alloc, changed, target, options),
            Err(refusal) => Err(refusal),
        };
    }
    match cast_words::<W, i64>(alloc, rule, words) {
        Ok(changed) => of_ticks(alloc, changed, target, options),
        Err(refusal) => Err(refusal),
    }
}

/// The same words in another type.
fn shared(alloc: Global, column: &Series, target: &DataType) -> PolarsResult<Series>
    requires built_type { is_built_type target.now ≡ true }
    requires stored { physical_word target.now ≡ physical_word column.now.column.dtype }
    requires day { lie_in_the_day target.now column.now.column.slots ≡ true }
    ensures column { Gives result (Ok (retyped target.now column.now)) }
{
    let dtype = target.clone_flat();
    match column.physical() {
        Physical::Int32(words) => {
            let words = words.try_clone(alloc)?;
            Series::from_int32(alloc, words, dtype)
        }
        Physical::Int64(words) => {
            let words = words.try_clone(alloc)?;
            Series::from_int64(alloc, words, dtype)
        }
    }
}

/// The lost row for which a cast is refused.
fn refused_row(options: CastOptions, lost: Option<usize>) -> Option<u32>
    requires short { IfSome lost (λ row. row < 2 ^ 32) }
    ensures refused { option_map Refused result ≡ strict_refusal options lost }
{
    match (options, lost) {
        (CastOptions::Strict, Some(row)) => Some(row as u32),
        _ => None,
    }
}

/// Words of 64 bits as a type, unless a strict cast has lost a row.
fn of_ticks(
    alloc: Global,
    changed: ChangedArray<i64>,
    target: &DataType,
    options: CastOptions,
) -> PolarsResult<Series>
    requires built_type { is_built_type target.now ≡ true }
    requires stored { physical_word target.now ≡ Some (Signed w64) }
    requires day { lie_in_the_day target.now changed.array.column.slots ≡ true }
    requires short { IfSome changed.lost (λ row. row < 2 ^ 32) }
    ensures column { GivesBy column_of result (unless_refused
        (strict_refusal options changed.lost) (retyped target.now changed.array).column) }
{
    match refused_row(options, changed.lost) {
        Some(row) => Err(PolarsError::Strict { row }),
        None => Series::from_int64(alloc, changed.array, target.clone_flat()),
    }
}

/// Words of 32 bits as a type, unless a strict cast has lost a row.
fn of_days(
    alloc: Global,
    changed: ChangedArray<i32>,
    target: &DataType,
    options: CastOptions,
) -> PolarsResult<Series>
    requires built_type { is_built_type target.now ≡ true }
    requires stored { physical_word target.now ≡ Some (Signed w32) }
    requires short { IfSome changed.lost (λ row. row < 2 ^ 32) }
    ensures column { GivesBy column_of result (unless_refused
        (strict_refusal options changed.lost) (retyped target.now changed.array).column) }
{
    match refused_row(options, changed.lost) {
        Some(row) => Err(PolarsError::Strict { row }),
        None => Series::from_int32(alloc, changed.array, target.clone_flat()),
    }
}

/// The nulls of a column in a type to which no cast leads. Refused where a slot is valid.
fn nulls(alloc: Global, column: &Series, target: &DataType) -> PolarsResult<Series>
    requires built_type { is_built_type target.now ≡ true }
    ensures column { GivesBy column_of result (cast_nulls target.now column.now.column) }
{
    column.known();
    if column.null_count() < column.len() {
        return Err(PolarsError::CastPair {
            from: column.dtype().kind(),
            to: target.kind(),
        });
    }
    let name = column.name().clone()?;
    Series::full_null(alloc, name, column.len(), target)
}
