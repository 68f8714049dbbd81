//! Columns of words under the rows of the cast table between dates, moments and times, of units
//! that are known when it runs.

ghost use Rattle.std.specs.Prelude.{◌≡◌, IfOk, Ok};
ghost use Rattle.std.specs.Int.{w32, w64};
ghost use Rattle.col_types.specs.PolarsError.{GivesBy};
ghost use Rattle.col_types.specs.declared.cast_options.CastOptions.TheVariants.{NonStrict};
ghost use Rattle.col_types.specs.declared.data_type.DataType.{Int32, Int64};
ghost use Rattle.col_model.specs.Arithmetic.{Signed};
ghost use Rattle.col_model.specs.CastTable.{day_of, time_of};
ghost use Rattle.col_model.specs.ColumnCalls.{first_lost};
ghost use Rattle.col_model.specs.Formula.{X, slot_by, value_of};
ghost use Rattle.col_model.specs.UnitChange.{day_in_unit};
ghost use Rattle.col_model.specs.Words.{word_dtype};
ghost use Rattle.col_rule.specs.Columns.{mapped_chunks};
ghost use Rattle.col_cast.specs.Rows.{tick_formula, tick_source};

use crate::cast_word::{CastWord, Made, Stored};
use crate::row::TickRow;
use crate::tick_rules::{DayOf, DayStart, TimeOf};
use crate::word_rows::passed;
use col_chunk::{ChunkedArray, Int32Chunked, Int64Chunked};
use col_logical::{Lengths, Micros, Millis, Moments, Nanos, Unit, in_unit};
use col_rule::{ChangedArray, change_array};
use col_types::{CastOptions, PolarsResult, TimeUnit};
use std::alloc::Global;
use std::marker::PhantomData;

/// The words of days.
fn days<T: CastWord>(values: &ChunkedArray<T>) -> &Int32Chunked
    requires source { T.word_type ≡ Signed w32 }
    ensures same { result.now ≡ values.now }
{
    match T::stored(values) {
        Stored::Days(days) => days,
        _ => unreachable!(),
    }
}

/// The words of ticks.
fn ticks<T: CastWord>(values: &ChunkedArray<T>) -> &Int64Chunked
    requires source { T.word_type ≡ Signed w64 }
    ensures same { result.now ≡ values.now }
{
    match T::stored(values) {
        Stored::Ticks(ticks) => ticks,
        _ => unreachable!(),
    }
}

/// The moments at which days begin, and the first that leaves 64 bits.
fn starts_of(alloc: Global, days: &Int32Chunked, unit: TimeUnit) -> PolarsResult<ChangedArray<i64>>
    ensures column { GivesBy (λ changed. changed.array) result
        (Ok (mapped_chunks (λ x. value_of (day_in_unit unit X) x x) Int64 days.now)) }
    ensures lost { IfOk result (λ changed. changed.lost
        ≡ first_lost (slot_by (day_in_unit unit X)) 0 days.now.column.slots) }
{
    match unit {
        TimeUnit::Nanoseconds => {
            change_array(alloc, &DayStart::<Nanos> { unit: PhantomData }, days)
        }
        TimeUnit::Microseconds => {
            change_array(alloc, &DayStart::<Micros> { unit: PhantomData }, days)
        }
        TimeUnit::Milliseconds => {
            change_array(alloc, &DayStart::<Millis> { unit: PhantomData }, days)
        }
    }
}

/// The times of moments, of which none is lost.
fn times_of(
    alloc: Global,
    moments: &Int64Chunked,
    unit: TimeUnit,
) -> PolarsResult<ChangedArray<i64>>
    ensures column { GivesBy (λ changed. changed.array) result
        (Ok (mapped_chunks (λ x. value_of (time_of unit) x x) Int64 moments.now)) }
    ensures lost { IfOk result (λ changed. changed.lost
        ≡ first_lost (slot_by (time_of unit)) 0 moments.now.column.slots) }
{
    match unit {
        TimeUnit::Nanoseconds => {
            change_array(alloc, &TimeOf::<Nanos> { unit: PhantomData }, moments)
        }
        TimeUnit::Microseconds => {
            change_array(alloc, &TimeOf::<Micros> { unit: PhantomData }, moments)
        }
        TimeUnit::Milliseconds => {
            change_array(alloc, &TimeOf::<Millis> { unit: PhantomData }, moments)
        }
    }
}

/// The days of moments, and the first for which the word of dates has no room.
fn days_of(
    alloc: Global,
    moments: &Int64Chunked,
    unit: TimeUnit,
    options: CastOptions,
) -> PolarsResult<ChangedArray<i32>>
    ensures column { GivesBy (λ changed. changed.array) result
        (Ok (mapped_chunks (λ x. value_of (day_of options unit) x x) Int32 moments.now)) }
    ensures lost { IfOk result (λ changed. changed.lost
        ≡ first_lost (slot_by (day_of NonStrict unit)) 0 moments.now.column.slots) }
{
    match unit {
        TimeUnit::Nanoseconds => days_in::<Nanos>(alloc, moments, options),
        TimeUnit::Microseconds => days_in::<Micros>(alloc, moments, options),
        TimeUnit::Milliseconds => days_in::<Millis>(alloc, moments, options),
    }
}

/// The same with the unit as a type.
fn days_in<A: Unit>(
    alloc: Global,
    moments: &Int64Chunked,
    options: CastOptions,
) -> PolarsResult<ChangedArray<i32>>
    ensures column { GivesBy (λ changed. changed.array) result
        (Ok (mapped_chunks (λ x. value_of (day_of options A.unit) x x) Int32 moments.now)) }
    ensures lost { IfOk result (λ changed. changed.lost
        ≡ first_lost (slot_by (day_of NonStrict A.unit)) 0 moments.now.column.slots) }
{
    let rule = DayOf::<A> {
        unit: PhantomData,
        options,
    };
    change_array(alloc, &rule, moments)
}

/// Words as days.
pub(crate) fn as_days<T: CastWord, U: CastWord>(
    alloc: Global,
    values: &ChunkedArray<T>,
    unit: TimeUnit,
    options: CastOptions,
) -> PolarsResult<ChangedArray<U>>
    requires source { T.word_type ≡ Signed w64 }
    requires target { U.word_type ≡ Signed w32 }
    ensures column { GivesBy (λ changed. changed.array) result (Ok (mapped_chunks
        (λ x. value_of (day_of options unit) x x) (word_dtype U.word_type) values.now)) }
    ensures lost { IfOk result (λ changed. changed.lost
        ≡ first_lost (slot_by (day_of NonStrict unit)) 0 values.now.column.slots) }
{
    match days_of(alloc, ticks(values), unit, options) {
        Ok(changed) => Ok(passed(Made::Days(changed))),
        Err(refusal) => Err(refusal),
    }
}

/// Words as ticks of 64 bits.
fn ticks_of<T: CastWord>(
    alloc: Global,
    values: &ChunkedArray<T>,
    row: TickRow,
) -> PolarsResult<ChangedArray<i64>>
    requires source { T.word_type ≡ tick_source row }
    ensures column { GivesBy (λ changed. changed.array) result
        (Ok (mapped_chunks (λ x. value_of (tick_formula row) x x) Int64 values.now)) }
    ensures lost { IfOk result (λ changed. changed.lost
        ≡ first_lost (slot_by (tick_formula row)) 0 values.now.column.slots) }
{
    match row {
        TickRow::DayStart(unit) => starts_of(alloc, days(values), unit),
        TickRow::Time(unit) => times_of(alloc, ticks(values), unit),
        TickRow::Datetime(from, to) => in_unit::<Moments>(alloc, ticks(values), from, to),
        TickRow::Duration(from, to) => in_unit::<Lengths>(alloc, ticks(values), from, to),
    }
}

/// The same in a word that is as wide.
pub(crate) fn as_ticks<T: CastWord, U: CastWord>(
    alloc: Global,
    values: &ChunkedArray<T>,
    row: TickRow,
) -> PolarsResult<ChangedArray<U>>
    requires source { T.word_type ≡ tick_source row }
    requires target { U.word_type ≡ Signed w64 }
    ensures column { GivesBy (λ changed. changed.array) result (Ok (mapped_chunks
        (λ x. value_of (tick_formula row) x x) (word_dtype U.word_type) values.now)) }
    ensures lost { IfOk result (λ changed. changed.lost
        ≡ first_lost (slot_by (tick_formula row)) 0 values.now.column.slots) }
{
    match ticks_of(alloc, values, row) {
        Ok(changed) => Ok(passed(Made::Ticks(changed))),
        Err(refusal) => Err(refusal),
    }
}
