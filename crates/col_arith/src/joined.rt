// Two columns under a row of the operator table.
ghost use Rattle.std.specs.Prelude.{◌≡◌, true, Some};
ghost use Rattle.std.specs.Int.{w32, w64};
ghost use Rattle.col_types.specs.PolarsError.{GivesBy};
ghost use Rattle.col_types.specs.TimeUnit.{ticks_per_day};
ghost use Rattle.col_types.specs.declared.data_type.DataType.{Date, Duration, Time};
ghost use Rattle.col_types.specs.declared.time_unit.TimeUnit.TheVariants.{Milliseconds};
ghost use Rattle.col_types.specs.declared.time_unit.TimeUnit.TheVariants.{Nanoseconds};
ghost use Rattle.col_model.specs.Arithmetic.{Signed};
ghost use Rattle.col_model.specs.Chunked.{column_of};
ghost use Rattle.col_model.specs.Column.{is_built_type, physical_word};
ghost use Rattle.col_model.specs.Formula.{X, Y, Difference, FloorBy, Sum};
ghost use Rattle.col_model.specs.OperatorTable.{as_date, wrapping};
ghost use Rattle.col_model.specs.UnitChange.{day_in_unit, times};
ghost use Rattle.col_arith.specs.Joined.{HasNoBound, joined_by};

use crate::operators::{DatesApart, DayThenMoment, LengthThenDate, MomentThenDay, Operator};
use crate::reading::{read_dates, read_ticks};
use crate::rows::{at_units, between_times, by_left_unit, by_right_unit, by_units};
use col_logical::Millis;
use col_series::Series;
use col_types::{DataType, PolarsResult, TimeUnit};
use std::alloc::Global;

/// Two columns of ticks with units.
pub(crate) fn ticks_joined<R: Operator<i64, i64, i64>>(
    alloc: Global,
    units: (TimeUnit, TimeUnit),
    left: &Series,
    right: &Series,
    dtype: DataType,
) -> PolarsResult<Series>
    requires left { physical_word left.now.column.dtype ≡ Some (Signed w64) }
    requires right { physical_word right.now.column.dtype ≡ Some (Signed w64) }
    requires built_type { is_built_type dtype ≡ true }
    requires stored { physical_word dtype ≡ Some (Signed w64) }
    requires no_bound { HasNoBound dtype }
    ensures column { GivesBy column_of result
        (joined_by (R.formula units.0 units.1) dtype left.now.column right.now.column) }
{
    let words = by_units::<i64, i64, i64, R>(alloc, units, left.int64(), right.int64());
    read_ticks(alloc, words, dtype)
}

/// Two columns of words of 64 bits under a row that doesn't depend on units.
pub(crate) fn words_joined<R: Operator<i64, i64, i64>>(
    alloc: Global,
    left: &Series,
    right: &Series,
    dtype: DataType,
) -> PolarsResult<Series>
    requires left { physical_word left.now.column.dtype ≡ Some (Signed w64) }
    requires right { physical_word right.now.column.dtype ≡ Some (Signed w64) }
    requires built_type { is_built_type dtype ≡ true }
    requires stored { physical_word dtype ≡ Some (Signed w64) }
    requires no_bound { HasNoBound dtype }
    ensures column { GivesBy column_of result
        (joined_by (R.formula Milliseconds Milliseconds) dtype left.now.column right.now.column) }
{
    let words = at_units::<i64, i64, i64, R, Millis, Millis>(alloc, left.int64(), right.int64());
    read_ticks(alloc, words, dtype)
}

/// Dates with lengths of time of a unit.
pub(crate) fn dates_with_lengths<R: Operator<i32, i64, i32>>(
    alloc: Global,
    unit: TimeUnit,
    dates: &Series,
    lengths: &Series,
) -> PolarsResult<Series>
    requires dates { physical_word dates.now.column.dtype ≡ Some (Signed w32) }
    requires lengths { physical_word lengths.now.column.dtype ≡ Some (Signed w64) }
    ensures column { GivesBy column_of result
        (joined_by (R.formula Milliseconds unit) Date dates.now.column lengths.now.column) }
{
    let words = by_right_unit::<i32, i64, i32, R, Millis>(
        alloc,
        unit,
        dates.int32(),
        lengths.int64(),
    );
    read_dates(alloc, words)
}

/// Lengths of time of a unit, cut to whole days, with dates.
pub(crate) fn lengths_with_dates(
    alloc: Global,
    unit: TimeUnit,
    lengths: &Series,
    dates: &Series,
) -> PolarsResult<Series>
    requires lengths { physical_word lengths.now.column.dtype ≡ Some (Signed w64) }
    requires dates { physical_word dates.now.column.dtype ≡ Some (Signed w32) }
    ensures column { GivesBy column_of result
        (joined_by (as_date (Sum (FloorBy X (ticks_per_day unit)) Y)) Date
        lengths.now.column dates.now.column) }
{
    let words = by_left_unit::<i64, i32, i32, LengthThenDate, Millis>(
        alloc,
        unit,
        lengths.int64(),
        dates.int32(),
    );
    read_dates(alloc, words)
}

/// What lies between the beginnings of dates and moments of a unit.
pub(crate) fn dates_and_moments(
    alloc: Global,
    unit: TimeUnit,
    dates: &Series,
    moments: &Series,
) -> PolarsResult<Series>
    requires dates { physical_word dates.now.column.dtype ≡ Some (Signed w32) }
    requires moments { physical_word moments.now.column.dtype ≡ Some (Signed w64) }
    ensures column { GivesBy column_of result
        (joined_by (wrapping Difference (day_in_unit unit X) Y) (Duration unit)
        dates.now.column moments.now.column) }
{
    let words = by_right_unit::<i32, i64, i64, DayThenMoment, Millis>(
        alloc,
        unit,
        dates.int32(),
        moments.int64(),
    );
    read_ticks(alloc, words, DataType::Duration(unit))
}

/// What lies between moments of a unit and the beginnings of dates.
pub(crate) fn moments_and_dates(
    alloc: Global,
    unit: TimeUnit,
    moments: &Series,
    dates: &Series,
) -> PolarsResult<Series>
    requires moments { physical_word moments.now.column.dtype ≡ Some (Signed w64) }
    requires dates { physical_word dates.now.column.dtype ≡ Some (Signed w32) }
    ensures column { GivesBy column_of result
        (joined_by (wrapping Difference X (day_in_unit unit Y)) (Duration unit)
        moments.now.column dates.now.column) }
{
    let words = by_left_unit::<i64, i32, i64, MomentThenDay, Millis>(
        alloc,
        unit,
        moments.int64(),
        dates.int32(),
    );
    read_ticks(alloc, words, DataType::Duration(unit))
}

/// The milliseconds between dates.
pub(crate) fn dates_apart(alloc: Global, left: &Series, right: &Series) -> PolarsResult<Series>
    requires left { physical_word left.now.column.dtype ≡ Some (Signed w32) }
    requires right { physical_word right.now.column.dtype ≡ Some (Signed w32) }
    ensures column { GivesBy column_of result
        (joined_by (times (ticks_per_day Milliseconds) (Difference X Y)) (Duration Milliseconds)
        left.now.column right.now.column) }
{
    let words = at_units::<i32, i32, i64, DatesApart, Millis, Millis>(
        alloc,
        left.int32(),
        right.int32(),
    );
    read_ticks(alloc, words, DataType::Duration(TimeUnit::Milliseconds))
}

/// The nanoseconds between times of the day.
pub(crate) fn times_apart(alloc: Global, left: &Series, right: &Series) -> PolarsResult<Series>
    requires left { left.now.column.dtype ≡ Time }
    requires right { right.now.column.dtype ≡ Time }
    ensures column { GivesBy column_of result
        (joined_by (Difference X Y) (Duration Nanoseconds) left.now.column right.now.column) }
{
    left.known();
    right.known();
    let words = between_times(alloc, left.int64(), right.int64());
    read_ticks(alloc, words, DataType::Duration(TimeUnit::Nanoseconds))
}
