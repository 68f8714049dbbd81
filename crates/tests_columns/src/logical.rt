//! Cases by hand: that each call succeeds, and which word it gives. The clauses say the rest.

ghost use Rattle.std.specs.Prelude.{◌≡◌};
ghost use Rattle.col_types.specs.declared.data_type.DataType.{Date};

use crate::same::holds;
use col_chunk::{ChunkedArray, Word};
use col_logical::{DateChunked, Int32Logical, Int64Logical, Logical, LogicalKind};
use col_types::{DataType, PlSmallStr, TimeUnit, TimeZone};
use std::alloc::Global;
use std::process::Abort;

/// A column of these words, named `d`.
fn words<T: Word>(rt: &impl Abort, alloc: Global, values: &[T]) -> ChunkedArray<T> {
    let name = PlSmallStr::from_str(alloc, "d").expect(rt, "a name");
    ChunkedArray::from_slice(alloc, name, values).expect(rt, "a column")
}

/// A column of these days, named `d`.
fn days(rt: &impl Abort, alloc: Global, values: &[i32]) -> DateChunked
    ensures date { result.column.dtype ≡ Date }
{
    words(rt, alloc, values).into_date()
}

/// The column has these words.
fn has<K: LogicalKind, T: Word>(rt: &impl Abort, column: &Logical<K, T>, slots: &[Option<T>]) {
    let mut alike = column.len() == slots.len();
    for (row, slot) in slots.iter().enumerate() {
        alike = alike && row < column.len() && column.get(row) == *slot;
    }
    holds(rt, "other words", alike);
}

/// The column has the days 1, 2 and 3, in so many chunks.
fn has_three_days(rt: &impl Abort, column: &DateChunked, chunks: usize) {
    holds(rt, "chunks", column.n_chunks() == chunks);
    has(rt, column, &[Some(1), Some(2), Some(3)]);
}

#[test]
fn times_outside_the_day_are_null(rt: HostRuntime) {
    let alloc = rt.alloc();
    let nanos = [-1i64, 0, 86_399_999_999_999, 86_400_000_000_000];
    let words = words(&rt, alloc, nanos.as_slice());
    let times = words.into_time(alloc).expect(&rt, "times");
    let wanted = [None, Some(0), Some(86_399_999_999_999), None];
    has(&rt, &times, &wanted);
}

#[test]
fn field_of_dates(rt: HostRuntime) {
    let dates = days(&rt, rt.alloc(), [1, 2].as_slice());
    let field = dates.field().expect(&rt, "a field");
    holds(&rt, "name", field.name.as_str() == "d");
    holds(&rt, "type", field.dtype.is_same(&DataType::Date));
}

#[test]
fn dates_are_kept(rt: HostRuntime) {
    let alloc = rt.alloc();
    let mut dates = days(&rt, alloc, [1, 2].as_slice());
    dates.shrink_to_fit().expect(&rt, "less memory");
    has(&rt, &dates, &[Some(1), Some(2)]);
    let copy = dates.try_clone(alloc).expect(&rt, "a copy");
    has(&rt, &copy, &[Some(1), Some(2)]);
}

#[test]
fn dates_are_appended(rt: HostRuntime) {
    let alloc = rt.alloc();
    let mut dates = days(&rt, alloc, [1, 2].as_slice());
    let third = days(&rt, alloc, [3].as_slice());
    dates.append(&third).expect(&rt, "room");
    has_three_days(&rt, &dates, 2);
}

#[test]
fn dates_are_extended(rt: HostRuntime) {
    let alloc = rt.alloc();
    let mut dates = days(&rt, alloc, [1, 2].as_slice());
    let third = days(&rt, alloc, [3].as_slice());
    dates.extend(&third).expect(&rt, "room");
    has_three_days(&rt, &dates, 1);
}

#[test]
fn dates_are_taken_over(rt: HostRuntime) {
    let alloc = rt.alloc();
    let mut dates = days(&rt, alloc, [1, 2].as_slice());
    let third = days(&rt, alloc, [3].as_slice());
    let is_taken = dates.append_owned(third).is_ok();
    holds(&rt, "taken", is_taken);
    has_three_days(&rt, &dates, 2);
}

#[test]
fn units_and_zones_are_set(rt: HostRuntime) {
    let words = words(&rt, rt.alloc(), [5i64].as_slice());
    let mut moments = words.into_datetime(TimeUnit::Nanoseconds, None);
    moments.set_time_zone(Some(TimeZone::utc()));
    moments.set_time_unit(TimeUnit::Milliseconds);
    has(&rt, &moments, &[Some(5)]);
    let unit = moments.time_unit();
    holds(&rt, "unit", unit == TimeUnit::Milliseconds);
    holds(&rt, "zone", moments.time_zone().is_some());
}

#[test]
fn moments_round_down(rt: HostRuntime) {
    let alloc = rt.alloc();
    let moments = words(&rt, alloc, [-1i64].as_slice()).into_datetime(TimeUnit::Nanoseconds, None);
    let millis = moments
        .cast_time_unit(alloc, TimeUnit::Milliseconds)
        .expect(&rt, "moments");
    has(&rt, &millis, &[Some(-1)]);
}

#[test]
fn lengths_round_towards_zero(rt: HostRuntime) {
    let alloc = rt.alloc();
    let lengths = words(&rt, alloc, [-1i64].as_slice()).into_duration(TimeUnit::Nanoseconds);
    let millis = lengths
        .cast_time_unit(alloc, TimeUnit::Milliseconds)
        .expect(&rt, "lengths");
    has(&rt, &millis, &[Some(0)]);
}
