//! Civil values into columns and back, at values known by hand.

use col_chunk::{Int32Chunked, Word};
use col_civil::{
    CivilDates, CivilDatetimes, CivilDurations, CivilTimes, datetime_to_timestamp_ms,
    datetime_to_timestamp_ns, datetime_to_timestamp_us, time_to_time64ns,
};
use col_logical::{
    DateChunked, DatetimeChunked, DurationChunked, Int32Logical, Logical, LogicalKind, TimeChunked,
};
use col_types::{PlSmallStr, PolarsError, TimeUnit};
use jiff::SignedDuration;
use jiff::civil::{Date, DateTime, Time};
use std::alloc::Global;
use std::process::Abort;

const NANOS: TimeUnit = TimeUnit::Nanoseconds;

const MICROS: TimeUnit = TimeUnit::Microseconds;

const MILLIS: TimeUnit = TimeUnit::Milliseconds;

fn name(rt: &impl Abort, alloc: Global) -> PlSmallStr {
    PlSmallStr::from_str(alloc, "a").expect(rt, "a name")
}

fn date(rt: &impl Abort, year: i16, month: i8, day: i8) -> Date {
    Date::new(year, month, day).expect(rt, "a date")
}

/// A time of so many nanoseconds behind a second.
fn time(rt: &impl Abort, hour: i8, minute: i8, second: i8, nanos: i32) -> Time {
    Time::new(hour, minute, second, nanos).expect(rt, "a time")
}

/// Stops the test unless this holds.
fn holds(rt: &impl Abort, at: &str, is_so: bool) {
    assert!(rt; is_so, "{at}");
}

/// The column has this word and a null.
fn has<K: LogicalKind, T: Word>(rt: &impl Abort, column: &Logical<K, T>, word: T) {
    let alike = column.len() == 2 && column.get(0) == Some(word) && column.get(1).is_none();
    holds(rt, "other words", alike);
}

#[test]
fn dates_are_days(rt: HostRuntime) {
    let alloc = rt.alloc();
    for (year, month, day, number) in [
        (1970, 1, 2, 1),
        (1969, 12, 31, -1),
        (2024, 2, 29, 19_782),
        (2000, 2, 29, 11_016),
        (1900, 2, 28, -25_509),
        (1900, 3, 1, -25_508),
        (1600, 2, 29, -135_081),
        (0, 2, 29, -719_469),
        (-1, 3, 1, -719_834),
        (-1, 2, 28, -719_835),
        (-9999, 1, 1, -4_371_587),
        (9999, 12, 31, 2_932_896),
    ] {
        let value = date(&rt, year, month, day);
        let items = [Some(value), None];
        let column = DateChunked::from_naive_date_options(
            alloc,
            name(&rt, alloc),
            items.iter().copied(),
        ).expect(&rt, "dates");
        has(&rt, &column, number);
        let mut iter = column.as_date_iter();
        let first = iter.next();
        holds(
            &rt,
            "back",
            matches!(first, Some(Some(Ok(back))) if back == value),
        );
        let second = iter.next();
        holds(
            &rt,
            "a null",
            matches!(second, Some(None)) && iter.remaining() == 0,
        );
    }
}

#[test]
fn moments_are_ticks(rt: HostRuntime) {
    let alloc = rt.alloc();
    let night = time(&rt, 23, 59, 59, 999_999_999);
    let eve = date(&rt, 1969, 12, 31);
    for (day, time, unit, tick) in [
        (
            date(&rt, 1988, 8, 25),
            time(&rt, 0, 0, 16, 0),
            NANOS,
            588_470_416_000_000_000,
        ),
        (
            date(&rt, 2015, 9, 5),
            time(&rt, 23, 56, 4, 0),
            NANOS,
            1_441_497_364_000_000_000,
        ),
        (
            date(&rt, 2012, 12, 21),
            time(&rt, 0, 0, 0, 0),
            NANOS,
            1_356_048_000_000_000_000,
        ),
        (eve, night, NANOS, -1),
        (eve, night, MICROS, -1),
        (eve, night, MILLIS, -1),
        (eve, time(&rt, 0, 0, 0, 0), MICROS, -86_400_000_000),
    ] {
        let items = [Some(DateTime::from_parts(day, time)), None];
        let column = DatetimeChunked::from_naive_datetime_options(
            alloc,
            name(&rt, alloc),
            items.iter().copied(),
            unit,
        ).expect(&rt, "moments");
        has(&rt, &column, tick);
        let back = column.as_datetime_iter().next();
        holds(&rt, "back", matches!(back, Some(Some(Ok(_)))));
    }
}

#[test]
fn durations_round_towards_zero(rt: HostRuntime) {
    let alloc = rt.alloc();
    for (nanos, unit, tick) in [
        (1_000_000_000, MILLIS, 1_000),
        (1_999_999, MILLIS, 1),
        (-1_999_999, MILLIS, -1),
        (-1, MICROS, 0),
    ] {
        let items = [Some(SignedDuration::from_nanos(nanos)), None];
        let column = DurationChunked::from_duration_options(
            alloc,
            name(&rt, alloc),
            items.iter().copied(),
            unit,
        ).expect(&rt, "lengths of time");
        has(&rt, &column, tick);
    }
}

#[test]
fn times_are_nanoseconds(rt: HostRuntime) {
    let alloc = rt.alloc();
    for (value, nanos) in [
        (time(&rt, 0, 0, 0, 0), 0),
        (time(&rt, 0, 0, 1, 0), 1_000_000_000),
        (time(&rt, 23, 59, 59, 999_999_999), 86_399_999_999_999),
    ] {
        holds(&rt, "nanos", time_to_time64ns(&value) == nanos);
        let items = [Some(value), None];
        let column = TimeChunked::from_naive_time_options(
            alloc,
            name(&rt, alloc),
            items.iter().copied(),
        ).expect(&rt, "times");
        has(&rt, &column, nanos);
        let first = column.as_time_iter().next();
        holds(
            &rt,
            "back",
            matches!(first, Some(Some(Ok(back))) if back == value),
        );
    }
}

#[test]
fn each_value_may_be_there(rt: HostRuntime) {
    let alloc = rt.alloc();
    let day = [date(&rt, 1970, 1, 2)];
    let dates = DateChunked::from_naive_date(alloc, name(&rt, alloc), day.iter().copied());
    holds(&rt, "dates", dates.is_ok());
    let hour = [time(&rt, 1, 0, 0, 0)];
    let times = TimeChunked::from_naive_time(alloc, name(&rt, alloc), hour.iter().copied());
    holds(&rt, "times", times.is_ok());
}

#[test]
fn ticks_that_leave_64_bits(rt: HostRuntime) {
    let alloc = rt.alloc();
    let late = DateTime::from_parts(date(&rt, 9999, 1, 1), time(&rt, 0, 0, 0, 0));
    holds(
        &rt,
        "late",
        datetime_to_timestamp_ns(&late) == Err(PolarsError::Fit { row: 0 }),
    );
    holds(
        &rt,
        "late",
        datetime_to_timestamp_us(&late) == 253_370_764_800_000_000,
    );
    holds(
        &rt,
        "late",
        datetime_to_timestamp_ms(&late) == 253_370_764_800_000,
    );
    let items = [late];
    let moments = DatetimeChunked::from_naive_datetime(
        alloc,
        name(&rt, alloc),
        items.iter().copied(),
        NANOS,
    );
    holds(
        &rt,
        "a moment",
        matches!(moments, Err(PolarsError::Fit { row: 0 })),
    );
    let items = [
        SignedDuration::from_secs(1),
        SignedDuration::from_secs(10_000_000_000),
    ];
    let lengths = DurationChunked::from_duration(
        alloc,
        name(&rt, alloc),
        items.iter().copied(),
        NANOS,
    );
    holds(
        &rt,
        "a length of time",
        matches!(lengths, Err(PolarsError::Fit { row: 1 })),
    );
}

#[test]
fn days_outside_the_calendar(rt: HostRuntime) {
    let alloc = rt.alloc();
    for (inside, outside) in [(2_932_896, 2_932_897), (-4_371_587, -4_371_588)] {
        let days = [inside, outside];
        let column = Int32Chunked::from_slice(alloc, name(&rt, alloc), days.as_slice())
            .expect(&rt, "days")
            .into_date();
        let mut iter = column.as_date_iter();
        holds(&rt, "inside", matches!(iter.next(), Some(Some(Ok(_)))));
        let refused = iter.next();
        holds(
            &rt,
            "outside",
            matches!(refused, Some(Some(Err(PolarsError::Calendar { row: 1 })))),
        );
    }
}
