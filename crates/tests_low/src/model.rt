// That each call succeeds; values by hand stand as laws.
use crate::same::same;
use TimeUnit::{Microseconds, Milliseconds, Nanoseconds};
use col_model::*;

#[test]
fn ticks_in_other_units(rt: HostRuntime) {
    let (us, ms) = (Microseconds, Milliseconds);
    same(&rt, "moment", datetime_in_unit(-1_001, us, ms), Some(-2));
    same(&rt, "length", duration_in_unit(-1_001, us, ms), Some(-1));
    let late = datetime_in_unit(i64::MAX, ms, Nanoseconds);
    same(&rt, "late", late, None);
    let change = unit_change(ms, Nanoseconds);
    let wrapped = wrapped_datetime_by(i64::MAX, change);
    same(&rt, "wrapped moment", wrapped, -1_000_000);
    let wrapped = wrapped_duration_by(i64::MAX, change);
    same(&rt, "wrapped length", wrapped, -1_000_000);
}

#[test]
fn days_and_times_of_moments(rt: HostRuntime) {
    let (us, ms) = (Microseconds, Milliseconds);
    let midnight = day_in_unit(106_751_991, us);
    same(&rt, "midnight", midnight, Some(9_223_372_022_400_000_000));
    same(&rt, "no midnight", day_in_unit(106_751_992, us), None);
    let wrapped = day_of(i64::MAX, ms, CastOptions::Overflowing);
    same(&rt, "wrapped day", wrapped, Some(-622_191_233));
    let none = day_of(i64::MAX, ms, CastOptions::NonStrict);
    same(&rt, "no day", none, None);
    same(&rt, "time", time_of(-1, us), 86_399_999_999_000);
}
