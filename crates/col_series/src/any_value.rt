// A value read from a column.
use crate::{TimeUnit, TimeZone};

/// A value of a column, or null. It borrows the zone from the column's type.
#[derive(Clone, Copy)]
pub enum AnyValue<'a> {
    Null,
    /// Days since 1970.
    Date(i32),
    /// Ticks since 1970, their unit, and the zone.
    Datetime(i64, TimeUnit, Option<&'a TimeZone>),
    /// Ticks and their unit.
    Duration(i64, TimeUnit),
    /// Nanoseconds since the day began.
    Time(i64),
    Int64(i64),
}
