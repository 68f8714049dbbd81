//! Civil values as ticks, and the functions on one value.

ghost use Rattle.std.specs.Prelude.{◌≡◌, pos, true};
ghost use Rattle.std.specs.Option.{option_map};
ghost use Rattle.std.specs.Int.{w64};
ghost use Rattle.jiff.specs.Words.{civil_nanos, time_nanos};
ghost use Rattle.col_types.specs.PolarsError.{seen_by};
ghost use Rattle.col_types.specs.TimeUnit.{nanos_per_tick};
ghost use Rattle.col_types.specs.declared.time_unit.TimeUnit.TheVariants.{Microseconds};
ghost use Rattle.col_types.specs.declared.time_unit.TimeUnit.TheVariants.{Milliseconds};
ghost use Rattle.col_model.specs.Arithmetic.{Signed, floor_by, is_within, trunc_by, wrapped_value};
ghost use Rattle.col_model.specs.Column.{day_values};
ghost use Rattle.col_model.specs.Value.{whole};
ghost use Rattle.col_civil.specs.Made.{fitting_tick, valid_slot};

use col_types::{PolarsError, PolarsResult, TimeUnit};
use jiff::civil::{DateTime, Time};

/// The nanoseconds of a moment since 1970-01-01T00:00. Refused where they leave 64 bits (`Fit`).
pub fn datetime_to_timestamp_ns(value: &DateTime) -> PolarsResult<i64>
    ensures nanos { result ≡ fitting_tick 0 (civil_nanos value.now) }
{
    fitting(value.to_plain().to_nanosecond(), 0)
}

/// The microseconds of a moment since 1970-01-01T00:00, rounded down.
pub fn datetime_to_timestamp_us(value: &DateTime) -> i64
    ensures micros { result ≡ floor_by (civil_nanos value.now) (nanos_per_tick Microseconds) }
{
    value.to_plain().to_nanosecond().div_euclid(1_000) as i64
}

/// The milliseconds of a moment since 1970-01-01T00:00, rounded down.
pub fn datetime_to_timestamp_ms(value: &DateTime) -> i64
    ensures millis { result ≡ floor_by (civil_nanos value.now) (nanos_per_tick Milliseconds) }
{
    value.to_plain().to_nanosecond().div_euclid(1_000_000) as i64
}

/// The nanoseconds of a time since its day began.
pub fn time_to_time64ns(value: &Time) -> i64
    ensures nanos { result ≡ pos (time_nanos value.now) }
    ensures day { is_within day_values result ≡ true }
{
    value.to_plain().to_nanosecond() as i64
}

/// Nanoseconds in ticks of a unit, rounded down.
pub(crate) fn floored(nanos: i128, unit: TimeUnit) -> i128
    ensures ticks { result ≡ floor_by nanos (nanos_per_tick unit) }
{
    match unit {
        TimeUnit::Nanoseconds => nanos,
        TimeUnit::Microseconds => nanos.div_euclid(1_000),
        TimeUnit::Milliseconds => nanos.div_euclid(1_000_000),
    }
}

/// Nanoseconds in ticks of a unit, rounded towards zero.
pub(crate) fn truncated(nanos: i128, unit: TimeUnit) -> i128
    ensures ticks { result ≡ trunc_by nanos (nanos_per_tick unit) }
{
    match unit {
        TimeUnit::Nanoseconds => nanos,
        TimeUnit::Microseconds => nanos / 1_000,
        TimeUnit::Milliseconds => nanos / 1_000_000,
    }
}

/// A tick of a row in 64 bits. Refused where it leaves them (`Fit`).
pub(crate) fn fitting(tick: i128, row: u32) -> PolarsResult<i64>
    ensures tick { result ≡ fitting_tick row tick }
{
    if i128::from(i64::MIN) <= tick && tick <= i128::from(i64::MAX) {
        Ok(tick as i64)
    } else {
        Err(PolarsError::Fit { row })
    }
}

/// A tick of a row as a slot. Refused where it leaves 64 bits (`Fit`).
#[tactic(auto, using(crate::proofs::SlotLaws::readings))]
pub(crate) fn tick_slot(tick: i128, row: u32) -> PolarsResult<Option<i64>>
    ensures slot { seen_by (λ slot. option_map (λ x. whole (wrapped_value (Signed w64) x)) slot)
        result ≡ seen_by valid_slot (fitting_tick row tick) }
{
    match fitting(tick, row) {
        Ok(tick) => Ok(Some(tick)),
        Err(refusal) => Err(refusal),
    }
}
