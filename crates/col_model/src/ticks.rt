// How ticks of one unit become ticks of another.
ghost use Rattle.std.specs.Prelude.{◌≡◌, ◌<◌, ℤ, pos, int_div, Some};
ghost use Rattle.std.specs.Int.{w32, int_div_euclid};
ghost use Rattle.col_types.specs.TimeUnit.{ticks_per_day};
ghost use Rattle.col_model.specs.Arithmetic.{Signed, word_values, fitting_value, wrapped_value};
ghost use Rattle.col_model.specs.Formula.{X, Y, value_of};
ghost use Rattle.col_model.specs.UnitChange.{unit_change, IsProper, in_finer_unit};
ghost use Rattle.col_model.specs.UnitChange.{datetime_by, duration_by, day_in_unit};
ghost use Rattle.col_model.specs.UnitChange.{datetime_in_unit, duration_in_unit};
ghost use Rattle.col_model.specs.UnitChange.{wrapped_in_finer_unit};
ghost use Rattle.col_model.specs.UnitChange.{wrapped_datetime_by, wrapped_duration_by};
ghost use Rattle.col_model.specs.CastTable.{day_of, time_of};

use col_types::{CastOptions, NANOS_PER_DAY, TimeUnit};

const MICROS_PER_DAY: i64 = NANOS_PER_DAY / 1_000;

const MILLIS_PER_DAY: i64 = NANOS_PER_DAY / 1_000_000;

/// How one unit stands to another.
#[derive(Clone, Copy, Debug, PartialEq, Eq)]
pub enum UnitChange {
    /// So many of the new ticks make one of the old.
    Finer(u32),
    Same,
    /// So many of the old ticks make one of the new.
    Coarser(u32),
}

/// The factor between two units, and which of them is the finer.
#[inline(always)]
pub fn unit_change(from: TimeUnit, to: TimeUnit) -> UnitChange
    ensures value { result ≡ unit_change from to }
    ensures proper { IsProper result }
{
    let (old, new) = (from.nanos_per_tick(), to.nanos_per_tick());
    if new < old {
        UnitChange::Finer(old / new)
    } else if old < new {
        UnitChange::Coarser(new / old)
    } else {
        UnitChange::Same
    }
}

#[inline(always)]
fn in_finer_unit(tick: i64, factor: u32) -> Option<i64>
    ensures left { (y : ℤ) → result ≡ value_of (in_finer_unit factor X) tick y }
    ensures right { (x : ℤ) → result ≡ value_of (in_finer_unit factor Y) x tick }
{
    tick.checked_mul(i64::from(factor))
}

// A division by a number that the code names is a multiplication, so the factors between units are
// named.

/// The quotient rounded down.
#[inline(always)]
fn floor_quotient(tick: i64, factor: u32) -> i64
    requires factor { 0 < factor }
    ensures value { result ≡ int_div_euclid tick (pos factor) }
{
    match factor {
        1_000 => tick.div_euclid(1_000),
        1_000_000 => tick.div_euclid(1_000_000),
        1_000_000_000 => tick.div_euclid(1_000_000_000),
        _ => tick.div_euclid(i64::from(factor)),
    }
}

/// The quotient rounded towards zero.
#[inline(always)]
fn trunc_quotient(tick: i64, factor: u32) -> i64
    requires factor { 0 < factor }
    ensures value { result ≡ int_div tick (pos factor) }
{
    match factor {
        1_000 => tick / 1_000,
        1_000_000 => tick / 1_000_000,
        1_000_000_000 => tick / 1_000_000_000,
        _ => tick / i64::from(factor),
    }
}

/// A moment after a change of unit: rounded down in a coarser one, none where a finer one leaves
/// 64 bits.
#[inline(always)]
pub fn datetime_by(tick: i64, change: UnitChange) -> Option<i64>
    requires proper { IsProper change }
    ensures value { result ≡ value_of (datetime_by change X) tick tick }
    ensures left { (y : ℤ) → result ≡ value_of (datetime_by change X) tick y }
    ensures right { (x : ℤ) → result ≡ value_of (datetime_by change Y) x tick }
{
    match change {
        UnitChange::Finer(factor) => in_finer_unit(tick, factor),
        UnitChange::Same => Some(tick),
        UnitChange::Coarser(factor) => Some(floor_quotient(tick, factor)),
    }
}

/// A length of time after a change of unit: rounded towards zero in a coarser one, none where a
/// finer one leaves 64 bits.
#[inline(always)]
pub fn duration_by(tick: i64, change: UnitChange) -> Option<i64>
    requires proper { IsProper change }
    ensures value { result ≡ value_of (duration_by change X) tick tick }
    ensures left { (y : ℤ) → result ≡ value_of (duration_by change X) tick y }
    ensures right { (x : ℤ) → result ≡ value_of (duration_by change Y) x tick }
{
    match change {
        UnitChange::Finer(factor) => in_finer_unit(tick, factor),
        UnitChange::Same => Some(tick),
        UnitChange::Coarser(factor) => Some(trunc_quotient(tick, factor)),
    }
}

/// A moment in another unit, as `datetime_by` the change between the two units.
pub fn datetime_in_unit(tick: i64, from: TimeUnit, to: TimeUnit) -> Option<i64>
    ensures value { result ≡ value_of (datetime_in_unit from to X) tick tick }
{
    datetime_by(tick, unit_change(from, to))
}

/// A length of time in another unit, as `duration_by` the change between the two units.
pub fn duration_in_unit(tick: i64, from: TimeUnit, to: TimeUnit) -> Option<i64>
    ensures value { result ≡ value_of (duration_in_unit from to X) tick tick }
{
    duration_by(tick, unit_change(from, to))
}

// ---- days

/// How many ticks a day has.
#[inline(always)]
pub fn ticks_per_day(unit: TimeUnit) -> i64
    ensures value { result ≡ pos (ticks_per_day unit) }
{
    NANOS_PER_DAY / i64::from(unit.nanos_per_tick())
}

/// The moment at which a day begins, none where it leaves 64 bits.
#[inline(always)]
pub fn day_in_unit(day: i64, unit: TimeUnit) -> Option<i64>
    ensures value { result ≡ value_of (day_in_unit unit X) day day }
    ensures left { (y : ℤ) → result ≡ value_of (day_in_unit unit X) day y }
    ensures right { (x : ℤ) → result ≡ value_of (day_in_unit unit Y) x day }
{
    day.checked_mul(ticks_per_day(unit))
}

/// A day number, none where the word of dates doesn't hold it.
pub fn fitting_day(day: i64) -> Option<i64>
    ensures value { result ≡ fitting_value (word_values (Signed w32)) day }
{
    if i64::from(i32::MIN) <= day && day <= i64::from(i32::MAX) {
        Some(day)
    } else {
        None
    }
}

/// A day number, wrapped to the word of dates.
pub fn wrapped_day(day: i64) -> i64
    ensures value { result ≡ wrapped_value (Signed w32) day }
{
    let low = day.rem_euclid(1 << 32) as u32;
    i64::from(low.cast_signed())
}

/// The number of a moment's day.
#[inline(always)]
fn day_number(tick: i64, unit: TimeUnit) -> i64
    ensures value { result ≡ int_div_euclid tick (pos (ticks_per_day unit)) }
{
    match unit {
        TimeUnit::Nanoseconds => tick.div_euclid(NANOS_PER_DAY),
        TimeUnit::Microseconds => tick.div_euclid(MICROS_PER_DAY),
        TimeUnit::Milliseconds => tick.div_euclid(MILLIS_PER_DAY),
    }
}

/// The day of a moment. Where the word of dates doesn't hold it: none, or, where the cast may
/// overflow, wrapped.
#[inline(always)]
pub fn day_of(tick: i64, unit: TimeUnit, options: CastOptions) -> Option<i64>
    ensures value { result ≡ value_of (day_of options unit) tick tick }
{
    let day = day_number(tick, unit);
    match options {
        CastOptions::Strict | CastOptions::NonStrict => fitting_day(day),
        CastOptions::Overflowing => Some(wrapped_day(day)),
    }
}

/// The nanoseconds of a moment since its day began.
pub fn time_of(tick: i64, unit: TimeUnit) -> i64
    ensures value { Some result ≡ value_of (time_of unit) tick tick }
{
    tick.rem_euclid(ticks_per_day(unit)) * i64::from(unit.nanos_per_tick())
}

// ---- changes of unit that wrap

fn wrapped_in_finer_unit(tick: i64, factor: u32) -> i64
    ensures value { Some result ≡ value_of (wrapped_in_finer_unit factor X) tick tick }
{
    tick.wrapping_mul(i64::from(factor))
}

/// A moment after a change of unit, as `datetime_by`, but wrapped where it leaves 64 bits.
pub fn wrapped_datetime_by(tick: i64, change: UnitChange) -> i64
    requires proper { IsProper change }
    ensures value { Some result ≡ value_of (wrapped_datetime_by change X) tick tick }
{
    match change {
        UnitChange::Finer(factor) => wrapped_in_finer_unit(tick, factor),
        UnitChange::Same => tick,
        UnitChange::Coarser(factor) => tick.div_euclid(i64::from(factor)),
    }
}

/// A length of time after a change of unit, as `duration_by`, but wrapped where it leaves 64 bits.
pub fn wrapped_duration_by(tick: i64, change: UnitChange) -> i64
    requires proper { IsProper change }
    ensures value { Some result ≡ value_of (wrapped_duration_by change X) tick tick }
{
    match change {
        UnitChange::Finer(factor) => wrapped_in_finer_unit(tick, factor),
        UnitChange::Same => tick,
        UnitChange::Coarser(factor) => tick / i64::from(factor),
    }
}
