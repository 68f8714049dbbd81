//! The civil values of a column's slots, row by row. No memory is taken.

ghost use Rattle.std.specs.Prelude.{◌≡◌, ◌∷◌, [], pos, length, true};
ghost use Rattle.std.specs.Int.{w32, w64};
ghost use Rattle.std.specs.Iterator.{YieldsFirstBy, item_count};
ghost use Rattle.std.specs.Option.{option_map};
ghost use Rattle.jiff.specs.Words.{civil_nanos, epoch_day, time_nanos};
ghost use Rattle.col_types.specs.PolarsError.{seen_by};
ghost use Rattle.col_types.specs.declared.data_type.DataType.{Time as TimeType};
ghost use Rattle.col_model.specs.Arithmetic.{Signed, is_within, wrapped_value};
ghost use Rattle.col_model.specs.Column.{day_values};
ghost use Rattle.col_model.specs.Value.{whole};
ghost use Rattle.col_logical.specs.Logical.{lie_in_the_day};
ghost use Rattle.col_civil.specs.Civil.{is_calendar_day, is_calendar_moment, nanos_of_tick};
ghost use Rattle.col_civil.specs.Civil.{shown_by, shown_dates, shown_datetimes, shown_number};
ghost use Rattle.col_civil.specs.Civil.{shown_slot, shown_time, shown_times};

use crate::slots::Slots;
use col_logical::{DateChunked, DatetimeChunked, TimeChunked};
use col_types::{PolarsError, PolarsResult, TimeUnit};
use jiff::civil::{Date, DateTime, Time};
use std::marker::Model;

/// The dates of a column, from a row on. Contracts see the list of what is to come.
#[derive(Drop)]
pub struct DateIter<'a> {
    slots: Slots<'a, i32>,
    row: u32,
}

impl<'a> Model for DateIter<'a> {
    ghost use Rattle.std.specs.Prelude.{◌+◌, ◌<◌, ◌^◌, List, length};
    ghost use Rattle.col_civil.specs.Civil.{Shown, shown_dates};

    ghost Value = { List Shown };

    ghost view = { λ it. shown_dates it.row it.slots };

    ghost invariant = { λ it. it.row + length it.slots < 2 ^ 32 };
}

impl<'a> DateIter<'a> {
    pub(crate) fn new(column: &'a DateChunked) -> Self
        ensures dates { result ≡ shown_dates 0 column.now.column.slots }
    {
        DateIter {
            slots: Slots::of(column.physical()),
            row: 0,
        }
    }

    /// How many rows are to come.
    #[tactic(auto, using(crate::proofs::ShownLaws::shown_length))]
    pub fn remaining(&self) -> usize
        ensures rows { result ≡ length self.now }
    {
        self.slots.remaining()
    }
}

impl<'a> Iterator for DateIter<'a> {
    type Item = Option<PolarsResult<Date>>;

    ghost next_gives = { YieldsFirstBy (shown_by epoch_day) (λ rest. rest) };

    ghost remaining = { item_count (λ rest. rest) };

    fn next(&mut self) -> Option<Option<PolarsResult<Date>>> {
        match self.slots.take_first() {
            None => None,
            Some(slot) => {
                let row = self.row;
                self.row = row + 1;
                Some(date_of(slot, row))
            }
        }
    }
}

/// What the slot of a row shows in a column of dates.
#[tactic(auto, using(crate::proofs::SlotLaws::readings))]
fn date_of(slot: Option<i32>, row: u32) -> Option<PolarsResult<Date>>
    ensures date { shown_by epoch_day result ≡ shown_slot is_calendar_day (λ day. day) row
        (option_map (λ x. whole (wrapped_value (Signed w32) x)) slot) }
{
    match slot {
        Some(day) => Some(date_at(day, row)),
        None => None,
    }
}

/// The date of a row by the number of its day. Refused where the calendar has no such day
/// (`Calendar`).
fn date_at(day: i32, row: u32) -> PolarsResult<Date>
    ensures date { seen_by epoch_day result ≡ shown_number is_calendar_day row day }
{
    match jiff_core::civil::Date::from_unix_epoch_day(i64::from(day)) {
        Ok(date) => Ok(Date::from_plain(date)),
        Err(_) => Err(PolarsError::Calendar { row }),
    }
}

/// The moments of a column, from a row on. Contracts see the list of what is to come.
#[derive(Drop)]
pub struct DatetimeIter<'a> {
    slots: Slots<'a, i64>,
    unit: TimeUnit,
    row: u32,
}

impl<'a> Model for DatetimeIter<'a> {
    ghost use Rattle.std.specs.Prelude.{◌+◌, ◌<◌, ◌^◌, List, length};
    ghost use Rattle.col_civil.specs.Civil.{Shown, shown_moments};

    ghost Value = { List Shown };

    ghost view = { λ it. shown_moments it.unit it.row it.slots };

    ghost invariant = { λ it. it.row + length it.slots < 2 ^ 32 };
}

impl<'a> DatetimeIter<'a> {
    pub(crate) fn new(column: &'a DatetimeChunked) -> Self
        ensures moments { result ≡ shown_datetimes column.now.column }
    {
        DatetimeIter {
            slots: Slots::of(column.physical()),
            unit: column.time_unit(),
            row: 0,
        }
    }

    /// How many rows are to come.
    #[tactic(auto, using(crate::proofs::ShownLaws::shown_length))]
    pub fn remaining(&self) -> usize
        ensures rows { result ≡ length self.now }
    {
        self.slots.remaining()
    }
}

impl<'a> Iterator for DatetimeIter<'a> {
    type Item = Option<PolarsResult<DateTime>>;

    ghost next_gives = { YieldsFirstBy (shown_by civil_nanos) (λ rest. rest) };

    ghost remaining = { item_count (λ rest. rest) };

    fn next(&mut self) -> Option<Option<PolarsResult<DateTime>>> {
        match self.slots.take_first() {
            None => None,
            Some(slot) => {
                let row = self.row;
                self.row = row + 1;
                Some(moment_of(slot, self.unit, row))
            }
        }
    }
}

/// What the slot of a row shows in a column of moments.
fn moment_of(slot: Option<i64>, unit: TimeUnit, row: u32) -> Option<PolarsResult<DateTime>>
    ensures moment { shown_by civil_nanos result ≡ shown_slot is_calendar_moment
        (nanos_of_tick unit) row (option_map (λ x. whole (wrapped_value (Signed w64) x)) slot) }
{
    match slot {
        Some(tick) => Some(moment_at_tick(tick, unit, row)),
        None => None,
    }
}

/// The moment of a row by its tick. Refused where the calendar doesn't have its day (`Calendar`).
fn moment_at_tick(tick: i64, unit: TimeUnit, row: u32) -> PolarsResult<DateTime>
    ensures moment { seen_by civil_nanos result
        ≡ shown_number is_calendar_moment row
        (nanos_of_tick unit (wrapped_value (Signed w64) tick)) }
{
    let nanos = nanos_of(tick, unit);
    moment_at(nanos, row)
}

/// The nanoseconds of a tick.
#[tactic(auto, using(crate::proofs::SlotLaws::readings))]
fn nanos_of(tick: i64, unit: TimeUnit) -> i128
    ensures nanos { result ≡ nanos_of_tick unit (wrapped_value (Signed w64) tick) }
{
    let nanos_per_tick = match unit {
        TimeUnit::Nanoseconds => 1,
        TimeUnit::Microseconds => 1_000,
        TimeUnit::Milliseconds => 1_000_000,
    };
    i128::from(tick) * nanos_per_tick
}

/// The moment of a row by its nanoseconds. Refused where the calendar doesn't have its day
/// (`Calendar`).
fn moment_at(nanos: i128, row: u32) -> PolarsResult<DateTime>
    ensures moment { seen_by civil_nanos result ≡ shown_number is_calendar_moment row nanos }
{
    match jiff_core::civil::DateTime::from_nanosecond(nanos) {
        Ok(moment) => Ok(DateTime::from_plain(moment)),
        Err(_) => Err(PolarsError::Calendar { row }),
    }
}

/// The times of the day of a column, from a row on. Contracts see the list of what is to come.
#[derive(Drop)]
pub struct TimeIter<'a> {
    slots: Slots<'a, i64>,
}

impl<'a> Model for TimeIter<'a> {
    ghost use Rattle.std.specs.Prelude.{◌≡◌, List, true};
    ghost use Rattle.col_types.specs.declared.data_type.DataType.{Time as TimeType};
    ghost use Rattle.col_logical.specs.Logical.{lie_in_the_day};
    ghost use Rattle.col_civil.specs.Civil.{Shown, shown_times};

    ghost Value = { List Shown };

    ghost view = { λ it. shown_times it.slots };

    ghost invariant = { λ it. lie_in_the_day TimeType it.slots ≡ true };
}

impl<'a> TimeIter<'a> {
    pub(crate) fn new(column: &'a TimeChunked) -> Self
        ensures times { result ≡ shown_times column.now.column.slots }
    {
        column.known();
        TimeIter {
            slots: Slots::of(column.physical()),
        }
    }

    /// How many rows are to come.
    pub fn remaining(&self) -> usize
        ensures rows { result ≡ length self.now }
    {
        self.slots.remaining()
    }
}

impl<'a> Iterator for TimeIter<'a> {
    type Item = Option<PolarsResult<Time>>;

    ghost next_gives = { YieldsFirstBy (shown_by (λ time. pos (time_nanos time))) (λ rest. rest) };

    ghost remaining = { item_count (λ rest. rest) };

    fn next(&mut self) -> Option<Option<PolarsResult<Time>>> {
        match self.slots.take_first() {
            None => None,
            Some(slot) => Some(time_of(slot)),
        }
    }
}

/// What a slot shows in a column of times of the day.
#[tactic(auto, using(crate::proofs::SlotLaws::readings))]
fn time_of(slot: Option<i64>) -> Option<PolarsResult<Time>>
    requires day { lie_in_the_day TimeType
        (option_map (λ x. whole (wrapped_value (Signed w64) x)) slot ∷ []) ≡ true }
    ensures time { shown_by (λ time. pos (time_nanos time)) result
        ≡ shown_time (option_map (λ x. whole (wrapped_value (Signed w64) x)) slot) }
{
    match slot {
        Some(nanos) => Some(Ok(time_at(nanos))),
        None => None,
    }
}

/// The time that is so many nanoseconds into its day.
fn time_at(nanos: i64) -> Time
    requires day { is_within day_values nanos ≡ true }
    ensures time { pos (time_nanos result) ≡ nanos }
{
    Time::from_plain(jiff_core::civil::Time::from_nanosecond(nanos as u64))
}
