//! The definitions that contracts cite: arithmetic, formulas, tables, columns.
#![tactic(auto)]

mod interval;
mod laws;
mod tick_intervals;
mod ticks;

pub use col_types::{CastOptions, TimeUnit, get_time_units};
pub use interval::{
    Interval, difference, floor_by, floor_quotients, inside, product, rest, sum, trunc_by,
    trunc_quotients,
};
pub use laws::{
    divisions_by_positive, divisions_round_down, divisions_truncate, finer_and_back,
    floor_rounds_down, intervals_hold, known_casts, known_datetimes, known_durations, known_ends,
    known_joins, known_numbers, known_rescalings, known_scalars, known_unit_changes,
    known_word_casts, rules_give_values, same_type_comes_first, targets_settle_once,
    trunc_rounds_towards_zero, unit_casts_compose, words_hold_values, words_keep,
};
pub use tick_intervals::{
    date_values, day_values, finer, lengths, moments, only, tick_values, times,
};
pub use ticks::{
    UnitChange, datetime_by, datetime_in_unit, day_in_unit, day_of, duration_by, duration_in_unit,
    fitting_day, ticks_per_day, time_of, unit_change, wrapped_datetime_by, wrapped_day,
    wrapped_duration_by,
};
