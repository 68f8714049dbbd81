//! The rules of the cast table and of the table of units, chosen by types.

ghost use Rattle.std.specs.Prelude.{◌≡◌, true, IfSome, Some};
ghost use Rattle.std.specs.Option.{option_map};
ghost use Rattle.col_types.specs.TimeUnit.{ticks_per_day, nanos_per_tick};
ghost use Rattle.col_model.specs.Column.{is_built_type};
ghost use Rattle.col_types.specs.declared.cast_options.CastOptions.{CastOptions};
ghost use Rattle.col_model.specs.CastTable.{cast_rule, pair_rule, temporal_rule, to_word, word_rule};
ghost use Rattle.col_model.specs.ScalarTable.{unit_change_rule};
ghost use Rattle.col_series.specs.TickRule.{cast_rule_of, unit_rule_of, word_cast, IsDay, IsProper};

use crate::{CastOptions as Options, DataType, TimeUnit};
use col_model::{UnitChange, ticks_per_day as day_in_ticks, unit_change};

/// A rule of the cast table or of the table of units: what becomes of each tick.
#[derive(Clone, Copy)]
pub(crate) enum TickRule {
    Same,
    /// The moment at which a day begins, which has so many ticks.
    DayStart(u64),
    /// The day of a moment, which has so many ticks.
    Day(u64, Options),
    /// The time of a moment: the ticks of a day, and the nanoseconds of a tick.
    Time(u64, u32),
    /// An integer, or days or ticks, in another word.
    Word(TickWord, Options),
    /// A moment in another unit.
    Datetime(UnitChange),
    /// A length of time in another unit.
    Duration(UnitChange),
    /// A moment in another unit, wrapped.
    WrappedDatetime(UnitChange),
    /// A length of time in another unit, wrapped.
    WrappedDuration(UnitChange),
}

/// What a word is read as.
#[derive(Clone, Copy)]
pub(crate) enum TickWord {
    /// A day, in 32 bits.
    Day,
    /// A tick or an integer, in 64 bits.
    Tick,
    /// A time of the day, in 64 bits.
    Time,
}

fn ticks_per_day(unit: TimeUnit) -> u64
    ensures value { result ≡ ticks_per_day unit }
    ensures day { IsDay result }
{
    day_in_ticks(unit) as u64
}

/// The rule for the time of a moment.
fn time_rule(unit: TimeUnit) -> TickRule
    ensures rule { result ≡ TickRule.Time (ticks_per_day unit) (nanos_per_tick unit) }
    ensures proper { IsProper result }
{
    TickRule::Time(ticks_per_day(unit), unit.nanos_per_tick())
}

/// The word in which a type is kept, and what it is read as.
fn word_of(dtype: &DataType) -> TickWord
    requires built { is_built_type dtype.now ≡ true }
    ensures word { (options : CastOptions) → Some (word_cast result options)
        ≡ to_word dtype.now options }
{
    match dtype {
        DataType::Date => TickWord::Day,
        DataType::Time => TickWord::Time,
        DataType::Datetime(_, _) | DataType::Duration(_) | DataType::Int64 => TickWord::Tick,
        _ => unreachable!(),
    }
}

/// The rule from or to integers for types that differ, or none.
fn word_rule(from: &DataType, target: &DataType, options: Options) -> Option<TickRule>
    requires from { is_built_type from.now ≡ true }
    requires target { is_built_type target.now ≡ true }
    ensures rule { cast_rule_of result ≡ word_rule from.now target.now options }
    ensures proper { IfSome result IsProper }
{
    if from.is_integer() || target.is_integer() {
        Some(TickRule::Word(word_of(target), options))
    } else {
        None
    }
}

/// The rule for a pair of types that differ, or none.
fn pair_rule(from: &DataType, target: &DataType, options: Options) -> Option<TickRule>
    requires from { is_built_type from.now ≡ true }
    requires target { is_built_type target.now ≡ true }
    ensures rule { cast_rule_of result ≡ pair_rule from.now target.now options }
    ensures proper { IfSome result IsProper }
{
    match temporal_rule(from, target, options) {
        Some(rule) => Some(rule),
        None => word_rule(from, target, options),
    }
}

/// The rule for a pair of temporal types that differ, or none.
fn temporal_rule(from: &DataType, target: &DataType, options: Options) -> Option<TickRule>
    ensures rule { cast_rule_of result ≡ temporal_rule from.now target.now options }
    ensures proper { IfSome result IsProper }
{
    match (from, target) {
        (DataType::Date, DataType::Datetime(unit, _)) => {
            Some(TickRule::DayStart(ticks_per_day(*unit)))
        }
        (DataType::Datetime(old, _), DataType::Datetime(new, _)) => {
            Some(TickRule::Datetime(unit_change(*old, *new)))
        }
        (DataType::Datetime(unit, _), DataType::Date) => {
            Some(TickRule::Day(ticks_per_day(*unit), options))
        }
        (DataType::Datetime(unit, _), DataType::Time) => Some(time_rule(*unit)),
        (DataType::Duration(old), DataType::Duration(new)) => {
            Some(TickRule::Duration(unit_change(*old, *new)))
        }
        (DataType::Time, DataType::Duration(unit)) => {
            Some(TickRule::Duration(unit_change(TimeUnit::Nanoseconds, *unit)))
        }
        _ => None,
    }
}

/// The rule from a type to a target that leaves nothing open, or none.
pub(crate) fn cast_rule(from: &DataType, target: &DataType, options: Options) -> Option<TickRule>
    requires from { is_built_type from.now ≡ true }
    requires target { is_built_type target.now ≡ true }
    ensures rule { cast_rule_of result ≡ cast_rule from.now target.now options }
    ensures proper { IfSome result IsProper }
{
    if from.is_same(target) {
        Some(TickRule::Same)
    } else {
        pair_rule(from, target, options)
    }
}

/// The type in another unit and the rule that leads to it, or none.
pub(crate) fn unit_change_rule(dtype: &DataType, unit: TimeUnit) -> Option<(DataType, TickRule)>
    ensures rule { option_map unit_rule_of result ≡ unit_change_rule dtype.now unit }
    ensures proper { IfSome result (λ typed. IsProper typed.1) }
{
    match dtype {
        DataType::Datetime(old, zone) => {
            let rule = TickRule::WrappedDatetime(unit_change(*old, unit));
            Some((DataType::Datetime(unit, *zone), rule))
        }
        DataType::Duration(old) => {
            let rule = TickRule::WrappedDuration(unit_change(*old, unit));
            Some((DataType::Duration(unit), rule))
        }
        _ => None,
    }
}
