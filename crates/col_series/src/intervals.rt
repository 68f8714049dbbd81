// Where the ticks lie that a rule of the tables gives.
ghost use Rattle.std.specs.Prelude.{◌≡◌, true, Some};
ghost use Rattle.std.specs.Int.{w32};
ghost use Rattle.col_model.specs.Arithmetic.{Interval as Range, Signed};
ghost use Rattle.col_model.specs.Formula.{X, FloorBy, interval_of};
ghost use Rattle.col_model.specs.CastTable.{cast_rule, narrowed};
ghost use Rattle.col_model.specs.ScalarTable.{unit_change_rule};
ghost use Rattle.col_model.specs.IntervalRoom.{IsNear};
ghost use Rattle.col_model.specs.RuleIntervals.{cast_interval, typed_interval};
ghost use Rattle.col_model.specs.Column.{is_built_type};
ghost use Rattle.col_series.specs.TickRule.{formula_of, in_tick_word, IsDay, IsWholeDay, IsProper};

use crate::tick_rule::{TickRule, TickWord, cast_rule, unit_change_rule};
use crate::{CastOptions, DataType, TimeUnit};
use col_model::{
    Interval, date_values, day_values, finer, floor_by, inside, lengths, moments, tick_values,
    times,
};

/// The days of moments.
fn days_of(p: Interval, day: u64, options: CastOptions) -> Option<Interval>
    requires day { IsDay day }
    ensures days { result ≡ interval_of (narrowed options (Signed w32) (FloorBy X day)) p p }
{
    let days = floor_by(p, day);
    match options {
        CastOptions::Strict | CastOptions::NonStrict | CastOptions::Overflowing => {
            inside(date_values(), days)
        }
    }
}

/// The integers that are a word's, none where one of them isn't. Where they all are, nothing wraps.
fn words_of(p: Interval, word: TickWord, options: CastOptions) -> Option<Interval>
    ensures words { result ≡ interval_of (in_tick_word word options) p p }
{
    match options {
        CastOptions::Strict | CastOptions::NonStrict | CastOptions::Overflowing => match word {
            TickWord::Day => inside(date_values(), p),
            TickWord::Tick => inside(tick_values(), p),
            TickWord::Time => match inside(tick_values(), p) {
                Some(p) => inside(day_values(), p),
                None => None,
            },
        },
    }
}

/// The times of moments: those of a whole day.
#[tactic(auto, using(col_model::proofs::TickIntervalLemmas::rest_of_day))]
fn times_of(day: u64, nanos: u32) -> Interval
    requires day { IsWholeDay day nanos }
    ensures times { (p : Range) →
        Some result ≡ interval_of (formula_of (TickRule.Time day nanos)) p p }
{
    times(Interval::new(0, i128::from(day) - 1), u64::from(nanos))
}

/// The ticks that a rule gives, none where it may lose or wrap one.
#[tactic(auto, using(col_model::proofs::TickIntervalLemmas::wrapped_moment, col_model::proofs::TickIntervalLemmas::wrapped_length,))]
fn rule_interval(rule: TickRule, p: Interval) -> Option<Interval>
    requires near { IsNear 63 p }
    requires proper { IsProper rule }
    ensures value { result ≡ interval_of (formula_of rule) p p }
{
    match rule {
        TickRule::Same => Some(p),
        TickRule::DayStart(day) => finer(p, day),
        TickRule::Day(day, options) => days_of(p, day, options),
        TickRule::Word(word, options) => words_of(p, word, options),
        TickRule::Time(day, nanos) => Some(times_of(day, nanos)),
        TickRule::Datetime(change) => moments(p, change),
        TickRule::Duration(change) => lengths(p, change),
        TickRule::WrappedDatetime(change) => moments(p, change),
        TickRule::WrappedDuration(change) => lengths(p, change),
    }
}

/// Where the slots of a cast to a target that leaves nothing open lie, none where there is no such
/// cast, or it may lose or wrap a slot.
pub fn cast_interval(
    from: &DataType,
    target: &DataType,
    options: CastOptions,
    p: Interval,
) -> Option<Interval>
    requires from { is_built_type from.now ≡ true }
    requires target { is_built_type target.now ≡ true }
    requires near { IsNear 63 p }
    ensures interval { result ≡ cast_interval (cast_rule from.now target.now options) p }
{
    match cast_rule(from, target, options) {
        Some(rule) => rule_interval(rule, p),
        None => None,
    }
}

/// The type in another unit, and where its slots lie, none where they may be wrapped.
pub fn unit_interval(
    dtype: &DataType,
    unit: TimeUnit,
    p: Interval,
) -> Option<(DataType, Option<Interval>)>
    requires near { IsNear 63 p }
    ensures interval { result ≡ typed_interval (unit_change_rule dtype.now unit) p p }
{
    match unit_change_rule(dtype, unit) {
        Some((dtype, rule)) => Some((dtype, rule_interval(rule, p))),
        None => None,
    }
}
