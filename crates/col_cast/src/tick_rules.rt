//! The rows of the cast table between dates, moments and times, as rules for a word.

ghost use Rattle.std.specs.Prelude.{◌≡◌};
ghost use Rattle.col_types.specs.TimeUnit.{ticks_per_day};
ghost use Rattle.col_types.specs.declared.cast_options.CastOptions.TheVariants.{NonStrict};
ghost use Rattle.col_model.specs.Arithmetic.{floor_by};
ghost use Rattle.col_model.specs.CastTable.{day_of, time_of};
ghost use Rattle.col_model.specs.Formula.{X, value_of};
ghost use Rattle.col_model.specs.UnitChange.{day_in_unit};

use crate::word_rules::narrowed;
use col_logical::{Unit, day, kept, tick};
use col_model::{day_in_unit, ticks_per_day, time_of};
use col_rule::{Outcome, SlotRule};
use col_types::{CastOptions, TimeUnit};
use std::marker::PhantomData;

/// The moment at which a day begins, in ticks of a unit.
#[derive(Drop)]
pub(crate) struct DayStart<A: Unit> {
    pub(crate) unit: PhantomData<A>,
}

impl<A: Unit> SlotRule<i32, i64> for DayStart<A> {
    ghost value = { λ r x. value_of (day_in_unit A.unit X) x x };

    ghost kept = { λ r x. value_of (day_in_unit A.unit X) x x };

    fn at(&self, x: i32) -> Outcome<i64> {
        kept(day_in_unit(day(x), A::get()))
    }
}

/// The day of a moment in ticks of a unit.
#[derive(Drop)]
pub(crate) struct DayOf<A: Unit> {
    pub(crate) unit: PhantomData<A>,
    pub(crate) options: CastOptions,
}

impl<A: Unit> SlotRule<i64, i32> for DayOf<A> {
    ghost value = { λ r x. value_of (day_of r.options A.unit) x x };

    ghost kept = { λ r x. value_of (day_of NonStrict A.unit) x x };

    #[tactic(auto, using(crate::proofs::DayLaws::day_laws))]
    fn at(&self, x: i64) -> Outcome<i32> {
        narrowed(i128::from(day_number(tick(x), A::get())), self.options)
    }
}

/// The time of a moment in ticks of a unit.
#[derive(Drop)]
pub(crate) struct TimeOf<A: Unit> {
    pub(crate) unit: PhantomData<A>,
}

impl<A: Unit> SlotRule<i64, i64> for TimeOf<A> {
    ghost value = { λ r x. value_of (time_of A.unit) x x };

    ghost kept = { λ r x. value_of (time_of A.unit) x x };

    fn at(&self, x: i64) -> Outcome<i64> {
        kept(Some(time_of(tick(x), A::get())))
    }
}

/// The number of a moment's day.
fn day_number(tick: i64, unit: TimeUnit) -> i64
    ensures value { result ≡ floor_by tick (ticks_per_day unit) }
{
    tick.div_euclid(ticks_per_day(unit))
}
