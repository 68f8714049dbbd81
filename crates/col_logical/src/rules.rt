//! What becomes of a word where ticks change their unit, or become times of the day.

ghost use Rattle.std.specs.Prelude.{◌≡◌};
ghost use Rattle.col_model.specs.Arithmetic.{fitting_value};
ghost use Rattle.col_model.specs.Column.{day_values};
ghost use Rattle.col_model.specs.Formula.{Formula, X, value_of};
ghost use Rattle.col_model.specs.UnitChange.{IsProper, unit_change, datetime_by, duration_by};
ghost use Rattle.col_model.specs.UnitChange.{wrapped_datetime_by, wrapped_duration_by};
ghost use Rattle.col_model.specs.declared.ticks.UnitChange.{UnitChange};

use crate::units::Unit;
use crate::words::{kept, tick};
use col_model::{
    UnitChange as Change, datetime_by, duration_by, unit_change, wrapped_datetime_by,
    wrapped_duration_by,
};
use col_rule::{Outcome, SlotRule};
use col_types::NANOS_PER_DAY;
use std::marker::PhantomData;

/// What ticks count, and so how they come to another unit.
pub trait Ticks {
    /// A tick in another unit.
    ghost changed: { UnitChange → Formula → Formula };

    /// A tick in another unit, none where it has no room there.
    fn by(tick: i64, change: Change) -> Option<i64>
        requires proper { IsProper change }
        ensures value { result ≡ value_of (changed change X) tick tick };
}

/// Ticks from a moment to another.
pub struct Moments;

impl Ticks for Moments {
    ghost changed = { datetime_by };

    fn by(tick: i64, change: Change) -> Option<i64> {
        datetime_by(tick, change)
    }
}

/// Ticks of a length of time.
pub struct Lengths;

impl Ticks for Lengths {
    ghost changed = { duration_by };

    fn by(tick: i64, change: Change) -> Option<i64> {
        duration_by(tick, change)
    }
}

/// Ticks from a moment to another, wrapped where they have no room.
pub struct WrappedMoments;

impl Ticks for WrappedMoments {
    ghost changed = { wrapped_datetime_by };

    fn by(tick: i64, change: Change) -> Option<i64> {
        Some(wrapped_datetime_by(tick, change))
    }
}

/// Ticks of a length of time, wrapped where they have no room.
pub struct WrappedLengths;

impl Ticks for WrappedLengths {
    ghost changed = { wrapped_duration_by };

    fn by(tick: i64, change: Change) -> Option<i64> {
        Some(wrapped_duration_by(tick, change))
    }
}

/// Ticks of a unit in another one. A wrapped tick counts as kept: a change of unit loses none.
#[derive(Drop)]
pub(crate) struct InUnit<K: Ticks, A: Unit, B: Unit> {
    pub(crate) ticks: PhantomData<K>,
    pub(crate) from: PhantomData<A>,
    pub(crate) to: PhantomData<B>,
}

impl<K: Ticks, A: Unit, B: Unit> SlotRule<i64, i64> for InUnit<K, A, B> {
    ghost value = { λ r x. value_of (K.changed (unit_change A.unit B.unit) X) x x };

    ghost kept = { λ r x. value_of (K.changed (unit_change A.unit B.unit) X) x x };

    fn at(&self, x: i64) -> Outcome<i64> {
        kept(K::by(tick(x), unit_change(A::get(), B::get())))
    }
}

/// Nanoseconds that lie in the day.
#[derive(Drop)]
pub(crate) struct InTheDay;

impl SlotRule<i64, i64> for InTheDay {
    ghost value = { λ r x. fitting_value day_values x };

    ghost kept = { λ r x. fitting_value day_values x };

    fn at(&self, x: i64) -> Outcome<i64> {
        kept(time_of(tick(x)))
    }
}

/// The nanoseconds, where they lie in the day.
fn time_of(nanos: i64) -> Option<i64>
    ensures value { result ≡ fitting_value day_values nanos }
{
    if 0 <= nanos && nanos < NANOS_PER_DAY {
        Some(nanos)
    } else {
        None
    }
}
