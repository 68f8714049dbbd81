// Intervals of ticks in other units.
ghost use Rattle.std.specs.Prelude.{◌≡◌, ◌≤◌, ◌^◌, ◌*ℤ◌, pos, IfSome};
ghost use Rattle.std.specs.Int.{w32, w64};
ghost use Rattle.col_model.specs.Arithmetic.{Signed, word_values};
ghost use Rattle.col_model.specs.Column.{day_values};
ghost use Rattle.col_model.specs.Formula.{X, at_ends, interval_of};
ghost use Rattle.col_model.specs.IntervalRoom.{IsNear, only};
ghost use Rattle.col_model.specs.UnitChange.{IsProper, in_finer_unit, datetime_by, duration_by};

use crate::interval::{Interval, floor_by, inside, product, trunc_by};
use crate::ticks::UnitChange;

/// The values of dates.
pub fn date_values() -> Interval
    ensures values { result ≡ word_values (Signed w32) }
{
    Interval::new(i128::from(i32::MIN), i128::from(i32::MAX))
}

/// The values of moments and of lengths of time.
pub fn tick_values() -> Interval
    ensures values { result ≡ word_values (Signed w64) }
{
    Interval::new(i128::from(i64::MIN), i128::from(i64::MAX))
}

/// The values of times.
pub fn day_values() -> Interval
    ensures values { result ≡ day_values }
{
    Interval::new(0, 86_399_999_999_999)
}

/// One integer alone.
pub fn only(k: i128) -> Interval
    ensures interval { result ≡ only k }
{
    Interval::new(k, k)
}

/// So many times the ticks.
#[tactic(auto, using(crate::proofs::RoomLemmas::times_multiply))]
pub fn times(p: Interval, factor: u64) -> Interval
    requires near { IsNear 63 p }
    requires factor { factor ≤ 2 ^ 63 }
    ensures ends { result ≡ at_ends ◌*ℤ◌ p (only (pos factor)) }
    ensures near { IsNear 126 result }
{
    product(p, only(i128::from(factor)))
}

/// Ticks in a finer unit, none where 64 bits may not hold them.
pub fn finer(p: Interval, factor: u64) -> Option<Interval>
    requires near { IsNear 63 p }
    requires factor { factor ≤ 2 ^ 63 }
    ensures value { result ≡ interval_of (in_finer_unit factor X) p p }
    ensures near { IfSome result (IsNear 63) }
{
    inside(tick_values(), times(p, factor))
}

/// Moments after a change of unit.
pub fn moments(p: Interval, change: UnitChange) -> Option<Interval>
    requires near { IsNear 63 p }
    requires proper { IsProper change }
    ensures value { result ≡ interval_of (datetime_by change X) p p }
    ensures near { IfSome result (IsNear 63) }
{
    match change {
        UnitChange::Finer(factor) => finer(p, u64::from(factor)),
        UnitChange::Same => Some(p),
        UnitChange::Coarser(factor) => Some(floor_by(p, u64::from(factor))),
    }
}

/// Lengths of time after a change of unit.
pub fn lengths(p: Interval, change: UnitChange) -> Option<Interval>
    requires near { IsNear 63 p }
    requires proper { IsProper change }
    ensures value { result ≡ interval_of (duration_by change X) p p }
    ensures near { IfSome result (IsNear 63) }
{
    match change {
        UnitChange::Finer(factor) => finer(p, u64::from(factor)),
        UnitChange::Same => Some(p),
        UnitChange::Coarser(factor) => Some(trunc_by(p, u64::from(factor))),
    }
}
