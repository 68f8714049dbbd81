// The rows of the operator table as types, so that a loop has their constants.
ghost use Rattle.std.specs.Prelude.{◌≡◌};
ghost use Rattle.std.specs.Int.{w64};
ghost use Rattle.col_types.specs.TimeUnit.{coarser_unit, ticks_per_day};
ghost use Rattle.col_types.specs.declared.time_unit.TimeUnit.{TimeUnit};
ghost use Rattle.col_types.specs.declared.time_unit.TimeUnit.TheVariants.{Milliseconds};
ghost use Rattle.col_types.specs.declared.operator.BinOp.{BinOp};
ghost use Rattle.col_types.specs.declared.operator.BinOp.TheVariants as ops;
ghost use Rattle.col_model.specs.Arithmetic.{Signed, word_values};
ghost use Rattle.col_model.specs.Formula.{Formula, X, Y, Difference, FloorBy, FloorDiv, FloorMod};
ghost use Rattle.col_model.specs.Formula.{Product, Sum};
ghost use Rattle.col_model.specs.OperatorTable.{as_date, as_tick, date_joined, number_form};
ghost use Rattle.col_model.specs.OperatorTable.{wrapping};
ghost use Rattle.col_model.specs.UnitChange.{day_in_unit, duration_in_unit, times, unit_change};
ghost use Rattle.col_arith.specs.declared.pair_rule.AddOrSub.{AddOrSub};
ghost use Rattle.col_arith.specs.declared.pair_rule.AddOrSub.TheVariants.{Add, Sub};
ghost use Rattle.col_arith.specs.declared.pair_rule.Operand.{Operand};
ghost use Rattle.col_arith.specs.declared.pair_rule.Operand.TheVariants.{Length, Moment};
ghost use Rattle.col_arith.specs.PairRule.{IsProper, IsProperOperand, add_or_sub, formula_of};
ghost use Rattle.col_arith.specs.PairRule.{answer_values, left_values, right_values};
ghost use Rattle.col_arith.specs.PairRule.{operand_of, operand_values, tick_values};

use crate::pair_rule::{
    AddOrSub as Join, Operand as AnyOperand, PairRule as Rule, date_with, day, length, moment,
    ticks_per_day,
};
use crate::words::TickWord;
use col_model::{UnitChange, unit_change};
use col_types::{BinOp as AnyOp, TimeUnit as AnyUnit, get_time_units};
use std::marker::PhantomData;

/// A row of the operator table, for each unit of the left and of the right operand. Where an
/// operand has no unit the row doesn't depend on it.
pub(crate) trait Operator<T: TickWord, U: TickWord, V: TickWord> {
    /// The formula of the row.
    ghost formula: { TimeUnit → TimeUnit → Formula };

    /// The rule of the row.
    fn rule(left: AnyUnit, right: AnyUnit) -> Rule
        ensures formula { formula_of result ≡ formula left right }
        ensures proper { IsProper result }
        ensures left { left_values result ≡ word_values T.word_type }
        ensures right { right_values result ≡ word_values U.word_type }
        ensures answer { answer_values result ≡ word_values V.word_type };
}

/// Which of a sum and a difference a row gives.
pub(crate) trait Joins {
    /// Which one.
    ghost join: { AddOrSub };

    /// Which one.
    fn get() -> Join
        ensures join { result ≡ join };
}

/// A sum.
pub(crate) struct Plus;

impl Joins for Plus {
    ghost join = { Add };

    fn get() -> Join {
        Join::Add
    }
}

/// A difference.
pub(crate) struct Minus;

impl Joins for Minus {
    ghost join = { Sub };

    fn get() -> Join {
        Join::Sub
    }
}

/// What ticks of a unit count.
pub(crate) trait Counts {
    /// Such ticks, and how they come from the one unit to the other.
    ghost operand: { TimeUnit → TimeUnit → Operand };

    /// The same.
    fn get(from: AnyUnit, to: AnyUnit) -> AnyOperand
        ensures operand { result ≡ operand from to }
        ensures proper { IsProperOperand result }
        ensures ticks { operand_values result ≡ tick_values };
}

/// Ticks from a moment to another.
pub(crate) struct Moments;

impl Counts for Moments {
    ghost operand = { λ from to. Moment (unit_change from to) };

    fn get(from: AnyUnit, to: AnyUnit) -> AnyOperand {
        moment(from, to)
    }
}

/// Ticks of a length of time.
pub(crate) struct Lengths;

impl Counts for Lengths {
    ghost operand = { λ from to. Length (unit_change from to) };

    fn get(from: AnyUnit, to: AnyUnit) -> AnyOperand {
        length(from, to)
    }
}

/// Ticks joined in the coarser of their units.
pub(crate) struct Ticks<J: Joins, K: Counts, H: Counts> {
    join: PhantomData<J>,
    left: PhantomData<K>,
    right: PhantomData<H>,
}

impl<J: Joins, K: Counts, H: Counts> Operator<i64, i64, i64> for Ticks<J, K, H> {
    ghost formula = { λ u v. wrapping (add_or_sub J.join)
        (operand_of (K.operand u (coarser_unit u v)) X)
        (operand_of (H.operand v (coarser_unit u v)) Y) };

    fn rule(left: AnyUnit, right: AnyUnit) -> Rule {
        let unit = get_time_units(left, right);
        Rule::Ticks(J::get(), K::get(left, unit), H::get(right, unit))
    }
}

/// What divisions of lengths of time leave, in the coarser of their units.
pub(crate) struct Rests;

impl Operator<i64, i64, i64> for Rests {
    ghost formula = { λ u v. FloorMod (duration_in_unit u (coarser_unit u v) X)
        (duration_in_unit v (coarser_unit u v) Y) };

    fn rule(left: AnyUnit, right: AnyUnit) -> Rule {
        let unit = get_time_units(left, right);
        Rule::Rest(unit_change(left, unit), unit_change(right, unit))
    }
}

/// Dates with lengths of time.
pub(crate) struct DateWith<J: Joins> {
    join: PhantomData<J>,
}

impl<J: Joins> Operator<i32, i64, i32> for DateWith<J> {
    ghost formula = { λ u v. date_joined (add_or_sub J.join) v };

    fn rule(_left: AnyUnit, right: AnyUnit) -> Rule {
        date_with(J::get(), right)
    }
}

/// Lengths of time, cut to whole days, with dates.
pub(crate) struct LengthThenDate;

impl Operator<i64, i32, i32> for LengthThenDate {
    ghost formula = { λ u v. as_date (Sum (FloorBy X (ticks_per_day u)) Y) };

    fn rule(left: AnyUnit, _right: AnyUnit) -> Rule {
        Rule::LengthThenDate(ticks_per_day(left))
    }
}

/// What lies between the beginnings of dates and moments.
pub(crate) struct DayThenMoment;

impl Operator<i32, i64, i64> for DayThenMoment {
    ghost formula = { λ u v. wrapping Difference (day_in_unit v X) Y };

    fn rule(_left: AnyUnit, right: AnyUnit) -> Rule {
        Rule::Ticks(Join::Sub, day(right), AnyOperand::Moment(UnitChange::Same))
    }
}

/// What lies between moments and the beginnings of dates.
pub(crate) struct MomentThenDay;

impl Operator<i64, i32, i64> for MomentThenDay {
    ghost formula = { λ u v. wrapping Difference X (day_in_unit u Y) };

    fn rule(left: AnyUnit, _right: AnyUnit) -> Rule {
        Rule::Ticks(Join::Sub, AnyOperand::Moment(UnitChange::Same), day(left))
    }
}

/// What lies between dates.
pub(crate) struct DatesApart;

impl Operator<i32, i32, i64> for DatesApart {
    ghost formula = { λ u v. times (ticks_per_day Milliseconds) (Difference X Y) };

    fn rule(_left: AnyUnit, _right: AnyUnit) -> Rule {
        Rule::DatesApart
    }
}

/// An operator as a type.
pub(crate) trait Joining {
    /// Which one.
    ghost op: { BinOp };

    /// Which one.
    fn get() -> AnyOp
        ensures op { result ≡ op };
}

/// Sums of integers.
pub(crate) struct Adding;

impl Joining for Adding {
    ghost op = { ops.Add };

    fn get() -> AnyOp {
        AnyOp::Add
    }
}

/// Differences of integers.
pub(crate) struct Subtracting;

impl Joining for Subtracting {
    ghost op = { ops.Sub };

    fn get() -> AnyOp {
        AnyOp::Sub
    }
}

/// Products of integers.
pub(crate) struct Multiplying;

impl Joining for Multiplying {
    ghost op = { ops.Mul };

    fn get() -> AnyOp {
        AnyOp::Mul
    }
}

/// Quotients of integers, rounded down.
pub(crate) struct Dividing;

impl Joining for Dividing {
    ghost op = { ops.Div };

    fn get() -> AnyOp {
        AnyOp::Div
    }
}

/// What divisions of integers leave.
pub(crate) struct Leaving;

impl Joining for Leaving {
    ghost op = { ops.Rem };

    fn get() -> AnyOp {
        AnyOp::Rem
    }
}

/// Integers joined.
pub(crate) struct Numbers<O: Joining> {
    op: PhantomData<O>,
}

impl<O: Joining> Operator<i64, i64, i64> for Numbers<O> {
    ghost formula = { λ u v. number_form O.op (Signed w64) };

    fn rule(_left: AnyUnit, _right: AnyUnit) -> Rule {
        Rule::Numbers(O::get())
    }
}

/// Lengths of time, each as many times as an integer on its right says.
pub(crate) struct LengthTimes;

impl Operator<i64, i64, i64> for LengthTimes {
    ghost formula = { λ u v. wrapping Product X (as_tick Y) };

    fn rule(_left: AnyUnit, _right: AnyUnit) -> Rule {
        Rule::LengthTimes
    }
}

/// Lengths of time, each as many times as an integer on its left says.
pub(crate) struct TimesLength;

impl Operator<i64, i64, i64> for TimesLength {
    ghost formula = { λ u v. wrapping Product (as_tick X) Y };

    fn rule(_left: AnyUnit, _right: AnyUnit) -> Rule {
        Rule::TimesLength
    }
}

/// Lengths of time divided by integers.
pub(crate) struct LengthPart;

impl Operator<i64, i64, i64> for LengthPart {
    ghost formula = { λ u v. wrapping FloorDiv X (as_tick Y) };

    fn rule(_left: AnyUnit, _right: AnyUnit) -> Rule {
        Rule::LengthPart
    }
}
