// Two ticks under a rule of the operator table.
ghost use Rattle.std.specs.Prelude.{◌≡◌, ◌<◌, ◌≤◌, ◌^◌, ◌+ℤ◌, ◌*ℤ◌, pos, true, Some, unsigned_abs};
ghost use Rattle.std.specs.Option.{option_and_then, option_map};
ghost use Rattle.std.specs.Int.{w64};
ghost use Rattle.col_model.specs.Arithmetic.{Signed, fitting_value, floor_by, floor_mod, is_within};
ghost use Rattle.col_model.specs.Formula.{X, Y, value_of, divided, on_both};
ghost use Rattle.col_model.specs.UnitChange as units;
ghost use Rattle.col_model.specs.OperatorTable.{number_form, wrapping};
ghost use Rattle.col_arith.specs.PairRule.{formula_of, add_or_sub, operand_of};
ghost use Rattle.col_arith.specs.PairRule.{IsProper, IsProperOperand, IsShortDay};
ghost use Rattle.col_arith.specs.PairRule.{is_tick_in, date_values, tick_values};
ghost use Rattle.col_arith.specs.PairRule.{left_values, right_values, answer_values};

use crate::pair_rule::{AddOrSub, Operand, PairRule};
use col_kernel::Word;
use col_model::{UnitChange, datetime_by, duration_by, fitting_day};
use col_types::{BinOp, MILLIS_PER_DAY};

// Each function is inlined into the loop that calls it with a rule of constants, which then tests no
// rule and divides by constants.

/// The sum or the difference, wrapped to 64 bits.
#[inline(always)]
pub(crate) fn wrapping_op(op: AddOrSub, left: i64, right: i64) -> i64
    ensures value { Some result ≡ value_of (wrapping (add_or_sub op) X Y) left right }
    ensures fits { is_within tick_values result ≡ true }
{
    match op {
        AddOrSub::Add => left.wrapping_add(right),
        AddOrSub::Sub => left.wrapping_sub(right),
    }
}

/// The number of a day, none where the word of dates doesn't hold it.
#[inline(always)]
fn as_date(days: i64) -> Option<i64>
    ensures value { result ≡ fitting_value date_values days }
    ensures fits { is_tick_in date_values result ≡ true }
{
    fitting_day(days)
}

/// What a division leaves, with the divisor's sign; none for a divisor 0.
#[inline(always)]
fn rest(tick: i64, divisor: i64) -> Option<i64>
    ensures value { result ≡ divided floor_mod tick divisor }
    ensures fits { is_tick_in tick_values result ≡ true }
{
    tick.floor_mod(divisor)
}

/// An operand's tick in the answer's unit.
#[inline(always)]
fn operand_tick(operand: Operand, tick: i64) -> Option<i64>
    requires proper { IsProperOperand operand }
    ensures value { result ≡ value_of (operand_of operand X) tick tick }
{
    match operand {
        Operand::Moment(change) => datetime_by(tick, change),
        Operand::Length(change) => duration_by(tick, change),
        Operand::Day(ticks) => tick.checked_mul(ticks as i64),
    }
}

/// The sum or the difference of two optional ticks, wrapped to 64 bits.
#[inline(always)]
fn wrapping_slots(op: AddOrSub, left: Option<i64>, right: Option<i64>) -> Option<i64>
    ensures value { result ≡ on_both (value_of (wrapping (add_or_sub op) X Y)) left right }
    ensures fits { is_tick_in tick_values result ≡ true }
{
    match (left, right) {
        (Some(left), Some(right)) => Some(wrapping_op(op, left, right)),
        _ => None,
    }
}

/// What a division of two optional ticks leaves.
#[inline(always)]
fn rest_of_slots(tick: Option<i64>, divisor: Option<i64>) -> Option<i64>
    ensures value { result ≡ on_both (divided floor_mod) tick divisor }
    ensures fits { is_tick_in tick_values result ≡ true }
{
    match (tick, divisor) {
        (Some(tick), Some(divisor)) => rest(tick, divisor),
        _ => None,
    }
}

/// The tick at which a date begins.
#[inline(always)]
fn midnight(date: i64, day: u64) -> i64
    requires day { IsShortDay day }
    requires date { is_within date_values date ≡ true }
    ensures value { result ≡ date *ℤ pos day }
{
    date * day as i64
}

/// The whole days of so many ticks, rounded down.
#[inline(always)]
fn whole_days(ticks: i64, day: u64) -> i64
    requires some { 1 < day }
    requires small { day < 2 ^ 63 }
    ensures value { result ≡ floor_by ticks day }
    ensures half { unsigned_abs result ≤ 2 ^ 62 }
{
    ticks.div_euclid(day as i64)
}

/// The date of an optional moment.
#[inline(always)]
fn date_of(moment: Option<i64>, day: u64) -> Option<i64>
    requires day { IsShortDay day }
    ensures value { result ≡ option_and_then (fitting_value date_values)
        (option_map (λ v. floor_by v day) moment) }
    ensures fits { is_tick_in date_values result ≡ true }
{
    match moment {
        Some(moment) => as_date(whole_days(moment, day)),
        None => None,
    }
}

/// The date of a date joined with a length of time, both told in a unit of which a day has so many
/// ticks.
#[inline(always)]
fn date_with(op: AddOrSub, day: u64, change: UnitChange, date: i64, length: i64) -> Option<i64>
    requires proper { IsProper (PairRule.DateWith op day change) }
    requires date { is_within date_values date ≡ true }
    ensures value { result ≡ value_of (formula_of (PairRule.DateWith op day change)) date length }
    ensures fits { is_tick_in date_values result ≡ true }
{
    let moment = wrapping_slots(op, Some(midnight(date, day)), duration_by(length, change));
    date_of(moment, day)
}

/// The number of the day so many days after a date.
#[inline(always)]
fn days_after(days: i64, date: i64) -> i64
    requires days { unsigned_abs days ≤ 2 ^ 62 }
    requires date { is_within date_values date ≡ true }
    ensures value { result ≡ days +ℤ date }
{
    days + date
}

/// The day that lies so many whole days of a length of time, rounded down, after a date.
#[inline(always)]
fn length_then_date(day: u64, length: i64, date: i64) -> Option<i64>
    requires proper { IsProper (PairRule.LengthThenDate day) }
    requires date { is_within date_values date ≡ true }
    ensures value { result ≡ value_of (formula_of (PairRule.LengthThenDate day)) length date }
    ensures fits { is_tick_in date_values result ≡ true }
{
    as_date(days_after(whole_days(length, day), date))
}

/// Two integers of one word joined, wrapped to the word; none for a divisor 0.
#[inline(always)]
fn joined_words<W: Word>(op: BinOp, left: W, right: W) -> Option<W>
    ensures value { option_map W.reading result ≡
        value_of (number_form op W.word_type) (W.reading left) (W.reading right) }
{
    match op {
        BinOp::Add => Some(left.add_wrap(right)),
        BinOp::Sub => Some(left.sub_wrap(right)),
        BinOp::Mul => Some(left.mul_wrap(right)),
        BinOp::Div => left.floor_div(right),
        BinOp::Rem => left.floor_mod(right),
    }
}

/// Two integers of 64 bits joined.
#[inline(always)]
fn joined_numbers(op: BinOp, left: i64, right: i64) -> Option<i64>
    ensures value { result ≡ value_of (number_form op (Signed w64)) left right }
    ensures fits { is_tick_in tick_values result ≡ true }
{
    joined_words(op, left, right)
}

/// Two ticks under the rule.
#[inline(always)]
pub(crate) fn pair_tick(rule: PairRule, left: i64, right: i64) -> Option<i64>
    requires proper { IsProper rule }
    requires left { is_within (left_values rule) left ≡ true }
    requires right { is_within (right_values rule) right ≡ true }
    ensures value { result ≡ value_of (formula_of rule) left right }
    ensures fits { is_tick_in (answer_values rule) result ≡ true }
{
    match rule {
        PairRule::DatesApart => Some((left - right) * MILLIS_PER_DAY),
        PairRule::TimesApart => Some(left - right),
        PairRule::DateWith(op, day, change) => date_with(op, day, change, left, right),
        PairRule::LengthThenDate(day) => length_then_date(day, left, right),
        PairRule::Ticks(op, left_operand, right_operand) => wrapping_slots(
            op,
            operand_tick(left_operand, left),
            operand_tick(right_operand, right),
        ),
        PairRule::Rest(left_change, right_change) => {
            rest_of_slots(
                duration_by(left, left_change),
                duration_by(right, right_change),
            )
        }
        PairRule::Numbers(op) => joined_numbers(op, left, right),
        PairRule::LengthTimes => joined_numbers(BinOp::Mul, left, right),
        PairRule::TimesLength => joined_numbers(BinOp::Mul, left, right),
        PairRule::LengthPart => joined_numbers(BinOp::Div, left, right),
    }
}
