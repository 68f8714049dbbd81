// Where the ticks lie that operators give.
ghost use Rattle.std.specs.Prelude.{◌≡◌, ◌≤◌, true, Some, IfSome};
ghost use Rattle.std.specs.Int.{w64};
ghost use Rattle.std.specs.Option.{option_and_then, option_map};
ghost use Rattle.col_model.specs.Column.{is_built_type};
ghost use Rattle.col_model.specs.Arithmetic.{Signed, floor_by};
ghost use Rattle.col_model.specs.Formula.{X, interval_of, on_intervals, between_ends};
ghost use Rattle.col_model.specs.Formula.{inside_interval, rest_interval};
ghost use Rattle.col_model.specs.IntervalRoom.{IsNear, IsOrdered};
ghost use Rattle.col_model.specs.OperatorTable.{listed_rule, number_form};
ghost use Rattle.col_model.specs.RuleIntervals.{typed_interval};
ghost use Rattle.col_arith.specs.PairRule.{formula_of, operand_of};
ghost use Rattle.col_arith.specs.PairRule.{IsProper, IsProperOperand, date_values, tick_values};
ghost use Rattle.col_arith.specs.Intervals.{both_ends, if_inside};

use crate::pair_rule::{AddOrSub, Operand, PairRule, listed_rule};
use col_model::{
    Interval, date_values, difference, finer, floor_by, floor_quotients, inside, lengths, moments,
    only, product, rest, sum, tick_values, times,
};
use col_types::{BinOp, DataType};

/// An operand's ticks in the answer's unit.
fn operand_interval(operand: Operand, p: Interval) -> Option<Interval>
    requires near { IsNear 63 p }
    requires proper { IsProperOperand operand }
    ensures value { result ≡ interval_of (operand_of operand X) p p }
    ensures near { IfSome result (IsNear 63) }
{
    match operand {
        Operand::Moment(change) => moments(p, change),
        Operand::Length(change) => lengths(p, change),
        Operand::Day(ticks) => finer(p, ticks),
    }
}

/// Sums or differences of ticks, none where 64 bits may not hold them.
fn tick_interval(op: AddOrSub, p: Interval, q: Interval) -> Option<Interval>
    requires left { IsNear 126 p }
    requires right { IsNear 63 q }
    ensures value { result ≡ option_and_then (inside_interval tick_values) (both_ends op p q) }
{
    match op {
        AddOrSub::Add => inside(tick_values(), sum(p, q)),
        AddOrSub::Sub => inside(tick_values(), difference(p, q)),
    }
}

/// The same, none where an operand has none.
fn ticks_interval(op: AddOrSub, p: Option<Interval>, q: Option<Interval>) -> Option<Interval>
    requires left { IfSome p (IsNear 126) }
    requires right { IfSome q (IsNear 63) }
    ensures value { result ≡
        option_and_then (inside_interval tick_values) (on_intervals (both_ends op) p q) }
{
    match (p, q) {
        (Some(p), Some(q)) => tick_interval(op, p, q),
        _ => None,
    }
}

/// The days of moments, none where the word of dates may not hold them.
fn date_interval(p: Option<Interval>, day: u64) -> Option<Interval>
    requires some { 1 ≤ day }
    ensures value { result ≡ option_and_then (inside_interval date_values)
        (option_map (between_ends (λ v. floor_by v day)) p) }
{
    match p {
        Some(p) => inside(date_values(), floor_by(p, day)),
        None => None,
    }
}

/// Days apart, in milliseconds.
#[tactic(auto, using(col_model::proofs::RoomLemmas::apart_multiply))]
fn days_apart(p: Interval, q: Interval) -> Interval
    requires left { IsNear 63 p }
    requires right { IsNear 63 q }
    ensures value { Some result ≡ interval_of (formula_of PairRule.DatesApart) p q }
{
    product(difference(p, q), only(86_400_000))
}

/// Days after dates.
fn days_after(p: Interval, q: Interval, day: u64) -> Option<Interval>
    requires left { IsNear 63 p }
    requires right { IsNear 63 q }
    requires some { 1 ≤ day }
    ensures value { result ≡ interval_of (formula_of (PairRule.LengthThenDate day)) p q }
{
    inside(date_values(), sum(floor_by(p, day), q))
}

/// What divisions leave, none where a divisor may be 0.
fn rests(p: Option<Interval>, q: Option<Interval>) -> Option<Interval>
    requires right { IfSome q (IsNear 63) }
    ensures value { result ≡ on_intervals rest_interval p q }
{
    match (p, q) {
        (Some(p), Some(q)) => rest(p, q),
        _ => None,
    }
}

/// An interval in a range, none where there is none or it isn't inside.
pub(crate) fn inside_of(range: Interval, p: Option<Interval>) -> Option<Interval>
    ensures inside { result ≡ option_and_then (inside_interval range) p }
{
    match p {
        Some(p) => inside(range, p),
        None => None,
    }
}

/// Integers joined, none where 64 bits may not hold what they give.
fn number_interval(op: BinOp, p: Interval, q: Interval) -> Option<Interval>
    requires left { IsNear 63 p }
    requires right { IsNear 63 q }
    requires ordered { IsOrdered q }
    ensures value { result ≡ interval_of (number_form op (Signed w64)) p q }
{
    match op {
        BinOp::Add => inside(tick_values(), sum(p, q)),
        BinOp::Sub => inside(tick_values(), difference(p, q)),
        BinOp::Mul => inside(tick_values(), product(p, q)),
        BinOp::Div => inside_of(tick_values(), floor_quotients(p, q)),
        BinOp::Rem => rest(p, q),
    }
}

/// The same, none also where 64 bits may not hold the integers on the right.
fn right_tick_interval(op: BinOp, p: Interval, q: Interval) -> Option<Interval>
    requires left { IsNear 63 p }
    requires right { IsNear 63 q }
    requires ordered { IsOrdered q }
    ensures value { result ≡ if_inside q (interval_of (number_form op (Signed w64)) p q) }
{
    if tick_values().encloses(q) {
        number_interval(op, p, q)
    } else {
        None
    }
}

/// The same of the integers on the left.
fn left_tick_interval(op: BinOp, p: Interval, q: Interval) -> Option<Interval>
    requires left { IsNear 63 p }
    requires right { IsNear 63 q }
    requires ordered { IsOrdered q }
    ensures value { result ≡ if_inside p (interval_of (number_form op (Signed w64)) p q) }
{
    if tick_values().encloses(p) {
        number_interval(op, p, q)
    } else {
        None
    }
}

/// The ticks that a rule gives, none where it may lose or wrap one.
fn pair_interval(rule: PairRule, p: Interval, q: Interval) -> Option<Interval>
    requires left { IsNear 63 p }
    requires right { IsNear 63 q }
    requires ordered { IsOrdered q }
    requires proper { IsProper rule }
    ensures value { result ≡ interval_of (formula_of rule) p q }
{
    match rule {
        PairRule::DatesApart => Some(days_apart(p, q)),
        PairRule::TimesApart => Some(difference(p, q)),
        PairRule::DateWith(op, day, change) => date_interval(
            ticks_interval(op, Some(times(p, day)), lengths(q, change)),
            day,
        ),
        PairRule::LengthThenDate(day) => days_after(p, q, day),
        PairRule::Ticks(op, left, right) => {
            ticks_interval(op, operand_interval(left, p), operand_interval(right, q))
        }
        PairRule::Rest(left, right) => rests(lengths(p, left), lengths(q, right)),
        PairRule::Numbers(op) => number_interval(op, p, q),
        PairRule::LengthTimes => right_tick_interval(BinOp::Mul, p, q),
        PairRule::TimesLength => left_tick_interval(BinOp::Mul, p, q),
        PairRule::LengthPart => right_tick_interval(BinOp::Div, p, q),
    }
}

/// The type that an operator gives, and where its slots lie, none where it may lose or wrap one.
pub fn operator_interval(
    op: BinOp,
    left: &DataType,
    right: &DataType,
    p: Interval,
    q: Interval,
) -> Option<(DataType, Option<Interval>)>
    requires left_built { is_built_type left.now ≡ true }
    requires right_built { is_built_type right.now ≡ true }
    requires left { IsNear 63 p }
    requires right { IsNear 63 q }
    requires ordered { IsOrdered q }
    ensures interval { result ≡ typed_interval (listed_rule op left.now right.now) p q }
    ensures built { IfSome result (λ typed. is_built_type left.now ≡ true →
        is_built_type right.now ≡ true → is_built_type typed.0 ≡ true) }
{
    match listed_rule(op, left, right) {
        Some(typed) => Some((typed.dtype, pair_interval(typed.rule, p, q))),
        None => None,
    }
}
