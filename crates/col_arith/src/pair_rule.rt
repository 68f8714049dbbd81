// The rules of the operator table.
ghost use Rattle.std.specs.Prelude.{◌≡◌, true, Some, IfSome};
ghost use Rattle.col_types.specs.TimeUnit.{ticks_per_day, coarser_unit};
ghost use Rattle.col_types.specs.declared.time_unit.TimeUnit.TheVariants.{Milliseconds};
ghost use Rattle.col_model.specs.Column.{is_built_type};
ghost use Rattle.col_model.specs.OperationNames.{name_of_op, unsupported};
ghost use Rattle.col_model.specs.UnitChange.{unit_change};
ghost use Rattle.col_model.specs.OperatorTable.{listed_rule, number_rule, temporal_rule};
ghost use Rattle.col_model.specs.OperatorTable.{sum_rule, difference_rule, product_rule};
ghost use Rattle.col_model.specs.OperatorTable.{quotient_rule, rest_rule};
ghost use Rattle.col_arith.specs.PairRule.{listed_rule_of, FitsTypes};
ghost use Rattle.col_arith.specs.PairRule.{IsProper, IsProperOperand, IsDay};

use col_model::{UnitChange, ticks_per_day as day_in_ticks, unit_change};
use col_types::{BinOp, DataType, OpName, PolarsError, TimeUnit, get_time_units, same_zone};

/// Which of the two a rule gives.
#[derive(Clone, Copy)]
pub(crate) enum AddOrSub {
    Add,
    Sub,
}

/// What an operand is, and how it comes to the answer's unit.
#[derive(Clone, Copy)]
pub(crate) enum Operand {
    /// A moment.
    Moment(UnitChange),
    /// A length of time.
    Length(UnitChange),
    /// A date, of which a day has so many ticks.
    Day(u64),
}

/// A rule of the operator table: what becomes of two ticks. It is chosen once for two columns.
#[derive(Clone, Copy)]
pub(crate) enum PairRule {
    /// Two dates, milliseconds apart.
    DatesApart,
    /// Two times, nanoseconds apart.
    TimesApart,
    /// A date and a length of time, both first told in a unit of which a day has so many ticks.
    DateWith(AddOrSub, u64, UnitChange),
    /// A length of time, which is first cut to days of so many ticks, and a date.
    LengthThenDate(u64),
    /// Ticks of one unit, wrapped to 64 bits.
    Ticks(AddOrSub, Operand, Operand),
    /// What a division of two lengths of time leaves.
    Rest(UnitChange, UnitChange),
    /// Two integers of 64 bits.
    Numbers(BinOp),
    /// A length of time as many times as an integer on its right says.
    LengthTimes,
    /// A length of time as many times as an integer on its left says.
    TimesLength,
    /// A length of time divided by an integer.
    LengthPart,
}

/// A rule with the answer's type.
#[derive(Drop)]
pub(crate) struct TypedRule {
    pub(crate) dtype: DataType,
    pub(crate) rule: PairRule,
}

pub(crate) fn ticks_per_day(unit: TimeUnit) -> u64
    ensures value { result ≡ ticks_per_day unit }
    ensures day { IsDay result }
{
    day_in_ticks(unit) as u64
}

/// A moment in another unit.
pub(crate) fn moment(from: TimeUnit, to: TimeUnit) -> Operand
    ensures operand { result ≡ Operand.Moment (unit_change from to) }
    ensures proper { IsProperOperand result }
{
    Operand::Moment(unit_change(from, to))
}

/// A length of time in another unit.
pub(crate) fn length(from: TimeUnit, to: TimeUnit) -> Operand
    ensures operand { result ≡ Operand.Length (unit_change from to) }
    ensures proper { IsProperOperand result }
{
    Operand::Length(unit_change(from, to))
}

/// A date as the beginning of its day.
pub(crate) fn day(unit: TimeUnit) -> Operand
    ensures operand { result ≡ Operand.Day (ticks_per_day unit) }
    ensures proper { IsProperOperand result }
{
    Operand::Day(ticks_per_day(unit))
}

/// The rule of a sum of ticks.
fn sum(left: Operand, right: Operand) -> PairRule
    ensures rule { result ≡ PairRule.Ticks AddOrSub.Add left right }
{
    PairRule::Ticks(AddOrSub::Add, left, right)
}

/// The rule of a difference of ticks.
fn difference(left: Operand, right: Operand) -> PairRule
    ensures rule { result ≡ PairRule.Ticks AddOrSub.Sub left right }
{
    PairRule::Ticks(AddOrSub::Sub, left, right)
}

/// The rule of a date with a length of time: both in the coarser of milliseconds and its unit.
pub(crate) fn date_with(op: AddOrSub, length: TimeUnit) -> PairRule
    ensures rule { result ≡ PairRule.DateWith op (ticks_per_day (coarser_unit Milliseconds length))
        (unit_change length (coarser_unit Milliseconds length)) }
    ensures proper { IsProper result }
{
    let unit = get_time_units(TimeUnit::Milliseconds, length);
    PairRule::DateWith(op, ticks_per_day(unit), unit_change(length, unit))
}

/// How refusals name the operator.
fn name_of_op(op: BinOp) -> OpName
    ensures name { result ≡ name_of_op op }
{
    match op {
        BinOp::Add => OpName::Add,
        BinOp::Sub => OpName::Sub,
        BinOp::Mul => OpName::Mul,
        BinOp::Div => OpName::Div,
        BinOp::Rem => OpName::Rem,
    }
}

/// The refusal of types for which the operator isn't defined.
pub(crate) fn unsupported(op: BinOp, left: &DataType, right: &DataType) -> PolarsError
    ensures refusal { result ≡ unsupported (name_of_op op) left.now right.now }
{
    PolarsError::Types {
        op: name_of_op(op),
        left: left.kind(),
        right: right.kind(),
    }
}

/// The rule that the table lists for an operator and two types, or none.
pub(crate) fn listed_rule(op: BinOp, left: &DataType, right: &DataType) -> Option<TypedRule>
    requires left { is_built_type left.now ≡ true }
    requires right { is_built_type right.now ≡ true }
    ensures rule { listed_rule_of result ≡ listed_rule op left.now right.now }
    ensures fits { IfSome result (FitsTypes left.now right.now) }
{
    match temporal_rule(op, left, right) {
        Some(typed) => Some(typed),
        None => number_rule(op, left, right),
    }
}

/// The rule for an operator with a temporal type on a side, or none.
fn temporal_rule(op: BinOp, left: &DataType, right: &DataType) -> Option<TypedRule>
    requires left { is_built_type left.now ≡ true }
    requires right { is_built_type right.now ≡ true }
    ensures rule { listed_rule_of result ≡ temporal_rule op left.now right.now }
    ensures fits { IfSome result (FitsTypes left.now right.now) }
{
    match op {
        BinOp::Add => sum_rule(left, right),
        BinOp::Sub => difference_rule(left, right),
        BinOp::Mul => product_rule(left, right),
        BinOp::Div => quotient_rule(left, right),
        BinOp::Rem => rest_rule(left, right),
    }
}

/// The rule for an operator between integers, or none.
fn number_rule(op: BinOp, left: &DataType, right: &DataType) -> Option<TypedRule>
    requires left { is_built_type left.now ≡ true }
    requires right { is_built_type right.now ≡ true }
    ensures rule { listed_rule_of result ≡ number_rule op left.now right.now }
    ensures fits { IfSome result (FitsTypes left.now right.now) }
{
    match (left, right) {
        (DataType::Int64, DataType::Int64) => {
            Some(TypedRule {
                dtype: DataType::Int64,
                rule: PairRule::Numbers(op),
            })
        }
        _ => None,
    }
}

fn sum_rule(left: &DataType, right: &DataType) -> Option<TypedRule>
    ensures rule { listed_rule_of result ≡ sum_rule left.now right.now }
    ensures fits { IfSome result (FitsTypes left.now right.now) }
{
    match (left, right) {
        (DataType::Date, DataType::Duration(v)) => {
            Some(TypedRule {
                dtype: DataType::Date,
                rule: date_with(AddOrSub::Add, *v),
            })
        }
        (DataType::Duration(u), DataType::Date) => {
            let rule = PairRule::LengthThenDate(ticks_per_day(*u));
            Some(TypedRule {
                dtype: DataType::Date,
                rule,
            })
        }
        (DataType::Datetime(u, zone), DataType::Duration(v)) => {
            let w = get_time_units(*u, *v);
            let rule = sum(moment(*u, w), length(*v, w));
            Some(TypedRule {
                dtype: DataType::Datetime(w, *zone),
                rule,
            })
        }
        (DataType::Duration(u), DataType::Datetime(v, zone)) => {
            let w = get_time_units(*u, *v);
            let rule = sum(length(*u, w), moment(*v, w));
            Some(TypedRule {
                dtype: DataType::Datetime(w, *zone),
                rule,
            })
        }
        (DataType::Duration(u), DataType::Duration(v)) => {
            let w = get_time_units(*u, *v);
            let rule = sum(length(*u, w), length(*v, w));
            Some(TypedRule {
                dtype: DataType::Duration(w),
                rule,
            })
        }
        _ => None,
    }
}

fn difference_rule(left: &DataType, right: &DataType) -> Option<TypedRule>
    ensures rule { listed_rule_of result ≡ difference_rule left.now right.now }
    ensures fits { IfSome result (FitsTypes left.now right.now) }
{
    match (left, right) {
        (DataType::Date, DataType::Date) => {
            let dtype = DataType::Duration(TimeUnit::Milliseconds);
            Some(TypedRule {
                dtype,
                rule: PairRule::DatesApart,
            })
        }
        (DataType::Time, DataType::Time) => {
            let dtype = DataType::Duration(TimeUnit::Nanoseconds);
            Some(TypedRule {
                dtype,
                rule: PairRule::TimesApart,
            })
        }
        (DataType::Date, DataType::Duration(v)) => {
            Some(TypedRule {
                dtype: DataType::Date,
                rule: date_with(AddOrSub::Sub, *v),
            })
        }
        (DataType::Date, DataType::Datetime(v, _)) => {
            let rule = difference(day(*v), Operand::Moment(UnitChange::Same));
            Some(TypedRule {
                dtype: DataType::Duration(*v),
                rule,
            })
        }
        (DataType::Datetime(u, _), DataType::Date) => {
            let rule = difference(Operand::Moment(UnitChange::Same), day(*u));
            Some(TypedRule {
                dtype: DataType::Duration(*u),
                rule,
            })
        }
        (DataType::Datetime(u, y), DataType::Datetime(v, z)) => {
            if !same_zone(y, z) {
                return None;
            }
            let w = get_time_units(*u, *v);
            let rule = difference(moment(*u, w), moment(*v, w));
            Some(TypedRule {
                dtype: DataType::Duration(w),
                rule,
            })
        }
        (DataType::Datetime(u, zone), DataType::Duration(v)) => {
            let w = get_time_units(*u, *v);
            let rule = difference(moment(*u, w), length(*v, w));
            Some(TypedRule {
                dtype: DataType::Datetime(w, *zone),
                rule,
            })
        }
        (DataType::Duration(u), DataType::Duration(v)) => {
            let w = get_time_units(*u, *v);
            let rule = difference(length(*u, w), length(*v, w));
            Some(TypedRule {
                dtype: DataType::Duration(w),
                rule,
            })
        }
        _ => None,
    }
}

fn rest_rule(left: &DataType, right: &DataType) -> Option<TypedRule>
    ensures rule { listed_rule_of result ≡ rest_rule left.now right.now }
    ensures fits { IfSome result (FitsTypes left.now right.now) }
{
    match (left, right) {
        (DataType::Duration(u), DataType::Duration(v)) => {
            let w = get_time_units(*u, *v);
            let rule = PairRule::Rest(unit_change(*u, w), unit_change(*v, w));
            Some(TypedRule {
                dtype: DataType::Duration(w),
                rule,
            })
        }
        _ => None,
    }
}

fn product_rule(left: &DataType, right: &DataType) -> Option<TypedRule>
    requires left { is_built_type left.now ≡ true }
    requires right { is_built_type right.now ≡ true }
    ensures rule { listed_rule_of result ≡ product_rule left.now right.now }
    ensures fits { IfSome result (FitsTypes left.now right.now) }
{
    match (left, right) {
        (DataType::Duration(u), DataType::Int64) => {
            Some(TypedRule {
                dtype: DataType::Duration(*u),
                rule: PairRule::LengthTimes,
            })
        }
        (DataType::Int64, DataType::Duration(v)) => {
            Some(TypedRule {
                dtype: DataType::Duration(*v),
                rule: PairRule::TimesLength,
            })
        }
        _ => None,
    }
}

fn quotient_rule(left: &DataType, right: &DataType) -> Option<TypedRule>
    requires right { is_built_type right.now ≡ true }
    ensures rule { listed_rule_of result ≡ quotient_rule left.now right.now }
    ensures fits { IfSome result (FitsTypes left.now right.now) }
{
    match (left, right) {
        (DataType::Duration(u), DataType::Int64) => {
            Some(TypedRule {
                dtype: DataType::Duration(*u),
                rule: PairRule::LengthPart,
            })
        }
        _ => None,
    }
}
