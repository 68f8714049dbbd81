// Two columns joined by an operator.
ghost use Rattle.std.specs.Prelude.{◌≡◌, Err, is_some, length};
ghost use Rattle.col_types.specs.PolarsError.{GivesBy};
ghost use Rattle.col_types.specs.declared.operator.BinOp.TheVariants.{Add, Sub, Mul, Div, Rem};
ghost use Rattle.col_model.specs.Broadcast.{broadcast_length};
ghost use Rattle.col_model.specs.Chunked.{column_of};
ghost use Rattle.col_model.specs.OperationNames.{name_of_op, unsupported};
ghost use Rattle.col_model.specs.OperatorCalls.{binary_of, binary_by};
ghost use Rattle.col_arith.specs.Coercion.{uncoerced_of};

use crate::coercion::changes_type;
use crate::joined::{
    dates_and_moments, dates_apart, dates_with_lengths, lengths_with_dates, moments_and_dates,
    ticks_joined, times_apart, words_joined,
};
use crate::operators::{
    Adding, DateWith, Dividing, Leaving, LengthPart, LengthTimes, Lengths, Minus, Moments,
    Multiplying, Numbers, Plus, Rests, Subtracting, Ticks, TimesLength,
};
use crate::pair_rule::unsupported;
use col_series::Series;
use col_types::{BinOp, DataType, PolarsError, PolarsResult, get_time_units, same_zone};
use std::alloc::Global;

/// Two columns joined by an operator, slot by slot; one row of either stands for all. Refused where
/// neither the lengths are equal nor one of them is 1 (`Lengths`), then where the table has no
/// rule for the types (`Types`). The answer has the left name.
pub fn binary(alloc: Global, op: BinOp, left: &Series, right: &Series) -> PolarsResult<Series>
    ensures column { GivesBy column_of result (binary_of op left.now.column right.now.column) }
{
    match op {
        BinOp::Add => sums(alloc, left, right),
        BinOp::Sub => differences(alloc, left, right),
        BinOp::Mul => products(alloc, left, right),
        BinOp::Div => quotients(alloc, left, right),
        BinOp::Rem => rests(alloc, left, right),
    }
}

/// As `binary`, but refused (`Types`) also where coercion would give an operand another type.
pub fn uncoerced_binary(
    alloc: Global,
    op: BinOp,
    left: &Series,
    right: &Series,
) -> PolarsResult<Series>
    ensures column { GivesBy column_of result (uncoerced_of op left.now.column right.now.column) }
{
    left.known();
    right.known();
    if changes_type(left.dtype(), right.dtype()) {
        refused(op, left, right)
    } else {
        binary(alloc, op, left, right)
    }
}

/// Whether columns of these lengths have rows to join: as many, or one that stands for all.
fn lengths_meet(left: usize, right: usize) -> bool
    ensures meet { result ≡ is_some (broadcast_length left right) }
{
    left == right || left == 1 || right == 1
}

/// The refusal of types for which the operator isn't defined; lengths are tested before types.
fn refused(op: BinOp, left: &Series, right: &Series) -> PolarsResult<Series>
    ensures column { GivesBy column_of result (binary_by left.now.column right.now.column
        (broadcast_length (length left.now.column.slots) (length right.now.column.slots))
        (Err (unsupported (name_of_op op) left.now.column.dtype right.now.column.dtype))) }
{
    if lengths_meet(left.len(), right.len()) {
        Err(unsupported(op, left.dtype(), right.dtype()))
    } else {
        Err(PolarsError::Lengths {
            left: left.len(),
            right: right.len(),
        })
    }
}

/// Sums; where units differ, both operands go to the coarser one.
fn sums(alloc: Global, left: &Series, right: &Series) -> PolarsResult<Series>
    ensures column { GivesBy column_of result (binary_of Add left.now.column right.now.column) }
{
    left.known();
    right.known();
    match (left.dtype(), right.dtype()) {
        (DataType::Date, DataType::Duration(v)) => {
            dates_with_lengths::<DateWith<Plus>>(alloc, *v, left, right)
        }
        (DataType::Duration(u), DataType::Date) => lengths_with_dates(alloc, *u, left, right),
        (DataType::Datetime(u, zone), DataType::Duration(v)) => {
            let dtype = DataType::Datetime(get_time_units(*u, *v), *zone);
            ticks_joined::<Ticks<Plus, Moments, Lengths>>(alloc, (*u, *v), left, right, dtype)
        }
        (DataType::Duration(u), DataType::Datetime(v, zone)) => {
            let dtype = DataType::Datetime(get_time_units(*u, *v), *zone);
            ticks_joined::<Ticks<Plus, Lengths, Moments>>(alloc, (*u, *v), left, right, dtype)
        }
        (DataType::Duration(u), DataType::Duration(v)) => {
            let dtype = DataType::Duration(get_time_units(*u, *v));
            ticks_joined::<Ticks<Plus, Lengths, Lengths>>(alloc, (*u, *v), left, right, dtype)
        }
        (DataType::Int64, DataType::Int64) => {
            words_joined::<Numbers<Adding>>(alloc, left, right, DataType::Int64)
        }
        _ => refused(BinOp::Add, left, right),
    }
}

/// Differences; moments are apart only in one zone.
fn differences(alloc: Global, left: &Series, right: &Series) -> PolarsResult<Series>
    ensures column { GivesBy column_of result (binary_of Sub left.now.column right.now.column) }
{
    left.known();
    right.known();
    match (left.dtype(), right.dtype()) {
        (DataType::Date, DataType::Date) => dates_apart(alloc, left, right),
        (DataType::Time, DataType::Time) => times_apart(alloc, left, right),
        (DataType::Date, DataType::Duration(v)) => {
            dates_with_lengths::<DateWith<Minus>>(alloc, *v, left, right)
        }
        (DataType::Date, DataType::Datetime(v, _)) => dates_and_moments(alloc, *v, left, right),
        (DataType::Datetime(u, _), DataType::Date) => moments_and_dates(alloc, *u, left, right),
        (DataType::Datetime(u, y), DataType::Datetime(v, z)) => {
            if !same_zone(y, z) {
                return refused(BinOp::Sub, left, right);
            }
            let dtype = DataType::Duration(get_time_units(*u, *v));
            ticks_joined::<Ticks<Minus, Moments, Moments>>(alloc, (*u, *v), left, right, dtype)
        }
        (DataType::Datetime(u, zone), DataType::Duration(v)) => {
            let dtype = DataType::Datetime(get_time_units(*u, *v), *zone);
            ticks_joined::<Ticks<Minus, Moments, Lengths>>(alloc, (*u, *v), left, right, dtype)
        }
        (DataType::Duration(u), DataType::Duration(v)) => {
            let dtype = DataType::Duration(get_time_units(*u, *v));
            ticks_joined::<Ticks<Minus, Lengths, Lengths>>(alloc, (*u, *v), left, right, dtype)
        }
        (DataType::Int64, DataType::Int64) => {
            words_joined::<Numbers<Subtracting>>(alloc, left, right, DataType::Int64)
        }
        _ => refused(BinOp::Sub, left, right),
    }
}

/// Products; a length of time as many times as an integer on either side says.
fn products(alloc: Global, left: &Series, right: &Series) -> PolarsResult<Series>
    ensures column { GivesBy column_of result (binary_of Mul left.now.column right.now.column) }
{
    left.known();
    right.known();
    match (left.dtype(), right.dtype()) {
        (DataType::Duration(u), DataType::Int64) => {
            words_joined::<LengthTimes>(alloc, left, right, DataType::Duration(*u))
        }
        (DataType::Int64, DataType::Duration(v)) => {
            words_joined::<TimesLength>(alloc, left, right, DataType::Duration(*v))
        }
        (DataType::Int64, DataType::Int64) => {
            words_joined::<Numbers<Multiplying>>(alloc, left, right, DataType::Int64)
        }
        _ => refused(BinOp::Mul, left, right),
    }
}

/// Quotients, rounded down; a part of a length of time.
fn quotients(alloc: Global, left: &Series, right: &Series) -> PolarsResult<Series>
    ensures column { GivesBy column_of result (binary_of Div left.now.column right.now.column) }
{
    left.known();
    right.known();
    match (left.dtype(), right.dtype()) {
        (DataType::Duration(u), DataType::Int64) => {
            words_joined::<LengthPart>(alloc, left, right, DataType::Duration(*u))
        }
        (DataType::Int64, DataType::Int64) => {
            words_joined::<Numbers<Dividing>>(alloc, left, right, DataType::Int64)
        }
        _ => refused(BinOp::Div, left, right),
    }
}

/// What divisions of lengths of time or of integers leave.
fn rests(alloc: Global, left: &Series, right: &Series) -> PolarsResult<Series>
    ensures column { GivesBy column_of result (binary_of Rem left.now.column right.now.column) }
{
    left.known();
    right.known();
    match (left.dtype(), right.dtype()) {
        (DataType::Duration(u), DataType::Duration(v)) => {
            let dtype = DataType::Duration(get_time_units(*u, *v));
            ticks_joined::<Rests>(alloc, (*u, *v), left, right, dtype)
        }
        (DataType::Int64, DataType::Int64) => {
            words_joined::<Numbers<Leaving>>(alloc, left, right, DataType::Int64)
        }
        _ => refused(BinOp::Rem, left, right),
    }
}
