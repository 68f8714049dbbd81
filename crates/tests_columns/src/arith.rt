//! That each call succeeds, at values by hand. What operators and integers answer is told by clauses, and
//! shown by the rows of `col_rows`.

use crate::same::holds;
use col_arith::*;
use std::alloc::Global;
use std::process::Abort;

const MICROS: TimeUnit = TimeUnit::Microseconds;

const MILLIS: TimeUnit = TimeUnit::Milliseconds;

/// A column of one length of time.
fn length(rt: &impl Abort, alloc: Global, unit: TimeUnit, ticks: i128) -> Series {
    let name = PlSmallStr::from_str(alloc, "work").expect(rt, "a name");
    let column = Series::from_slots(alloc, name, &DataType::Duration(unit), &[Some(ticks)]);
    column.expect(rt, "a column")
}

/// The first slot of an answer.
fn first(rt: &impl Abort, answer: PolarsResult<Series>) -> Option<i64> {
    let column = answer.expect(rt, "an answer");
    match column.get(0) {
        Ok(AnyValue::Duration(tick, _)) => Some(tick),
        _ => None,
    }
}

/// The answer has this length of time in its first row.
fn gives(rt: &impl Abort, answer: PolarsResult<Series>, wanted: i64) {
    holds(rt, "another tick", first(rt, answer) == Some(wanted));
}

/// Whether an operator between two lengths of time is refused for their types.
fn is_refused(answer: PolarsResult<Series>, op: OpName, right: TimeUnit) -> bool {
    let refusal = PolarsError::Types {
        op,
        left: Kind::Duration(MILLIS),
        right: Kind::Duration(right),
    };
    match answer {
        Ok(_) => false,
        Err(given) => given == refusal,
    }
}

#[test]
fn columns_of_one_type_meet(rt: HostRuntime) {
    let alloc = rt.alloc();
    let seven = length(&rt, alloc, MILLIS, 7);
    let three = length(&rt, alloc, MILLIS, 3);
    gives(&rt, seven.add_to(alloc, &three), 10);
    gives(&rt, seven.subtract(alloc, &three), 4);
    gives(&rt, seven.remainder(alloc, &three), 1);
    gives(&rt, seven.try_rem(alloc, &three), 1);
    gives(&rt, binary(alloc, BinOp::Sub, &three, &seven), -4);
}

#[test]
fn owned_columns_meet(rt: HostRuntime) {
    let alloc = rt.alloc();
    let three = length(&rt, alloc, MILLIS, 3);
    let sum = length(&rt, alloc, MILLIS, 7).try_add_owned(alloc, three);
    gives(&rt, sum, 10);
    let three = length(&rt, alloc, MILLIS, 3);
    let difference = length(&rt, alloc, MILLIS, 7).try_sub_owned(alloc, three);
    gives(&rt, difference, 4);
    let three = length(&rt, alloc, MILLIS, 3);
    let product = length(&rt, alloc, MILLIS, 7).try_mul_owned(alloc, three);
    holds(&rt, "no refusal", is_refused(product, OpName::Mul, MILLIS));
}

#[test]
fn lengths_have_no_product_and_no_quotient(rt: HostRuntime) {
    let alloc = rt.alloc();
    let seven = length(&rt, alloc, MILLIS, 7);
    let three = length(&rt, alloc, MILLIS, 3);
    holds(
        &rt,
        "no refusal",
        is_refused(seven.multiply(alloc, &three), OpName::Mul, MILLIS),
    );
    holds(
        &rt,
        "no refusal",
        is_refused(seven.try_mul(alloc, &three), OpName::Mul, MILLIS),
    );
    holds(
        &rt,
        "no refusal",
        is_refused(seven.divide(alloc, &three), OpName::Div, MILLIS),
    );
    holds(
        &rt,
        "no refusal",
        is_refused(seven.try_div(alloc, &three), OpName::Div, MILLIS),
    );
}

#[test]
fn columns_of_two_units_are_coerced(rt: HostRuntime) {
    let alloc = rt.alloc();
    let seven = length(&rt, alloc, MILLIS, 7);
    let three = length(&rt, alloc, MICROS, 3_000);
    let apart = uncoerced_binary(alloc, BinOp::Add, &seven, &three);
    holds(&rt, "no refusal", is_refused(apart, OpName::Add, MICROS));
    gives(&rt, seven.try_add(alloc, &three), 10);
    gives(&rt, seven.try_sub(alloc, &three), 4);
    let (left, right) = coerce_lhs_rhs(alloc, &seven, &three).expect(&rt, "one unit");
    gives(&rt, uncoerced_binary(alloc, BinOp::Add, &left, &right), 10);
    let (left, right) = coerce_lhs_rhs_owned(alloc, three, seven).expect(&rt, "one unit");
    gives(&rt, left.subtract(alloc, &right), -4);
}

#[test]
fn integers_meet_columns(rt: HostRuntime) {
    let alloc = rt.alloc();
    let seven = length(&rt, alloc, MILLIS, 7);
    gives(&rt, seven.add_scalar(alloc, -3), 4);
    gives(&rt, seven.sub_scalar(alloc, 3), 4);
    gives(&rt, seven.mul_scalar(alloc, -3), -21);
    gives(&rt, seven.rem_scalar(alloc, -3), -2);
    gives(&rt, seven.div_scalar(alloc, -2), -4);
    gives(&rt, seven.wrapping_trunc_div_scalar(alloc, -2), -3);
}

#[test]
fn columns_meet_integers(rt: HostRuntime) {
    let alloc = rt.alloc();
    let seven = length(&rt, alloc, MILLIS, 7);
    gives(&rt, seven.lhs_add(alloc, 3), 10);
    gives(&rt, seven.lhs_sub(alloc, 3), -4);
    gives(&rt, seven.lhs_mul(alloc, 3), 21);
    gives(&rt, seven.lhs_div(alloc, -15), -3);
    gives(&rt, seven.lhs_rem(alloc, -15), 6);
}
