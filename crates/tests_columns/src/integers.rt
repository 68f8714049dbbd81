//! Columns of integers of 64 bits: that each call succeeds, at values by hand. What casts and operators answer
//! is told by clauses, and shown by the rows of `col_rows`.

use crate::same::{has_words, holds};
use col_arith::*;
use col_chunk::Int64Chunked;
use col_series::IntoSeries;
use std::alloc::Global;
use std::process::Abort;

/// A column of these integers.
fn integers(rt: &impl Abort, alloc: Global, values: &[i64]) -> Series {
    let name = PlSmallStr::from_str(alloc, "count").expect(rt, "a name");
    let words = Int64Chunked::from_slice(alloc, name, values).expect(rt, "words");
    words.into_series(alloc).expect(rt, "a column")
}

/// The answer has these integers and nulls.
fn gives(rt: &impl Abort, answer: PolarsResult<Series>, slots: &[Option<i64>]) {
    let column = answer.expect(rt, "an answer");
    has_words(rt, column.i64().expect(rt, "integers"), slots);
}

#[test]
fn integers_are_words(rt: HostRuntime) {
    let alloc = rt.alloc();
    let column = integers(&rt, alloc, &[7, -1]);
    has_words(&rt, column.i64().expect(&rt, "words"), &[Some(7), Some(-1)]);
    holds(
        &rt,
        "type",
        column.dtype().is_integer() && column.duration().is_err(),
    );
    let second = column.get(1);
    holds(&rt, "slot", matches!(second, Ok(AnyValue::Int64(-1))));
    let name = PlSmallStr::from_str(alloc, "count").expect(&rt, "a name");
    let nulls = Series::full_null(alloc, name, 2, &DataType::Int64);
    gives(&rt, nulls, &[None, None]);
}

#[test]
fn integers_meet_integers(rt: HostRuntime) {
    let alloc = rt.alloc();
    let left = integers(&rt, alloc, &[i64::MIN, -7, 7]);
    let right = integers(&rt, alloc, &[-1, 2, 0]);
    let quotients = [Some(i64::MIN), Some(-4), None];
    gives(&rt, left.try_div(alloc, &right), &quotients);
    let rests = [Some(0), Some(1), None];
    gives(&rt, left.try_rem(alloc, &right), &rests);
    let products = [Some(i64::MIN), Some(-14), Some(0)];
    gives(&rt, left.try_mul(alloc, &right), &products);
    let sums = [Some(i64::MAX), Some(-5), Some(7)];
    gives(&rt, left.try_add(alloc, &right), &sums);
}

#[test]
fn quotients_are_checked(rt: HostRuntime) {
    let alloc = rt.alloc();
    let left = integers(&rt, alloc, &[i64::MIN, -7, 7]);
    let right = integers(&rt, alloc, &[-1, 2, 0]);
    let quotients = [None, Some(-3), None];
    gives(&rt, left.checked_div(alloc, &right), &quotients);
    let halves = [Some(-4_611_686_018_427_387_904), Some(-3), Some(3)];
    gives(&rt, left.checked_div_num(alloc, 2), &halves);
    let two = integers(&rt, alloc, &[1, 2]);
    let answer = two.checked_div(alloc, &left);
    let refused = matches!(&answer, Err(PolarsError::Lengths { left: 2, right: 3 }));
    holds(&rt, "lengths", refused);
}

#[test]
fn times_are_divided(rt: HostRuntime) {
    let alloc = rt.alloc();
    let name = PlSmallStr::from_str(alloc, "at").expect(&rt, "a name");
    let times = Series::from_slots(alloc, name, &DataType::Time, &[Some(10)]);
    let thirds = times.expect(&rt, "times").checked_div_num(alloc, 3);
    let thirds = thirds.expect(&rt, "times");
    holds(&rt, "time", matches!(thirds.get(0), Ok(AnyValue::Time(3))));
}

#[test]
fn integers_meet_a_number(rt: HostRuntime) {
    let alloc = rt.alloc();
    let column = integers(&rt, alloc, &[i64::MAX, -7]);
    let sums = [Some(i64::MIN), Some(-6)];
    gives(&rt, column.add_scalar(alloc, 1), &sums);
    let halves = [Some(4_611_686_018_427_387_903), Some(-4)];
    gives(&rt, column.div_scalar(alloc, 2), &halves);
    let days = integers(&rt, alloc, &[1]).cast(alloc, &DataType::Date);
    let days = days.expect(&rt, "days");
    holds(&rt, "day", matches!(days.get(0), Ok(AnyValue::Date(1))));
}
