//! Cases by hand: that each call succeeds and which word it gives. The clauses say the rest.

use crate::same::{has_words, holds};
use col_chunk::{ChunkedArray, Int32Chunked};
use col_kernel::Word;
use col_numeric::ArithmeticChunked;
use col_types::{PlSmallStr, PolarsError, PolarsResult};
use std::alloc::Global;
use std::process::Abort;

/// A column of these words.
fn column<T: Word>(rt: &impl Abort, alloc: Global, words: &[T]) -> ChunkedArray<T> {
    let name = PlSmallStr::from_str(alloc, "a").expect(rt, "a name");
    ChunkedArray::from_slice(alloc, name, words).expect(rt, "a column")
}

/// The answer has this word in its one row.
fn has(rt: &impl Abort, answer: PolarsResult<Int32Chunked>, word: i32) {
    has_words(rt, &answer.expect(rt, "an answer"), &[Some(word)]);
}

/// The answer has these words.
fn gives(rt: &impl Abort, answer: PolarsResult<Int32Chunked>, slots: &[Option<i32>]) {
    has_words(rt, &answer.expect(rt, "an answer"), slots);
}

#[test]
fn two_columns(rt: HostRuntime) {
    let alloc = rt.alloc();
    let left = column(&rt, alloc, [7i32].as_slice());
    let right = column(&rt, alloc, [3i32].as_slice());
    has(&rt, left.wrapping_add(alloc, &right), 10);
    has(&rt, left.wrapping_sub(alloc, &right), 4);
    has(&rt, left.wrapping_mul(alloc, &right), 21);
}

#[test]
fn quotients_of_two_columns(rt: HostRuntime) {
    let alloc = rt.alloc();
    let left = column(&rt, alloc, [7i32].as_slice());
    let right = column(&rt, alloc, [3i32].as_slice());
    has(&rt, left.wrapping_floor_div(alloc, &right), 2);
    has(&rt, left.wrapping_trunc_div(alloc, &right), 2);
    has(&rt, left.wrapping_mod(alloc, &right), 1);
    has(&rt, left.checked_div(alloc, &right), 2);
    has(&rt, left.legacy_div(alloc, &right), 2);
}

#[test]
fn one_column(rt: HostRuntime) {
    let alloc = rt.alloc();
    let column = column(&rt, alloc, [-7i32].as_slice());
    has(&rt, column.wrapping_abs(alloc), 7);
    has(&rt, column.wrapping_neg(alloc), 7);
}

#[test]
fn number_on_the_right(rt: HostRuntime) {
    let alloc = rt.alloc();
    let column = column(&rt, alloc, [7i32].as_slice());
    has(&rt, column.wrapping_add_scalar(alloc, 3), 10);
    has(&rt, column.wrapping_sub_scalar(alloc, 3), 4);
    has(&rt, column.wrapping_mul_scalar(alloc, 3), 21);
    has(&rt, column.checked_mul_scalar(alloc, 3), 21);
}

#[test]
fn divisor_on_the_right(rt: HostRuntime) {
    let alloc = rt.alloc();
    let column = column(&rt, alloc, [7i32].as_slice());
    has(&rt, column.wrapping_floor_div_scalar(alloc, 3), 2);
    has(&rt, column.wrapping_trunc_div_scalar(alloc, 3), 2);
    has(&rt, column.wrapping_mod_scalar(alloc, 3), 1);
    has(&rt, column.legacy_div_scalar(alloc, 3), 2);
}

#[test]
fn number_on_the_left(rt: HostRuntime) {
    let alloc = rt.alloc();
    let column = column(&rt, alloc, [7i32].as_slice());
    has(&rt, column.wrapping_sub_scalar_lhs(alloc, 3), -4);
    has(&rt, column.wrapping_floor_div_scalar_lhs(alloc, 3), 0);
    has(&rt, column.wrapping_trunc_div_scalar_lhs(alloc, 3), 0);
    has(&rt, column.wrapping_mod_scalar_lhs(alloc, 3), 3);
    has(&rt, column.legacy_div_scalar_lhs(alloc, 3), 0);
}

#[test]
fn wide_number_on_the_left(rt: HostRuntime) {
    let alloc = rt.alloc();
    let column = column(&rt, alloc, [7i32].as_slice());
    has(&rt, column.lhs_sub(alloc, 3), -4);
    has(&rt, column.lhs_div(alloc, 3), 0);
    has(&rt, column.lhs_rem(alloc, 3), 3);
}

#[test]
fn number_past_the_word(rt: HostRuntime) {
    let alloc = rt.alloc();
    let column = column(&rt, alloc, [7i8].as_slice());
    let answer = column.lhs_sub(alloc, 128);
    let refused = matches!(&answer, Err(PolarsError::Scalar { value: 128 }));
    holds(&rt, "no refusal", refused);
}

#[test]
fn lengths_that_do_not_fit(rt: HostRuntime) {
    let alloc = rt.alloc();
    let two = column(&rt, alloc, [1i32, 2].as_slice());
    let three = column(&rt, alloc, [1i32, 2, 3].as_slice());
    let answer = two.wrapping_add(alloc, &three);
    let refused = matches!(&answer, Err(PolarsError::Lengths { left: 2, right: 3 }));
    holds(&rt, "no refusal", refused);
}

#[test]
fn chunks_that_do_not_line_up(rt: HostRuntime) {
    let alloc = rt.alloc();
    let mut left = column(&rt, alloc, [1i32, 2].as_slice());
    let mut right = column(&rt, alloc, [10i32].as_slice());
    left.append(&column(&rt, alloc, [3i32].as_slice()))
        .expect(&rt, "memory");
    right
        .append(&column(&rt, alloc, [20i32, 30].as_slice()))
        .expect(&rt, "memory");
    let sums = left.wrapping_add(alloc, &right);
    gives(&rt, sums, &[Some(11), Some(22), Some(33)]);
}

#[test]
fn one_row_for_all(rt: HostRuntime) {
    let alloc = rt.alloc();
    let one = column(&rt, alloc, [10i32].as_slice());
    let three = column(&rt, alloc, [1i32, 2, 3].as_slice());
    let left = one.wrapping_sub(alloc, &three);
    gives(&rt, left, &[Some(9), Some(8), Some(7)]);
    let right = three.wrapping_sub(alloc, &one);
    gives(&rt, right, &[Some(-9), Some(-8), Some(-7)]);
}
