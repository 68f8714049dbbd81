//! Cases by hand: that each call on truth values succeeds, and what it gives. The clauses say the
//! rest.
use crate::same::{has_words, holds};
use col_boolean::{BooleanArithmetic, BooleanChunked, NewBoolean};
use col_chunk::IdxCa;
use col_types::{PlSmallStr, PolarsError, PolarsResult};
use std::alloc::Global;
use std::process::Abort;

/// A column of these values.
fn column(rt: &impl Abort, alloc: Global, values: &[bool]) -> BooleanChunked {
    let name = PlSmallStr::from_str(alloc, "a").expect(rt, "a name");
    BooleanChunked::from_slice(alloc, name, values).expect(rt, "a column")
}

/// A column of these optional values.
fn optional(rt: &impl Abort, alloc: Global, values: &[Option<bool>]) -> BooleanChunked {
    let name = PlSmallStr::from_str(alloc, "a").expect(rt, "a name");
    BooleanChunked::from_iter_options(alloc, name, values.iter().copied()).expect(rt, "a column")
}

/// A column of so many values of which each third one is true.
fn thirds(rt: &impl Abort, alloc: Global, rows: usize) -> BooleanChunked {
    let mut values = Vec::new(alloc);
    for row in 0..rows {
        values.push(row % 3 == 0).expect(rt, "memory");
    }
    let name = PlSmallStr::from_str(alloc, "a").expect(rt, "a name");
    BooleanChunked::from_vec(alloc, name, values).expect(rt, "a column")
}

/// The column has these slots.
fn has(rt: &impl Abort, column: &BooleanChunked, slots: &[Option<bool>]) {
    let mut alike = column.len() == slots.len();
    for (row, slot) in slots.iter().enumerate() {
        alike = alike && row < column.len() && column.get(row) == *slot;
    }
    holds(rt, "other slots", alike);
}

/// The sums are these.
fn sums(rt: &impl Abort, answer: PolarsResult<IdxCa>, slots: &[Option<u32>]) {
    has_words(rt, &answer.expect(rt, "a sum"), slots);
}

#[test]
fn true_counts_one(rt: HostRuntime) {
    let alloc = rt.alloc();
    let left = column(&rt, alloc, &[true, true, false]);
    let right = column(&rt, alloc, &[false, true, false]);
    let wanted = [Some(1), Some(2), Some(0)];
    sums(&rt, left.try_add(alloc, &right), &wanted);
}

#[test]
fn nulls_have_no_sum(rt: HostRuntime) {
    let alloc = rt.alloc();
    let left = optional(&rt, alloc, &[Some(true), None, Some(true)]);
    let right = optional(&rt, alloc, &[Some(true), Some(true), None]);
    sums(&rt, left.try_add(alloc, &right), &[Some(2), None, None]);
}

#[test]
fn one_row_for_all(rt: HostRuntime) {
    let alloc = rt.alloc();
    let one = column(&rt, alloc, &[true]);
    let two = column(&rt, alloc, &[false, true]);
    sums(&rt, one.try_add(alloc, &two), &[Some(1), Some(2)]);
    sums(&rt, two.try_add(alloc, &one), &[Some(1), Some(2)]);
    let three = column(&rt, alloc, &[true, false, true]);
    let answer = two.try_add(alloc, &three);
    let refused = matches!(&answer, Err(PolarsError::Lengths { left: 2, right: 3 }));
    holds(&rt, "lengths", refused);
}

/// From an offset on the rows are those of the whole column.
fn is_cut_at(rt: &impl Abort, alloc: Global, offset: u32) {
    let column = thirds(rt, alloc, 200);
    let part = column
        .slice(alloc, i64::from(offset), 100)
        .expect(rt, "a part");
    let mut alike = part.len() == 100 && part.null_count() == 0;
    for row in 0..part.len() {
        let third = (offset as usize).wrapping_add(row) % 3 == 0;
        alike = alike && part.get(row) == Some(third);
    }
    holds(rt, "other rows", alike);
}

#[test]
fn parts_at_each_bit_of_a_word(rt: HostRuntime) {
    for offset in [1, 63, 64] {
        is_cut_at(&rt, rt.alloc(), offset);
    }
}

#[test]
fn rows_of_two_chunks_in_one(rt: HostRuntime) {
    let alloc = rt.alloc();
    let mut rows = thirds(&rt, alloc, 65);
    let tail = rows.slice(alloc, 63, 2).expect(&rt, "a part");
    rows.append(&tail).expect(&rt, "memory");
    let whole = rows.rechunk(alloc).expect(&rt, "one chunk");
    holds(&rt, "chunks", rows.n_chunks() == 2 && whole.n_chunks() == 1);
    let end = whole.slice(alloc, 62, 5).expect(&rt, "a part");
    let wanted = [
        Some(false),
        Some(true),
        Some(false),
        Some(true),
        Some(false),
    ];
    has(&rt, &end, &wanted);
}

#[test]
fn a_write_leaves_the_clone(rt: HostRuntime) {
    let alloc = rt.alloc();
    let column = optional(&rt, alloc, &[None, Some(true)]);
    let mut copy = column.try_clone(alloc).expect(&rt, "a clone");
    assert!(rt; copy.len() == 2);
    copy.set_slot(0, Some(false)).expect(&rt, "memory");
    has(&rt, &copy, &[Some(false), Some(true)]);
    copy.set_slot(1, None).expect(&rt, "memory");
    has(&rt, &copy, &[Some(false), None]);
    has(&rt, &column, &[None, Some(true)]);
}
