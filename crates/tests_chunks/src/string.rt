//! Cases by hand: that each call on texts and on bytes succeeds, and what it gives. The clauses say
//! the rest.
use crate::same::holds;
use col_string::{
    BinaryArithmetic, BinaryChunked, BinaryConversion, NewBinary, NewString, StringArithmetic,
    StringChunked, StringConversion, StringItems,
};
use col_types::{PlSmallStr, PolarsError, PolarsResult};
use std::alloc::Global;
use std::process::Abort;

/// A column of these texts.
fn column(rt: &impl Abort, alloc: Global, values: &[&str]) -> StringChunked {
    let name = PlSmallStr::from_str(alloc, "a").expect(rt, "a name");
    StringChunked::from_slice(alloc, name, values).expect(rt, "a column")
}

/// A column of these optional texts.
fn optional(rt: &impl Abort, alloc: Global, values: &[Option<&str>]) -> StringChunked {
    let name = PlSmallStr::from_str(alloc, "a").expect(rt, "a name");
    StringChunked::from_iter_options(alloc, name, values.iter().copied()).expect(rt, "a column")
}

/// The answer has these texts and nulls.
fn gives(rt: &impl Abort, answer: PolarsResult<StringChunked>, texts: &[Option<&str>]) {
    let column = answer.expect(rt, "texts");
    let mut alike = column.len() == texts.len();
    for (row, text) in texts.iter().enumerate() {
        alike = alike && row < column.len() && column.get(row) == *text;
    }
    holds(rt, "other texts", alike);
}

/// The column has these bytes.
fn has_bytes(rt: &impl Abort, column: &BinaryChunked, rows: &[&[u8]]) {
    let mut alike = column.len() == rows.len();
    for (row, bytes) in rows.iter().enumerate() {
        alike = alike && row < column.len() && column.get(row) == Some(*bytes);
    }
    holds(rt, "other bytes", alike);
}

#[test]
fn texts_are_joined(rt: HostRuntime) {
    let alloc = rt.alloc();
    let left = optional(&rt, alloc, &[Some("é"), None]);
    let right = column(&rt, alloc, &["b"]);
    gives(&rt, left.try_add(alloc, &right), &[Some("éb"), None]);
    gives(&rt, right.try_add(alloc, &left), &[Some("bé"), None]);
    gives(&rt, left.try_add(alloc, &left), &[Some("éé"), None]);
    gives(&rt, left.try_add_str(alloc, ""), &[Some("é"), None]);
    gives(&rt, left.try_add_str(alloc, "bc"), &[Some("ébc"), None]);
    let three = column(&rt, alloc, &["a", "b", "c"]);
    let answer = left.try_add(alloc, &three);
    let refused = matches!(&answer, Err(PolarsError::Lengths { left: 2, right: 3 }));
    holds(&rt, "lengths", refused);
}

#[test]
fn texts_as_bytes_and_back(rt: HostRuntime) {
    let alloc = rt.alloc();
    let texts = column(&rt, alloc, &["a", "é"]);
    let bytes = texts.as_binary(alloc).expect(&rt, "bytes");
    has_bytes(&rt, &bytes, &["a".as_bytes(), "é".as_bytes()]);
    texts.known();
    let back = bytes.to_string_unchecked(alloc);
    gives(&rt, back, &[Some("a"), Some("é")]);
}

#[test]
fn bytes_are_joined(rt: HostRuntime) {
    let alloc = rt.alloc();
    let name = PlSmallStr::from_str(alloc, "a").expect(&rt, "a name");
    let values: [&[u8]; 2] = [&[255], &[]];
    let bytes = BinaryChunked::from_slice(alloc, name, &values).expect(&rt, "bytes");
    let longer = bytes.try_add_bytes(alloc, &[1, 2]).expect(&rt, "bytes");
    has_bytes(&rt, &longer, &[&[255, 1, 2], &[1, 2]]);
    let both = bytes.try_add(alloc, &bytes).expect(&rt, "bytes");
    has_bytes(&rt, &both, &[&[255, 255], &[]]);
}

#[test]
fn parts_of_two_chunks(rt: HostRuntime) {
    let alloc = rt.alloc();
    let mut rows = optional(&rt, alloc, &[Some("a"), None]);
    let tail = column(&rt, alloc, &["bc", "d"]);
    rows.append(&tail).expect(&rt, "memory");
    holds(
        &rt,
        "chunks",
        rows.n_chunks() == 2 && rows.null_count() == 1,
    );
    gives(&rt, rows.slice(alloc, 1, 2), &[None, Some("bc")]);
    let turned = [Some("d"), Some("bc"), None, Some("a")];
    gives(&rt, rows.reverse(alloc), &turned);
}

#[test]
fn nulls_alone(rt: HostRuntime) {
    let alloc = rt.alloc();
    let name = PlSmallStr::from_str(alloc, "a").expect(&rt, "a name");
    gives(&rt, StringChunked::full_null(alloc, name, 2), &[None, None]);
}
