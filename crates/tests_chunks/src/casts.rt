//! Casts of words by hand: what fits, what wraps, what is lost. The clauses say the rest.
use crate::same::{has_words, holds};
use col_cast::{apply_rule, cast_rule, cast_words};
use col_chunk::{Int8Chunked, Int64Chunked, UInt8Chunked};
use col_types::{CastOptions, DataType, PlSmallStr, PolarsError, PolarsResult, TimeUnit};
use std::alloc::Global;
use std::process::Abort;

/// A column of these words and a null.
fn ticks(rt: &impl Abort, alloc: Global, words: [i64; 4]) -> Int64Chunked {
    let name = PlSmallStr::from_str(alloc, "a").expect(rt, "a name");
    let [first, second, third, fourth] = words;
    let slots = [Some(first), Some(second), Some(third), Some(fourth), None];
    Int64Chunked::from_iter_options(alloc, name, slots.iter().copied()).expect(rt, "a column")
}

/// 64-bit integers as those of 8 bits.
fn narrowed(
    alloc: Global,
    words: &Int64Chunked,
    options: CastOptions,
) -> PolarsResult<Int8Chunked> {
    words.known();
    match cast_rule(&DataType::Int64, &DataType::Int8, options) {
        Some(rule) => apply_rule::<i64, i8>(alloc, &rule, words),
        None => Err(PolarsError::SchemaMismatch),
    }
}

#[test]
fn integers_that_leave_8_bits(rt: HostRuntime) {
    let alloc = rt.alloc();
    let words = ticks(&rt, alloc, [127, 128, 300, -129]);
    let fitted = narrowed(alloc, &words, CastOptions::NonStrict).expect(&rt, "a column");
    has_words(&rt, &fitted, &[Some(127), None, None, None, None]);
    let wrapped = narrowed(alloc, &words, CastOptions::Overflowing).expect(&rt, "a column");
    has_words(
        &rt,
        &wrapped,
        &[Some(127), Some(-128), Some(44), Some(127), None],
    );
}

/// Whether 64-bit integers are 0, and the first that isn't kept.
fn truths(alloc: Global, words: &Int64Chunked) -> PolarsResult<(UInt8Chunked, Option<usize>)> {
    words.known();
    match cast_rule(&DataType::Int64, &DataType::Boolean, CastOptions::Strict) {
        Some(rule) => match cast_words::<i64, u8>(alloc, &rule, words) {
            Ok(changed) => Ok((changed.array, changed.lost)),
            Err(refusal) => Err(refusal),
        },
        None => Err(PolarsError::SchemaMismatch),
    }
}

#[test]
fn integers_are_true_but_for_zero(rt: HostRuntime) {
    let alloc = rt.alloc();
    let words = ticks(&rt, alloc, [0, 1, 2, -1]);
    let (answer, lost) = truths(alloc, &words).expect(&rt, "a column");
    has_words(&rt, &answer, &[Some(0), Some(1), Some(1), Some(1), None]);
    holds(&rt, "none is lost", lost.is_none());
}

#[test]
fn a_rule_tells_its_types(rt: HostRuntime) {
    let moments = DataType::Datetime(TimeUnit::Milliseconds, None);
    let rule = cast_rule(&moments, &DataType::Time, CastOptions::Overflowing).expect(&rt, "a rule");
    let (from, to) = (rule.from_type(), rule.to_type());
    holds(
        &rt,
        "types",
        from.is_same(&moments) && to.is_same(&DataType::Time),
    );
    let changes = !rule.is_monotone() && !rule.keeps_words();
    holds(&rt, "words", rule.wrapped() && changes);
    let none = cast_rule(&DataType::Time, &moments, CastOptions::Strict);
    holds(&rt, "no rule", none.is_none());
}
