//! Columns of words compute.

ghost use Rattle.std.specs.Prelude.{Ok};
ghost use Rattle.col_types.specs.PolarsError.{Gives};
ghost use Rattle.col_model.specs.Words.{word_dtype};
ghost use Rattle.col_rule.specs.Columns.{mapped_chunks};
ghost use Rattle.col_numeric.specs.Numbers.{after_number};

use crate::ArithmeticChunked;
use crate::rules::{
    FittingProduct, FittingQuotient, WrappedDifference, WrappedFloorQuotient, WrappedFloorRest,
    WrappedMagnitude, WrappedNegative, WrappedProduct, WrappedSum, WrappedTruncQuotient,
};
use col_chunk::ChunkedArray;
use col_kernel::Word;
use col_rule::{PairRule, WithLeft, WithRight, map_array, meet_arrays};
use col_types::{PolarsError, PolarsResult};
use std::alloc::Global;

impl<T: Word> ArithmeticChunked for ChunkedArray<T> {
    type Scalar = T;

    type Out = ChunkedArray<T>;

    ghost chunked = { λ a. a };

    ghost answered = { λ a. a };

    fn wrapping_abs(&self, alloc: Global) -> PolarsResult<ChunkedArray<T>> {
        map_array(alloc, &WrappedMagnitude, self)
    }

    fn wrapping_neg(&self, alloc: Global) -> PolarsResult<ChunkedArray<T>> {
        map_array(alloc, &WrappedNegative, self)
    }

    fn wrapping_add(&self, alloc: Global, rhs: &Self) -> PolarsResult<ChunkedArray<T>> {
        meet_arrays(alloc, &WrappedSum, self, rhs)
    }

    fn wrapping_sub(&self, alloc: Global, rhs: &Self) -> PolarsResult<ChunkedArray<T>> {
        meet_arrays(alloc, &WrappedDifference, self, rhs)
    }

    fn wrapping_mul(&self, alloc: Global, rhs: &Self) -> PolarsResult<ChunkedArray<T>> {
        meet_arrays(alloc, &WrappedProduct, self, rhs)
    }

    fn wrapping_floor_div(&self, alloc: Global, rhs: &Self) -> PolarsResult<ChunkedArray<T>> {
        meet_arrays(alloc, &WrappedFloorQuotient, self, rhs)
    }

    fn wrapping_trunc_div(&self, alloc: Global, rhs: &Self) -> PolarsResult<ChunkedArray<T>> {
        meet_arrays(alloc, &WrappedTruncQuotient, self, rhs)
    }

    fn wrapping_mod(&self, alloc: Global, rhs: &Self) -> PolarsResult<ChunkedArray<T>> {
        meet_arrays(alloc, &WrappedFloorRest, self, rhs)
    }

    fn checked_div(&self, alloc: Global, rhs: &Self) -> PolarsResult<ChunkedArray<T>> {
        meet_arrays(alloc, &FittingQuotient, self, rhs)
    }

    fn legacy_div(&self, alloc: Global, rhs: &Self) -> PolarsResult<ChunkedArray<T>> {
        self.wrapping_floor_div(alloc, rhs)
    }

    fn wrapping_add_scalar(&self, alloc: Global, rhs: T) -> PolarsResult<ChunkedArray<T>> {
        with_right(alloc, &WrappedSum, self, rhs)
    }

    fn wrapping_sub_scalar(&self, alloc: Global, rhs: T) -> PolarsResult<ChunkedArray<T>> {
        with_right(alloc, &WrappedDifference, self, rhs)
    }

    fn wrapping_mul_scalar(&self, alloc: Global, rhs: T) -> PolarsResult<ChunkedArray<T>> {
        with_right(alloc, &WrappedProduct, self, rhs)
    }

    fn wrapping_floor_div_scalar(&self, alloc: Global, rhs: T) -> PolarsResult<ChunkedArray<T>> {
        with_right(alloc, &WrappedFloorQuotient, self, rhs)
    }

    fn wrapping_trunc_div_scalar(&self, alloc: Global, rhs: T) -> PolarsResult<ChunkedArray<T>> {
        with_right(alloc, &WrappedTruncQuotient, self, rhs)
    }

    fn wrapping_mod_scalar(&self, alloc: Global, rhs: T) -> PolarsResult<ChunkedArray<T>> {
        with_right(alloc, &WrappedFloorRest, self, rhs)
    }

    fn checked_mul_scalar(&self, alloc: Global, rhs: T) -> PolarsResult<ChunkedArray<T>> {
        with_right(alloc, &FittingProduct, self, rhs)
    }

    fn legacy_div_scalar(&self, alloc: Global, rhs: T) -> PolarsResult<ChunkedArray<T>> {
        self.wrapping_floor_div_scalar(alloc, rhs)
    }

    fn wrapping_sub_scalar_lhs(&self, alloc: Global, lhs: T) -> PolarsResult<ChunkedArray<T>> {
        with_left(alloc, &WrappedDifference, lhs, self)
    }

    fn wrapping_floor_div_scalar_lhs(
        &self,
        alloc: Global,
        lhs: T,
    ) -> PolarsResult<ChunkedArray<T>> {
        with_left(alloc, &WrappedFloorQuotient, lhs, self)
    }

    fn wrapping_trunc_div_scalar_lhs(
        &self,
        alloc: Global,
        lhs: T,
    ) -> PolarsResult<ChunkedArray<T>> {
        with_left(alloc, &WrappedTruncQuotient, lhs, self)
    }

    fn wrapping_mod_scalar_lhs(&self, alloc: Global, lhs: T) -> PolarsResult<ChunkedArray<T>> {
        with_left(alloc, &WrappedFloorRest, lhs, self)
    }

    fn legacy_div_scalar_lhs(&self, alloc: Global, lhs: T) -> PolarsResult<ChunkedArray<T>> {
        self.wrapping_floor_div_scalar_lhs(alloc, lhs)
    }

    fn lhs_sub(&self, alloc: Global, lhs: i128) -> PolarsResult<ChunkedArray<T>> {
        after_number(alloc, &WrappedDifference, lhs, self)
    }

    fn lhs_div(&self, alloc: Global, lhs: i128) -> PolarsResult<ChunkedArray<T>> {
        after_number(alloc, &WrappedFloorQuotient, lhs, self)
    }

    fn lhs_rem(&self, alloc: Global, lhs: i128) -> PolarsResult<ChunkedArray<T>> {
        after_number(alloc, &WrappedFloorRest, lhs, self)
    }
}

/// The rule at each slot, with the word behind it.
fn with_right<T: Word, R: PairRule<T, T, T>>(
    alloc: Global,
    rule: &R,
    array: &ChunkedArray<T>,
    right: T,
) -> PolarsResult<ChunkedArray<T>>
    ensures column { Gives result (Ok (mapped_chunks
        (λ x. R.value rule.now x (T.reading right)) (word_dtype T.word_type) array.now)) }
{
    map_array(alloc, &WithRight { rule, right }, array)
}

/// The rule at each slot, with the word before it.
fn with_left<T: Word, R: PairRule<T, T, T>>(
    alloc: Global,
    rule: &R,
    left: T,
    array: &ChunkedArray<T>,
) -> PolarsResult<ChunkedArray<T>>
    ensures column { Gives result (Ok (mapped_chunks
        (R.value rule.now (T.reading left)) (word_dtype T.word_type) array.now)) }
{
    map_array(alloc, &WithLeft { rule, left }, array)
}

/// The rule at each slot, with the number before it. Refused where it isn't in the word (`Scalar`).
#[tactic(auto, using(crate::proofs::NumberLaws::number_laws))]
fn after_number<T: Word, R: PairRule<T, T, T>>(
    alloc: Global,
    rule: &R,
    number: i128,
    array: &ChunkedArray<T>,
) -> PolarsResult<ChunkedArray<T>>
    ensures column { Gives result (after_number T.word_type (R.value rule.now) number array.now) }
{
    match T::from_i128(number) {
        Some(left) => with_left(alloc, rule, left, array),
        None => Err(PolarsError::Scalar { value: number }),
    }
}
