//! What columns of words are asked for.

ghost use Rattle.std.specs.Prelude.{Ok};
ghost use Rattle.col_types.specs.PolarsError.{GivesBy};
ghost use Rattle.col_model.specs.Arithmetic.{word_values};
ghost use Rattle.col_model.specs.Formula.{value_of, X, Y, Sum, Difference, Product, FloorDiv};
ghost use Rattle.col_model.specs.Formula.{TruncDiv, FloorMod, Fit, Wrap};
ghost use Rattle.col_model.specs.Words.{word_dtype};
ghost use Rattle.col_model.specs.Chunked.{Chunked};
ghost use Rattle.col_kernel.specs.Kernels.{wrapped_abs, wrapped_neg};
ghost use Rattle.col_rule.specs.Columns.{mapped_chunks, paired_column};
ghost use Rattle.col_numeric.specs.Numbers.{after_number};

use col_kernel::Word;
use col_types::PolarsResult;
use std::alloc::Global;

/// Arithmetic of a column of words. A null gives null. Each call answers a column of the same words
/// that makes no claim on order, and is refused where memory is wanting (`NoMemory`).
///
/// The answer of a call with one column has its name and its chunks. That of a call with two has
/// the name of the first; one row stands for all.
pub trait ArithmeticChunked {
    /// The word of a slot.
    type Scalar: Word;

    /// What is answered.
    type Out;

    /// The column, and how long its chunks are.
    ghost chunked: { Self → Chunked };

    /// The same of an answer.
    ghost answered: { Self.Out → Chunked };

    /// The magnitude of each slot, wrapped: the least value of a signed word gives itself.
    fn wrapping_abs(&self, alloc: Global) -> PolarsResult<Self::Out>
        ensures column { GivesBy answered result (Ok (mapped_chunks (wrapped_abs Self.Scalar.word_type)
            (word_dtype Self.Scalar.word_type) (chunked self.now))) };

    /// The negative of each slot, wrapped.
    fn wrapping_neg(&self, alloc: Global) -> PolarsResult<Self::Out>
        ensures column { GivesBy answered result (Ok (mapped_chunks (wrapped_neg Self.Scalar.word_type)
            (word_dtype Self.Scalar.word_type) (chunked self.now))) };

    /// The sum of each row of two columns, wrapped. Refused where the lengths don't fit each other
    /// (`Lengths`).
    fn wrapping_add(&self, alloc: Global, rhs: &Self) -> PolarsResult<Self::Out>
        ensures column { GivesBy (λ a. (answered a).column) result (paired_column
            (value_of (Wrap Self.Scalar.word_type (Sum X Y))) (word_dtype Self.Scalar.word_type)
            (chunked self.now).column (chunked rhs.now).column) };

    /// The difference of each row of two columns, wrapped. Refused where the lengths don't fit each
    /// other (`Lengths`).
    fn wrapping_sub(&self, alloc: Global, rhs: &Self) -> PolarsResult<Self::Out>
        ensures column { GivesBy (λ a. (answered a).column) result (paired_column
            (value_of (Wrap Self.Scalar.word_type (Difference X Y))) (word_dtype Self.Scalar.word_type)
            (chunked self.now).column (chunked rhs.now).column) };

    /// The product of each row of two columns, wrapped. Refused where the lengths don't fit each
    /// other (`Lengths`).
    fn wrapping_mul(&self, alloc: Global, rhs: &Self) -> PolarsResult<Self::Out>
        ensures column { GivesBy (λ a. (answered a).column) result (paired_column
            (value_of (Wrap Self.Scalar.word_type (Product X Y))) (word_dtype Self.Scalar.word_type)
            (chunked self.now).column (chunked rhs.now).column) };

    /// The quotient of each row of two columns, rounded down and wrapped; null by 0. Refused where
    /// the lengths don't fit each other (`Lengths`).
    fn wrapping_floor_div(&self, alloc: Global, rhs: &Self) -> PolarsResult<Self::Out>
        ensures column { GivesBy (λ a. (answered a).column) result (paired_column
            (value_of (Wrap Self.Scalar.word_type (FloorDiv X Y))) (word_dtype Self.Scalar.word_type)
            (chunked self.now).column (chunked rhs.now).column) };

    /// The quotient of each row of two columns, rounded towards zero and wrapped; null by 0.
    /// Refused where the lengths don't fit each other (`Lengths`).
    fn wrapping_trunc_div(&self, alloc: Global, rhs: &Self) -> PolarsResult<Self::Out>
        ensures column { GivesBy (λ a. (answered a).column) result (paired_column
            (value_of (Wrap Self.Scalar.word_type (TruncDiv X Y))) (word_dtype Self.Scalar.word_type)
            (chunked self.now).column (chunked rhs.now).column) };

    /// What the quotient of each row rounded down leaves, with the sign of the divisor; null by 0.
    /// Refused where the lengths don't fit each other (`Lengths`).
    fn wrapping_mod(&self, alloc: Global, rhs: &Self) -> PolarsResult<Self::Out>
        ensures column { GivesBy (λ a. (answered a).column) result (paired_column
            (value_of (Wrap Self.Scalar.word_type (FloorMod X Y))) (word_dtype Self.Scalar.word_type)
            (chunked self.now).column (chunked rhs.now).column) };

    /// The quotient of each row of two columns, rounded towards zero; null by 0 and where it leaves
    /// the word. Refused where the lengths don't fit each other (`Lengths`).
    fn checked_div(&self, alloc: Global, rhs: &Self) -> PolarsResult<Self::Out>
        ensures column { GivesBy (λ a. (answered a).column) result (paired_column
            (value_of (Fit (word_values Self.Scalar.word_type) (TruncDiv X Y))) (word_dtype Self.Scalar.word_type)
            (chunked self.now).column (chunked rhs.now).column) };

    /// The same as `wrapping_floor_div`. Refused where the lengths don't fit each other
    /// (`Lengths`).
    fn legacy_div(&self, alloc: Global, rhs: &Self) -> PolarsResult<Self::Out>
        ensures column { GivesBy (λ a. (answered a).column) result (paired_column
            (value_of (Wrap Self.Scalar.word_type (FloorDiv X Y))) (word_dtype Self.Scalar.word_type)
            (chunked self.now).column (chunked rhs.now).column) };

    /// The sum of each slot and the number, wrapped.
    fn wrapping_add_scalar(&self, alloc: Global, rhs: Self::Scalar) -> PolarsResult<Self::Out>
        ensures column { GivesBy answered result (Ok (mapped_chunks
            (λ x. value_of (Wrap Self.Scalar.word_type (Sum X Y)) x (Self.Scalar.reading rhs))
            (word_dtype Self.Scalar.word_type) (chunked self.now))) };

    /// The difference of each slot and the number, wrapped.
    fn wrapping_sub_scalar(&self, alloc: Global, rhs: Self::Scalar) -> PolarsResult<Self::Out>
        ensures column { GivesBy answered result (Ok (mapped_chunks
            (λ x. value_of (Wrap Self.Scalar.word_type (Difference X Y)) x (Self.Scalar.reading rhs))
            (word_dtype Self.Scalar.word_type) (chunked self.now))) };

    /// The product of each slot and the number, wrapped.
    fn wrapping_mul_scalar(&self, alloc: Global, rhs: Self::Scalar) -> PolarsResult<Self::Out>
        ensures column { GivesBy answered result (Ok (mapped_chunks
            (λ x. value_of (Wrap Self.Scalar.word_type (Product X Y)) x (Self.Scalar.reading rhs))
            (word_dtype Self.Scalar.word_type) (chunked self.now))) };

    /// The quotient of each slot and the number, rounded down and wrapped; null by 0.
    fn wrapping_floor_div_scalar(&self, alloc: Global, rhs: Self::Scalar) -> PolarsResult<Self::Out>
        ensures column { GivesBy answered result (Ok (mapped_chunks
            (λ x. value_of (Wrap Self.Scalar.word_type (FloorDiv X Y)) x (Self.Scalar.reading rhs))
            (word_dtype Self.Scalar.word_type) (chunked self.now))) };

    /// The quotient of each slot and the number, rounded towards zero and wrapped; null by 0.
    fn wrapping_trunc_div_scalar(&self, alloc: Global, rhs: Self::Scalar) -> PolarsResult<Self::Out>
        ensures column { GivesBy answered result (Ok (mapped_chunks
            (λ x. value_of (Wrap Self.Scalar.word_type (TruncDiv X Y)) x (Self.Scalar.reading rhs))
            (word_dtype Self.Scalar.word_type) (chunked self.now))) };

    /// What the quotient of each slot and the number rounded down leaves; null by 0.
    fn wrapping_mod_scalar(&self, alloc: Global, rhs: Self::Scalar) -> PolarsResult<Self::Out>
        ensures column { GivesBy answered result (Ok (mapped_chunks
            (λ x. value_of (Wrap Self.Scalar.word_type (FloorMod X Y)) x (Self.Scalar.reading rhs))
            (word_dtype Self.Scalar.word_type) (chunked self.now))) };

    /// The product of each slot and the number, null where it leaves the word.
    fn checked_mul_scalar(&self, alloc: Global, rhs: Self::Scalar) -> PolarsResult<Self::Out>
        ensures column { GivesBy answered result (Ok (mapped_chunks
            (λ x. value_of (Fit (word_values Self.Scalar.word_type) (Product X Y)) x (Self.Scalar.reading rhs))
            (word_dtype Self.Scalar.word_type) (chunked self.now))) };

    /// The same as `wrapping_floor_div_scalar`.
    fn legacy_div_scalar(&self, alloc: Global, rhs: Self::Scalar) -> PolarsResult<Self::Out>
        ensures column { GivesBy answered result (Ok (mapped_chunks
            (λ x. value_of (Wrap Self.Scalar.word_type (FloorDiv X Y)) x (Self.Scalar.reading rhs))
            (word_dtype Self.Scalar.word_type) (chunked self.now))) };

    /// The difference of the number and each slot, wrapped.
    fn wrapping_sub_scalar_lhs(&self, alloc: Global, lhs: Self::Scalar) -> PolarsResult<Self::Out>
        ensures column { GivesBy answered result (Ok (mapped_chunks
            (value_of (Wrap Self.Scalar.word_type (Difference X Y)) (Self.Scalar.reading lhs))
            (word_dtype Self.Scalar.word_type) (chunked self.now))) };

    /// The quotient of the number and each slot, rounded down and wrapped; null by 0.
    fn wrapping_floor_div_scalar_lhs(
        &self,
        alloc: Global,
        lhs: Self::Scalar,
    ) -> PolarsResult<Self::Out>
        ensures column { GivesBy answered result (Ok (mapped_chunks
            (value_of (Wrap Self.Scalar.word_type (FloorDiv X Y)) (Self.Scalar.reading lhs))
            (word_dtype Self.Scalar.word_type) (chunked self.now))) };

    /// The quotient of the number and each slot, rounded towards zero and wrapped; null by 0.
    fn wrapping_trunc_div_scalar_lhs(
        &self,
        alloc: Global,
        lhs: Self::Scalar,
    ) -> PolarsResult<Self::Out>
        ensures column { GivesBy answered result (Ok (mapped_chunks
            (value_of (Wrap Self.Scalar.word_type (TruncDiv X Y)) (Self.Scalar.reading lhs))
            (word_dtype Self.Scalar.word_type) (chunked self.now))) };

    /// What the quotient of the number and each slot rounded down leaves; null by 0.
    fn wrapping_mod_scalar_lhs(&self, alloc: Global, lhs: Self::Scalar) -> PolarsResult<Self::Out>
        ensures column { GivesBy answered result (Ok (mapped_chunks
            (value_of (Wrap Self.Scalar.word_type (FloorMod X Y)) (Self.Scalar.reading lhs))
            (word_dtype Self.Scalar.word_type) (chunked self.now))) };

    /// The same as `wrapping_floor_div_scalar_lhs`.
    fn legacy_div_scalar_lhs(&self, alloc: Global, lhs: Self::Scalar) -> PolarsResult<Self::Out>
        ensures column { GivesBy answered result (Ok (mapped_chunks
            (value_of (Wrap Self.Scalar.word_type (FloorDiv X Y)) (Self.Scalar.reading lhs))
            (word_dtype Self.Scalar.word_type) (chunked self.now))) };

    /// The same as `wrapping_sub_scalar_lhs`. Refused where the number isn't in the word
    /// (`Scalar`).
    fn lhs_sub(&self, alloc: Global, lhs: i128) -> PolarsResult<Self::Out>
        ensures column { GivesBy answered result (after_number Self.Scalar.word_type
            (value_of (Wrap Self.Scalar.word_type (Difference X Y))) lhs (chunked self.now)) };

    /// The same as `wrapping_floor_div_scalar_lhs`. Refused where the number isn't in the word
    /// (`Scalar`).
    fn lhs_div(&self, alloc: Global, lhs: i128) -> PolarsResult<Self::Out>
        ensures column { GivesBy answered result (after_number Self.Scalar.word_type
            (value_of (Wrap Self.Scalar.word_type (FloorDiv X Y))) lhs (chunked self.now)) };

    /// The same as `wrapping_mod_scalar_lhs`. Refused where the number isn't in the word
    /// (`Scalar`).
    fn lhs_rem(&self, alloc: Global, lhs: i128) -> PolarsResult<Self::Out>
        ensures column { GivesBy answered result (after_number Self.Scalar.word_type
            (value_of (Wrap Self.Scalar.word_type (FloorMod X Y))) lhs (chunked self.now)) };
}
