//! The formulas of the kernels, as rules.

ghost use Rattle.col_model.specs.Arithmetic.{word_values};
ghost use Rattle.col_model.specs.Formula.{value_of, X, Y, Sum, Difference, Product, FloorDiv};
ghost use Rattle.col_model.specs.Formula.{TruncDiv, FloorMod, Fit, Wrap};
ghost use Rattle.col_kernel.specs.Kernels.{wrapped_abs, wrapped_neg};

use col_kernel::Word;
use col_rule::{Outcome, PairRule, SlotRule, in_parts};

/// The magnitude, wrapped.
pub(crate) struct WrappedMagnitude;

impl<T: Word> SlotRule<T, T> for WrappedMagnitude {
    ghost value = { λ r. wrapped_abs T.word_type };

    ghost kept = { λ r. wrapped_abs T.word_type };

    fn at(&self, x: T) -> Outcome<T> {
        Outcome {
            word: T::wrap_i128(x.to_i128().wrapping_abs()),
            valid: true,
            kept: true,
        }
    }
}

/// The negative, wrapped.
pub(crate) struct WrappedNegative;

impl<T: Word> SlotRule<T, T> for WrappedNegative {
    ghost value = { λ r. wrapped_neg T.word_type };

    ghost kept = { λ r. wrapped_neg T.word_type };

    fn at(&self, x: T) -> Outcome<T> {
        Outcome {
            word: T::wrap_i128(x.to_i128().wrapping_neg()),
            valid: true,
            kept: true,
        }
    }
}

/// The sum, wrapped.
pub(crate) struct WrappedSum;

impl<T: Word> PairRule<T, T, T> for WrappedSum {
    ghost value = { λ r. value_of (Wrap T.word_type (Sum X Y)) };

    fn at(&self, x: T, y: T) -> (T, bool) {
        (x.add_wrap(y), true)
    }
}

/// The difference, wrapped.
pub(crate) struct WrappedDifference;

impl<T: Word> PairRule<T, T, T> for WrappedDifference {
    ghost value = { λ r. value_of (Wrap T.word_type (Difference X Y)) };

    fn at(&self, x: T, y: T) -> (T, bool) {
        (x.sub_wrap(y), true)
    }
}

/// The product, wrapped.
pub(crate) struct WrappedProduct;

impl<T: Word> PairRule<T, T, T> for WrappedProduct {
    ghost value = { λ r. value_of (Wrap T.word_type (Product X Y)) };

    fn at(&self, x: T, y: T) -> (T, bool) {
        (x.mul_wrap(y), true)
    }
}

/// The quotient rounded down and wrapped.
pub(crate) struct WrappedFloorQuotient;

impl<T: Word> PairRule<T, T, T> for WrappedFloorQuotient {
    ghost value = { λ r. value_of (Wrap T.word_type (FloorDiv X Y)) };

    fn at(&self, x: T, y: T) -> (T, bool) {
        in_parts(x.floor_div(y))
    }
}

/// The quotient rounded towards zero and wrapped.
pub(crate) struct WrappedTruncQuotient;

impl<T: Word> PairRule<T, T, T> for WrappedTruncQuotient {
    ghost value = { λ r. value_of (Wrap T.word_type (TruncDiv X Y)) };

    fn at(&self, x: T, y: T) -> (T, bool) {
        in_parts(x.trunc_div(y))
    }
}

/// What the quotient rounded down leaves.
pub(crate) struct WrappedFloorRest;

impl<T: Word> PairRule<T, T, T> for WrappedFloorRest {
    ghost value = { λ r. value_of (Wrap T.word_type (FloorMod X Y)) };

    fn at(&self, x: T, y: T) -> (T, bool) {
        in_parts(x.floor_mod(y))
    }
}

/// The product where the word has it.
pub(crate) struct FittingProduct;

impl<T: Word> PairRule<T, T, T> for FittingProduct {
    ghost value = { λ r. value_of (Fit (word_values T.word_type) (Product X Y)) };

    fn at(&self, x: T, y: T) -> (T, bool) {
        in_parts(x.mul_checked(y))
    }
}

/// The quotient rounded towards zero where the word has it.
pub(crate) struct FittingQuotient;

impl<T: Word> PairRule<T, T, T> for FittingQuotient {
    ghost value = { λ r. value_of (Fit (word_values T.word_type) (TruncDiv X Y)) };

    fn at(&self, x: T, y: T) -> (T, bool) {
        in_parts(x.div_checked(y))
    }
}
