//! The formulas of the kernels, as types.

ghost use Rattle.std.specs.Prelude.{◌≡◌, ℤ, Option};
ghost use Rattle.std.specs.Option.{option_map};
ghost use Rattle.col_model.specs.Arithmetic.{word_values};
ghost use Rattle.col_model.specs.Formula.{value_of, X, Y, Sum, Difference, Product, FloorDiv};
ghost use Rattle.col_model.specs.Formula.{TruncDiv, FloorMod, Fit, Wrap};
ghost use Rattle.col_kernel.specs.Kernels.{wrapped_abs, wrapped_neg};

use crate::Word;

/// A formula in one word.
pub trait SlotFormula<T: Word> {
    /// What it gives, or null.
    ghost formula: { Self → ℤ → Option ℤ };

    /// Its value at a word.
    fn at(&self, x: T) -> Option<T>
        ensures value { option_map T.reading result ≡ formula self.now (T.reading x) };
}

/// A formula in two words.
pub trait PairFormula<T: Word> {
    /// What it gives, or null.
    ghost formula: { ℤ → ℤ → Option ℤ };

    /// Its value at two words.
    fn at(x: T, y: T) -> Option<T>
        ensures value { option_map T.reading result ≡ formula (T.reading x) (T.reading y) };
}

/// A formula in two words, the second of which is a scalar.
#[derive(Drop)]
pub struct BeforeScalar<F, T> {
    pub formula: F,
    pub scalar: T,
}

impl<T: Word, F: PairFormula<T>> SlotFormula<T> for BeforeScalar<F, T> {
    ghost formula = { λ formula x. F.formula x (T.reading formula.scalar) };

    fn at(&self, x: T) -> Option<T> {
        F::at(x, self.scalar)
    }
}

/// A formula in two words, the first of which is a scalar.
#[derive(Drop)]
pub struct AfterScalar<F, T> {
    pub scalar: T,
    pub formula: F,
}

impl<T: Word, F: PairFormula<T>> SlotFormula<T> for AfterScalar<F, T> {
    ghost formula = { λ formula. F.formula (T.reading formula.scalar) };

    fn at(&self, x: T) -> Option<T> {
        F::at(self.scalar, x)
    }
}

/// The magnitude, wrapped.
#[derive(Drop)]
pub struct WrappedMagnitude;

impl<T: Word> SlotFormula<T> for WrappedMagnitude {
    ghost formula = { λ formula. wrapped_abs T.word_type };

    fn at(&self, x: T) -> Option<T> {
        Some(T::wrap_i128(x.to_i128().wrapping_abs()))
    }
}

/// The negative, wrapped.
#[derive(Drop)]
pub struct WrappedNegative;

impl<T: Word> SlotFormula<T> for WrappedNegative {
    ghost formula = { λ formula. wrapped_neg T.word_type };

    fn at(&self, x: T) -> Option<T> {
        Some(T::wrap_i128(x.to_i128().wrapping_neg()))
    }
}

/// The sum, wrapped.
#[derive(Drop)]
pub struct WrappedSum;

impl<T: Word> PairFormula<T> for WrappedSum {
    ghost formula = { value_of (Wrap T.word_type (Sum X Y)) };

    fn at(x: T, y: T) -> Option<T> {
        Some(x.add_wrap(y))
    }
}

/// The difference, wrapped.
#[derive(Drop)]
pub struct WrappedDifference;

impl<T: Word> PairFormula<T> for WrappedDifference {
    ghost formula = { value_of (Wrap T.word_type (Difference X Y)) };

    fn at(x: T, y: T) -> Option<T> {
        Some(x.sub_wrap(y))
    }
}

/// The product, wrapped.
#[derive(Drop)]
pub struct WrappedProduct;

impl<T: Word> PairFormula<T> for WrappedProduct {
    ghost formula = { value_of (Wrap T.word_type (Product X Y)) };

    fn at(x: T, y: T) -> Option<T> {
        Some(x.mul_wrap(y))
    }
}

/// The quotient rounded down and wrapped.
#[derive(Drop)]
pub struct WrappedFloorQuotient;

impl<T: Word> PairFormula<T> for WrappedFloorQuotient {
    ghost formula = { value_of (Wrap T.word_type (FloorDiv X Y)) };

    fn at(x: T, y: T) -> Option<T> {
        x.floor_div(y)
    }
}

/// The quotient rounded towards zero and wrapped.
#[derive(Drop)]
pub struct WrappedTruncQuotient;

impl<T: Word> PairFormula<T> for WrappedTruncQuotient {
    ghost formula = { value_of (Wrap T.word_type (TruncDiv X Y)) };

    fn at(x: T, y: T) -> Option<T> {
        x.trunc_div(y)
    }
}

/// What the quotient rounded down leaves, wrapped.
#[derive(Drop)]
pub struct WrappedFloorRest;

impl<T: Word> PairFormula<T> for WrappedFloorRest {
    ghost formula = { value_of (Wrap T.word_type (FloorMod X Y)) };

    fn at(x: T, y: T) -> Option<T> {
        x.floor_mod(y)
    }
}

/// The product where the word has it.
#[derive(Drop)]
pub struct FittingProduct;

impl<T: Word> PairFormula<T> for FittingProduct {
    ghost formula = { value_of (Fit (word_values T.word_type) (Product X Y)) };

    fn at(x: T, y: T) -> Option<T> {
        x.mul_checked(y)
    }
}

/// The quotient rounded towards zero where the word has it.
#[derive(Drop)]
pub struct FittingQuotient;

impl<T: Word> PairFormula<T> for FittingQuotient {
    ghost formula = { value_of (Fit (word_values T.word_type) (TruncDiv X Y)) };

    fn at(x: T, y: T) -> Option<T> {
        x.div_checked(y)
    }
}
