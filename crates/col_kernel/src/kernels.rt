//! The kernels, over slices of optional words: a null slot gives null.

ghost use Rattle.std.specs.Prelude.{◌≡◌, IfOk, length};
ghost use Rattle.col_model.specs.Arithmetic.{word_values};
ghost use Rattle.col_model.specs.Formula.{value_of, X, Y, Sum, Difference, Product, FloorDiv};
ghost use Rattle.col_model.specs.Formula.{TruncDiv, FloorMod, Fit, Wrap};
ghost use Rattle.col_kernel.specs.Kernels.{wrapped_abs, wrapped_neg};
ghost use Rattle.col_kernel.specs.Slots.{map_slots, scalar_slots, slots_of, slots_scalar};
ghost use Rattle.col_kernel.specs.Slots.{zip_slots};

use crate::Word;
use crate::formulas::{
    AfterScalar, BeforeScalar, FittingProduct, FittingQuotient, WrappedDifference,
    WrappedFloorQuotient, WrappedFloorRest, WrappedMagnitude, WrappedNegative, WrappedProduct,
    WrappedSum, WrappedTruncQuotient,
};
use crate::loops::{at_each_place, at_each_slot};
use std::alloc::{AllocError, Global};

/// The magnitude of each slot, wrapped: the least value of a signed word gives itself.
pub fn wrapping_abs<T: Word>(
    alloc: Global,
    values: &[Option<T>],
) -> Result<Vec<Option<T>>, AllocError>
    ensures value { IfOk result (λ answer. slots_of T.reading answer.items
        ≡ map_slots (wrapped_abs T.word_type) (slots_of T.reading values.now)) }
{
    at_each_slot(alloc, values, &WrappedMagnitude)
}

/// The negative of each slot, wrapped.
pub fn wrapping_neg<T: Word>(
    alloc: Global,
    values: &[Option<T>],
) -> Result<Vec<Option<T>>, AllocError>
    ensures value { IfOk result (λ answer. slots_of T.reading answer.items
        ≡ map_slots (wrapped_neg T.word_type) (slots_of T.reading values.now)) }
{
    at_each_slot(alloc, values, &WrappedNegative)
}

/// The sum at each place, wrapped.
pub fn wrapping_add<T: Word>(
    alloc: Global,
    left: &[Option<T>],
    right: &[Option<T>],
) -> Result<Vec<Option<T>>, AllocError>
    requires equal_lengths { length left.now ≡ length right.now }
    ensures value { IfOk result (λ answer. slots_of T.reading answer.items
        ≡ zip_slots (value_of (Wrap T.word_type (Sum X Y)))
        (slots_of T.reading left.now) (slots_of T.reading right.now)) }
{
    at_each_place::<T, WrappedSum>(alloc, left, right)
}

/// The difference at each place, wrapped.
pub fn wrapping_sub<T: Word>(
    alloc: Global,
    left: &[Option<T>],
    right: &[Option<T>],
) -> Result<Vec<Option<T>>, AllocError>
    requires equal_lengths { length left.now ≡ length right.now }
    ensures value { IfOk result (λ answer. slots_of T.reading answer.items
        ≡ zip_slots (value_of (Wrap T.word_type (Difference X Y)))
        (slots_of T.reading left.now) (slots_of T.reading right.now)) }
{
    at_each_place::<T, WrappedDifference>(alloc, left, right)
}

/// The product at each place, wrapped.
pub fn wrapping_mul<T: Word>(
    alloc: Global,
    left: &[Option<T>],
    right: &[Option<T>],
) -> Result<Vec<Option<T>>, AllocError>
    requires equal_lengths { length left.now ≡ length right.now }
    ensures value { IfOk result (λ answer. slots_of T.reading answer.items
        ≡ zip_slots (value_of (Wrap T.word_type (Product X Y)))
        (slots_of T.reading left.now) (slots_of T.reading right.now)) }
{
    at_each_place::<T, WrappedProduct>(alloc, left, right)
}

/// The quotient at each place, rounded down and wrapped; null by 0.
pub fn wrapping_floor_div<T: Word>(
    alloc: Global,
    left: &[Option<T>],
    right: &[Option<T>],
) -> Result<Vec<Option<T>>, AllocError>
    requires equal_lengths { length left.now ≡ length right.now }
    ensures value { IfOk result (λ answer. slots_of T.reading answer.items
        ≡ zip_slots (value_of (Wrap T.word_type (FloorDiv X Y)))
        (slots_of T.reading left.now) (slots_of T.reading right.now)) }
{
    at_each_place::<T, WrappedFloorQuotient>(alloc, left, right)
}

/// The quotient at each place, rounded towards zero and wrapped; null by 0.
pub fn wrapping_trunc_div<T: Word>(
    alloc: Global,
    left: &[Option<T>],
    right: &[Option<T>],
) -> Result<Vec<Option<T>>, AllocError>
    requires equal_lengths { length left.now ≡ length right.now }
    ensures value { IfOk result (λ answer. slots_of T.reading answer.items
        ≡ zip_slots (value_of (Wrap T.word_type (TruncDiv X Y)))
        (slots_of T.reading left.now) (slots_of T.reading right.now)) }
{
    at_each_place::<T, WrappedTruncQuotient>(alloc, left, right)
}

/// The rest of the quotient rounded down at each place, with the sign of the divisor; null by 0.
pub fn wrapping_mod<T: Word>(
    alloc: Global,
    left: &[Option<T>],
    right: &[Option<T>],
) -> Result<Vec<Option<T>>, AllocError>
    requires equal_lengths { length left.now ≡ length right.now }
    ensures value { IfOk result (λ answer. slots_of T.reading answer.items
        ≡ zip_slots (value_of (Wrap T.word_type (FloorMod X Y)))
        (slots_of T.reading left.now) (slots_of T.reading right.now)) }
{
    at_each_place::<T, WrappedFloorRest>(alloc, left, right)
}

/// The quotient at each place, rounded towards zero; null by 0 and where it leaves the word.
pub fn checked_div<T: Word>(
    alloc: Global,
    left: &[Option<T>],
    right: &[Option<T>],
) -> Result<Vec<Option<T>>, AllocError>
    requires equal_lengths { length left.now ≡ length right.now }
    ensures value { IfOk result (λ answer. slots_of T.reading answer.items
        ≡ zip_slots (value_of (Fit (word_values T.word_type) (TruncDiv X Y)))
        (slots_of T.reading left.now) (slots_of T.reading right.now)) }
{
    at_each_place::<T, FittingQuotient>(alloc, left, right)
}

/// The sum of each slot and the scalar, wrapped.
pub fn wrapping_add_scalar<T: Word>(
    alloc: Global,
    values: &[Option<T>],
    scalar: T,
) -> Result<Vec<Option<T>>, AllocError>
    ensures value { IfOk result (λ answer. slots_of T.reading answer.items
        ≡ slots_scalar (value_of (Wrap T.word_type (Sum X Y)))
        (slots_of T.reading values.now) (T.reading scalar)) }
{
    let formula = BeforeScalar {
        formula: WrappedSum,
        scalar,
    };
    at_each_slot(alloc, values, &formula)
}

/// The difference of each slot and the scalar, wrapped.
pub fn wrapping_sub_scalar<T: Word>(
    alloc: Global,
    values: &[Option<T>],
    scalar: T,
) -> Result<Vec<Option<T>>, AllocError>
    ensures value { IfOk result (λ answer. slots_of T.reading answer.items
        ≡ slots_scalar (value_of (Wrap T.word_type (Difference X Y)))
        (slots_of T.reading values.now) (T.reading scalar)) }
{
    let formula = BeforeScalar {
        formula: WrappedDifference,
        scalar,
    };
    at_each_slot(alloc, values, &formula)
}

/// The product of each slot and the scalar, wrapped.
pub fn wrapping_mul_scalar<T: Word>(
    alloc: Global,
    values: &[Option<T>],
    scalar: T,
) -> Result<Vec<Option<T>>, AllocError>
    ensures value { IfOk result (λ answer. slots_of T.reading answer.items
        ≡ slots_scalar (value_of (Wrap T.word_type (Product X Y)))
        (slots_of T.reading values.now) (T.reading scalar)) }
{
    let formula = BeforeScalar {
        formula: WrappedProduct,
        scalar,
    };
    at_each_slot(alloc, values, &formula)
}

/// The quotient of each slot and the scalar, rounded down and wrapped; null by 0.
pub fn wrapping_floor_div_scalar<T: Word>(
    alloc: Global,
    values: &[Option<T>],
    scalar: T,
) -> Result<Vec<Option<T>>, AllocError>
    ensures value { IfOk result (λ answer. slots_of T.reading answer.items
        ≡ slots_scalar (value_of (Wrap T.word_type (FloorDiv X Y)))
        (slots_of T.reading values.now) (T.reading scalar)) }
{
    let formula = BeforeScalar {
        formula: WrappedFloorQuotient,
        scalar,
    };
    at_each_slot(alloc, values, &formula)
}

/// The quotient of each slot and the scalar, rounded towards zero and wrapped; null by 0.
pub fn wrapping_trunc_div_scalar<T: Word>(
    alloc: Global,
    values: &[Option<T>],
    scalar: T,
) -> Result<Vec<Option<T>>, AllocError>
    ensures value { IfOk result (λ answer. slots_of T.reading answer.items
        ≡ slots_scalar (value_of (Wrap T.word_type (TruncDiv X Y)))
        (slots_of T.reading values.now) (T.reading scalar)) }
{
    let formula = BeforeScalar {
        formula: WrappedTruncQuotient,
        scalar,
    };
    at_each_slot(alloc, values, &formula)
}

/// The rest of the quotient rounded down of each slot and the scalar, with the sign of the
/// divisor; null by 0.
pub fn wrapping_mod_scalar<T: Word>(
    alloc: Global,
    values: &[Option<T>],
    scalar: T,
) -> Result<Vec<Option<T>>, AllocError>
    ensures value { IfOk result (λ answer. slots_of T.reading answer.items
        ≡ slots_scalar (value_of (Wrap T.word_type (FloorMod X Y)))
        (slots_of T.reading values.now) (T.reading scalar)) }
{
    let formula = BeforeScalar {
        formula: WrappedFloorRest,
        scalar,
    };
    at_each_slot(alloc, values, &formula)
}

/// The product of each slot and the scalar, null where it leaves the word.
pub fn checked_mul_scalar<T: Word>(
    alloc: Global,
    values: &[Option<T>],
    scalar: T,
) -> Result<Vec<Option<T>>, AllocError>
    ensures value { IfOk result (λ answer. slots_of T.reading answer.items
        ≡ slots_scalar (value_of (Fit (word_values T.word_type) (Product X Y)))
        (slots_of T.reading values.now) (T.reading scalar)) }
{
    let formula = BeforeScalar {
        formula: FittingProduct,
        scalar,
    };
    at_each_slot(alloc, values, &formula)
}

/// The difference of the scalar and each slot, wrapped.
pub fn wrapping_sub_scalar_lhs<T: Word>(
    alloc: Global,
    scalar: T,
    values: &[Option<T>],
) -> Result<Vec<Option<T>>, AllocError>
    ensures value { IfOk result (λ answer. slots_of T.reading answer.items
        ≡ scalar_slots (value_of (Wrap T.word_type (Difference X Y)))
        (T.reading scalar) (slots_of T.reading values.now)) }
{
    let formula = AfterScalar {
        scalar,
        formula: WrappedDifference,
    };
    at_each_slot(alloc, values, &formula)
}

/// The quotient of the scalar and each slot, rounded down and wrapped; null by 0.
pub fn wrapping_floor_div_scalar_lhs<T: Word>(
    alloc: Global,
    scalar: T,
    values: &[Option<T>],
) -> Result<Vec<Option<T>>, AllocError>
    ensures value { IfOk result (λ answer. slots_of T.reading answer.items
        ≡ scalar_slots (value_of (Wrap T.word_type (FloorDiv X Y)))
        (T.reading scalar) (slots_of T.reading values.now)) }
{
    let formula = AfterScalar {
        scalar,
        formula: WrappedFloorQuotient,
    };
    at_each_slot(alloc, values, &formula)
}

/// The quotient of the scalar and each slot, rounded towards zero and wrapped; null by 0.
pub fn wrapping_trunc_div_scalar_lhs<T: Word>(
    alloc: Global,
    scalar: T,
    values: &[Option<T>],
) -> Result<Vec<Option<T>>, AllocError>
    ensures value { IfOk result (λ answer. slots_of T.reading answer.items
        ≡ scalar_slots (value_of (Wrap T.word_type (TruncDiv X Y)))
        (T.reading scalar) (slots_of T.reading values.now)) }
{
    let formula = AfterScalar {
        scalar,
        formula: WrappedTruncQuotient,
    };
    at_each_slot(alloc, values, &formula)
}

/// The rest of the quotient rounded down of the scalar and each slot, with the sign of the
/// divisor; null by 0.
pub fn wrapping_mod_scalar_lhs<T: Word>(
    alloc: Global,
    scalar: T,
    values: &[Option<T>],
) -> Result<Vec<Option<T>>, AllocError>
    ensures value { IfOk result (λ answer. slots_of T.reading answer.items
        ≡ scalar_slots (value_of (Wrap T.word_type (FloorMod X Y)))
        (T.reading scalar) (slots_of T.reading values.now)) }
{
    let formula = AfterScalar {
        scalar,
        formula: WrappedFloorRest,
    };
    at_each_slot(alloc, values, &formula)
}
