//! The trait of the nine words.

ghost use Rattle.std.specs.Prelude.{◌≡◌, ◌^◌, ◌+ℤ◌, ◌-ℤ◌, ◌*ℤ◌, ℤ, true};
ghost use Rattle.std.specs.Int.{w128};
ghost use Rattle.std.specs.Option.{option_and_then, option_map};
ghost use Rattle.std.specs.Ordering.{int_cmp};
ghost use Rattle.col_model.specs.Arithmetic.{WordType, Signed, floor_div, floor_mod, fitting_value};
ghost use Rattle.col_model.specs.Arithmetic.{is_within, trunc_div, word_bits, word_values};
ghost use Rattle.col_model.specs.Arithmetic.{wrapped_value};
ghost use Rattle.col_model.specs.Formula.{divided};
ghost use Rattle.col_kernel.specs.Congruence.{IsCongruent};

use crate::wide::{floor_quotient, floor_rest};

/// An integer of a fixed width. What is proved of it is said of the integer that it reads as.
///
/// Only the first three functions are written for each word. The others compute through an `i128`,
/// which the optimiser removes again at each word.
pub trait Word: Copy + Eq + Ord {
    /// Signed or unsigned, and how wide.
    ghost word_type: { WordType };

    /// The integer that a word stands for.
    ghost reading: { Self → ℤ };

    /// Holds of the values of the type, where a ghost variable ranges over every number.
    ghost is_word: { Self → Type 0 };

    /// Does nothing. Says of a value that it is a word, as two of the laws ask.
    fn known(self)
        ensures is_word { is_word self };

    /// The integer that the word reads as.
    fn to_i128(self) -> i128
        ensures value { result ≡ reading self }
        ensures in_range { is_within (word_values word_type) result ≡ true };

    /// The word whose reading differs from the value by a multiple of 2 to the word's width.
    fn wrap_i128(value: i128) -> Self
        ensures value { reading result ≡ wrapped_value word_type value };

    /// The word that reads as the value, and none where no word does.
    fn from_i128(value: i128) -> Option<Self>
        ensures value { option_map reading result ≡ fitting_value (word_values word_type) value }
    {
        let word = Self::wrap_i128(value);
        if word.to_i128() == value {
            Some(word)
        } else {
            None
        }
    }

    /// The sum, wrapped.
    fn add_wrap(self, other: Self) -> Self
        ensures value { reading result ≡ wrapped_value word_type (reading self +ℤ reading other) }
    {
        Self::wrap_i128(self.to_i128().wrapping_add(other.to_i128()))
    }

    /// The difference, wrapped.
    fn sub_wrap(self, other: Self) -> Self
        ensures value { reading result ≡ wrapped_value word_type (reading self -ℤ reading other) }
    {
        Self::wrap_i128(self.to_i128().wrapping_sub(other.to_i128()))
    }

    /// The product, wrapped.
    fn mul_wrap(self, other: Self) -> Self
        ensures value { reading result ≡ wrapped_value word_type (reading self *ℤ reading other) }
    {
        Self::wrap_i128(self.to_i128().wrapping_mul(other.to_i128()))
    }

    /// The quotient rounded down and wrapped, and none where the other word is 0.
    fn floor_div(self, other: Self) -> Option<Self>
        ensures value { option_map reading result
            ≡ option_map (wrapped_value word_type)
            (divided floor_div (reading self) (reading other)) }
    {
        let divisor = other.to_i128();
        if divisor == 0 {
            None
        } else {
            Some(Self::wrap_i128(floor_quotient(self.to_i128(), divisor)))
        }
    }

    /// The quotient rounded towards zero and wrapped, and none where the other word is 0.
    fn trunc_div(self, other: Self) -> Option<Self>
        ensures value { option_map reading result
            ≡ option_map (wrapped_value word_type)
            (divided trunc_div (reading self) (reading other)) }
    {
        let divisor = other.to_i128();
        if divisor == 0 {
            None
        } else {
            Some(Self::wrap_i128(self.to_i128().wrapping_div(divisor)))
        }
    }

    /// What the quotient rounded down leaves, and none where the other word is 0. It has the sign
    /// of the other word, and never wraps.
    fn floor_mod(self, other: Self) -> Option<Self>
        ensures value { option_map reading result
            ≡ option_map (wrapped_value word_type)
            (divided floor_mod (reading self) (reading other)) }
        ensures exact { option_map reading result
            ≡ divided floor_mod (reading self) (reading other) }
    {
        let divisor = other.to_i128();
        if divisor == 0 {
            None
        } else {
            Some(Self::wrap_i128(floor_rest(self.to_i128(), divisor)))
        }
    }

    /// The product, and none where it leaves the word.
    fn mul_checked(self, other: Self) -> Option<Self>
        ensures value { option_map reading result
            ≡ fitting_value (word_values word_type) (reading self *ℤ reading other) }
    {
        match self.to_i128().checked_mul(other.to_i128()) {
            Some(product) => Self::from_i128(product),
            None => None,
        }
    }

    /// The quotient rounded towards zero, and none where it leaves the word or the other word is 0.
    fn div_checked(self, other: Self) -> Option<Self>
        ensures value { option_map reading result
            ≡ option_and_then (fitting_value (word_values word_type))
            (divided trunc_div (reading self) (reading other)) }
    {
        match self.to_i128().checked_div(other.to_i128()) {
            Some(quotient) => Self::from_i128(quotient),
            None => None,
        }
    }

    /// A reading lies in the range of the word.
    ghost reading_in_range: { (x : Self) → is_within (word_values word_type) (reading x) ≡ true };

    /// A reading wraps to itself, so the word that a reading wraps to is the word that has it.
    ghost reading_wraps: { (x : Self) → wrapped_value word_type (reading x) ≡ reading x };

    /// Words of one reading are one word.
    ghost equal_readings: { (x y : Self) → is_word x → is_word y → reading x ≡ reading y → x ≡ y };

    /// Words are ordered as their readings are.
    ghost order_of_readings: { (x y : Self) → is_word x → is_word y
        → Self.cmp x y ≡ int_cmp (reading x) (reading y) };

    /// An integer and what it wraps to differ by a multiple of 2 to the word's width.
    ghost wrapped_is_congruent: { (x : ℤ)
        → IsCongruent (2 ^ word_bits word_type) x (wrapped_value word_type x) };

    /// An `i128` holds each integer of the word.
    ghost range_in_i128: { (x : ℤ) → is_within (word_values word_type) x ≡ true
        → is_within (word_values (Signed w128)) x ≡ true };
}
