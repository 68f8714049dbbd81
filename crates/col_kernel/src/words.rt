//! The nine words.
#![tactic(auto, using(crate::proofs::WordLemmas::word_impls))]

ghost use Rattle.std.specs.Prelude.{pos, FitsSigned, ◌<◌, ◌^◌};
ghost use Rattle.std.specs.Int.{w8, w16, w32, w64, w128};
ghost use Rattle.std.proofs.Common.{lit≤};
ghost use Rattle.col_model.specs.Arithmetic.{Signed, Unsigned, wrapped_value};
ghost use Rattle.col_kernel.specs.WordLaws.{reading_in_range, reading_wraps, signed_equal};
ghost use Rattle.col_kernel.specs.WordLaws.{signed_in_i128, signed_order, unsigned_equal};
ghost use Rattle.col_kernel.specs.WordLaws.{unsigned_in_i128, unsigned_order, wrapped_is_congruent};

use crate::Word;

impl Word for i8 {
    ghost word_type = { Signed w8 };

    ghost reading = { wrapped_value (Signed w8) };

    ghost is_word = { λ x. FitsSigned w8 x };

    fn known(self) {}

    fn to_i128(self) -> i128 {
        self as i128
    }

    fn wrap_i128(value: i128) -> i8 {
        ((value.cast_unsigned() & 0xff) as u8).cast_signed()
    }

    ghost reading_in_range = { reading_in_range (Signed w8) };

    ghost reading_wraps = { reading_wraps (Signed w8) };

    ghost equal_readings = { signed_equal w8 };

    ghost order_of_readings = { signed_order w8 };

    ghost wrapped_is_congruent = { wrapped_is_congruent (Signed w8) };

    ghost range_in_i128 = { signed_in_i128 w8 (lit≤ tt) };
}

impl Word for i16 {
    ghost word_type = { Signed w16 };

    ghost reading = { wrapped_value (Signed w16) };

    ghost is_word = { λ x. FitsSigned w16 x };

    fn known(self) {}

    fn to_i128(self) -> i128 {
        self as i128
    }

    fn wrap_i128(value: i128) -> i16 {
        ((value.cast_unsigned() & 0xffff) as u16).cast_signed()
    }

    ghost reading_in_range = { reading_in_range (Signed w16) };

    ghost reading_wraps = { reading_wraps (Signed w16) };

    ghost equal_readings = { signed_equal w16 };

    ghost order_of_readings = { signed_order w16 };

    ghost wrapped_is_congruent = { wrapped_is_congruent (Signed w16) };

    ghost range_in_i128 = { signed_in_i128 w16 (lit≤ tt) };
}

impl Word for i32 {
    ghost word_type = { Signed w32 };

    ghost reading = { wrapped_value (Signed w32) };

    ghost is_word = { λ x. FitsSigned w32 x };

    fn known(self) {}

    fn to_i128(self) -> i128 {
        self as i128
    }

    fn wrap_i128(value: i128) -> i32 {
        ((value.cast_unsigned() & 0xffff_ffff) as u32).cast_signed()
    }

    ghost reading_in_range = { reading_in_range (Signed w32) };

    ghost reading_wraps = { reading_wraps (Signed w32) };

    ghost equal_readings = { signed_equal w32 };

    ghost order_of_readings = { signed_order w32 };

    ghost wrapped_is_congruent = { wrapped_is_congruent (Signed w32) };

    ghost range_in_i128 = { signed_in_i128 w32 (lit≤ tt) };
}

impl Word for i64 {
    ghost word_type = { Signed w64 };

    ghost reading = { wrapped_value (Signed w64) };

    ghost is_word = { λ x. FitsSigned w64 x };

    fn known(self) {}

    fn to_i128(self) -> i128 {
        self as i128
    }

    fn wrap_i128(value: i128) -> i64 {
        ((value.cast_unsigned() & 0xffff_ffff_ffff_ffff) as u64).cast_signed()
    }

    ghost reading_in_range = { reading_in_range (Signed w64) };

    ghost reading_wraps = { reading_wraps (Signed w64) };

    ghost equal_readings = { signed_equal w64 };

    ghost order_of_readings = { signed_order w64 };

    ghost wrapped_is_congruent = { wrapped_is_congruent (Signed w64) };

    ghost range_in_i128 = { signed_in_i128 w64 (lit≤ tt) };
}

impl Word for i128 {
    ghost word_type = { Signed w128 };

    ghost reading = { wrapped_value (Signed w128) };

    ghost is_word = { λ x. FitsSigned w128 x };

    fn known(self) {}

    fn to_i128(self) -> i128 {
        self
    }

    fn wrap_i128(value: i128) -> i128 {
        value
    }

    ghost reading_in_range = { reading_in_range (Signed w128) };

    ghost reading_wraps = { reading_wraps (Signed w128) };

    ghost equal_readings = { signed_equal w128 };

    ghost order_of_readings = { signed_order w128 };

    ghost wrapped_is_congruent = { wrapped_is_congruent (Signed w128) };

    ghost range_in_i128 = { signed_in_i128 w128 (lit≤ tt) };
}

impl Word for u8 {
    ghost word_type = { Unsigned w8 };

    ghost reading = { λ x. wrapped_value (Unsigned w8) (pos x) };

    ghost is_word = { λ n. n < 2 ^ 8 };

    fn known(self) {}

    fn to_i128(self) -> i128 {
        self as i128
    }

    fn wrap_i128(value: i128) -> u8 {
        (value.cast_unsigned() & 0xff) as u8
    }

    ghost reading_in_range = { λ x. reading_in_range (Unsigned w8) (pos x) };

    ghost reading_wraps = { λ x. reading_wraps (Unsigned w8) (pos x) };

    ghost equal_readings = { unsigned_equal w8 };

    ghost order_of_readings = { unsigned_order w8 };

    ghost wrapped_is_congruent = { wrapped_is_congruent (Unsigned w8) };

    ghost range_in_i128 = { unsigned_in_i128 w8 (lit≤ tt) };
}

impl Word for u16 {
    ghost word_type = { Unsigned w16 };

    ghost reading = { λ x. wrapped_value (Unsigned w16) (pos x) };

    ghost is_word = { λ n. n < 2 ^ 16 };

    fn known(self) {}

    fn to_i128(self) -> i128 {
        self as i128
    }

    fn wrap_i128(value: i128) -> u16 {
        (value.cast_unsigned() & 0xffff) as u16
    }

    ghost reading_in_range = { λ x. reading_in_range (Unsigned w16) (pos x) };

    ghost reading_wraps = { λ x. reading_wraps (Unsigned w16) (pos x) };

    ghost equal_readings = { unsigned_equal w16 };

    ghost order_of_readings = { unsigned_order w16 };

    ghost wrapped_is_congruent = { wrapped_is_congruent (Unsigned w16) };

    ghost range_in_i128 = { unsigned_in_i128 w16 (lit≤ tt) };
}

impl Word for u32 {
    ghost word_type = { Unsigned w32 };

    ghost reading = { λ x. wrapped_value (Unsigned w32) (pos x) };

    ghost is_word = { λ n. n < 2 ^ 32 };

    fn known(self) {}

    fn to_i128(self) -> i128 {
        self as i128
    }

    fn wrap_i128(value: i128) -> u32 {
        (value.cast_unsigned() & 0xffff_ffff) as u32
    }

    ghost reading_in_range = { λ x. reading_in_range (Unsigned w32) (pos x) };

    ghost reading_wraps = { λ x. reading_wraps (Unsigned w32) (pos x) };

    ghost equal_readings = { unsigned_equal w32 };

    ghost order_of_readings = { unsigned_order w32 };

    ghost wrapped_is_congruent = { wrapped_is_congruent (Unsigned w32) };

    ghost range_in_i128 = { unsigned_in_i128 w32 (lit≤ tt) };
}

impl Word for u64 {
    ghost word_type = { Unsigned w64 };

    ghost reading = { λ x. wrapped_value (Unsigned w64) (pos x) };

    ghost is_word = { λ n. n < 2 ^ 64 };

    fn known(self) {}

    fn to_i128(self) -> i128 {
        self as i128
    }

    fn wrap_i128(value: i128) -> u64 {
        (value.cast_unsigned() & 0xffff_ffff_ffff_ffff) as u64
    }

    ghost reading_in_range = { λ x. reading_in_range (Unsigned w64) (pos x) };

    ghost reading_wraps = { λ x. reading_wraps (Unsigned w64) (pos x) };

    ghost equal_readings = { unsigned_equal w64 };

    ghost order_of_readings = { unsigned_order w64 };

    ghost wrapped_is_congruent = { wrapped_is_congruent (Unsigned w64) };

    ghost range_in_i128 = { unsigned_in_i128 w64 (lit≤ tt) };
}
