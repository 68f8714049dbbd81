//! Words of a fixed width, and kernels over slices of optional words.
#![tactic(auto)]

mod decimal;
mod formulas;
mod kernels;
mod loops;
mod wide;
mod word_trait;
mod words;

pub use decimal::rescale_slot;
pub use kernels::{
    checked_div, checked_mul_scalar, wrapping_abs, wrapping_add, wrapping_add_scalar,
    wrapping_floor_div, wrapping_floor_div_scalar, wrapping_floor_div_scalar_lhs, wrapping_mod,
    wrapping_mod_scalar, wrapping_mod_scalar_lhs, wrapping_mul, wrapping_mul_scalar, wrapping_neg,
    wrapping_sub, wrapping_sub_scalar, wrapping_sub_scalar_lhs, wrapping_trunc_div,
    wrapping_trunc_div_scalar, wrapping_trunc_div_scalar_lhs,
};
pub use word_trait::Word;
