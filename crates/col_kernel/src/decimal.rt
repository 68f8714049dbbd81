//! Scales of decimals.

ghost use Rattle.std.specs.Prelude.{◌≡◌, ◌^◌, ◌≤◌, pos, unwrap_or};
ghost use Rattle.col_types.specs.DataType.{max_digits};
ghost use Rattle.col_model.specs.Arithmetic.{fitting_decimal, rescaled_value};

use col_types::MAX_DIGITS;

/// A power of ten.
fn power_of_ten(exponent: usize) -> i128
    requires few_digits { exponent ≤ max_digits }
    ensures value { result ≡ pos (10 ^ exponent) }
{
    10i128.pow(exponent as u32)
}

/// The value where it has at most as many digits as the precision allows.
fn within_precision(value: i128, precision: Option<usize>) -> Option<i128>
    requires is_precision { unwrap_or precision max_digits ≤ max_digits }
    ensures value { result ≡ fitting_decimal precision value }
{
    let bound = power_of_ten(precision.unwrap_or(MAX_DIGITS));
    if value.unsigned_abs() < bound.unsigned_abs() {
        Some(value)
    } else {
        None
    }
}

/// An unscaled decimal of the scale `from` at the scale `to`: multiplied, or divided and rounded
/// towards zero. None where it has more digits than the precision allows; no precision allows 38.
pub fn rescale_slot(value: i128, from: usize, to: usize, precision: Option<usize>) -> Option<i128>
    requires from_is_scale { from ≤ max_digits }
    requires to_is_scale { to ≤ max_digits }
    requires is_precision { unwrap_or precision max_digits ≤ max_digits }
    ensures value { result ≡ rescaled_value from to precision value }
{
    if from < to {
        match value.checked_mul(power_of_ten(to - from)) {
            Some(scaled) => within_precision(scaled, precision),
            None => None,
        }
    } else if from == to {
        within_precision(value, precision)
    } else {
        within_precision(value / power_of_ten(from - to), precision)
    }
}
