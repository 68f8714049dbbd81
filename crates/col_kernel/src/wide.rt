//! Division of 128-bit integers, rounded down.

ghost use Rattle.std.specs.Prelude.{◌≡◌, ◌≢◌, pos};
ghost use Rattle.std.specs.Int.{w128};
ghost use Rattle.col_model.specs.Arithmetic.{Signed, floor_div, floor_mod, wrapped_value};

/// The quotient rounded down, wrapped.
pub fn floor_quotient(x: i128, y: i128) -> i128
    requires nonzero { y ≢ pos 0 }
    ensures value { result ≡ wrapped_value (Signed w128) (floor_div x y) }
{
    if y == -1 {
        return x.wrapping_neg();
    }
    let quotient = x / y;
    let rest = x % y;
    if y > 0 {
        if rest < 0 { quotient - 1 } else { quotient }
    } else if rest > 0 {
        quotient - 1
    } else {
        quotient
    }
}

/// What the quotient rounded down leaves.
pub fn floor_rest(x: i128, y: i128) -> i128
    requires nonzero { y ≢ pos 0 }
    ensures value { result ≡ floor_mod x y }
{
    if y == -1 {
        return 0;
    }
    let rest = x % y;
    if y > 0 {
        if rest < 0 { rest + y } else { rest }
    } else if rest > 0 {
        rest + y
    } else {
        rest
    }
}
