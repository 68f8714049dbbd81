//! Cases by hand: that each call succeeds, and what every word does at its ends. The clauses say
//! the rest; values of the formulas and of scales stand as laws of `col_model`.

use crate::same::same;
use col_kernel::*;
use std::alloc::AllocError;
use std::process::Abort;

/// The integer as a word, where it is one, and wrapped to a word.
fn readings<T: Word>(integer: i128) -> (Option<i128>, i128) {
    let word = T::from_i128(integer);
    (word.map(T::to_i128), T::wrap_i128(integer).to_i128())
}

/// Reading and making words at both ends of the range, and one past each where 128 bits have one.
fn converts<T: Word>(rt: &impl Abort, least: i128, greatest: i128) {
    same(rt, "least", readings::<T>(least), (Some(least), least));
    same(
        rt,
        "greatest",
        readings::<T>(greatest),
        (Some(greatest), greatest),
    );
    if let (Some(under), Some(over)) = (least.checked_sub(1), greatest.checked_add(1)) {
        same(rt, "under", readings::<T>(under), (None, greatest));
        same(rt, "over", readings::<T>(over), (None, least));
    }
}

#[test]
fn conversions_at_the_ends(rt: HostRuntime) {
    converts::<i8>(&rt, -128, 127);
    converts::<i16>(&rt, -32_768, 32_767);
    converts::<i32>(&rt, -2_147_483_648, 2_147_483_647);
    converts::<i64>(&rt, -9_223_372_036_854_775_808, 9_223_372_036_854_775_807);
    converts::<i128>(&rt, i128::MIN, i128::MAX);
    converts::<u8>(&rt, 0, 255);
    converts::<u16>(&rt, 0, 65_535);
    converts::<u32>(&rt, 0, 4_294_967_295);
    converts::<u64>(&rt, 0, 18_446_744_073_709_551_615);
}

/// The kernel answered these slots.
fn gives<T: Word>(
    rt: &impl Abort,
    answer: Result<Vec<Option<T>>, AllocError>,
    wanted: &[Option<T>],
    name: &str,
) {
    match answer {
        Ok(slots) => assert!(rt; slots.as_slice() == wanted, "at {name}"),
        Err(_) => panic!(rt; "no memory at {name}"),
    }
}

#[test]
fn kernels_of_two_columns(rt: HostRuntime) {
    let (dividends, divisors) = (
        [Some(-7i32), Some(7), None],
        [Some(2i32), Some(-2), Some(1)],
    );
    let (left, right) = (dividends.as_slice(), divisors.as_slice());
    gives(
        &rt,
        wrapping_add(rt.alloc(), left, right),
        [Some(-5), Some(5), None].as_slice(),
        "add",
    );
    gives(
        &rt,
        wrapping_sub(rt.alloc(), left, right),
        [Some(-9), Some(9), None].as_slice(),
        "sub",
    );
    gives(
        &rt,
        wrapping_mul(rt.alloc(), left, right),
        [Some(-14), Some(-14), None].as_slice(),
        "mul",
    );
    gives(
        &rt,
        wrapping_floor_div(rt.alloc(), left, right),
        [Some(-4), Some(-4), None].as_slice(),
        "floor",
    );
    gives(
        &rt,
        wrapping_trunc_div(rt.alloc(), left, right),
        [Some(-3), Some(-3), None].as_slice(),
        "trunc",
    );
    gives(
        &rt,
        wrapping_mod(rt.alloc(), left, right),
        [Some(1), Some(-1), None].as_slice(),
        "mod",
    );
    gives(
        &rt,
        checked_div(rt.alloc(), left, right),
        [Some(-3), Some(-3), None].as_slice(),
        "checked div",
    );
}

#[test]
fn kernels_with_a_scalar(rt: HostRuntime) {
    let sevens = [Some(7i32), None];
    let left = sevens.as_slice();
    gives(
        &rt,
        wrapping_add_scalar(rt.alloc(), left, 3),
        [Some(10), None].as_slice(),
        "add",
    );
    gives(
        &rt,
        wrapping_sub_scalar(rt.alloc(), left, 3),
        [Some(4), None].as_slice(),
        "sub",
    );
    gives(
        &rt,
        wrapping_mul_scalar(rt.alloc(), left, 3),
        [Some(21), None].as_slice(),
        "mul",
    );
    gives(
        &rt,
        wrapping_floor_div_scalar(rt.alloc(), left, -3),
        [Some(-3), None].as_slice(),
        "floor",
    );
    gives(
        &rt,
        wrapping_trunc_div_scalar(rt.alloc(), left, -3),
        [Some(-2), None].as_slice(),
        "trunc",
    );
    gives(
        &rt,
        wrapping_mod_scalar(rt.alloc(), left, -3),
        [Some(-2), None].as_slice(),
        "mod",
    );
    gives(
        &rt,
        checked_mul_scalar(rt.alloc(), left, 1_000_000_000),
        [None, None].as_slice(),
        "checked mul",
    );
}

#[test]
fn kernels_with_the_scalar_first(rt: HostRuntime) {
    let sevens = [Some(7i32), None];
    let right = sevens.as_slice();
    gives(
        &rt,
        wrapping_sub_scalar_lhs(rt.alloc(), 3, right),
        [Some(-4), None].as_slice(),
        "sub",
    );
    gives(
        &rt,
        wrapping_floor_div_scalar_lhs(rt.alloc(), -15, right),
        [Some(-3), None].as_slice(),
        "floor",
    );
    gives(
        &rt,
        wrapping_trunc_div_scalar_lhs(rt.alloc(), -15, right),
        [Some(-2), None].as_slice(),
        "trunc",
    );
    gives(
        &rt,
        wrapping_mod_scalar_lhs(rt.alloc(), -15, right),
        [Some(6), None].as_slice(),
        "mod",
    );
}

#[test]
fn kernels_of_one_column(rt: HostRuntime) {
    let ends = [Some(-128i8), Some(127), None];
    let column = ends.as_slice();
    gives(
        &rt,
        wrapping_abs(rt.alloc(), column),
        [Some(-128), Some(127), None].as_slice(),
        "abs",
    );
    gives(
        &rt,
        wrapping_neg(rt.alloc(), column),
        [Some(-128), Some(-127), None].as_slice(),
        "neg",
    );
}

#[test]
fn rescales(rt: HostRuntime) {
    same(&rt, "up", rescale_slot(110, 2, 4, Some(5)), Some(11_000));
    same(&rt, "down", rescale_slot(-1_259, 3, 1, None), Some(-12));
    same(&rt, "too long", rescale_slot(10, 0, 0, Some(1)), None);
}
