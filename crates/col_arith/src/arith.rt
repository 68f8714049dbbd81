// Arithmetic as functions of a column.
ghost use Rattle.col_types.specs.PolarsError.{GivesBy};
ghost use Rattle.col_types.specs.declared.operator.BinOp.TheVariants.{Add, Sub, Mul, Div, Rem};
ghost use Rattle.col_types.specs.declared.operator.ScalarOp.TheVariants as scalar_ops;
ghost use Rattle.col_model.specs.Chunked.{column_of};
ghost use Rattle.col_model.specs.Column.{Column};
ghost use Rattle.col_model.specs.OperatorCalls.{binary_of, scalar_right_of, scalar_left_of};
ghost use Rattle.col_arith.specs.Checked.{checked_num_of, checked_of};
ghost use Rattle.col_arith.specs.Coercion.{uncoerced_of};

use crate::checked::checked_div;
use crate::columns::{binary, uncoerced_binary};
use crate::scalar::{checked_div_num, scalar_left, scalar_right};
use col_series::Series;
use col_types::{BinOp, PolarsResult, ScalarOp};
use std::alloc::Global;

/// Arithmetic of a column. An answer has the name of the column that the function is called on. A
/// function of two columns is refused where neither the lengths are equal nor one of them is 1
/// (`Lengths`), then where the types have no such operator (`Types`); one of a column and an
/// integer where the type meets no integer (`Types`), then where its word doesn't hold this one
/// (`Scalar`).
pub trait SeriesArith: Drop {
    /// The column that it is, whatever its chunks.
    ghost column: { Self → Column };

    /// The sum, slot by slot; one row of either column stands for all.
    fn try_add(&self, alloc: Global, rhs: &Series) -> PolarsResult<Series>
        ensures answer { GivesBy column_of result
            (binary_of Add (column self.now) rhs.now.column) };

    /// The difference, slot by slot; one row of either column stands for all.
    fn try_sub(&self, alloc: Global, rhs: &Series) -> PolarsResult<Series>
        ensures answer { GivesBy column_of result
            (binary_of Sub (column self.now) rhs.now.column) };

    /// The product, slot by slot; one row of either column stands for all.
    fn try_mul(&self, alloc: Global, rhs: &Series) -> PolarsResult<Series>
        ensures answer { GivesBy column_of result
            (binary_of Mul (column self.now) rhs.now.column) };

    /// The quotient rounded down, slot by slot; one row of either column stands for all.
    fn try_div(&self, alloc: Global, rhs: &Series) -> PolarsResult<Series>
        ensures answer { GivesBy column_of result
            (binary_of Div (column self.now) rhs.now.column) };

    /// The rest that the quotient rounded down leaves, slot by slot; one row of either column
    /// stands for all.
    fn try_rem(&self, alloc: Global, rhs: &Series) -> PolarsResult<Series>
        ensures answer { GivesBy column_of result
            (binary_of Rem (column self.now) rhs.now.column) };

    /// As `try_add`.
    fn try_add_owned(self, alloc: Global, other: Series) -> PolarsResult<Series>
        ensures answer { GivesBy column_of result (binary_of Add (column self) other.column) };

    /// As `try_sub`.
    fn try_sub_owned(self, alloc: Global, other: Series) -> PolarsResult<Series>
        ensures answer { GivesBy column_of result (binary_of Sub (column self) other.column) };

    /// As `try_mul`.
    fn try_mul_owned(self, alloc: Global, other: Series) -> PolarsResult<Series>
        ensures answer { GivesBy column_of result (binary_of Mul (column self) other.column) };

    /// As `try_add`, but refused (`Types`) also where coercion would give a column another type.
    fn add_to(&self, alloc: Global, rhs: &Series) -> PolarsResult<Series>
        ensures answer { GivesBy column_of result
            (uncoerced_of Add (column self.now) rhs.now.column) };

    /// As `try_sub`, but refused (`Types`) also where coercion would give a column another type.
    fn subtract(&self, alloc: Global, rhs: &Series) -> PolarsResult<Series>
        ensures answer { GivesBy column_of result
            (uncoerced_of Sub (column self.now) rhs.now.column) };

    /// As `try_mul`, but refused (`Types`) also where coercion would give a column another type.
    fn multiply(&self, alloc: Global, rhs: &Series) -> PolarsResult<Series>
        ensures answer { GivesBy column_of result
            (uncoerced_of Mul (column self.now) rhs.now.column) };

    /// As `try_div`, but refused (`Types`) also where coercion would give a column another type.
    fn divide(&self, alloc: Global, rhs: &Series) -> PolarsResult<Series>
        ensures answer { GivesBy column_of result
            (uncoerced_of Div (column self.now) rhs.now.column) };

    /// As `try_rem`, but refused (`Types`) also where coercion would give a column another type.
    fn remainder(&self, alloc: Global, rhs: &Series) -> PolarsResult<Series>
        ensures answer { GivesBy column_of result
            (uncoerced_of Rem (column self.now) rhs.now.column) };

    /// The sum with an integer.
    fn add_scalar(&self, alloc: Global, rhs: i128) -> PolarsResult<Series>
        ensures answer { GivesBy column_of result
            (scalar_right_of (column self.now) scalar_ops.Add rhs) };

    /// The difference from an integer.
    fn sub_scalar(&self, alloc: Global, rhs: i128) -> PolarsResult<Series>
        ensures answer { GivesBy column_of result
            (scalar_right_of (column self.now) scalar_ops.Sub rhs) };

    /// The product with an integer.
    fn mul_scalar(&self, alloc: Global, rhs: i128) -> PolarsResult<Series>
        ensures answer { GivesBy column_of result
            (scalar_right_of (column self.now) scalar_ops.Mul rhs) };

    /// The quotient by an integer, rounded down; null by 0.
    fn div_scalar(&self, alloc: Global, rhs: i128) -> PolarsResult<Series>
        ensures answer { GivesBy column_of result
            (scalar_right_of (column self.now) scalar_ops.Div rhs) };

    /// The rest that the quotient by an integer, rounded down, leaves; null by 0.
    fn rem_scalar(&self, alloc: Global, rhs: i128) -> PolarsResult<Series>
        ensures answer { GivesBy column_of result
            (scalar_right_of (column self.now) scalar_ops.Rem rhs) };

    /// The quotient by an integer, rounded towards zero; null by 0.
    fn wrapping_trunc_div_scalar(&self, alloc: Global, rhs: i128) -> PolarsResult<Series>
        ensures answer { GivesBy column_of result
            (scalar_right_of (column self.now) scalar_ops.TruncDiv rhs) };

    /// The quotient rounded towards zero, slot by slot, in the supertype; null by 0, and where the
    /// type hasn't the quotient. Refused where the lengths differ (`Lengths`), then where the types
    /// aren't two integers that have a supertype (`Types`).
    fn checked_div(&self, alloc: Global, rhs: &Series) -> PolarsResult<Series>
        ensures answer { GivesBy column_of result
            (checked_of (column self.now) rhs.now.column) };

    /// The quotient by an integer, rounded towards zero; null by 0, and where the type hasn't the
    /// quotient.
    fn checked_div_num(&self, alloc: Global, rhs: i128) -> PolarsResult<Series>
        ensures answer { GivesBy column_of result (checked_num_of (column self.now) rhs) };

    /// The sum of an integer and the column.
    fn lhs_add(&self, alloc: Global, lhs: i128) -> PolarsResult<Series>
        ensures answer { GivesBy column_of result (scalar_left_of lhs Add (column self.now)) };

    /// The difference of an integer and the column.
    fn lhs_sub(&self, alloc: Global, lhs: i128) -> PolarsResult<Series>
        ensures answer { GivesBy column_of result (scalar_left_of lhs Sub (column self.now)) };

    /// The product of an integer and the column.
    fn lhs_mul(&self, alloc: Global, lhs: i128) -> PolarsResult<Series>
        ensures answer { GivesBy column_of result (scalar_left_of lhs Mul (column self.now)) };

    /// The quotient of an integer by the column, rounded down; null by 0.
    fn lhs_div(&self, alloc: Global, lhs: i128) -> PolarsResult<Series>
        ensures answer { GivesBy column_of result (scalar_left_of lhs Div (column self.now)) };

    /// The rest that the quotient of an integer by the column leaves; null by 0.
    fn lhs_rem(&self, alloc: Global, lhs: i128) -> PolarsResult<Series>
        ensures answer { GivesBy column_of result (scalar_left_of lhs Rem (column self.now)) };
}

impl SeriesArith for Series {
    ghost column = { λ series. series.column };

    fn try_add(&self, alloc: Global, rhs: &Series) -> PolarsResult<Series> {
        binary(alloc, BinOp::Add, self, rhs)
    }

    fn try_sub(&self, alloc: Global, rhs: &Series) -> PolarsResult<Series> {
        binary(alloc, BinOp::Sub, self, rhs)
    }

    fn try_mul(&self, alloc: Global, rhs: &Series) -> PolarsResult<Series> {
        binary(alloc, BinOp::Mul, self, rhs)
    }

    fn try_div(&self, alloc: Global, rhs: &Series) -> PolarsResult<Series> {
        binary(alloc, BinOp::Div, self, rhs)
    }

    fn try_rem(&self, alloc: Global, rhs: &Series) -> PolarsResult<Series> {
        binary(alloc, BinOp::Rem, self, rhs)
    }

    fn try_add_owned(self, alloc: Global, other: Series) -> PolarsResult<Series> {
        self.try_add(alloc, &other)
    }

    fn try_sub_owned(self, alloc: Global, other: Series) -> PolarsResult<Series> {
        self.try_sub(alloc, &other)
    }

    fn try_mul_owned(self, alloc: Global, other: Series) -> PolarsResult<Series> {
        self.try_mul(alloc, &other)
    }

    fn add_to(&self, alloc: Global, rhs: &Series) -> PolarsResult<Series> {
        uncoerced_binary(alloc, BinOp::Add, self, rhs)
    }

    fn subtract(&self, alloc: Global, rhs: &Series) -> PolarsResult<Series> {
        uncoerced_binary(alloc, BinOp::Sub, self, rhs)
    }

    fn multiply(&self, alloc: Global, rhs: &Series) -> PolarsResult<Series> {
        uncoerced_binary(alloc, BinOp::Mul, self, rhs)
    }

    fn divide(&self, alloc: Global, rhs: &Series) -> PolarsResult<Series> {
        uncoerced_binary(alloc, BinOp::Div, self, rhs)
    }

    fn remainder(&self, alloc: Global, rhs: &Series) -> PolarsResult<Series> {
        uncoerced_binary(alloc, BinOp::Rem, self, rhs)
    }

    fn add_scalar(&self, alloc: Global, rhs: i128) -> PolarsResult<Series> {
        scalar_right(alloc, self, ScalarOp::Add, rhs)
    }

    fn sub_scalar(&self, alloc: Global, rhs: i128) -> PolarsResult<Series> {
        scalar_right(alloc, self, ScalarOp::Sub, rhs)
    }

    fn mul_scalar(&self, alloc: Global, rhs: i128) -> PolarsResult<Series> {
        scalar_right(alloc, self, ScalarOp::Mul, rhs)
    }

    fn div_scalar(&self, alloc: Global, rhs: i128) -> PolarsResult<Series> {
        scalar_right(alloc, self, ScalarOp::Div, rhs)
    }

    fn rem_scalar(&self, alloc: Global, rhs: i128) -> PolarsResult<Series> {
        scalar_right(alloc, self, ScalarOp::Rem, rhs)
    }

    fn wrapping_trunc_div_scalar(&self, alloc: Global, rhs: i128) -> PolarsResult<Series> {
        scalar_right(alloc, self, ScalarOp::TruncDiv, rhs)
    }

    fn checked_div(&self, alloc: Global, rhs: &Series) -> PolarsResult<Series> {
        checked_div(alloc, self, rhs)
    }

    fn checked_div_num(&self, alloc: Global, rhs: i128) -> PolarsResult<Series> {
        checked_div_num(alloc, self, rhs)
    }

    fn lhs_add(&self, alloc: Global, lhs: i128) -> PolarsResult<Series> {
        scalar_left(alloc, lhs, BinOp::Add, self)
    }

    fn lhs_sub(&self, alloc: Global, lhs: i128) -> PolarsResult<Series> {
        scalar_left(alloc, lhs, BinOp::Sub, self)
    }

    fn lhs_mul(&self, alloc: Global, lhs: i128) -> PolarsResult<Series> {
        scalar_left(alloc, lhs, BinOp::Mul, self)
    }

    fn lhs_div(&self, alloc: Global, lhs: i128) -> PolarsResult<Series> {
        scalar_left(alloc, lhs, BinOp::Div, self)
    }

    fn lhs_rem(&self, alloc: Global, lhs: i128) -> PolarsResult<Series> {
        scalar_left(alloc, lhs, BinOp::Rem, self)
    }
}
