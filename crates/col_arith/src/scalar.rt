// A column joined with an integer.
ghost use Rattle.std.specs.Prelude.{◌≡◌, true};
ghost use Rattle.std.specs.Int.{w64};
ghost use Rattle.col_types.specs.PolarsError.{Gives, GivesBy};
ghost use Rattle.col_types.specs.declared.data_type.DataType.{Date, Time};
ghost use Rattle.col_model.specs.Arithmetic.{Signed};
ghost use Rattle.col_model.specs.Chunked.{column_of};
ghost use Rattle.col_model.specs.Column.{day_values, is_built_type};
ghost use Rattle.col_model.specs.Formula.{Fit};
ghost use Rattle.col_model.specs.OperatorCalls.{scalar_right_of, scalar_left_of};
ghost use Rattle.col_arith.specs.declared.scalars.Ticks.TheVariants.{Wide};
ghost use Rattle.col_arith.specs.Checked.{checked_num_of};
ghost use Rattle.col_arith.specs.Joined.{HasNoBound};
ghost use Rattle.col_arith.specs.ScalarForm.{FitsType, form_of, scalar_of, scalar_words};

use crate::reading::{read_dates, read_ticks};
use crate::scalars::{ScalarForm, TimeWithScalar, WithScalar};
use col_chunk::{ChunkedArray, Int64Chunked};
use col_kernel::Word;
use col_rule::map_array;
use col_series::Series;
use col_types::{BinOp, DataType, PolarsError, PolarsResult, ScalarOp};
use std::alloc::Global;

/// The column joined with an integer on its right, in the column's type. Refused where the type
/// meets no integer (`Types`), then where its word doesn't hold this one (`Scalar`).
pub fn scalar_right(alloc: Global, column: &Series, op: ScalarOp, rhs: i128) -> PolarsResult<Series>
    ensures column { GivesBy column_of result (scalar_right_of column.now.column op rhs) }
{
    scalar(alloc, column, ScalarForm::Right(op), rhs)
}

/// An integer joined with the column on its right, in the column's type. Refused as `scalar_right`.
pub fn scalar_left(alloc: Global, lhs: i128, op: BinOp, column: &Series) -> PolarsResult<Series>
    ensures column { GivesBy column_of result (scalar_left_of lhs op column.now.column) }
{
    scalar(alloc, column, ScalarForm::Left(op), lhs)
}

/// The column divided by an integer towards zero, in the column's type; null by 0, and where the
/// type hasn't the quotient. Refused as `scalar_right`.
pub fn checked_div_num(alloc: Global, column: &Series, k: i128) -> PolarsResult<Series>
    ensures column { GivesBy column_of result (checked_num_of column.now.column k) }
{
    scalar(alloc, column, ScalarForm::Checked, k)
}

/// The column with an integer under the form. Each type of which columns exist meets integers.
fn scalar(alloc: Global, column: &Series, form: ScalarForm, k: i128) -> PolarsResult<Series>
    ensures column { GivesBy column_of result (scalar_of column.now.column form k) }
{
    column.known();
    match column.dtype() {
        DataType::Date => dates_with_scalar(alloc, column, form, k),
        DataType::Time => times_with_scalar(alloc, column, form, k),
        DataType::Datetime(_, _) | DataType::Duration(_) | DataType::Int64 => {
            ticks_with_scalar(alloc, column, form, k)
        }
        _ => unreachable!(),
    }
}

/// The same for a column of dates.
fn dates_with_scalar(
    alloc: Global,
    column: &Series,
    form: ScalarForm,
    k: i128,
) -> PolarsResult<Series>
    requires date { column.now.column.dtype ≡ Date }
    ensures column { GivesBy column_of result (scalar_of column.now.column form k) }
{
    read_dates(alloc, with_scalar(alloc, column.int32(), form, k))
}

/// The same for a column of times of the day.
fn times_with_scalar(
    alloc: Global,
    column: &Series,
    form: ScalarForm,
    k: i128,
) -> PolarsResult<Series>
    requires time { column.now.column.dtype ≡ Time }
    ensures column { GivesBy column_of result (scalar_of column.now.column form k) }
{
    let words = times_of_scalar(alloc, column.int64(), form, k);
    read_ticks(alloc, words, DataType::Time)
}

/// The same for a column of ticks that have no bound but their word.
fn ticks_with_scalar(
    alloc: Global,
    column: &Series,
    form: ScalarForm,
    k: i128,
) -> PolarsResult<Series>
    requires built_type { is_built_type column.now.column.dtype ≡ true }
    requires fits { FitsType column.now.column.dtype Wide }
    requires no_bound { HasNoBound column.now.column.dtype }
    ensures column { GivesBy column_of result (scalar_of column.now.column form k) }
{
    let words = with_scalar(alloc, column.int64(), form, k);
    read_ticks(alloc, words, column.dtype().clone_flat())
}

/// Words with an integer of their width under the form. Refused where it has no such width
/// (`Scalar`).
fn with_scalar<W: Word>(
    alloc: Global,
    words: &ChunkedArray<W>,
    form: ScalarForm,
    k: i128,
) -> PolarsResult<ChunkedArray<W>>
    ensures column { Gives result
        (scalar_words W.word_type (form_of form k W.word_type) k words.now) }
{
    match W::from_i128(k) {
        Some(word) => map_array(alloc, &WithScalar { form, k: word }, words),
        None => Err(PolarsError::Scalar { value: k }),
    }
}

/// Times of the day with an integer under the form, null outside the day. Refused where the integer
/// has no room in 64 bits (`Scalar`).
fn times_of_scalar(
    alloc: Global,
    words: &Int64Chunked,
    form: ScalarForm,
    k: i128,
) -> PolarsResult<Int64Chunked>
    ensures column { Gives result (scalar_words (Signed w64)
        (Fit day_values (form_of form k (Signed w64))) k words.now) }
{
    match i64::from_i128(k) {
        Some(word) => map_array(alloc, &TimeWithScalar { form, k: word }, words),
        None => Err(PolarsError::Scalar { value: k }),
    }
}
