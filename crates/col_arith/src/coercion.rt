// Common types of two columns.
ghost use Rattle.std.specs.Prelude.{◌≡◌, true, Ok};
ghost use Rattle.col_types.specs.PolarsError.{GivesBy};
ghost use Rattle.col_model.specs.Chunked.{column_of};
ghost use Rattle.col_model.specs.Column.{is_built_type};
ghost use Rattle.col_arith.specs.Coercion.{coerced_types, coerced_of, cast_to, changes_type};
ghost use Rattle.col_arith.specs.Coercion.{columns_of_both, CanCast};

use col_series::Series;
use col_types::{
    CastOptions, DataType, OpName, PolarsError, PolarsResult, flat_supertype, get_time_units,
};
use std::alloc::Global;

/// The types to which two types come, or none.
fn coerced_types(left: &DataType, right: &DataType) -> Option<(DataType, DataType)>
    requires left { is_built_type left.now ≡ true }
    requires right { is_built_type right.now ≡ true }
    ensures types { result ≡ coerced_types left.now right.now }
{
    match (left, right) {
        (DataType::Datetime(u, zone), DataType::Duration(v)) => {
            let w = get_time_units(*u, *v);
            Some((DataType::Datetime(w, *zone), DataType::Duration(w)))
        }
        (DataType::Duration(u), DataType::Datetime(v, zone)) => {
            let w = get_time_units(*u, *v);
            Some((DataType::Duration(w), DataType::Datetime(w, *zone)))
        }
        (DataType::Duration(u), DataType::Duration(v)) => {
            let w = get_time_units(*u, *v);
            Some((DataType::Duration(w), DataType::Duration(w)))
        }
        (DataType::Date, DataType::Duration(v)) => {
            Some((DataType::Date, DataType::Duration(*v)))
        }
        (DataType::Duration(u), DataType::Date) => {
            Some((DataType::Duration(*u), DataType::Date))
        }
        _ => match flat_supertype(left, right) {
            Some(dtype) => Some((dtype.clone_flat(), dtype)),
            None => None,
        },
    }
}

/// The column in a type to which a cast leads. The one refusal is `NoMemory`.
fn cast_to(alloc: Global, column: &Series, target: &DataType) -> PolarsResult<Series>
    requires can { CanCast column.now.column.dtype target.now }
    ensures column { GivesBy column_of result (Ok (cast_to column.now.column target.now)) }
{
    column.cast_with_options(alloc, target, CastOptions::NonStrict)
}

/// Both columns, each in a type to which a cast leads. The one refusal is `NoMemory`.
fn cast_both(
    alloc: Global,
    lhs: &Series,
    left: &DataType,
    rhs: &Series,
    right: &DataType,
) -> PolarsResult<(Series, Series)>
    requires left { CanCast lhs.now.column.dtype left.now }
    requires right { CanCast rhs.now.column.dtype right.now }
    ensures columns { GivesBy columns_of_both result
        (Ok (cast_to lhs.now.column left.now, cast_to rhs.now.column right.now)) }
{
    let left = match cast_to(alloc, lhs, left) {
        Ok(left) => left,
        Err(refusal) => return Err(refusal),
    };
    match cast_to(alloc, rhs, right) {
        Ok(right) => Ok((left, right)),
        Err(refusal) => Err(refusal),
    }
}

/// Both columns in common types, each value null that has no room there: a moment and a length of
/// time, or two lengths, in the coarser unit; a date and a length of time as they are; all others
/// in their supertype. Refused where there is none (`Types`).
pub fn coerce_lhs_rhs(alloc: Global, lhs: &Series, rhs: &Series) -> PolarsResult<(Series, Series)>
    ensures columns { GivesBy columns_of_both result
        (coerced_of lhs.now.column rhs.now.column) }
{
    lhs.known();
    rhs.known();
    match coerced_types(lhs.dtype(), rhs.dtype()) {
        Some((left, right)) => cast_both(alloc, lhs, &left, rhs, &right),
        None => Err(PolarsError::Types {
            op: OpName::Coerce,
            left: lhs.dtype().kind(),
            right: rhs.dtype().kind(),
        }),
    }
}

/// As `coerce_lhs_rhs`.
pub fn coerce_lhs_rhs_owned(
    alloc: Global,
    lhs: Series,
    rhs: Series,
) -> PolarsResult<(Series, Series)>
    ensures columns { GivesBy columns_of_both result (coerced_of lhs.column rhs.column) }
{
    coerce_lhs_rhs(alloc, &lhs, &rhs)
}

/// Whether coercion gives one of the two another type.
pub(crate) fn changes_type(left: &DataType, right: &DataType) -> bool
    requires left { is_built_type left.now ≡ true }
    requires right { is_built_type right.now ≡ true }
    ensures changes { result ≡ changes_type left.now right.now (coerced_types left.now right.now) }
{
    match coerced_types(left, right) {
        Some((new_left, new_right)) => !new_left.is_same(left) || !new_right.is_same(right),
        None => false,
    }
}
