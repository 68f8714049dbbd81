// The least type that has the values of two types.
ghost use Rattle.std.specs.Prelude.{◌≡◌, false};
ghost use Rattle.col_types.specs.PolarsError.{GivesBy};
ghost use Rattle.col_types.specs.DataType.{is_nested, shape_of};
ghost use Rattle.col_types.specs.Supertype.{supertype_of, supertype_answer, mixed_supertype};
ghost use Rattle.col_types.specs.Supertype.{integer_supertype, with_integer, small_supertype};
ghost use Rattle.col_types.specs.Supertype.{larger_of_both, signed_bits, unsigned_bits};
ghost use Rattle.col_types.specs.Supertype.{signed_type, unsigned_type};

use crate::data_type::same_zone;
use crate::{DataType, OpName, PolarsError, PolarsResult, get_time_units};
use std::alloc::Global;

/// The least type that has the values of both. Types that have none are refused.
pub fn try_get_supertype(alloc: Global, left: &DataType, right: &DataType) -> PolarsResult<DataType>
    ensures dtype { GivesBy shape_of result (supertype_answer left.now right.now) }
{
    if left.is_same(right) {
        return left.try_clone(alloc);
    }
    match mixed_supertype(left, right) {
        Some(dtype) => Ok(dtype),
        None => Err(PolarsError::Types {
            op: OpName::Supertype,
            left: left.kind(),
            right: right.kind(),
        }),
    }
}

/// The least type that has the values of both, of types that aren't nested. It takes no memory.
pub fn flat_supertype(left: &DataType, right: &DataType) -> Option<DataType>
    requires left { is_nested left.now ≡ false }
    requires right { is_nested right.now ≡ false }
    ensures dtype { result ≡ supertype_of left.now right.now }
{
    if left.is_same(right) {
        Some(left.clone_flat())
    } else {
        mixed_supertype(left, right)
    }
}

// The supertype of two types that differ.
fn mixed_supertype(left: &DataType, right: &DataType) -> Option<DataType>
    ensures dtype { result ≡ mixed_supertype left.now right.now }
{
    match (left, right) {
        (DataType::Date, DataType::Datetime(unit, zone))
        | (DataType::Datetime(unit, zone), DataType::Date) => Some(DataType::Datetime(
            *unit, *zone,
        )),
        (DataType::Datetime(u, y), DataType::Datetime(v, z)) => {
            if same_zone(y, z) {
                Some(DataType::Datetime(get_time_units(*u, *v), *y))
            } else {
                None
            }
        }
        (DataType::Duration(u), DataType::Duration(v)) => {
            Some(DataType::Duration(get_time_units(*u, *v)))
        }
        (DataType::Decimal(p, s), DataType::Decimal(q, t)) => {
            Some(DataType::Decimal(larger_of_both(*p, *q), larger_of_both(*s, *t)))
        }
        _ => integer_supertype(left, right),
    }
}

// The supertype of an integer and an integer or a boolean.
fn integer_supertype(left: &DataType, right: &DataType) -> Option<DataType>
    ensures dtype { result ≡ integer_supertype left.now right.now }
{
    if left.is_same(&DataType::Boolean) {
        integer(right)
    } else if right.is_same(&DataType::Boolean) {
        integer(left)
    } else if left.is_same(&DataType::Int128) {
        with_integer(right, DataType::Int128)
    } else if right.is_same(&DataType::Int128) {
        with_integer(left, DataType::Int128)
    } else {
        small_supertype(left, right)
    }
}

// The type, where it is an integer.
fn integer(dtype: &DataType) -> Option<DataType>
    ensures dtype { result ≡ with_integer dtype.now dtype.now }
{
    if dtype.is_integer() {
        Some(dtype.clone_flat())
    } else {
        None
    }
}

// The answer, where the other type is an integer.
fn with_integer(other: &DataType, answer: DataType) -> Option<DataType>
    ensures dtype { result ≡ with_integer other.now answer }
{
    if other.is_integer() {
        Some(answer)
    } else {
        None
    }
}

// The smallest integer type up to 64 bits that holds the values of both.
fn small_supertype(left: &DataType, right: &DataType) -> Option<DataType>
    ensures dtype { result ≡ small_supertype left.now right.now }
{
    match larger_of_both(unsigned_bits(left), unsigned_bits(right)) {
        Some(bits) => unsigned_type(bits),
        None => signed_type(larger_of_both(signed_bits(left), signed_bits(right))?),
    }
}

fn larger_of_both(left: Option<usize>, right: Option<usize>) -> Option<usize>
    ensures larger { result ≡ larger_of_both left right }
{
    match (left, right) {
        (Some(left), Some(right)) => Some(left.max(right)),
        _ => None,
    }
}

// An unsigned integer fits a signed one of twice its bits.
fn signed_bits(dtype: &DataType) -> Option<usize>
    ensures bits { result ≡ signed_bits dtype.now }
{
    match dtype {
        DataType::Int8 => Some(8),
        DataType::Int16 | DataType::UInt8 => Some(16),
        DataType::Int32 | DataType::UInt16 => Some(32),
        DataType::Int64 | DataType::UInt32 => Some(64),
        DataType::UInt64 => Some(128),
        _ => None,
    }
}

fn unsigned_bits(dtype: &DataType) -> Option<usize>
    ensures bits { result ≡ unsigned_bits dtype.now }
{
    match dtype {
        DataType::UInt8 => Some(8),
        DataType::UInt16 => Some(16),
        DataType::UInt32 => Some(32),
        DataType::UInt64 => Some(64),
        _ => None,
    }
}

fn signed_type(bits: usize) -> Option<DataType>
    ensures dtype { result ≡ signed_type bits }
{
    match bits {
        8 => Some(DataType::Int8),
        16 => Some(DataType::Int16),
        32 => Some(DataType::Int32),
        64 => Some(DataType::Int64),
        _ => None,
    }
}

fn unsigned_type(bits: usize) -> Option<DataType>
    ensures dtype { result ≡ unsigned_type bits }
{
    match bits {
        8 => Some(DataType::UInt8),
        16 => Some(DataType::UInt16),
        32 => Some(DataType::UInt32),
        64 => Some(DataType::UInt64),
        _ => None,
    }
}
