// The texts of types.
ghost use Rattle.std.specs.Prelude.{◌≡◌, ◌++◌, true, false, codes, string_bytes};
ghost use Rattle.std.specs.Prelude.{OnOk, IfSome, option_map};
ghost use Rattle.col_types.specs.DataType.{holds_integers, is_built};
ghost use Rattle.col_types.specs.TimeUnit.{unit_name};
ghost use Rattle.col_model.specs.Column.{is_built_type};
ghost use Rattle.col_expr.specs.Built.{is_built_cast};
ghost use Rattle.col_text.specs.Types.{
  column_dtype,
  dtype_among,
  dtype_named,
  dtype_text,
  plain_dtypes,
  target_dtypes,
  target_named,
  zone_named,
  zone_part,
  zone_text,
  zoned_dtype,
};

use crate::words::{graphic_text, is_word};
use col_types::{DataType, TimeUnit, TimeZone, ZoneNames};
use std::alloc::AllocError;

fn plain_dtype(token: &[u8]) -> Option<DataType>
    ensures dtype { result ≡ dtype_among plain_dtypes token.now }
    ensures built { IfSome result (λ dtype. is_built dtype ≡ true) }
{
    if is_word(token, "i64") {
        Some(DataType::Int64)
    } else if is_word(token, "date") {
        Some(DataType::Date)
    } else if is_word(token, "time") {
        Some(DataType::Time)
    } else if is_word(token, "datetime[ns]") {
        Some(DataType::Datetime(TimeUnit::Nanoseconds, None))
    } else if is_word(token, "datetime[us]") {
        Some(DataType::Datetime(TimeUnit::Microseconds, None))
    } else if is_word(token, "datetime[ms]") {
        Some(DataType::Datetime(TimeUnit::Milliseconds, None))
    } else if is_word(token, "duration[ns]") {
        Some(DataType::Duration(TimeUnit::Nanoseconds))
    } else if is_word(token, "duration[us]") {
        Some(DataType::Duration(TimeUnit::Microseconds))
    } else if is_word(token, "duration[ms]") {
        Some(DataType::Duration(TimeUnit::Milliseconds))
    } else {
        None
    }
}

/// A type that no column of an expression has, though a cast may name it.
fn target_dtype(token: &[u8]) -> Option<DataType>
    ensures dtype { result ≡ dtype_among target_dtypes token.now }
    ensures no_integers { IfSome result (λ dtype. holds_integers dtype ≡ false) }
{
    if is_word(token, "string") {
        Some(DataType::String)
    } else if is_word(token, "binary") {
        Some(DataType::Binary)
    } else {
        None
    }
}

/// What stands before the zone.
fn zone_front(unit: TimeUnit) -> &'static str
    ensures text { result.now ≡ codes "datetime[" ++ (unit_name unit ++ codes ",") }
{
    match unit {
        TimeUnit::Nanoseconds => "datetime[ns,",
        TimeUnit::Microseconds => "datetime[us,",
        TimeUnit::Milliseconds => "datetime[ms,",
    }
}

fn zone_part(unit: TimeUnit, token: &[u8]) -> Option<&[u8]>
    ensures zone { option_map (λ part. part.now) result ≡ zone_part unit token.now }
{
    token
        .strip_prefix(zone_front(unit).as_bytes())?
        .strip_suffix(b"]")
}

fn zone_named(names: &ZoneNames, part: &[u8]) -> Option<Option<TimeZone>>
    ensures zone { result ≡ zone_named names.now part.now }
{
    TimeZone::opt_try_new(Some(graphic_text(part)?), names).ok()
}

fn zoned_dtype(names: &ZoneNames, token: &[u8], unit: TimeUnit) -> Option<DataType>
    ensures dtype { result ≡ zoned_dtype names.now token.now unit }
    ensures built { IfSome result (λ dtype. is_built dtype ≡ true) }
{
    let zone = zone_named(names, zone_part(unit, token)?)?;
    Some(DataType::Datetime(unit, zone))
}

/// The type that a token names, with the zones handed in before.
fn dtype_named(names: &ZoneNames, token: &[u8]) -> Option<DataType>
    ensures dtype { result ≡ dtype_named names.now token.now }
    ensures built { IfSome result (λ dtype. is_built dtype ≡ true) }
{
    plain_dtype(token)
        .or_else(|| zoned_dtype(names, token, TimeUnit::Nanoseconds))
        .or_else(|| zoned_dtype(names, token, TimeUnit::Microseconds))
        .or_else(|| zoned_dtype(names, token, TimeUnit::Milliseconds))
}

/// The type of a column that a token names.
pub(crate) fn column_dtype(names: &ZoneNames, token: &[u8]) -> Option<DataType>
    ensures dtype { result ≡ column_dtype names.now token.now }
    ensures built { IfSome result (λ dtype. is_built_type dtype ≡ true) }
{
    let dtype = dtype_named(names, token)?;
    if dtype.is_expression_type() {
        Some(dtype)
    } else {
        None
    }
}

/// The target of a cast that a token names.
pub(crate) fn target_named(names: &ZoneNames, token: &[u8]) -> Option<DataType>
    ensures dtype { result ≡ target_named names.now token.now }
    ensures built { IfSome result (λ dtype. is_built_cast dtype ≡ true) }
{
    dtype_named(names, token).or_else(|| target_dtype(token))
}

fn push_zone(text: &mut String, zone: &Option<TimeZone>) -> Result<(), AllocError>
    ensures text { OnOk result (string_bytes text.new
        ≡ string_bytes text.old ++ zone_text zone.now) }
{
    match zone {
        Some(zone) => {
            text.push_str(",")?;
            text.push_str(zone.as_str())
        }
        None => Ok(()),
    }
}

/// Writes the text of a type behind the others.
pub(crate) fn push_dtype(text: &mut String, dtype: &DataType) -> Result<(), AllocError>
    ensures text { OnOk result (string_bytes text.new
        ≡ string_bytes text.old ++ dtype_text dtype.now) }
{
    match dtype {
        DataType::Int64 => text.push_str("i64"),
        DataType::Date => text.push_str("date"),
        DataType::Time => text.push_str("time"),
        DataType::Datetime(unit, zone) => {
            text.push_str("datetime[")?;
            text.push_str(unit.to_ascii())?;
            push_zone(text, zone)?;
            text.push_str("]")
        }
        DataType::Duration(unit) => {
            text.push_str("duration[")?;
            text.push_str(unit.to_ascii())?;
            text.push_str("]")
        }
        DataType::String => text.push_str("string"),
        DataType::Binary => text.push_str("binary"),
        _ => Ok(()),
    }
}
