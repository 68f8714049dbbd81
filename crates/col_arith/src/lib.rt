//! Arithmetic of columns: operators, scalar forms, checked division and coercion.
#![tactic(auto)]

mod arith;
mod checked;
mod coercion;
mod columns;
mod intervals;
mod joined;
mod laws;
mod operators;
mod pair_rule;
mod reading;
mod rows;
mod scalar;
mod scalar_intervals;
mod scalars;
mod ticks;
mod words;

pub use arith::SeriesArith;
pub use checked::checked_div;
pub use coercion::{coerce_lhs_rhs, coerce_lhs_rhs_owned};
pub use col_series::{
    AnyValue, CastOptions, DataType, Kind, OpName, PlSmallStr, PolarsError, PolarsResult, Series,
    TimeUnit, TimeZone, ZoneNames, flat_supertype, get_time_units, parse_fixed_offset,
    parse_time_zone, same_zone, try_get_supertype,
};
pub use col_types::{BinOp, ScalarOp};
pub use columns::{binary, uncoerced_binary};
pub use intervals::operator_interval;
pub use laws::{add_then_subtract, subtract_then_add};
pub use scalar::{checked_div_num, scalar_left, scalar_right};
pub use scalar_intervals::{scalar_left_interval, scalar_right_interval};
