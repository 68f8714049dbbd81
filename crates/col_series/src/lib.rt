//! Columns: a name, a type and shared slots, and the casts of a column.
#![tactic(auto)]

mod any_value;
mod casts;
mod chunk_lens;
mod columns;
mod conversions;
mod intervals;
mod laws;
mod reading;
mod series;
mod slots;
mod tick_rule;

pub use any_value::AnyValue;
pub use chunk_lens::ChunkLenIter;
pub use col_types::{
    CastOptions, DataType, Kind, OpName, PlSmallStr, PolarsError, PolarsResult, TimeUnit, TimeZone,
    ZoneNames, flat_supertype, get_time_units, parse_fixed_offset, parse_time_zone, same_zone,
    try_get_supertype,
};
pub use columns::Physical;
pub use conversions::IntoSeries;
pub use intervals::{cast_interval, unit_interval};
pub use laws::{own_type_keeps_column, times_lie_in_the_day};
pub use series::Series;
