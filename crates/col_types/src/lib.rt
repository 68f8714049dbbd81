//! Units, column types, zones, sort marks and refusals.
#![tactic(auto)]

mod cast_options;
mod data_type;
mod error;
mod field;
mod is_sorted;
mod laws;
mod nested_type;
mod operator;
mod small_str;
mod supertype;
mod time_unit;
mod time_zone;
mod type_classes;
mod zone_names;
mod zone_text;

pub use cast_options::{CastOptions, CastOptionsImpl};
pub use data_type::{DataType, Kind, same_zone};
pub use error::{PolarsError, PolarsResult};
pub use field::Field;
pub use is_sorted::IsSorted;
pub use laws::{
    equal_types, known_supertypes, known_types, known_units, known_zones, names_are_kept,
    reverse_flag, units_are_ordered, units_translate, zone_equalities, zone_names_are_canonical,
};
pub use operator::{BinOp, OpName, ScalarOp};
pub use small_str::PlSmallStr;
pub use supertype::{flat_supertype, try_get_supertype};
pub use time_unit::{ArrowTimeUnit, MILLIS_PER_DAY, NANOS_PER_DAY, TimeUnit, get_time_units};
pub use time_zone::{MAX_ZONE_BYTES, TimeZone, parse_fixed_offset, parse_time_zone};
pub use type_classes::MAX_DIGITS;
pub use zone_names::ZoneNames;

/// The number of a row.
pub type IdxSize = u32;
