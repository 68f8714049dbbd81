//! The kinds of logical types, as types.

ghost use Rattle.std.specs.Prelude.{Bool};
ghost use Rattle.col_types.specs.declared.data_type.DataType.{DataType};
ghost use Rattle.col_logical.specs.Logical.{is_date, is_datetime, is_duration, is_time};

/// A kind of logical types.
pub trait LogicalKind: Drop {
    /// Whether a type is of the kind.
    ghost is_type: { DataType → Bool };
}

/// Days since 1970-01-01.
#[derive(Drop)]
pub struct DateType;

impl LogicalKind for DateType {
    ghost is_type = { is_date };
}

/// Moments in ticks of a unit since 1970-01-01, in a zone or in none.
#[derive(Drop)]
pub struct DatetimeType;

impl LogicalKind for DatetimeType {
    ghost is_type = { is_datetime };
}

/// Lengths of time in ticks of a unit.
#[derive(Drop)]
pub struct DurationType;

impl LogicalKind for DurationType {
    ghost is_type = { is_duration };
}

/// Times of the day in nanoseconds.
#[derive(Drop)]
pub struct TimeType;

impl LogicalKind for TimeType {
    ghost is_type = { is_time };
}
