//! The column of each type, and the words of a column.
ghost use Rattle.col_series.specs.Kinds.{is_int64};

use col_chunk::{Int32Chunked, Int64Chunked};
use col_logical::{
    DateChunked, DatetimeChunked, DurationChunked, Logical, LogicalKind, TimeChunked,
};

/// Integers of 64 bits, as a kind of types.
#[derive(Drop)]
pub struct Int64Type;

impl LogicalKind for Int64Type {
    ghost is_type = { is_int64 };
}

/// A column of one of the types.
#[derive(Drop)]
pub enum Columns {
    Date(DateChunked),
    Datetime(DatetimeChunked),
    Duration(DurationChunked),
    Time(TimeChunked),
    /// Words that are read as the integers that they are.
    Int64(Logical<Int64Type, i64>),
}

/// The words of a column, as wide as its type keeps them.
#[derive(Drop)]
pub enum Physical<'a> {
    Int32(&'a Int32Chunked),
    Int64(&'a Int64Chunked),
}
