//! Columns of words that become logical ones.

ghost use Rattle.std.specs.Prelude.{◌≡◌, false, Ok};
ghost use Rattle.col_types.specs.DataType.{is_wildcard};
ghost use Rattle.col_types.specs.PolarsError.{Gives};
ghost use Rattle.col_types.specs.declared.data_type.DataType.{Date, Datetime, Duration, Time};
ghost use Rattle.col_model.specs.Chunked.{Chunked};
ghost use Rattle.col_logical.specs.Logical.{retyped, times_of};

use crate::changes::times_of;
use crate::{DateChunked, DatetimeChunked, DurationChunked, Logical, TimeChunked};
use col_chunk::{Int32Chunked, Int64Chunked};
use col_types::{DataType, PolarsResult, TimeUnit, TimeZone};
use std::alloc::Global;

/// What a column of words of 32 bits can be read as.
pub trait Int32Logical {
    /// The column.
    ghost column: { Self → Chunked };

    /// The words as days.
    fn into_date(self) -> DateChunked
        ensures column { result ≡ retyped Date (column self) };
}

impl Int32Logical for Int32Chunked {
    ghost column = { λ array. array };

    fn into_date(self) -> DateChunked {
        Logical::new_logical(self, DataType::Date)
    }
}

/// What a column of words of 64 bits can be read as.
pub trait Int64Logical {
    /// The column.
    ghost column: { Self → Chunked };

    /// The words as moments in ticks of a unit.
    fn into_datetime(self, unit: TimeUnit, zone: Option<TimeZone>) -> DatetimeChunked
        requires zone { is_wildcard zone ≡ false }
        ensures column { result ≡ retyped (Datetime unit zone) (column self) };

    /// The words as lengths of time in ticks of a unit.
    fn into_duration(self, unit: TimeUnit) -> DurationChunked
        ensures column { result ≡ retyped (Duration unit) (column self) };

    /// The words as nanoseconds since the day began. A word outside the day becomes null.
    fn into_time(self, alloc: Global) -> PolarsResult<TimeChunked>
        ensures column { Gives result (Ok (retyped Time (times_of (column self)))) };
}

impl Int64Logical for Int64Chunked {
    ghost column = { λ array. array };

    fn into_datetime(self, unit: TimeUnit, zone: Option<TimeZone>) -> DatetimeChunked {
        Logical::new_logical(self, DataType::Datetime(unit, zone))
    }

    fn into_duration(self, unit: TimeUnit) -> DurationChunked {
        Logical::new_logical(self, DataType::Duration(unit))
    }

    fn into_time(self, alloc: Global) -> PolarsResult<TimeChunked> {
        match times_of(alloc, &self) {
            Ok(times) => Ok(Logical::new_logical(times, DataType::Time)),
            Err(refusal) => Err(refusal),
        }
    }
}
