//! Columns of one type as columns of any, and back.

ghost use Rattle.std.specs.Prelude.{◌≡◌, true, Ok};
ghost use Rattle.col_types.specs.PolarsError.{Gives, seen_by};
ghost use Rattle.col_model.specs.Chunked.{Chunked};
ghost use Rattle.col_logical.specs.Logical.{is_date, is_datetime, is_duration, is_time};
ghost use Rattle.col_logical.specs.Logical.{retyped};
ghost use Rattle.col_series.specs.Columns.{of_kind};
ghost use Rattle.col_series.specs.Kinds.{is_int64};

use crate::columns::Columns;
use crate::series::Series;
use crate::{DataType, PolarsError, PolarsResult};
use col_chunk::Int64Chunked;
use col_logical::{DateChunked, DatetimeChunked, DurationChunked, TimeChunked};
use std::alloc::Global;

/// What becomes a column of any type.
pub trait IntoSeries {
    /// The column.
    ghost column: { Self → Chunked };

    /// The column. It takes memory for its place alone.
    fn into_series(self, alloc: Global) -> PolarsResult<Series>
        ensures column { Gives result (Ok (column self)) };
}

impl IntoSeries for DateChunked {
    ghost column = { λ dates. dates };

    fn into_series(self, alloc: Global) -> PolarsResult<Series> {
        Series::new(alloc, Columns::Date(self))
    }
}

impl IntoSeries for DatetimeChunked {
    ghost column = { λ moments. moments };

    fn into_series(self, alloc: Global) -> PolarsResult<Series> {
        Series::new(alloc, Columns::Datetime(self))
    }
}

impl IntoSeries for DurationChunked {
    ghost column = { λ lengths. lengths };

    fn into_series(self, alloc: Global) -> PolarsResult<Series> {
        Series::new(alloc, Columns::Duration(self))
    }
}

impl IntoSeries for TimeChunked {
    ghost column = { λ times. times };

    fn into_series(self, alloc: Global) -> PolarsResult<Series> {
        Series::new(alloc, Columns::Time(self))
    }
}

impl IntoSeries for Int64Chunked {
    ghost column = { λ words. words };

    fn into_series(self, alloc: Global) -> PolarsResult<Series> {
        self.known();
        Series::from_int64(alloc, self, DataType::Int64)
    }
}

impl Series {
    /// The column of dates. Refused where the type is another (`SchemaMismatch`).
    pub fn date(&self) -> PolarsResult<&DateChunked>
        ensures column { seen_by (λ dates. dates.now) result ≡ of_kind is_date self.now }
    {
        match self.dtype() {
            DataType::Date => Ok(self.dates()),
            _ => Err(PolarsError::SchemaMismatch),
        }
    }

    /// The column of moments. Refused where the type is another (`SchemaMismatch`).
    pub fn datetime(&self) -> PolarsResult<&DatetimeChunked>
        ensures column { seen_by (λ moments. moments.now) result ≡ of_kind is_datetime self.now }
    {
        match self.dtype() {
            DataType::Datetime(_, _) => Ok(self.moments()),
            _ => Err(PolarsError::SchemaMismatch),
        }
    }

    /// The column of lengths of time. Refused where the type is another (`SchemaMismatch`).
    pub fn duration(&self) -> PolarsResult<&DurationChunked>
        ensures column { seen_by (λ lengths. lengths.now) result ≡ of_kind is_duration self.now }
    {
        match self.dtype() {
            DataType::Duration(_) => Ok(self.lengths()),
            _ => Err(PolarsError::SchemaMismatch),
        }
    }

    /// The column of times of the day. Refused where the type is another (`SchemaMismatch`).
    pub fn time(&self) -> PolarsResult<&TimeChunked>
        ensures column { seen_by (λ times. times.now) result ≡ of_kind is_time self.now }
    {
        match self.dtype() {
            DataType::Time => Ok(self.times()),
            _ => Err(PolarsError::SchemaMismatch),
        }
    }

    /// The column of integers of 64 bits. Refused where the type is another (`SchemaMismatch`).
    pub fn i64(&self) -> PolarsResult<&Int64Chunked>
        ensures column { seen_by (λ words. words.now) result ≡ of_kind is_int64 self.now }
    {
        match self.dtype() {
            DataType::Int64 => Ok(self.integers()),
            _ => Err(PolarsError::SchemaMismatch),
        }
    }

    fn dates(&self) -> &DateChunked
        requires kind { is_date self.now.column.dtype ≡ true }
        ensures column { result.now ≡ self.now }
    {
        match self.columns() {
            Columns::Date(dates) => dates,
            Columns::Datetime(moments) => {
                moments.known();
                unreachable!()
            }
            Columns::Duration(lengths) => {
                lengths.known();
                unreachable!()
            }
            Columns::Time(times) => {
                times.known();
                unreachable!()
            }
            Columns::Int64(integers) => {
                integers.known();
                unreachable!()
            }
        }
    }

    fn moments(&self) -> &DatetimeChunked
        requires kind { is_datetime self.now.column.dtype ≡ true }
        ensures column { result.now ≡ self.now }
    {
        match self.columns() {
            Columns::Date(dates) => {
                dates.known();
                unreachable!()
            }
            Columns::Datetime(moments) => moments,
            Columns::Duration(lengths) => {
                lengths.known();
                unreachable!()
            }
            Columns::Time(times) => {
                times.known();
                unreachable!()
            }
            Columns::Int64(integers) => {
                integers.known();
                unreachable!()
            }
        }
    }

    fn lengths(&self) -> &DurationChunked
        requires kind { is_duration self.now.column.dtype ≡ true }
        ensures column { result.now ≡ self.now }
    {
        match self.columns() {
            Columns::Date(dates) => {
                dates.known();
                unreachable!()
            }
            Columns::Datetime(moments) => {
                moments.known();
                unreachable!()
            }
            Columns::Duration(lengths) => lengths,
            Columns::Time(times) => {
                times.known();
                unreachable!()
            }
            Columns::Int64(integers) => {
                integers.known();
                unreachable!()
            }
        }
    }

    fn times(&self) -> &TimeChunked
        requires kind { is_time self.now.column.dtype ≡ true }
        ensures column { result.now ≡ self.now }
    {
        match self.columns() {
            Columns::Date(dates) => {
                dates.known();
                unreachable!()
            }
            Columns::Datetime(moments) => {
                moments.known();
                unreachable!()
            }
            Columns::Duration(lengths) => {
                lengths.known();
                unreachable!()
            }
            Columns::Time(times) => times,
            Columns::Int64(integers) => {
                integers.known();
                unreachable!()
            }
        }
    }

    fn integers(&self) -> &Int64Chunked
        requires kind { is_int64 self.now.column.dtype ≡ true }
        ensures column { result.now ≡ self.now }
    {
        let words = self.int64_words();
        words.known();
        words
    }

    fn int64_words(&self) -> &Int64Chunked
        requires kind { is_int64 self.now.column.dtype ≡ true }
        ensures column { self.now ≡ retyped self.now.column.dtype result.now }
    {
        match self.columns() {
            Columns::Date(dates) => {
                dates.known();
                unreachable!()
            }
            Columns::Datetime(moments) => {
                moments.known();
                unreachable!()
            }
            Columns::Duration(lengths) => {
                lengths.known();
                unreachable!()
            }
            Columns::Time(times) => {
                times.known();
                unreachable!()
            }
            Columns::Int64(integers) => integers.physical(),
        }
    }
}
