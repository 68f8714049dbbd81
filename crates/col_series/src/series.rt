//! A column: a name, a type and slots in chunks.

ghost use Rattle.std.specs.Prelude.{◌≡◌, true, false, Ok, Some, length};
ghost use Rattle.std.specs.Int.{w32, w64};
ghost use Rattle.col_types.specs.PolarsError.{Gives, GivesBy, seen_by};
ghost use Rattle.col_types.specs.declared.is_sorted.IsSorted.TheVariants.{Not};
ghost use Rattle.col_model.specs.Arithmetic.{Signed};
ghost use Rattle.col_model.specs.Column.{IsValidColumn, is_built_type, physical_word};
ghost use Rattle.col_model.specs.ChunkCalls.{null_column, null_count};
ghost use Rattle.col_model.specs.Chunked.{column_of};
ghost use Rattle.col_model.specs.ColumnCalls.{chunked_from};
ghost use Rattle.col_model.specs.OperatorCalls.{in_unit_of, shifted};
ghost use Rattle.col_logical.specs.Logical.{lie_in_the_day, retyped};
ghost use Rattle.col_types.specs.declared.operator.OpName.TheVariants.{Coerce};
ghost use Rattle.col_model.specs.OperationNames.{unsupported};
ghost use Rattle.col_series.specs.Columns.{shown, word_of, words_shown};

use crate::columns::{Columns, Physical};
use crate::slots::{ROW_LIMIT, first_unfit, words_of};
use crate::{DataType, OpName, PlSmallStr, PolarsError, PolarsResult, TimeUnit};
use col_chunk::{Int32Chunked, Int64Chunked};
use col_logical::Logical;
use std::alloc::Global;
use std::marker::Model;
use std::rc::Rc;

/// A column. Its clones share it, and some casts share its buffers.
#[derive(Drop)]
pub struct Series {
    columns: Rc<Columns>,
}

impl Model for Series {
    ghost use Rattle.std.specs.Coded.{codes};
    ghost use Rattle.col_types.specs.contracts.data_type.DataType as data_type;
    ghost use Rattle.col_model.specs.Chunked.{Chunked};
    ghost use Rattle.col_series.specs.Columns.{shown};

    ghost Value = { Chunked };

    ghost coded = { Prim.hlevel (codes, data_type.the_row.coded) };

    ghost view = { λ s. shown s.columns.value };
}

impl Series {
    /// A column of these slots, in one chunk, with no claim on their order. Refused where a value
    /// isn't one of the type (`Fit`, with the least such row), then at 2^32 slots or more
    /// (`TooLong`).
    pub fn from_slots(
        alloc: Global,
        name: PlSmallStr,
        dtype: &DataType,
        slots: &[Option<i128>],
    ) -> PolarsResult<Series>
        requires built_type { is_built_type dtype.now ≡ true }
        ensures column { Gives result (chunked_from name dtype.now slots.now) }
    {
        match first_unfit(dtype, slots) {
            Some(row) => return Err(PolarsError::Fit { row }),
            None => {}
        }
        if slots.len() >= ROW_LIMIT {
            return Err(PolarsError::TooLong {
                len: slots.len() as u64,
            });
        }
        if is_in_32_bits(dtype) {
            let words = words_of(alloc, name, slots)?;
            return Series::from_int32(alloc, words, dtype.clone_flat());
        }
        let words = words_of(alloc, name, slots)?;
        Series::from_int64(alloc, words, dtype.clone_flat())
    }

    /// A column of so many nulls, in one chunk. Refused at 2^32 rows or more (`TooLong`).
    pub fn full_null(
        alloc: Global,
        name: PlSmallStr,
        length: usize,
        dtype: &DataType,
    ) -> PolarsResult<Series>
        requires built_type { is_built_type dtype.now ≡ true }
        ensures column { Gives result (null_column name dtype.now length) }
    {
        if is_in_32_bits(dtype) {
            return match Int32Chunked::full_null(alloc, name, length) {
                Ok(words) => Series::from_int32(alloc, words, dtype.clone_flat()),
                Err(refusal) => Err(refusal),
            };
        }
        match Int64Chunked::full_null(alloc, name, length) {
            Ok(words) => Series::from_int64(alloc, words, dtype.clone_flat()),
            Err(refusal) => Err(refusal),
        }
    }

    /// The column of one type as a column of any.
    pub(crate) fn new(alloc: Global, columns: Columns) -> PolarsResult<Series>
        ensures column { Gives result (Ok (shown columns)) }
    {
        Ok(Series {
            columns: Rc::new(alloc, columns)?,
        })
    }

    /// The column of one type.
    pub(crate) fn columns(&self) -> &Columns
        ensures column { shown result.now ≡ self.now }
    {
        &self.columns
    }

    /// The words of a column of 32 bits, read as a type that is kept in such words.
    pub fn from_int32(alloc: Global, words: Int32Chunked, dtype: DataType) -> PolarsResult<Series>
        requires built_type { is_built_type dtype ≡ true }
        requires stored { physical_word dtype ≡ Some (Signed w32) }
        ensures column { Gives result (Ok (retyped dtype words)) }
    {
        match dtype {
            DataType::Date => {
                Series::new(
                    alloc,
                    Columns::Date(Logical::new_logical(words, DataType::Date)),
                )
            }
            _ => unreachable!(),
        }
    }

    /// The words of a column of 64 bits, read as a type that is kept in such words.
    pub fn from_int64(alloc: Global, words: Int64Chunked, dtype: DataType) -> PolarsResult<Series>
        requires built_type { is_built_type dtype ≡ true }
        requires stored { physical_word dtype ≡ Some (Signed w64) }
        requires day { lie_in_the_day dtype words.column.slots ≡ true }
        ensures column { Gives result (Ok (retyped dtype words)) }
    {
        let columns = match &dtype {
            DataType::Datetime(_, _) => Columns::Datetime(Logical::new_logical(words, dtype)),
            DataType::Duration(_) => Columns::Duration(Logical::new_logical(words, dtype)),
            DataType::Time => Columns::Time(Logical::new_logical(words, dtype)),
            DataType::Int64 => Columns::Int64(Logical::new_logical(words, dtype)),
            _ => unreachable!(),
        };
        Series::new(alloc, columns)
    }

    /// The name.
    pub fn name(&self) -> &PlSmallStr
        ensures name { result.now ≡ self.now.column.name }
    {
        match &*self.columns {
            Columns::Date(dates) => dates.name(),
            Columns::Datetime(moments) => moments.name(),
            Columns::Duration(lengths) => lengths.name(),
            Columns::Time(times) => times.name(),
            Columns::Int64(integers) => integers.name(),
        }
    }

    /// The type.
    pub fn dtype(&self) -> &DataType
        ensures dtype { result.now ≡ self.now.column.dtype }
    {
        match &*self.columns {
            Columns::Date(dates) => dates.dtype(),
            Columns::Datetime(moments) => moments.dtype(),
            Columns::Duration(lengths) => lengths.dtype(),
            Columns::Time(times) => times.dtype(),
            Columns::Int64(integers) => integers.dtype(),
        }
    }

    /// The number of rows.
    pub fn len(&self) -> usize
        ensures length { result ≡ length self.now.column.slots }
    {
        match &*self.columns {
            Columns::Date(dates) => dates.len(),
            Columns::Datetime(moments) => moments.len(),
            Columns::Duration(lengths) => lengths.len(),
            Columns::Time(times) => times.len(),
            Columns::Int64(integers) => integers.len(),
        }
    }

    /// The number of nulls. Takes the time of the words of validity.
    pub fn null_count(&self) -> usize
        ensures nulls { result ≡ null_count self.now.column.slots }
    {
        match &*self.columns {
            Columns::Date(dates) => dates.null_count(),
            Columns::Datetime(moments) => moments.null_count(),
            Columns::Duration(lengths) => lengths.null_count(),
            Columns::Time(times) => times.null_count(),
            Columns::Int64(integers) => integers.null_count(),
        }
    }

    /// The number of chunks.
    pub fn n_chunks(&self) -> usize
        ensures chunks { result ≡ length self.now.chunk_lengths }
    {
        match &*self.columns {
            Columns::Date(dates) => dates.n_chunks(),
            Columns::Datetime(moments) => moments.n_chunks(),
            Columns::Duration(lengths) => lengths.n_chunks(),
            Columns::Time(times) => times.n_chunks(),
            Columns::Int64(integers) => integers.n_chunks(),
        }
    }

    /// Does nothing: its contract tells a caller that the column is valid, with no claim on its
    /// order.
    pub fn known(&self)
        ensures valid { IsValidColumn self.now.column }
        ensures unmarked { self.now.column.flag ≡ Not }
    {
        match &*self.columns {
            Columns::Date(dates) => dates.known(),
            Columns::Datetime(moments) => moments.known(),
            Columns::Duration(lengths) => lengths.known(),
            Columns::Time(times) => times.known(),
            Columns::Int64(integers) => integers.known(),
        }
    }

    /// The words.
    pub fn physical(&self) -> Physical<'_>
        ensures column { self.now ≡ retyped self.now.column.dtype (words_shown result) }
        ensures stored { physical_word self.now.column.dtype ≡ Some (word_of result) }
    {
        match &*self.columns {
            Columns::Date(dates) => {
                dates.known();
                Physical::Int32(dates.physical())
            }
            Columns::Datetime(moments) => {
                moments.known();
                Physical::Int64(moments.physical())
            }
            Columns::Duration(lengths) => {
                lengths.known();
                Physical::Int64(lengths.physical())
            }
            Columns::Time(times) => {
                times.known();
                Physical::Int64(times.physical())
            }
            Columns::Int64(integers) => {
                integers.known();
                Physical::Int64(integers.physical())
            }
        }
    }

    /// The words of a column whose type is kept in 32 bits.
    pub fn int32(&self) -> &Int32Chunked
        requires stored { physical_word self.now.column.dtype ≡ Some (Signed w32) }
        ensures column { self.now ≡ retyped self.now.column.dtype result.now }
    {
        match self.physical() {
            Physical::Int32(words) => words,
            Physical::Int64(_) => unreachable!(),
        }
    }

    /// The words of a column whose type is kept in 64 bits.
    pub fn int64(&self) -> &Int64Chunked
        requires stored { physical_word self.now.column.dtype ≡ Some (Signed w64) }
        ensures column { self.now ≡ retyped self.now.column.dtype result.now }
    {
        match self.physical() {
            Physical::Int32(_) => unreachable!(),
            Physical::Int64(words) => words,
        }
    }

    /// An equal column, which shares this one: it takes no time for the rows.
    pub fn try_clone(&self, alloc: Global) -> PolarsResult<Series>
        ensures column { Gives result (Ok self.now) }
    {
        let _ = alloc;
        Ok(Series {
            columns: self.columns.clone()?,
        })
    }

    /// The column in another unit: moments round down and lengths of time towards zero in a coarser
    /// one, and in a finer one what leaves 64 bits wraps. Refused where the type has no unit
    /// (`Types`).
    pub fn cast_time_unit(&self, alloc: Global, unit: TimeUnit) -> PolarsResult<Series>
        ensures column { GivesBy column_of result (in_unit_of self.now.column unit) }
    {
        match &*self.columns {
            Columns::Datetime(moments) => match moments.cast_time_unit(alloc, unit) {
                Ok(moments) => Series::new(alloc, Columns::Datetime(moments)),
                Err(refusal) => Err(refusal),
            },
            Columns::Duration(lengths) => match lengths.cast_time_unit(alloc, unit) {
                Ok(lengths) => Series::new(alloc, Columns::Duration(lengths)),
                Err(refusal) => Err(refusal),
            },
            Columns::Date(dates) => {
                dates.known();
                Err(without_unit(dates.dtype()))
            }
            Columns::Time(times) => {
                times.known();
                Err(without_unit(times.dtype()))
            }
            Columns::Int64(integers) => {
                integers.known();
                Err(without_unit(integers.dtype()))
            }
        }
    }

    /// The column with each slot so many rows further down, or up for a negative number. A row that
    /// none moves to is null.
    pub fn shift(&self, alloc: Global, periods: i64) -> PolarsResult<Series>
        ensures column { GivesBy column_of result (Ok (shifted self.now.column periods)) }
    {
        self.known();
        let dtype = self.dtype().clone_flat();
        match self.physical() {
            Physical::Int32(words) => match words.shift(alloc, periods) {
                Ok(words) => Series::from_int32(alloc, words, dtype),
                Err(refusal) => Err(refusal),
            },
            Physical::Int64(words) => match words.shift(alloc, periods) {
                Ok(words) => Series::from_int64(alloc, words, dtype),
                Err(refusal) => Err(refusal),
            },
        }
    }
}

/// Whether a column of the type is kept in words of 32 bits, and not in those of 64.
pub(crate) fn is_in_32_bits(dtype: &DataType) -> bool
    requires built_type { is_built_type dtype.now ≡ true }
    ensures narrow { result ≡ true → physical_word dtype.now ≡ Some (Signed w32) }
    ensures wide { result ≡ false → physical_word dtype.now ≡ Some (Signed w64) }
{
    match dtype {
        DataType::Date => true,
        DataType::Datetime(_, _) | DataType::Duration(_) | DataType::Time | DataType::Int64 => {
            false
        }
        _ => unreachable!(),
    }
}

/// The refusal of a change of unit where the type has none.
fn without_unit(dtype: &DataType) -> PolarsError
    ensures refusal { result ≡ unsupported Coerce dtype.now dtype.now }
{
    PolarsError::Types {
        op: OpName::Coerce,
        left: dtype.kind(),
        right: dtype.kind(),
    }
}
