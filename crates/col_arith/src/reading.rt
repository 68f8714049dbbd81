// Words that are read as columns.
ghost use Rattle.std.specs.Prelude.{◌≡◌, true, IfOk, Some};
ghost use Rattle.std.specs.Int.{w64};
ghost use Rattle.col_types.specs.PolarsError.{Gives, seen_by};
ghost use Rattle.col_types.specs.declared.data_type.DataType.{Date};
ghost use Rattle.col_model.specs.Arithmetic.{Signed};
ghost use Rattle.col_model.specs.Column.{is_built_type, physical_word};
ghost use Rattle.col_logical.specs.Logical.{lie_in_the_day, retyped};

use col_chunk::{Int32Chunked, Int64Chunked};
use col_series::Series;
use col_types::{DataType, PolarsResult};
use std::alloc::Global;

/// Words of 32 bits, read as dates.
pub(crate) fn read_dates(alloc: Global, words: PolarsResult<Int32Chunked>) -> PolarsResult<Series>
    ensures column { Gives result (seen_by (retyped Date) words) }
{
    match words {
        Ok(words) => Series::from_int32(alloc, words, DataType::Date),
        Err(refusal) => Err(refusal),
    }
}

/// Words of 64 bits, read as a type that is kept in such words.
pub(crate) fn read_ticks(
    alloc: Global,
    words: PolarsResult<Int64Chunked>,
    dtype: DataType,
) -> PolarsResult<Series>
    requires built_type { is_built_type dtype ≡ true }
    requires stored { physical_word dtype ≡ Some (Signed w64) }
    requires day { IfOk words (λ words. lie_in_the_day dtype words.column.slots ≡ true) }
    ensures column { Gives result (seen_by (retyped dtype) words) }
{
    match words {
        Ok(words) => Series::from_int64(alloc, words, dtype),
        Err(refusal) => Err(refusal),
    }
}
