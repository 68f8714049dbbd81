//! The unit of lengths of time.

ghost use Rattle.std.specs.Prelude.{◌≡◌, Some, IfOk};
ghost use Rattle.col_types.specs.PolarsError.{GivesBy};
ghost use Rattle.col_model.specs.Chunked.{column_of};
ghost use Rattle.col_model.specs.OperatorCalls.{in_unit_of};
ghost use Rattle.col_logical.specs.Logical.{retyped, unit_of, with_unit};

use crate::changes::in_unit;
use crate::rules::WrappedLengths;
use crate::{DurationChunked, Logical};
use col_types::{DataType, PolarsResult, TimeUnit};
use std::alloc::Global;

impl DurationChunked {
    /// The unit of the ticks.
    pub fn time_unit(&self) -> TimeUnit
        ensures unit { Some result ≡ unit_of self.now.column.dtype }
    {
        match &self.dtype {
            DataType::Duration(unit) => *unit,
            _ => unreachable!(),
        }
    }

    /// Reads the same ticks in another unit.
    pub fn set_time_unit(&mut self, unit: TimeUnit)
        ensures column { self.new ≡ retyped (with_unit unit self.old.column.dtype) self.old }
    {
        self.dtype = DataType::Duration(unit);
    }

    /// The same lengths of time in another unit: rounded towards zero in a coarser one, and wrapped in a finer
    /// one where 64 bits don't hold them.
    pub fn cast_time_unit(&self, alloc: Global, unit: TimeUnit) -> PolarsResult<Self>
        ensures column { GivesBy column_of result (in_unit_of self.now.column unit) }
        ensures chunks { IfOk result (λ changed. changed.chunk_lengths
            ≡ self.now.chunk_lengths) }
    {
        match &self.dtype {
            DataType::Duration(old) => match in_unit::<WrappedLengths>(
                alloc, &self.phys, *old, unit,
            ) {
                Ok(changed) => Ok(Logical::new_logical(changed.array, DataType::Duration(unit))),
                Err(refusal) => Err(refusal),
            },
            _ => unreachable!(),
        }
    }
}
