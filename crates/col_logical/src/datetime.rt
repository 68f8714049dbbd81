//! The unit and the zone of moments.

ghost use Rattle.std.specs.Prelude.{◌≡◌, Some, false, IfOk};
ghost use Rattle.std.specs.Option.{option_copied};
ghost use Rattle.col_types.specs.DataType.{is_wildcard};
ghost use Rattle.col_types.specs.PolarsError.{GivesBy};
ghost use Rattle.col_model.specs.Chunked.{column_of};
ghost use Rattle.col_model.specs.OperatorCalls.{in_unit_of};
ghost use Rattle.col_logical.specs.Logical.{retyped, unit_of, with_unit, with_zone, zone_in};

use crate::changes::in_unit;
use crate::rules::WrappedMoments;
use crate::{DatetimeChunked, Logical};
use col_types::{DataType, PolarsResult, TimeUnit, TimeZone};
use std::alloc::Global;

impl DatetimeChunked {
    /// The unit of the ticks.
    pub fn time_unit(&self) -> TimeUnit
        ensures unit { Some result ≡ unit_of self.now.column.dtype }
    {
        match &self.dtype {
            DataType::Datetime(unit, _) => *unit,
            _ => unreachable!(),
        }
    }

    /// The zone, if there is one.
    pub fn time_zone(&self) -> Option<&TimeZone>
        ensures zone { option_copied result ≡ zone_in self.now.column.dtype }
    {
        match &self.dtype {
            DataType::Datetime(_, zone) => zone.as_ref(),
            _ => unreachable!(),
        }
    }

    /// Reads the same ticks in another unit.
    pub fn set_time_unit(&mut self, unit: TimeUnit)
        ensures column { self.new ≡ retyped (with_unit unit self.old.column.dtype) self.old }
    {
        match &self.dtype {
            DataType::Datetime(_, zone) => self.dtype = DataType::Datetime(unit, *zone),
            _ => unreachable!(),
        }
    }

    /// Reads the same ticks in another zone.
    pub fn set_time_zone(&mut self, zone: Option<TimeZone>)
        requires zone { is_wildcard zone ≡ false }
        ensures column { self.new ≡ retyped (with_zone zone self.old.column.dtype) self.old }
    {
        match &self.dtype {
            DataType::Datetime(unit, _) => self.dtype = DataType::Datetime(*unit, zone),
            _ => unreachable!(),
        }
    }

    /// Reads the same ticks in another unit and zone.
    pub fn set_time_unit_and_time_zone(&mut self, unit: TimeUnit, zone: Option<TimeZone>)
        requires zone { is_wildcard zone ≡ false }
        ensures column { self.new
            ≡ retyped (with_zone zone (with_unit unit self.old.column.dtype)) self.old }
    {
        self.set_time_unit(unit);
        self.set_time_zone(zone);
    }

    /// The same moments in another unit: rounded down in a coarser one, and wrapped in a finer
    /// one where 64 bits don't hold them.
    pub fn cast_time_unit(&self, alloc: Global, unit: TimeUnit) -> PolarsResult<Self>
        ensures column { GivesBy column_of result (in_unit_of self.now.column unit) }
        ensures chunks { IfOk result (λ changed. changed.chunk_lengths
            ≡ self.now.chunk_lengths) }
    {
        match &self.dtype {
            DataType::Datetime(old, zone) => match in_unit::<WrappedMoments>(
                alloc, &self.phys, *old, unit,
            ) {
                Ok(changed) => Ok(Logical::new_logical(
                    changed.array,
                    DataType::Datetime(unit, *zone),
                )),
                Err(refusal) => Err(refusal),
            },
            _ => unreachable!(),
        }
    }
}
