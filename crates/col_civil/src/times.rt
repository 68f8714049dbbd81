//! Columns of times from civil times, and civil times of columns.

ghost use Rattle.std.specs.Prelude.{◌≡◌};
ghost use Rattle.std.specs.Iterator.{IsFinite};
ghost use Rattle.col_types.specs.declared.data_type.DataType.{Time};
ghost use Rattle.col_model.specs.Chunked.{Chunked};
ghost use Rattle.col_model.specs.Items.{AnswersItems};
ghost use Rattle.col_civil.specs.Civil.{shown_times};
ghost use Rattle.col_civil.specs.Made.{column_of_items, or_null, time_slot};

use crate::TimeIter;
use crate::items::from_items;
use crate::rules::{OrNull, Times};
use col_logical::TimeChunked;
use col_types::{PlSmallStr, PolarsResult};
use jiff::civil::Time as CivilTime;
use std::alloc::Global;

/// Civil times of a column of times of the day.
pub trait CivilTimes {
    /// The column.
    ghost column: { Self → Chunked };

    /// A column of these times in their order, in one chunk. The iterator has to end. Refused at the
    /// item 2^32 (`TooLong`, which tells that number).
    fn from_naive_time<I: Iterator<Item = CivilTime>>(
        alloc: Global,
        name: PlSmallStr,
        items: I,
    ) -> PolarsResult<TimeChunked>
        requires can { I.can_next items }
        requires ends { IsFinite (I.remaining items) }
        ensures column { AnswersItems I.next_gives items (column_of_items name Time time_slot)
            result };

    /// The same for times that may be missing, which are null.
    fn from_naive_time_options<I: Iterator<Item = Option<CivilTime>>>(
        alloc: Global,
        name: PlSmallStr,
        items: I,
    ) -> PolarsResult<TimeChunked>
        requires can { I.can_next items }
        requires ends { IsFinite (I.remaining items) }
        ensures column { AnswersItems I.next_gives items
            (column_of_items name Time (or_null time_slot)) result };

    /// The times, row by row: none where the slot is null. None of them is refused.
    fn as_time_iter(&self) -> TimeIter<'_>
        ensures times { result ≡ shown_times (column self.now).column.slots };
}

impl CivilTimes for TimeChunked {
    ghost column = { λ times. times };

    fn from_naive_time<I: Iterator<Item = CivilTime>>(
        alloc: Global,
        name: PlSmallStr,
        items: I,
    ) -> PolarsResult<TimeChunked> {
        from_items(alloc, name, &Times, items)
    }

    fn from_naive_time_options<I: Iterator<Item = Option<CivilTime>>>(
        alloc: Global,
        name: PlSmallStr,
        items: I,
    ) -> PolarsResult<TimeChunked> {
        from_items(alloc, name, &OrNull { rule: Times }, items)
    }

    fn as_time_iter(&self) -> TimeIter<'_> {
        TimeIter::new(self)
    }
}
