//! Columns of lengths of time from durations.

ghost use Rattle.std.specs.Iterator.{IsFinite};
ghost use Rattle.col_types.specs.declared.data_type.DataType.{Duration};
ghost use Rattle.col_model.specs.Items.{AnswersItems};
ghost use Rattle.col_civil.specs.Made.{column_of_items, duration_slot, or_null};

use crate::items::from_items;
use crate::rules::{Durations, OrNull};
use col_logical::DurationChunked;
use col_types::{PlSmallStr, PolarsResult, TimeUnit};
use jiff::SignedDuration;
use std::alloc::Global;

/// Durations of a column of lengths of time.
pub trait CivilDurations {
    /// A column of these durations in their order, in one chunk: whole ticks of the unit, so rounded
    /// towards zero. The iterator has to end. Refused at the first of them whose ticks leave 64 bits
    /// (`Fit`), and at the item 2^32 (`TooLong`, which tells that number).
    fn from_duration<I: Iterator<Item = SignedDuration>>(
        alloc: Global,
        name: PlSmallStr,
        items: I,
        unit: TimeUnit,
    ) -> PolarsResult<DurationChunked>
        requires can { I.can_next items }
        requires ends { IsFinite (I.remaining items) }
        ensures column { AnswersItems I.next_gives items
            (column_of_items name (Duration unit) (duration_slot unit)) result };

    /// The same for durations that may be missing, which are null.
    fn from_duration_options<I: Iterator<Item = Option<SignedDuration>>>(
        alloc: Global,
        name: PlSmallStr,
        items: I,
        unit: TimeUnit,
    ) -> PolarsResult<DurationChunked>
        requires can { I.can_next items }
        requires ends { IsFinite (I.remaining items) }
        ensures column { AnswersItems I.next_gives items
            (column_of_items name (Duration unit) (or_null (duration_slot unit))) result };
}

impl CivilDurations for DurationChunked {
    fn from_duration<I: Iterator<Item = SignedDuration>>(
        alloc: Global,
        name: PlSmallStr,
        items: I,
        unit: TimeUnit,
    ) -> PolarsResult<DurationChunked> {
        from_items(alloc, name, &Durations { unit }, items)
    }

    fn from_duration_options<I: Iterator<Item = Option<SignedDuration>>>(
        alloc: Global,
        name: PlSmallStr,
        items: I,
        unit: TimeUnit,
    ) -> PolarsResult<DurationChunked> {
        let rule = OrNull {
            rule: Durations { unit },
        };
        from_items(alloc, name, &rule, items)
    }
}
