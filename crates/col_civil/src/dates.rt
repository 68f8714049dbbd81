//! Columns of dates from civil dates, and civil dates of columns.

ghost use Rattle.std.specs.Prelude.{◌≡◌};
ghost use Rattle.std.specs.Iterator.{IsFinite};
ghost use Rattle.col_types.specs.declared.data_type.DataType.{Date};
ghost use Rattle.col_model.specs.Chunked.{Chunked};
ghost use Rattle.col_model.specs.Items.{AnswersItems};
ghost use Rattle.col_civil.specs.Civil.{shown_dates};
ghost use Rattle.col_civil.specs.Made.{column_of_items, date_slot, or_null};

use crate::DateIter;
use crate::items::from_items;
use crate::rules::{Dates, OrNull};
use col_logical::DateChunked;
use col_types::{PlSmallStr, PolarsResult};
use jiff::civil::Date as CivilDate;
use std::alloc::Global;

/// Civil dates of a column of dates.
pub trait CivilDates {
    /// The column.
    ghost column: { Self → Chunked };

    /// A column of these dates in their order, in one chunk. The iterator has to end. Refused at the
    /// item 2^32 (`TooLong`, which tells that number).
    fn from_naive_date<I: Iterator<Item = CivilDate>>(
        alloc: Global,
        name: PlSmallStr,
        items: I,
    ) -> PolarsResult<DateChunked>
        requires can { I.can_next items }
        requires ends { IsFinite (I.remaining items) }
        ensures column { AnswersItems I.next_gives items (column_of_items name Date date_slot)
            result };

    /// The same for dates that may be missing, which are null.
    fn from_naive_date_options<I: Iterator<Item = Option<CivilDate>>>(
        alloc: Global,
        name: PlSmallStr,
        items: I,
    ) -> PolarsResult<DateChunked>
        requires can { I.can_next items }
        requires ends { IsFinite (I.remaining items) }
        ensures column { AnswersItems I.next_gives items
            (column_of_items name Date (or_null date_slot)) result };

    /// The dates, row by row: none where the slot is null, and a refusal that names its row where
    /// the calendar doesn't have the day (`Calendar`).
    fn as_date_iter(&self) -> DateIter<'_>
        ensures dates { result ≡ shown_dates 0 (column self.now).column.slots };
}

impl CivilDates for DateChunked {
    ghost column = { λ dates. dates };

    fn from_naive_date<I: Iterator<Item = CivilDate>>(
        alloc: Global,
        name: PlSmallStr,
        items: I,
    ) -> PolarsResult<DateChunked> {
        from_items(alloc, name, &Dates, items)
    }

    fn from_naive_date_options<I: Iterator<Item = Option<CivilDate>>>(
        alloc: Global,
        name: PlSmallStr,
        items: I,
    ) -> PolarsResult<DateChunked> {
        from_items(alloc, name, &OrNull { rule: Dates }, items)
    }

    fn as_date_iter(&self) -> DateIter<'_> {
        DateIter::new(self)
    }
}
