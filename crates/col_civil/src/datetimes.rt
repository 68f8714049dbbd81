//! Columns of moments from civil moments, and civil moments of columns.

ghost use Rattle.std.specs.Prelude.{◌≡◌, None};
ghost use Rattle.std.specs.Iterator.{IsFinite};
ghost use Rattle.col_types.specs.declared.data_type.DataType.{Datetime};
ghost use Rattle.col_model.specs.Chunked.{Chunked};
ghost use Rattle.col_model.specs.Items.{AnswersItems};
ghost use Rattle.col_civil.specs.Civil.{shown_datetimes};
ghost use Rattle.col_civil.specs.Made.{column_of_items, datetime_slot, or_null};

use crate::DatetimeIter;
use crate::items::from_items;
use crate::rules::{Datetimes, OrNull};
use col_logical::DatetimeChunked;
use col_types::{PlSmallStr, PolarsResult, TimeUnit};
use jiff::civil::DateTime as CivilDateTime;
use std::alloc::Global;

/// Civil moments of a column of moments. A zone's clock is not applied: they are told without one.
pub trait CivilDatetimes {
    /// The column.
    ghost column: { Self → Chunked };

    /// A column of these moments in their order, without a zone and in one chunk: ticks of the unit,
    /// rounded down. The iterator has to end. Refused at the first of them whose tick leaves 64 bits
    /// (`Fit`), and at the item 2^32 (`TooLong`, which tells that number).
    fn from_naive_datetime<I: Iterator<Item = CivilDateTime>>(
        alloc: Global,
        name: PlSmallStr,
        items: I,
        unit: TimeUnit,
    ) -> PolarsResult<DatetimeChunked>
        requires can { I.can_next items }
        requires ends { IsFinite (I.remaining items) }
        ensures column { AnswersItems I.next_gives items
            (column_of_items name (Datetime unit None) (datetime_slot unit)) result };

    /// The same for moments that may be missing, which are null.
    fn from_naive_datetime_options<I: Iterator<Item = Option<CivilDateTime>>>(
        alloc: Global,
        name: PlSmallStr,
        items: I,
        unit: TimeUnit,
    ) -> PolarsResult<DatetimeChunked>
        requires can { I.can_next items }
        requires ends { IsFinite (I.remaining items) }
        ensures column { AnswersItems I.next_gives items
            (column_of_items name (Datetime unit None) (or_null (datetime_slot unit))) result };

    /// The moments, row by row: none where the slot is null, and a refusal that names its row where
    /// the calendar doesn't have the moment's day (`Calendar`).
    fn as_datetime_iter(&self) -> DatetimeIter<'_>
        ensures moments { result ≡ shown_datetimes (column self.now).column };
}

impl CivilDatetimes for DatetimeChunked {
    ghost column = { λ moments. moments };

    fn from_naive_datetime<I: Iterator<Item = CivilDateTime>>(
        alloc: Global,
        name: PlSmallStr,
        items: I,
        unit: TimeUnit,
    ) -> PolarsResult<DatetimeChunked> {
        from_items(alloc, name, &Datetimes { unit }, items)
    }

    fn from_naive_datetime_options<I: Iterator<Item = Option<CivilDateTime>>>(
        alloc: Global,
        name: PlSmallStr,
        items: I,
        unit: TimeUnit,
    ) -> PolarsResult<DatetimeChunked> {
        let rule = OrNull {
            rule: Datetimes { unit },
        };
        from_items(alloc, name, &rule, items)
    }

    fn as_datetime_iter(&self) -> DatetimeIter<'_> {
        DatetimeIter::new(self)
    }
}
