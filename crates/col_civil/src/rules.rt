//! What civil values become in a column, one by one.

ghost use Rattle.std.specs.Prelude.{◌≡◌, ◌∷◌, [], true, pos, IfOk, None, Some, Option};
ghost use Rattle.std.specs.Option.{option_map};
ghost use Rattle.col_types.specs.PolarsError.{seen_by};
ghost use Rattle.col_types.specs.declared.data_type.DataType.{DataType, Date, Datetime, Duration, Time};
ghost use Rattle.col_model.specs.Value.{whole};
ghost use Rattle.col_logical.specs.Logical.{lie_in_the_day};
ghost use Rattle.col_civil.specs.Made.{Reader, date_slot, datetime_slot, duration_slot, or_null};
ghost use Rattle.col_civil.specs.Made.{time_slot};

use crate::ticks::{floored, tick_slot, time_to_time64ns, truncated};
use col_chunk::Word;
use col_types::{DataType as AnyType, PolarsResult, TimeUnit};
use jiff::SignedDuration;
use jiff::civil::{Date as CivilDate, DateTime as CivilDateTime, Time as CivilTime};

/// A rule by which items become slots of a column of one type.
pub(crate) trait ItemRule<A, T: Word> {
    /// The type of the column.
    ghost dtype: { Self → DataType };

    /// What an item becomes.
    ghost read: { Self → Reader A };

    /// The type of the column.
    fn dtype(&self) -> AnyType
        ensures dtype { result ≡ dtype self.now };

    /// What an item becomes that stands in a row.
    fn slot(&self, row: u32, item: A) -> PolarsResult<Option<T>>
        ensures slot { seen_by (λ slot. option_map (λ x. whole (T.reading x)) slot) result
            ≡ read self.now row item }
        ensures day { IfOk result (λ slot. lie_in_the_day (dtype self.now)
            (option_map (λ x. whole (T.reading x)) slot ∷ []) ≡ true) };
}

/// Dates as the numbers of their days.
#[derive(Drop)]
pub(crate) struct Dates;

#[tactic(auto, using(crate::proofs::SlotLaws::readings))]
impl ItemRule<CivilDate, i32> for Dates {
    ghost dtype = { λ _. Date };

    ghost read = { λ _. date_slot };

    fn dtype(&self) -> AnyType {
        AnyType::Date
    }

    fn slot(&self, _row: u32, item: CivilDate) -> PolarsResult<Option<i32>> {
        Ok(Some(item.to_plain().to_unix_epoch_day()))
    }
}

/// Times as nanoseconds since the day began.
#[derive(Drop)]
pub(crate) struct Times;

#[tactic(auto, using(crate::proofs::SlotLaws::readings))]
impl ItemRule<CivilTime, i64> for Times {
    ghost dtype = { λ _. Time };

    ghost read = { λ _. time_slot };

    fn dtype(&self) -> AnyType {
        AnyType::Time
    }

    fn slot(&self, _row: u32, item: CivilTime) -> PolarsResult<Option<i64>> {
        Ok(Some(time_to_time64ns(&item)))
    }
}

/// Moments as ticks of a unit, rounded down.
#[derive(Drop)]
pub(crate) struct Datetimes {
    pub(crate) unit: TimeUnit,
}

impl ItemRule<CivilDateTime, i64> for Datetimes {
    ghost dtype = { λ r. Datetime r.unit None };

    ghost read = { λ r. datetime_slot r.unit };

    fn dtype(&self) -> AnyType {
        AnyType::Datetime(self.unit, None)
    }

    fn slot(&self, row: u32, item: CivilDateTime) -> PolarsResult<Option<i64>> {
        let tick = floored(item.to_plain().to_nanosecond(), self.unit);
        tick_slot(tick, row)
    }
}

/// Lengths of time as ticks of a unit, rounded towards zero.
#[derive(Drop)]
pub(crate) struct Durations {
    pub(crate) unit: TimeUnit,
}

impl ItemRule<SignedDuration, i64> for Durations {
    ghost dtype = { λ r. Duration r.unit };

    ghost read = { λ r. duration_slot r.unit };

    fn dtype(&self) -> AnyType {
        AnyType::Duration(self.unit)
    }

    fn slot(&self, row: u32, item: SignedDuration) -> PolarsResult<Option<i64>> {
        let tick = truncated(item.as_nanos(), self.unit);
        tick_slot(tick, row)
    }
}

/// A rule for items that may be missing, which are null.
#[derive(Drop)]
pub(crate) struct OrNull<R> {
    pub(crate) rule: R,
}

impl<A, T: Word, R: ItemRule<A, T>> ItemRule<Option<A>, T> for OrNull<R> {
    ghost dtype = { λ r. R.dtype r.rule };

    ghost read = { λ r. or_null (R.read r.rule) };

    fn dtype(&self) -> AnyType {
        self.rule.dtype()
    }

    fn slot(&self, row: u32, item: Option<A>) -> PolarsResult<Option<T>> {
        match item {
            Some(item) => self.rule.slot(row, item),
            None => Ok(None),
        }
    }
}
