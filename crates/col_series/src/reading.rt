//! Values read from a column.

ghost use Rattle.std.specs.Prelude.{◌≡◌, ◌<◌, true, None, Ok, length, slice_index_or};
ghost use Rattle.col_types.specs.PolarsError.{seen_by};
ghost use Rattle.col_model.specs.Value.{integer_slot};
ghost use Rattle.col_series.specs.Columns.{words_shown};
ghost use Rattle.col_series.specs.Seen.{seen_at, slot_seen, value_seen};
ghost use Rattle.col_series.specs.Slots.{is_fit};

use crate::columns::Physical;
use crate::series::Series;
use crate::{AnyValue, DataType, PolarsError, PolarsResult};
use col_logical::{day, tick};

impl Series {
    /// The value of a row. Refused at an index past the rows (`OutOfBounds`). It takes no memory.
    pub fn get(&self, index: usize) -> PolarsResult<AnyValue<'_>>
        ensures value { seen_by value_seen result ≡ seen_at self.now.column index }
    {
        let len = self.len();
        if index >= len {
            return Err(PolarsError::OutOfBounds { index, len });
        }
        Ok(self.get_unchecked(index))
    }

    /// The value of a row that is there. It takes no memory.
    pub fn get_unchecked(&self, index: usize) -> AnyValue<'_>
        requires row { index < length self.now.column.slots }
        ensures value { Ok (value_seen result) ≡ seen_at self.now.column index }
    {
        self.known();
        let slot = integer_at(self.physical(), index);
        value_of(self.dtype(), slot)
    }
}

/// The integer of a row, none where it is null.
fn integer_at(words: Physical<'_>, index: usize) -> Option<i64>
    requires row { index < length (words_shown words).column.slots }
    ensures slot { integer_slot result
        ≡ slice_index_or (words_shown words.entry).column.slots index None }
{
    match words {
        Physical::Int32(words) => match words.get(index) {
            Some(word) => Some(day(word)),
            None => None,
        },
        Physical::Int64(words) => match words.get(index) {
            Some(word) => Some(tick(word)),
            None => None,
        },
    }
}

/// What a slot shows in a column of the type.
fn value_of<'a>(dtype: &'a DataType, slot: Option<i64>) -> AnyValue<'a>
    requires fit { is_fit dtype.now slot ≡ true }
    ensures value { value_seen result ≡ slot_seen dtype.now (integer_slot slot) }
{
    match (dtype, slot) {
        (DataType::Date, Some(day)) => AnyValue::Date(day as i32),
        (DataType::Datetime(unit, zone), Some(tick)) => {
            AnyValue::Datetime(tick, *unit, zone.as_ref())
        }
        (DataType::Duration(unit), Some(tick)) => AnyValue::Duration(tick, *unit),
        (DataType::Time, Some(nanos)) => AnyValue::Time(nanos),
        (DataType::Int64, Some(value)) => AnyValue::Int64(value),
        _ => AnyValue::Null,
    }
}
