//! Columns of ticks in another unit, and of times of the day.

ghost use Rattle.std.specs.Prelude.{◌≡◌, true, IfOk, Ok};
ghost use Rattle.col_types.specs.PolarsError.{Gives, GivesBy};
ghost use Rattle.col_types.specs.declared.data_type.DataType.{Time};
ghost use Rattle.col_model.specs.ColumnCalls.{first_lost};
ghost use Rattle.col_model.specs.Value.{on_slot};
ghost use Rattle.col_logical.specs.Logical.{in_unit, lie_in_the_day, tick_in_unit, times_of};

use crate::rules::{InTheDay, InUnit, Ticks};
use crate::units::{Micros, Millis, Nanos, Unit};
use col_chunk::Int64Chunked;
use col_rule::{ChangedArray, change_array, map_array};
use col_types::{PolarsResult, TimeUnit};
use std::alloc::Global;
use std::marker::PhantomData;

/// The words as times of the day: null where they aren't one.
pub(crate) fn times_of(alloc: Global, words: &Int64Chunked) -> PolarsResult<Int64Chunked>
    ensures column { Gives result (Ok (times_of words.now)) }
    ensures day { IfOk result (λ times. lie_in_the_day Time times.column.slots ≡ true) }
{
    map_array(alloc, &InTheDay, words)
}

/// Ticks of a unit in another one, and the first row that has no room there.
pub fn in_unit<K: Ticks>(
    alloc: Global,
    words: &Int64Chunked,
    from: TimeUnit,
    to: TimeUnit,
) -> PolarsResult<ChangedArray<i64>>
    ensures column { GivesBy (λ changed. changed.array) result
        (Ok (in_unit K.changed from to words.now)) }
    ensures lost { IfOk result (λ changed. changed.lost
        ≡ first_lost (on_slot (tick_in_unit K.changed from to)) 0 words.now.column.slots) }
{
    match from {
        TimeUnit::Nanoseconds => from_unit::<K, Nanos>(alloc, words, to),
        TimeUnit::Microseconds => from_unit::<K, Micros>(alloc, words, to),
        TimeUnit::Milliseconds => from_unit::<K, Millis>(alloc, words, to),
    }
}

/// The same with the first unit as a type.
fn from_unit<K: Ticks, A: Unit>(
    alloc: Global,
    words: &Int64Chunked,
    to: TimeUnit,
) -> PolarsResult<ChangedArray<i64>>
    ensures column { GivesBy (λ changed. changed.array) result
        (Ok (in_unit K.changed A.unit to words.now)) }
    ensures lost { IfOk result (λ changed. changed.lost
        ≡ first_lost (on_slot (tick_in_unit K.changed A.unit to)) 0 words.now.column.slots) }
{
    match to {
        TimeUnit::Nanoseconds => between_units::<K, A, Nanos>(alloc, words),
        TimeUnit::Microseconds => between_units::<K, A, Micros>(alloc, words),
        TimeUnit::Milliseconds => between_units::<K, A, Millis>(alloc, words),
    }
}

/// The same with both units as types.
fn between_units<K: Ticks, A: Unit, B: Unit>(
    alloc: Global,
    words: &Int64Chunked,
) -> PolarsResult<ChangedArray<i64>>
    ensures column { GivesBy (λ changed. changed.array) result
        (Ok (in_unit K.changed A.unit B.unit words.now)) }
    ensures lost { IfOk result (λ changed. changed.lost
        ≡ first_lost (on_slot (tick_in_unit K.changed A.unit B.unit)) 0 words.now.column.slots) }
{
    let rule = InUnit::<K, A, B> {
        ticks: PhantomData,
        from: PhantomData,
        to: PhantomData,
    };
    change_array(alloc, &rule, words)
}
