// The rows of two columns of words under a row of the operator table.
ghost use Rattle.std.specs.Prelude.{◌≡◌};
ghost use Rattle.col_types.specs.PolarsError.{GivesBy};
ghost use Rattle.col_types.specs.declared.data_type.DataType.{Int64};
ghost use Rattle.col_model.specs.Chunked.{column_of};
ghost use Rattle.col_model.specs.Formula.{X, Y, Difference, value_of};
ghost use Rattle.col_model.specs.OperatorTable.{wrapping};
ghost use Rattle.col_model.specs.Words.{word_dtype};
ghost use Rattle.col_rule.specs.Columns.{paired_column};

use crate::operators::Operator;
use crate::pair_rule::AddOrSub;
use crate::ticks::{pair_tick, wrapping_op};
use crate::words::TickWord;
use col_chunk::{ChunkedArray, Int64Chunked};
use col_logical::{Micros, Millis, Nanos, Unit, tick, tick_word};
use col_rule::{PairRule, meet_arrays};
use col_types::{PolarsResult, TimeUnit};
use std::alloc::Global;
use std::marker::PhantomData;

/// A row of the operator table at two units, as a rule for words.
#[derive(Drop)]
struct AtUnits<R, A, B> {
    row: PhantomData<R>,
    left: PhantomData<A>,
    right: PhantomData<B>,
}

impl<T, U, V, R, A, B> PairRule<T, U, V> for AtUnits<R, A, B>
where
    T: TickWord,
    U: TickWord,
    V: TickWord,
    R: Operator<T, U, V>,
    A: Unit,
    B: Unit,
{
    ghost value = { λ r. value_of (R.formula A.unit B.unit) };

    fn at(&self, x: T, y: U) -> (V, bool) {
        V::of_tick(pair_tick(R::rule(A::get(), B::get()), x.tick(), y.tick()))
    }
}

/// The nanoseconds between two times of the day. For other words they wrap.
#[derive(Drop)]
struct TimesApart;

impl PairRule<i64, i64, i64> for TimesApart {
    ghost value = { λ r. value_of (wrapping Difference X Y) };

    fn at(&self, x: i64, y: i64) -> (i64, bool) {
        tick_word(Some(wrapping_op(AddOrSub::Sub, tick(x), tick(y))))
    }
}

/// The rows of two columns under a row of the table, at two units.
pub(crate) fn at_units<T, U, V, R, A, B>(
    alloc: Global,
    left: &ChunkedArray<T>,
    right: &ChunkedArray<U>,
) -> PolarsResult<ChunkedArray<V>>
where
    T: TickWord,
    U: TickWord,
    V: TickWord,
    R: Operator<T, U, V>,
    A: Unit,
    B: Unit,
    ensures column { GivesBy column_of result
        (paired_column (value_of (R.formula A.unit B.unit)) (word_dtype V.word_type)
        left.now.column right.now.column) }
{
    let rule = AtUnits::<R, A, B> {
        row: PhantomData,
        left: PhantomData,
        right: PhantomData,
    };
    meet_arrays(alloc, &rule, left, right)
}

/// The same with the left unit as a type.
pub(crate) fn by_right_unit<T, U, V, R, A>(
    alloc: Global,
    unit: TimeUnit,
    left: &ChunkedArray<T>,
    right: &ChunkedArray<U>,
) -> PolarsResult<ChunkedArray<V>>
where
    T: TickWord,
    U: TickWord,
    V: TickWord,
    R: Operator<T, U, V>,
    A: Unit,
    ensures column { GivesBy column_of result
        (paired_column (value_of (R.formula A.unit unit)) (word_dtype V.word_type)
        left.now.column right.now.column) }
{
    match unit {
        TimeUnit::Nanoseconds => at_units::<T, U, V, R, A, Nanos>(alloc, left, right),
        TimeUnit::Microseconds => at_units::<T, U, V, R, A, Micros>(alloc, left, right),
        TimeUnit::Milliseconds => at_units::<T, U, V, R, A, Millis>(alloc, left, right),
    }
}

/// The same with the right unit as a type.
pub(crate) fn by_left_unit<T, U, V, R, B>(
    alloc: Global,
    unit: TimeUnit,
    left: &ChunkedArray<T>,
    right: &ChunkedArray<U>,
) -> PolarsResult<ChunkedArray<V>>
where
    T: TickWord,
    U: TickWord,
    V: TickWord,
    R: Operator<T, U, V>,
    B: Unit,
    ensures column { GivesBy column_of result
        (paired_column (value_of (R.formula unit B.unit)) (word_dtype V.word_type)
        left.now.column right.now.column) }
{
    match unit {
        TimeUnit::Nanoseconds => at_units::<T, U, V, R, Nanos, B>(alloc, left, right),
        TimeUnit::Microseconds => at_units::<T, U, V, R, Micros, B>(alloc, left, right),
        TimeUnit::Milliseconds => at_units::<T, U, V, R, Millis, B>(alloc, left, right),
    }
}

/// The same for two columns with units.
pub(crate) fn by_units<T, U, V, R>(
    alloc: Global,
    units: (TimeUnit, TimeUnit),
    left: &ChunkedArray<T>,
    right: &ChunkedArray<U>,
) -> PolarsResult<ChunkedArray<V>>
where
    T: TickWord,
    U: TickWord,
    V: TickWord,
    R: Operator<T, U, V>,
    ensures column { GivesBy column_of result
        (paired_column (value_of (R.formula units.0 units.1)) (word_dtype V.word_type)
        left.now.column right.now.column) }
{
    let (u, v) = units;
    match u {
        TimeUnit::Nanoseconds => by_right_unit::<T, U, V, R, Nanos>(alloc, v, left, right),
        TimeUnit::Microseconds => by_right_unit::<T, U, V, R, Micros>(alloc, v, left, right),
        TimeUnit::Milliseconds => by_right_unit::<T, U, V, R, Millis>(alloc, v, left, right),
    }
}

/// The nanoseconds between times of the day.
pub(crate) fn between_times(
    alloc: Global,
    left: &Int64Chunked,
    right: &Int64Chunked,
) -> PolarsResult<Int64Chunked>
    ensures column { GivesBy column_of result
        (paired_column (value_of (wrapping Difference X Y)) Int64
        left.now.column right.now.column) }
{
    meet_arrays(alloc, &TimesApart, left, right)
}
