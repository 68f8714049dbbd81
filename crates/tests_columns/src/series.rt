//! That each call succeeds, and which values a type refuses. What casts, changes of unit and shifts answer is
//! told by clauses, and shown by the rows of `col_rows`.
ghost use Rattle.std.specs.Prelude.{◌≡◌, true};
ghost use Rattle.col_model.specs.Column.{is_built_type};

use crate::same::holds;
use col_series::*;
use std::alloc::Global;
use std::process::Abort;

const MILLIS: TimeUnit = TimeUnit::Milliseconds;

fn column(
    rt: &impl Abort,
    alloc: Global,
    dtype: &DataType,
    slots: &[Option<i128>],
) -> PolarsResult<Series>
    requires built_type { is_built_type dtype.now ≡ true }
{
    let name = PlSmallStr::from_str(alloc, "start").expect(rt, "a name");
    Series::from_slots(alloc, name, dtype, slots)
}

/// The first two slots of a column of moments, null past its rows.
fn first_two(column: &Series) -> [Option<i64>; 2] {
    let tick = |row| match column.get(row) {
        Ok(AnyValue::Datetime(tick, _, _)) => Some(tick),
        _ => None,
    };
    [tick(0), tick(1)]
}

#[test]
fn columns_read_back(rt: HostRuntime) {
    let alloc = rt.alloc();
    let dtype = DataType::Datetime(MILLIS, Some(TimeZone::utc()));
    let column = column(&rt, alloc, &dtype, &[Some(-1), None]).expect(&rt, "a column");
    column.known();
    let copy = column.try_clone(alloc).expect(&rt, "a copy");
    holds(&rt, "name", copy.name().as_str() == "start");
    holds(&rt, "type", copy.len() == 2 && copy.dtype().is_same(&dtype));
    holds(&rt, "slots", first_two(&copy) == [Some(-1), None]);
    let outside = PolarsError::OutOfBounds { index: 2, len: 2 };
    holds(&rt, "outside", copy.get(2).err() == Some(outside));
}

/// A type takes both ends of its values, and refuses one past each by its row.
fn takes(rt: &impl Abort, alloc: Global, dtype: &DataType, low: i128, high: i128)
    requires built_type { is_built_type dtype.now ≡ true }
{
    let ends = column(rt, alloc, dtype, &[Some(low), Some(high)]);
    holds(rt, "both ends", ends.is_ok());
    for past in [low.wrapping_sub(1), high.wrapping_add(1)] {
        let answer = column(rt, alloc, dtype, &[None, Some(past)]);
        let refused = matches!(&answer, Err(PolarsError::Fit { row: 1 }));
        holds(rt, "past the end", refused);
    }
}

#[test]
fn values_outside_the_type_are_refused(rt: HostRuntime) {
    let alloc = rt.alloc();
    let (low, high) = (i128::from(i64::MIN), i128::from(i64::MAX));
    takes(&rt, alloc, &DataType::Datetime(MILLIS, None), low, high);
    takes(&rt, alloc, &DataType::Date, -2_147_483_648, 2_147_483_647);
    takes(&rt, alloc, &DataType::Time, 0, 86_399_999_999_999);
}

#[test]
fn a_decimal_of_too_many_digits_is_no_target(rt: HostRuntime) {
    let alloc = rt.alloc();
    let column = column(&rt, alloc, &DataType::Time, &[Some(0)]).expect(&rt, "a column");
    let answer = column.cast(alloc, &DataType::Decimal(Some(39), Some(0)));
    let dtype = Kind::Decimal;
    holds(
        &rt,
        "no target",
        answer.err() == Some(PolarsError::BadType { dtype }),
    );
}
