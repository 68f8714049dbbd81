// What is known of a part of an expression before it is evaluated.
ghost use Rattle.std.specs.Prelude.{◌≡◌, true, Some, None, Option, IfSome};
ghost use Rattle.col_model.specs.Arithmetic.{Interval as Range};
ghost use Rattle.col_model.specs.Column.{is_built_type, values_of};
ghost use Rattle.col_model.specs.IntervalRoom.{IsOrdered};
ghost use Rattle.col_expr.specs.Plan.{fits_type, is_image_inside};
ghost use Rattle.col_expr.specs.PlanNode.{HasRoom, IsImageBuilt, IsSettled, IsSettledBy};

use col_model::{Interval, date_values, day_values, tick_values};
use col_types::DataType;

/// A part of an expression: its type, if it has one, and where its slots lie.
#[derive(Drop)]
pub(crate) enum Part {
    Untyped,
    Typed(DataType, Interval),
}

/// The values of a type of which columns exist.
pub(crate) fn values_of(dtype: &DataType) -> Interval
    requires built { is_built_type dtype.now ≡ true }
    ensures values { Some result ≡ values_of dtype.now }
    ensures room { HasRoom result }
{
    match dtype {
        DataType::Date => date_values(),
        DataType::Time => day_values(),
        DataType::Datetime(_, _) | DataType::Duration(_) | DataType::Int64 => tick_values(),
        _ => unreachable!(),
    }
}

/// Whether the interval lies in the values of the type.
pub(crate) fn fits_type(dtype: &DataType, range: Interval) -> bool
    requires built { is_built_type dtype.now ≡ true }
    ensures fits { result ≡ fits_type (Some dtype.now) range }
{
    match dtype {
        DataType::Date => date_values().encloses(range),
        DataType::Time => day_values().encloses(range),
        DataType::Datetime(_, _) | DataType::Duration(_) | DataType::Int64 =>
            tick_values().encloses(range),
        _ => unreachable!(),
    }
}

/// Whether the interval is there and lies in the range.
fn is_image_inside(range: Interval, image: Option<Interval>) -> bool
    ensures inside { result ≡ is_image_inside range image }
{
    match image {
        Some(image) => range.encloses(image),
        None => false,
    }
}

/// A node of this type, bounded by the plan.
fn planned_part(dtype: DataType, range: Interval, interval: Option<Interval>) -> Option<Part>
    requires built { is_built_type dtype ≡ true }
    requires ordered { IsOrdered range }
    ensures settled { IsSettledBy (Some range) (Some (dtype, interval)) result }
{
    if !fits_type(&dtype, range) {
        return None;
    }
    if is_image_inside(range, interval) {
        Some(Part::Typed(dtype, range))
    } else {
        None
    }
}

/// A node of this type, bounded by its values, whatever its image.
fn free_part(dtype: DataType, interval: Option<Interval>) -> Part
    requires built { is_built_type dtype ≡ true }
    ensures settled { IsSettled None (Some (dtype, interval)) result }
{
    let _ = interval;
    let bound = values_of(&dtype);
    Part::Typed(dtype, bound)
}

/// A node with what the plan has for it, none where its rule fails.
pub(crate) fn settled(
    image: Option<(DataType, Option<Interval>)>,
    planned: Option<Interval>,
) -> Option<Part>
    requires built { IsImageBuilt image }
    requires ordered { IfSome planned IsOrdered }
    ensures settled { IsSettledBy planned image result }
{
    match (image, planned) {
        (Some((dtype, interval)), Some(range)) => planned_part(dtype, range, interval),
        (Some((dtype, interval)), None) => Some(free_part(dtype, interval)),
        (None, Some(_)) => None,
        (None, None) => Some(Part::Untyped),
    }
}
