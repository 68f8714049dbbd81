// Where the slots of a node lie, by the types and the bounds of its operands.
ghost use Rattle.std.specs.Prelude.{◌≡◌, true, Some, IfSome};
ghost use Rattle.col_model.specs.Arithmetic.{Interval as Range};
ghost use Rattle.col_model.specs.Column.{is_built_type};
ghost use Rattle.col_expr.specs.Built.{is_built_cast, is_built_operation};
ghost use Rattle.col_expr.specs.PlanNode.{HasRoom, IsKnown, IsImageBuilt};
ghost use Rattle.col_expr.specs.PlanNode.{image_dtype, part_dtype, part_bound};
ghost use Rattle.col_expr.specs.PlanNode.{operation_dtype, operation_image};
ghost use Rattle.col_expr.specs.PlanNode.{pair_dtype, pair_image};

use crate::node::UnaryOp;
use crate::part::Part;
use col_arith::{operator_interval, scalar_left_interval, scalar_right_interval};
use col_model::Interval;
use col_series::{cast_interval, unit_interval};
use col_types::{BinOp, CastOptions, DataType};

/// A copy of a type of which columns exist.
pub(crate) fn copied(dtype: &DataType) -> DataType
    requires built { is_built_type dtype.now ≡ true }
    ensures same { result ≡ dtype.now }
{
    dtype.clone_flat()
}

/// A cast of a part. A target that no expression can have gives no type.
fn cast_image(
    dtype: &DataType,
    bound: Interval,
    target: &DataType,
    options: CastOptions,
) -> Option<(DataType, Option<Interval>)>
    requires built { is_built_type dtype.now ≡ true }
    requires room { HasRoom bound }
    requires target { is_built_cast target.now ≡ true }
    ensures typed { image_dtype result ≡
        operation_dtype (UnaryOp.Cast target.now options) (Some dtype.now) }
    ensures image { IfSome result (λ typed. typed.1 ≡
        operation_image (UnaryOp.Cast target.now options) (Some dtype.now) (Some bound)) }
    ensures built { IsImageBuilt result }
{
    if target.is_expression_target() {
        let interval = cast_interval(dtype, target, options, bound);
        Some((copied(target), interval))
    } else {
        None
    }
}

/// An operation on a part of this type and bound.
fn operation_image(
    operation: &UnaryOp,
    dtype: &DataType,
    bound: Interval,
) -> Option<(DataType, Option<Interval>)>
    requires operation { is_built_operation operation.now ≡ true }
    requires built { is_built_type dtype.now ≡ true }
    requires room { HasRoom bound }
    ensures typed { image_dtype result ≡ operation_dtype operation.now (Some dtype.now) }
    ensures image { IfSome result (λ typed. typed.1 ≡
        operation_image operation.now (Some dtype.now) (Some bound)) }
    ensures built { IsImageBuilt result }
{
    match operation {
        UnaryOp::Cast(target, options) => cast_image(dtype, bound, target, *options),
        UnaryOp::ScalarRight(op, k) => {
            let interval = scalar_right_interval(dtype, *op, *k, bound);
            Some((copied(dtype), interval))
        }
        UnaryOp::ScalarLeft(k, op) => {
            let interval = scalar_left_interval(dtype, *k, *op, bound);
            Some((copied(dtype), interval))
        }
        UnaryOp::InUnit(unit) => unit_interval(dtype, *unit, bound),
        UnaryOp::Shift(_) => Some((copied(dtype), Some(bound))),
    }
}

/// An operation on a part.
pub(crate) fn unary_image(operation: &UnaryOp, below: &Part) -> Option<(DataType, Option<Interval>)>
    requires operation { is_built_operation operation.now ≡ true }
    requires known { IsKnown below.now }
    ensures typed { image_dtype result ≡ operation_dtype operation.now (part_dtype below.now) }
    ensures image { IfSome result (λ typed. typed.1 ≡
        operation_image operation.now (part_dtype below.now) (part_bound below.now)) }
    ensures built { IsImageBuilt result }
{
    match below {
        Part::Typed(dtype, bound) => operation_image(operation, dtype, *bound),
        Part::Untyped => None,
    }
}

/// Two parts joined.
pub(crate) fn binary_image(
    op: BinOp,
    left: &Part,
    right: &Part,
) -> Option<(DataType, Option<Interval>)>
    requires left { IsKnown left.now }
    requires right { IsKnown right.now }
    ensures typed { image_dtype result ≡
        pair_dtype op (part_dtype left.now) (part_dtype right.now) }
    ensures image { IfSome result (λ typed. typed.1 ≡
        pair_image op (part_dtype left.now) (part_dtype right.now)
        (part_bound left.now) (part_bound right.now)) }
    ensures built { IsImageBuilt result }
{
    match (left, right) {
        (Part::Typed(left, p), Part::Typed(right, q)) => {
            operator_interval(op, left, right, *p, *q)
        }
        _ => None,
    }
}
