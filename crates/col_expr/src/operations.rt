// The answer of a node from the columns of its operands.
ghost use Rattle.std.specs.Prelude.{◌≡◌, true, Result};
ghost use Rattle.col_types.specs.declared.error.PolarsError.{PolarsError};
ghost use Rattle.col_types.specs.PolarsError as column_calls;
ghost use Rattle.col_model.specs.Column.{Column};
ghost use Rattle.col_model.specs.Chunked.{column_of};
ghost use Rattle.col_model.specs.OperatorCalls.{binary_of};
ghost use Rattle.col_expr.specs.Built.{is_built_cast, is_built_operation};
ghost use Rattle.col_expr.specs.Refusal.{GivesBy};
ghost use Rattle.col_expr.specs.Found.{numbered, cast_at, unary_at};

use crate::error::EvalError;
use crate::node::UnaryOp;
use col_arith::{binary, scalar_left, scalar_right};
use col_series::{CastOptions, DataType, PolarsError, PolarsResult, Series};
use col_types::BinOp;
use std::alloc::Global;

// The answer of a node that does one operation with its operand's column.
pub(crate) fn unary_column(
    alloc: Global,
    operation: &UnaryOp,
    column: &Series,
    node: u32,
) -> Result<Series, EvalError>
    requires built { is_built_operation operation.now ≡ true }
    ensures answer { GivesBy column_of result
        (unary_at node operation.now column.now.column) }
{
    match operation {
        UnaryOp::Cast(target, options) => cast_column(alloc, column, target, *options, node),
        UnaryOp::ScalarRight(op, value) => at_node(scalar_right(alloc, column, *op, *value), node),
        UnaryOp::ScalarLeft(value, op) => at_node(scalar_left(alloc, *value, *op, column), node),
        UnaryOp::InUnit(unit) => at_node(column.cast_time_unit(alloc, *unit), node),
        UnaryOp::Shift(periods) => at_node(column.shift(alloc, *periods), node),
    }
}

// The answer of a node that joins two columns. No column is so long that its length is cut.
pub(crate) fn binary_column(
    alloc: Global,
    op: BinOp,
    left: &Series,
    right: &Series,
    node: u32,
) -> Result<Series, EvalError>
    ensures answer { GivesBy column_of result
        (numbered node (binary_of op left.now.column right.now.column)) }
{
    left.known();
    right.known();
    match binary(alloc, op, left, right) {
        Err(PolarsError::Lengths { .. }) => Err(EvalError::Lengths {
            node,
            left: left.len() as u32,
            right: right.len() as u32,
        }),
        answer => at_node(answer, node),
    }
}

// A target that no expression can have is refused before the column is looked at.
fn cast_column(
    alloc: Global,
    column: &Series,
    target: &DataType,
    options: CastOptions,
    node: u32,
) -> Result<Series, EvalError>
    requires built { is_built_cast target.now ≡ true }
    ensures cast { GivesBy column_of result
        (cast_at node column.now.column target.now options) }
{
    if !target.is_expression_target() {
        return Err(EvalError::BadType { node });
    }
    at_node(column.cast_with_options(alloc, target, options), node)
}

// A column's answer as that of a node. No call of one column is refused for lengths, and none of a
// node for the causes of the last line.
fn at_node(answer: PolarsResult<Series>, node: u32) -> Result<Series, EvalError>
    ensures answer { (expected : Result Column PolarsError) →
        column_calls.GivesBy column_of answer expected →
        GivesBy column_of result (numbered node expected) }
{
    match answer {
        Ok(column) => Ok(column),
        Err(PolarsError::NoMemory | PolarsError::Lengths { .. }) => Err(EvalError::NoMemory),
        Err(PolarsError::BadType { .. }) => Err(EvalError::BadType { node }),
        Err(PolarsError::Scalar { .. }) => Err(EvalError::Scalar { node }),
        Err(PolarsError::Strict { row }) => Err(EvalError::Strict { node, row }),
        Err(_) => Err(EvalError::Unsupported { node }),
    }
}
