// The plan that the columns themselves give.
ghost use Rattle.std.specs.Prelude.{◌≡◌, ◌+◌, ◌≤◌, ◌++◌, true, Ok, Some, None, OnSome, IfSome};
ghost use Rattle.std.specs.Option.{option_copied, option_map};
ghost use Rattle.col_types.specs.PolarsError.{Gives};
ghost use Rattle.col_model.specs.Chunked.{column_of, columns_of};
ghost use Rattle.col_model.specs.Column.{is_built_type};
ghost use Rattle.col_expr.specs.Tree.{node_count, max_nodes};
ghost use Rattle.col_expr.specs.Numbers.{numbers_from};
ghost use Rattle.col_expr.specs.Node.{node_tree};
ghost use Rattle.col_expr.specs.Built.{is_built_tree};
ghost use Rattle.col_expr.specs.Plan.{ends_before, bound_by};
ghost use Rattle.col_expr.specs.FoundPlan.{spanned_by};
ghost use Rattle.col_expr.specs.FoundPlan.{is_fit, fitting, entry_for, found_from, found_plan};
ghost use Rattle.col_expr.specs.PlanNode.{IsFoundPart, IsCovered, IsImageBuilt, IsKnown, HasRoom};
ghost use Rattle.col_expr.specs.PlanNode.{image_dtype, image_interval, column_dtype};
ghost use Rattle.col_expr.specs.PlanNode.{part_dtype, part_bound};

use crate::evaluation::take_number;
use crate::expr::Expr;
use crate::inputs::Inputs;
use crate::node::Node;
use crate::node_image::{binary_image, copied, unary_image};
use crate::part::{Part, fits_type, values_of};
use crate::plan::RangePlan;
use crate::span::span_of;
use col_model::Interval;
use col_series::Series;
use col_types::{DataType, PolarsError, PolarsResult};
use std::alloc::Global;

impl RangePlan {
    /// The plan that the columns give: each input is covered by the least and the greatest of its
    /// valid slots, and each node above by the interval of its formula, as far as these stay inside
    /// their types. An `Err` is want of memory.
    pub fn of_inputs(alloc: Global, expr: &Expr, inputs: &Inputs) -> PolarsResult<RangePlan>
        ensures plan { Gives result (Ok (found_plan (columns_of inputs.now) expr.now)) }
    {
        inputs.known();
        let mut plan = RangePlan::new(alloc);
        let mut next = 0;
        match cover_node(expr.root(), inputs, &mut plan, &mut next) {
            Some(_) => Ok(plan),
            None => Err(PolarsError::NoMemory),
        }
    }
}

// Covers a node and those below it, which are numbered from `next` on. None is want of memory.
fn cover_node(node: &Node, inputs: &Inputs, plan: &mut RangePlan, next: &mut u32) -> Option<Part>
    requires small { next.old + node_count (node_tree node.now) ≤ max_nodes }
    requires built { is_built_tree (node_tree node.now) ≡ true }
    ensures next { OnSome result (next.new ≡ next.old + node_count (node_tree node.now)) }
    ensures part { IfSome result (IsFoundPart (columns_of inputs.now) (node_tree node.now)) }
    ensures plan { ends_before plan.old next.old ≡ true → OnSome result
        (plan.new ≡ plan.old ++ found_from (columns_of inputs.now)
        (numbers_from next.old (node_tree node.now)) (node_tree node.now)) }
{
    match node {
        Node::Input(index) => {
            let number = take_number(next);
            covered(input_image(inputs.get(*index)), number, plan)
        }
        Node::Unary(operation, operand) => {
            let Some(below) = cover_node(operand, inputs, plan, next) else {
                return None;
            };
            let number = take_number(next);
            covered(unary_image(operation, &below), number, plan)
        }
        Node::Binary(op, left, right) => {
            let Some(left) = cover_node(left, inputs, plan, next) else {
                return None;
            };
            let Some(right) = cover_node(right, inputs, plan, next) else {
                return None;
            };
            let number = take_number(next);
            covered(binary_image(*op, &left, &right), number, plan)
        }
    }
}

// Whether the interval has an integer, and lies in the values of the type.
fn is_fit(dtype: &DataType, range: Interval) -> bool
    requires built { is_built_type dtype.now ≡ true }
    ensures fit { result ≡ is_fit (Some dtype.now) range }
{
    fits_type(dtype, range) && range.low() <= range.high()
}

// The interval, where it is such a one.
fn fitting(dtype: &DataType, interval: Option<Interval>) -> Option<Interval>
    requires built { is_built_type dtype.now ≡ true }
    ensures fitting { result ≡ fitting (Some dtype.now) interval }
    ensures room { IfSome result HasRoom }
{
    match interval {
        Some(range) => {
            if is_fit(dtype, range) {
                Some(range)
            } else {
                None
            }
        }
        None => None,
    }
}

// A node of this type, and its interval in the plan. None is want of memory.
#[tactic(auto, using(crate::proofs::FoundPlanLemmas::put_last))]
fn covered_by(
    dtype: DataType,
    range: Option<Interval>,
    number: u32,
    plan: &mut RangePlan,
) -> Option<Part>
    requires built { is_built_type dtype ≡ true }
    requires room { IfSome range HasRoom }
    ensures typed { IfSome result (λ part. part_dtype part ≡ Some dtype) }
    ensures bounded { IfSome result (λ part. part_bound part ≡ bound_by range (Some dtype)) }
    ensures known { IfSome result IsKnown }
    ensures plan { ends_before plan.old number ≡ true →
        OnSome result (plan.new ≡ plan.old ++ entry_for number range) }
{
    match range {
        Some(range) => match plan.put(number, range) {
            Ok(()) => Some(Part::Typed(dtype, range)),
            Err(_) => None,
        },
        None => {
            let bound = values_of(&dtype);
            Some(Part::Typed(dtype, bound))
        }
    }
}

// A node with its image, which the plan takes where it fits. None is want of memory.
fn covered(
    image: Option<(DataType, Option<Interval>)>,
    number: u32,
    plan: &mut RangePlan,
) -> Option<Part>
    requires built { IsImageBuilt image }
    ensures part { IfSome result (IsCovered image) }
    ensures plan { ends_before plan.old number ≡ true → OnSome result
        (plan.new ≡ plan.old ++ entry_for number
        (fitting (image_dtype image) (image_interval image))) }
{
    match image {
        Some((dtype, interval)) => {
            let range = fitting(&dtype, interval);
            covered_by(dtype, range, number, plan)
        }
        None => Some(Part::Untyped),
    }
}

// The type of a column, and from its least to its greatest valid slot.
fn input_image(column: Option<&Series>) -> Option<(DataType, Option<Interval>)>
    ensures typed { image_dtype result ≡
        column_dtype (option_map column_of (option_copied column.entry)) }
    ensures image { image_interval result ≡
        spanned_by (option_map column_of (option_copied column.entry)) }
    ensures built { IsImageBuilt result }
{
    match column {
        Some(column) => {
            column.known();
            Some((copied(column.dtype()), span_of(column)))
        }
        None => None,
    }
}
