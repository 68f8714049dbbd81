// The check of a plan.
ghost use Rattle.std.specs.Prelude.{◌≡◌, ◌+◌, ◌≤◌, true, Some, None, OnSome, IfSome};
ghost use Rattle.std.specs.Option.{option_copied, option_map};
ghost use Rattle.col_model.specs.Chunked.{columns_of, column_of};
ghost use Rattle.col_model.specs.IntervalRoom.{IsOrdered};
ghost use Rattle.col_expr.specs.Tree.{node_count, Input, max_nodes};
ghost use Rattle.col_expr.specs.Numbers.{numbers_from};
ghost use Rattle.col_expr.specs.Node.{node_tree};
ghost use Rattle.col_expr.specs.Built.{is_built_tree};
ghost use Rattle.col_expr.specs.Plan.{is_plan_valid, is_column_within};
ghost use Rattle.col_expr.specs.PlanNode.{IsChecked, IsInput};

use crate::evaluation::take_number;
use crate::expr::Expr;
use crate::inputs::Inputs;
use crate::node::Node;
use crate::node_image::{binary_image, copied, unary_image};
use crate::part::{Part, fits_type, settled, values_of};
use crate::plan::RangePlan;
use crate::span::{is_span_within, span_of};
use col_model::Interval;
use col_series::Series;

/// Whether each covered number is one of a node, and the rule of each covered node holds. It takes
/// no memory, and stops at the first node whose rule fails.
pub fn check_plan(expr: &Expr, inputs: &Inputs, plan: &RangePlan) -> bool
    ensures valid { result ≡ is_plan_valid (columns_of inputs.now) plan.now expr.now }
{
    inputs.known();
    let mut next = 0;
    match check_node(expr.root(), inputs, plan, &mut next) {
        Some(_) => plan.ends_before(expr.nodes()),
        None => false,
    }
}

// What is known of a node whose nodes are numbered from `next` on, none where a rule in it fails.
fn check_node(node: &Node, inputs: &Inputs, plan: &RangePlan, next: &mut u32) -> Option<Part>
    requires small { next.old + node_count (node_tree node.now) ≤ max_nodes }
    requires built { is_built_tree (node_tree node.now) ≡ true }
    ensures next { OnSome result (next.new ≡ next.old + node_count (node_tree node.now)) }
    ensures checked { IsChecked (columns_of inputs.now) plan.now
        (numbers_from next.old (node_tree node.now)) (node_tree node.now) result }
{
    match node {
        Node::Input(index) => {
            let number = take_number(next);
            input_part(inputs.get(*index), plan.interval(number))
        }
        Node::Unary(operation, operand) => {
            let Some(below) = check_node(operand, inputs, plan, next) else {
                return None;
            };
            let number = take_number(next);
            settled(unary_image(operation, &below), plan.interval(number))
        }
        Node::Binary(op, left, right) => {
            let Some(left) = check_node(left, inputs, plan, next) else {
                return None;
            };
            let Some(right) = check_node(right, inputs, plan, next) else {
                return None;
            };
            let number = take_number(next);
            settled(binary_image(*op, &left, &right), plan.interval(number))
        }
    }
}

// Whether each valid slot of a column lies in the interval, as its least and its greatest tell.
fn is_column_within(range: Interval, column: &Series) -> bool
    ensures within { result ≡ is_column_within range (Some column.now.column) }
{
    column.known();
    is_span_within(range, span_of(column))
}

// A column, bounded by the plan.
fn planned_input(column: &Series, range: Interval) -> Option<Part>
    requires ordered { IsOrdered range }
    ensures part { IsInput (Some range) (Some column.now.column) result }
{
    column.known();
    let dtype = column.dtype();
    if !fits_type(dtype, range) {
        return None;
    }
    if is_column_within(range, column) {
        Some(Part::Typed(copied(dtype), range))
    } else {
        None
    }
}

// A column, bounded by the values of its type.
fn free_input(column: &Series) -> Part
    ensures part { IsInput None (Some column.now.column) (Some result) }
{
    column.known();
    let dtype = column.dtype();
    Part::Typed(copied(dtype), values_of(dtype))
}

// An input with what the plan has for it, none where its rule fails.
fn input_part(column: Option<&Series>, planned: Option<Interval>) -> Option<Part>
    requires ordered { IfSome planned IsOrdered }
    ensures part { IsInput planned (option_map column_of (option_copied column.entry)) result }
{
    match (column, planned) {
        (Some(column), Some(range)) => planned_input(column, range),
        (Some(column), None) => Some(free_input(column)),
        (None, Some(_)) => None,
        (None, None) => Some(Part::Untyped),
    }
}
