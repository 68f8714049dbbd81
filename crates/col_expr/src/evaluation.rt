// Evaluating an expression.
ghost use Rattle.std.specs.Prelude.{◌≡◌, ◌+◌, ◌≤◌, ◌<◌, true, Ok, OnOk, IfOk, length};
ghost use Rattle.col_model.specs.Chunked.{column_of, columns_of};
ghost use Rattle.col_expr.specs.Tree.{node_count, Input, max_nodes};
ghost use Rattle.col_expr.specs.Numbers.{One, numbers_from};
ghost use Rattle.col_expr.specs.Built.{is_built_tree};
ghost use Rattle.col_expr.specs.Node.{node_tree};
ghost use Rattle.col_expr.specs.Meaning.{step_count};
ghost use Rattle.col_expr.specs.Refusal.{Gives, GivesBy, outcome};
ghost use Rattle.col_expr.specs.Found.{IsFound};

use crate::error::EvalError;
use crate::expr::Expr;
use crate::inputs::Inputs;
use crate::node::Node;
use crate::operations::{binary_column, unary_column};
use crate::steps::Steps;
use col_series::Series;
use std::alloc::Global;
use std::sync::ledger::Ledger;

/// The column of an expression, or its first refused node in postfix order. A step is one slot of
/// one node's answer; inputs take none.
pub fn evaluate<L: Ledger>(
    alloc: Global,
    expr: &Expr,
    inputs: &Inputs,
    steps: &mut Steps<L>,
) -> Result<Series, EvalError>
    ensures outcome { GivesBy column_of result (outcome (columns_of inputs.now) expr.now) }
    ensures steps { OnOk result
        (steps.new ≡ steps.old + step_count (columns_of inputs.now) expr.now) }
{
    let mut next = 0;
    evaluate_node(alloc, expr.root(), inputs, &mut next, steps)
}

// The column of a node, where the nodes below it are numbered from `next` on.
fn evaluate_node<L: Ledger>(
    alloc: Global,
    node: &Node,
    inputs: &Inputs,
    next: &mut u32,
    steps: &mut Steps<L>,
) -> Result<Series, EvalError>
    requires small { next.old + node_count (node_tree node.now) ≤ max_nodes }
    requires built { is_built_tree (node_tree node.now) ≡ true }
    ensures next { OnOk result (next.new ≡ next.old + node_count (node_tree node.now)) }
    ensures found { IsFound (columns_of inputs.now)
        (numbers_from next.old (node_tree node.now)) (node_tree node.now) result }
    ensures steps { OnOk result
        (steps.new ≡ steps.old + step_count (columns_of inputs.now) (node_tree node.now)) }
{
    match node {
        Node::Input(index) => {
            let number = take_number(next);
            input_column(alloc, inputs, *index, number)
        }
        Node::Unary(operation, operand) => {
            let column = evaluate_node(alloc, operand, inputs, next, steps)?;
            let number = take_number(next);
            counted(unary_column(alloc, operation, &column, number), steps)
        }
        Node::Binary(op, left, right) => {
            let left = evaluate_node(alloc, left, inputs, next, steps)?;
            let right = evaluate_node(alloc, right, inputs, next, steps)?;
            let number = take_number(next);
            counted(binary_column(alloc, *op, &left, &right, number), steps)
        }
    }
}

// The number of the next node.
pub(crate) fn take_number(next: &mut u32) -> u32
    requires small { next.old < max_nodes }
    ensures number { result ≡ next.old }
    ensures next { next.new ≡ next.old + 1 }
{
    let number = *next;
    *next += 1;
    number
}

// Counts a step for each slot of a node's answer.
pub(crate) fn counted<L: Ledger>(
    answer: Result<Series, EvalError>,
    steps: &mut Steps<L>,
) -> Result<Series, EvalError>
    ensures answer { result ≡ answer }
    ensures steps { IfOk result (λ answer. steps.new ≡ steps.old + length answer.column.slots) }
{
    match answer {
        Ok(column) => {
            steps.tick(column.len() as u64);
            Ok(column)
        }
        Err(error) => Err(error),
    }
}

pub(crate) fn input_column(
    alloc: Global,
    inputs: &Inputs,
    index: u32,
    node: u32,
) -> Result<Series, EvalError>
    ensures found { IsFound (columns_of inputs.now) (One node) (Input index) result }
{
    match inputs.get(index) {
        Some(column) => cloned(alloc, column),
        None => Err(EvalError::NoColumn {
            node,
            index,
            count: inputs.len(),
        }),
    }
}

// A clone is refused for want of memory alone.
fn cloned(alloc: Global, column: &Series) -> Result<Series, EvalError>
    ensures column { Gives result (Ok column.now) }
{
    match column.try_clone(alloc) {
        Ok(column) => Ok(column),
        Err(_) => Err(EvalError::NoMemory),
    }
}
