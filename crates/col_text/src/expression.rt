// The line of the expression.
ghost use Rattle.std.specs.Prelude.{◌≡◌, true};
ghost use Rattle.col_expr.specs.Built.{is_built_operation};
ghost use Rattle.col_expr.specs.Node.{operation_symbol, over};
ghost use Rattle.col_expr.specs.Postfix.{stack_with, only_tree};
ghost use Rattle.col_expr.specs.Tree.{Apply, Binary, is_within_limits};
ghost use Rattle.col_token.specs.Tokens.{words_in};
ghost use Rattle.col_text.specs.Expression.{expression_line, stack_after_token, within_limits};
ghost use Rattle.col_text.specs.Nodes.{is_built_node, node_symbol};
ghost use Rattle.col_text.specs.Reading.{Reads, Becomes};

use crate::line_error::LineError;
use crate::node::{Node, node_of};
use crate::stack::Stack;
use col_expr::{BinOp, Expr, UnaryOp};
use col_token::first_token;
use col_types::ZoneNames;
use std::alloc::Global;

/// The tree of an operation over its operand.
fn unary(alloc: Global, operation: UnaryOp, operand: Expr) -> Result<Expr, LineError>
    requires built { is_built_operation operation ≡ true }
    ensures tree { Reads result (within_limits (over operation operand)) }
{
    Ok(Expr::unary(alloc, operation, operand)?)
}

/// The tree of two operands.
fn binary(alloc: Global, op: BinOp, left: Expr, right: Expr) -> Result<Expr, LineError>
    ensures tree { Reads result (within_limits (Binary op left right)) }
{
    Ok(Expr::binary(alloc, op, left, right)?)
}

fn push_unary(alloc: Global, stack: &mut Stack, operation: UnaryOp) -> Result<(), LineError>
    requires built { is_built_operation operation ≡ true }
    ensures stack { Becomes result stack.new
        (stack_with is_within_limits (operation_symbol operation) stack.old) }
{
    match stack.pop() {
        Some(operand) => Ok(stack.push(unary(alloc, operation, operand)?)?),
        None => Err(LineError::Bad),
    }
}

/// The right operand lies above the left one.
fn push_binary(alloc: Global, stack: &mut Stack, op: BinOp) -> Result<(), LineError>
    ensures stack { Becomes result stack.new
        (stack_with is_within_limits (Apply op) stack.old) }
{
    let Some(right) = stack.pop() else {
        return Err(LineError::Bad);
    };
    match stack.pop() {
        Some(left) => Ok(stack.push(binary(alloc, op, left, right)?)?),
        None => Err(LineError::Bad),
    }
}

fn push_node(alloc: Global, stack: &mut Stack, node: Node) -> Result<(), LineError>
    requires built { is_built_node node ≡ true }
    ensures stack { Becomes result stack.new
        (stack_with is_within_limits (node_symbol node) stack.old) }
{
    match node {
        Node::Input(index) => Ok(stack.push(Expr::input(index))?),
        Node::Binary(op) => push_binary(alloc, stack, op),
        Node::Unary(operation) => push_unary(alloc, stack, operation),
    }
}

/// Adds the node that a token spells.
fn push_token(
    alloc: Global,
    zones: &ZoneNames,
    stack: &mut Stack,
    token: &[u8],
) -> Result<(), LineError>
    ensures stack { Becomes result stack.new
        (stack_after_token zones.now stack.old token.now) }
{
    match node_of(zones, token) {
        Some(node) => push_node(alloc, stack, node),
        None => Err(LineError::Bad),
    }
}

/// The one tree on the stack.
fn only_tree(stack: Stack) -> Option<Expr>
    ensures tree { result ≡ only_tree stack }
{
    let mut stack = stack;
    let tree = stack.pop()?;
    match stack.pop() {
        Some(_) => None,
        None => Some(tree),
    }
}

/// The expression that stands behind `expr`, with the zones handed in before.
pub(crate) fn expression_line(
    alloc: Global,
    zones: &ZoneNames,
    line: &[u8],
) -> Result<Expr, LineError>
    ensures tree { Reads result (expression_line zones.now (words_in line.now)) }
{
    let mut stack = Stack::new(alloc);
    let mut rest = line;
    'tokens: while let Some((token, more)) = first_token(rest) {
        if let Err(refused) = push_token(alloc, zones, &mut stack, token) {
            return Err(refused);
        }
        rest = more;
    }
    match only_tree(stack) {
        Some(tree) => Ok(tree),
        None => Err(LineError::Bad),
    }
}
