// Building an expression.
ghost use Rattle.std.specs.Prelude.{◌≡◌, ◌+◌, ◌≤◌, ◌↔◌, max, true, OnOk, IfOk, IfErr};
ghost use Rattle.std.specs.Prelude.{IfSome, IsNone, Some, None};
ghost use Rattle.col_expr.specs.Tree.{
  Input,
  Cast,
  Binary,
  ScalarRight,
  ScalarLeft,
  InUnit,
  Shift,
};
ghost use Rattle.col_expr.specs.Tree.{
  node_count,
  depth_of,
  max_nodes,
  max_depth,
  is_within_limits,
};
ghost use Rattle.col_expr.specs.Node.{over, node_tree};
ghost use Rattle.col_expr.specs.Built.{
  is_built_tree,
  is_built_cast,
  is_built_operation,
  IsRefusedFor,
};

use crate::error::{ExprCause, ExprRefused};
use crate::node::{Node, UnaryOp};
use col_series::{CastOptions, DataType, TimeUnit};
use col_types::{BinOp, ScalarOp};
use std::alloc::Global;
use std::marker::Model;

const MAX_NODES: u32 = 1_048_576;

const MAX_DEPTH: u32 = 512;

/// An expression over columns that are named by their number. A contract sees it as its tree.
#[derive(Drop)]
pub struct Expr {
    nodes: u32,
    depth: u32,
    root: Node,
}

impl Model for Expr {
    ghost use Rattle.col_expr.specs.Tree.{Tree};
    ghost use Rattle.col_expr.specs.TreeCode.{tree_code};
    ghost use Rattle.col_expr.specs.Node.{node_tree};
    ghost use Rattle.col_expr.specs.Built.{IsExpr};

    ghost Value = { Tree };

    ghost coded = { tree_code };

    ghost view = { λ e. node_tree e.root };

    ghost invariant = { λ e. IsExpr e.nodes e.depth (node_tree e.root) };
}

impl Expr {
    /// The column of this number. It takes no memory.
    pub fn input(index: u32) -> Expr
        ensures tree { result ≡ Input index }
    {
        Expr {
            nodes: 1,
            depth: 1,
            root: Node::Input(index),
        }
    }

    /// An operation over an operand. A refusal hands the operand back and drops the operation; too
    /// many nodes are refused before too great a depth, and want of memory comes last.
    pub fn unary(alloc: Global, operation: UnaryOp, operand: Expr) -> Result<Expr, ExprRefused>
        requires built { is_built_operation operation ≡ true }
        ensures tree { IfOk result (λ e. e ≡ over operation operand) }
        ensures fits { OnOk result (is_within_limits (over operation operand) ≡ true) }
        ensures refused { IfErr result (λ r.
            IsRefusedFor (node_count operand + 1) (depth_of operand + 1) r.cause) }
        ensures back { IfErr result (λ r. (r.left ≡ operand) × (r.right ≡ None)) }
    {
        let nodes = operand.nodes + 1;
        let depth = operand.depth + 1;
        if let Some(cause) = refusal(nodes, depth) {
            return Err(ExprRefused {
                cause,
                left: operand,
                right: None,
            });
        }
        match boxed(alloc, operand) {
            Ok(root) => Ok(Expr {
                nodes,
                depth,
                root: Node::Unary(operation, root),
            }),
            Err(operand) => Err(ExprRefused {
                cause: ExprCause::NoMemory,
                left: operand,
                right: None,
            }),
        }
    }

    /// The operand in another type. Refused as `unary`.
    pub fn cast(
        alloc: Global,
        operand: Expr,
        dtype: DataType,
        options: CastOptions,
    ) -> Result<Expr, ExprRefused>
        requires built { is_built_cast dtype ≡ true }
        ensures tree { IfOk result (λ e. e ≡ Cast operand dtype options) }
        ensures fits { OnOk result (is_within_limits (Cast operand dtype options) ≡ true) }
        ensures refused { IfErr result (λ r.
            IsRefusedFor (node_count operand + 1) (depth_of operand + 1) r.cause) }
        ensures back { IfErr result (λ r. (r.left ≡ operand) × (r.right ≡ None)) }
    {
        Expr::unary(alloc, UnaryOp::Cast(dtype, options), operand)
    }

    /// The two operands joined. Refused as `unary`, with both operands handed back.
    pub fn binary(alloc: Global, op: BinOp, left: Expr, right: Expr) -> Result<Expr, ExprRefused>
        ensures tree { IfOk result (λ e. e ≡ Binary op left right) }
        ensures fits { OnOk result (is_within_limits (Binary op left right) ≡ true) }
        ensures refused { IfErr result (λ r.
            IsRefusedFor (node_count left + node_count right + 1)
            (max (depth_of left) (depth_of right) + 1) r.cause) }
        ensures back { IfErr result (λ r. (r.left ≡ left) × (r.right ≡ Some right)) }
    {
        let nodes = left.nodes + right.nodes + 1;
        let depth = left.depth.max(right.depth) + 1;
        if let Some(cause) = refusal(nodes, depth) {
            return Err(ExprRefused {
                cause,
                left,
                right: Some(right),
            });
        }
        match boxed_pair(alloc, left, right) {
            Ok((left, right)) => Ok(Expr {
                nodes,
                depth,
                root: Node::Binary(op, left, right),
            }),
            Err((left, right)) => Err(ExprRefused {
                cause: ExprCause::NoMemory,
                left,
                right: Some(right),
            }),
        }
    }

    /// The operand joined with an integer on its right. Refused as `unary`.
    pub fn scalar_right(
        alloc: Global,
        operand: Expr,
        op: ScalarOp,
        value: i128,
    ) -> Result<Expr, ExprRefused>
        ensures tree { IfOk result (λ e. e ≡ ScalarRight operand op value) }
        ensures fits { OnOk result (is_within_limits (ScalarRight operand op value) ≡ true) }
        ensures refused { IfErr result (λ r.
            IsRefusedFor (node_count operand + 1) (depth_of operand + 1) r.cause) }
        ensures back { IfErr result (λ r. (r.left ≡ operand) × (r.right ≡ None)) }
    {
        Expr::unary(alloc, UnaryOp::ScalarRight(op, value), operand)
    }

    /// An integer joined with the operand on its right. Refused as `unary`.
    pub fn scalar_left(
        alloc: Global,
        value: i128,
        op: BinOp,
        operand: Expr,
    ) -> Result<Expr, ExprRefused>
        ensures tree { IfOk result (λ e. e ≡ ScalarLeft value op operand) }
        ensures fits { OnOk result (is_within_limits (ScalarLeft value op operand) ≡ true) }
        ensures refused { IfErr result (λ r.
            IsRefusedFor (node_count operand + 1) (depth_of operand + 1) r.cause) }
        ensures back { IfErr result (λ r. (r.left ≡ operand) × (r.right ≡ None)) }
    {
        Expr::unary(alloc, UnaryOp::ScalarLeft(value, op), operand)
    }

    /// The operand in another unit, wrapped where a value has no room there. Refused as `unary`.
    pub fn unit(alloc: Global, operand: Expr, unit: TimeUnit) -> Result<Expr, ExprRefused>
        ensures tree { IfOk result (λ e. e ≡ InUnit operand unit) }
        ensures fits { OnOk result (is_within_limits (InUnit operand unit) ≡ true) }
        ensures refused { IfErr result (λ r.
            IsRefusedFor (node_count operand + 1) (depth_of operand + 1) r.cause) }
        ensures back { IfErr result (λ r. (r.left ≡ operand) × (r.right ≡ None)) }
    {
        Expr::unary(alloc, UnaryOp::InUnit(unit), operand)
    }

    /// The operand with each slot so many rows further down, up where negative. Refused as
    /// `unary`.
    pub fn shift(alloc: Global, operand: Expr, periods: i64) -> Result<Expr, ExprRefused>
        ensures tree { IfOk result (λ e. e ≡ Shift operand periods) }
        ensures fits { OnOk result (is_within_limits (Shift operand periods) ≡ true) }
        ensures refused { IfErr result (λ r.
            IsRefusedFor (node_count operand + 1) (depth_of operand + 1) r.cause) }
        ensures back { IfErr result (λ r. (r.left ≡ operand) × (r.right ≡ None)) }
    {
        Expr::unary(alloc, UnaryOp::Shift(periods), operand)
    }

    /// How many nodes there are, from 1 to 1,048,576.
    pub fn nodes(&self) -> u32
        ensures value { result ≡ node_count self.now }
    {
        self.nodes
    }

    /// How many nodes the longest path has, from 1 to 512.
    pub fn depth(&self) -> u32
        ensures value { result ≡ depth_of self.now }
    {
        self.depth
    }

    /// Does nothing: its clauses tell what holds of each expression.
    pub fn known(&self)
        ensures fits { is_within_limits self.now ≡ true }
        ensures built { is_built_tree self.now ≡ true }
    {
        let _ = &self.root;
    }

    pub(crate) fn root(&self) -> &Node
        ensures tree { node_tree result.now ≡ self.now }
        ensures small { node_count self.now ≤ max_nodes }
        ensures built { is_built_tree self.now ≡ true }
    {
        &self.root
    }
}

// What refuses an expression of these counts.
fn refusal(nodes: u32, depth: u32) -> Option<ExprCause>
    ensures fits { IsNone result ↔ ((nodes ≤ max_nodes) × (depth ≤ max_depth)) }
    ensures refused { IfSome result (IsRefusedFor nodes depth) }
{
    if nodes > MAX_NODES {
        Some(ExprCause::ExprTooLarge { nodes })
    } else if depth > MAX_DEPTH {
        Some(ExprCause::ExprTooDeep { depth })
    } else {
        None
    }
}

// The root in a box; want of memory hands the expression back.
fn boxed(alloc: Global, expr: Expr) -> Result<Box<Node>, Expr>
    ensures root { IfOk result (λ root. node_tree root.value ≡ expr) }
    ensures back { IfErr result (λ e. e ≡ expr) }
{
    let Expr { nodes, depth, root } = expr;
    match Box::new(alloc, root) {
        Ok(root) => Ok(root),
        Err(refused) => Err(Expr {
            nodes,
            depth,
            root: refused.value,
        }),
    }
}

// Both roots in boxes; want of memory hands both expressions back.
fn boxed_pair(
    alloc: Global,
    left: Expr,
    right: Expr,
) -> Result<(Box<Node>, Box<Node>), (Expr, Expr)>
    ensures roots { IfOk result
        (λ roots. (node_tree roots.0.value ≡ left) × (node_tree roots.1.value ≡ right)) }
    ensures back { IfErr result (λ back. (back.0 ≡ left) × (back.1 ≡ right)) }
{
    let (nodes, depth) = (left.nodes, left.depth);
    let left = match boxed(alloc, left) {
        Ok(root) => root,
        Err(left) => return Err((left, right)),
    };
    match boxed(alloc, right) {
        Ok(right) => Ok((left, right)),
        Err(right) => {
            let left = Expr {
                nodes,
                depth,
                root: Box::into_inner(left),
            };
            Err((left, right))
        }
    }
}
