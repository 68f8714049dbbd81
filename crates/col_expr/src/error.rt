// Why an expression is not built, and why it is not evaluated.
use crate::expr::Expr;

/// The first refused node, and its cause. Nodes are numbered in postfix order from 0.
#[derive(Drop, Debug, PartialEq, Eq)]
pub enum EvalError {
    /// The index is at or past the count of inputs.
    NoColumn { node: u32, index: u32, count: u32 },
    /// The operands' lengths don't fit each other.
    Lengths { node: u32, left: u32, right: u32 },
    /// The target is no type of an expression.
    BadType { node: u32 },
    /// No table has a rule for the operands' types.
    Unsupported { node: u32 },
    /// The scalar isn't in the operand's physical word.
    Scalar { node: u32 },
    /// A strict cast makes a valid slot null; the least such row.
    Strict { node: u32, row: u32 },
    /// Memory is wanting.
    NoMemory,
}

/// Why a constructor refuses. The counts are those that the expression would have.
#[derive(Drop, Debug, PartialEq, Eq)]
pub enum ExprCause {
    /// More than 1,048,576 nodes.
    ExprTooLarge { nodes: u32 },
    /// A path of more than 512 nodes.
    ExprTooDeep { depth: u32 },
    /// Memory is wanting.
    NoMemory,
}

/// A constructor's refusal, which hands the operands back.
#[derive(Drop)]
pub struct ExprRefused {
    pub cause: ExprCause,
    pub left: Expr,
    pub right: Option<Expr>,
}
