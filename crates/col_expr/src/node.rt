// The nodes of an expression, and the operations of those with one operand.
use col_series::{CastOptions, DataType, TimeUnit};
use col_types::{BinOp, ScalarOp};

/// A node with those below it.
#[derive(Drop)]
pub(crate) enum Node {
    Input(u32),
    Unary(UnaryOp, Box<Node>),
    Binary(BinOp, Box<Node>, Box<Node>),
}

/// What a node does with its one operand.
#[derive(Drop)]
pub enum UnaryOp {
    /// The operand in another type.
    Cast(DataType, CastOptions),
    /// The operand with an integer on its right.
    ScalarRight(ScalarOp, i128),
    /// An integer with the operand on its right.
    ScalarLeft(i128, BinOp),
    /// The operand in another unit, wrapped where a value has no room there.
    InUnit(TimeUnit),
    /// The operand with each slot so many rows further down, up where negative.
    Shift(i64),
}
