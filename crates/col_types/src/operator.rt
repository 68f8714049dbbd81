// The operators, and the names that refusals give to operations.

/// An operator between two columns.
#[derive(Clone, Copy, Debug, PartialEq, Eq)]
pub enum BinOp {
    Add,
    Sub,
    Mul,
    Div,
    Rem,
}

/// An operator between a column and a number.
#[derive(Clone, Copy, Debug, PartialEq, Eq)]
pub enum ScalarOp {
    Add,
    Sub,
    Mul,
    Div,
    Rem,
    /// Division that rounds towards zero.
    TruncDiv,
}

/// The operation that a refusal of types names.
#[derive(Clone, Copy, Debug, PartialEq, Eq)]
pub enum OpName {
    Add,
    Sub,
    Mul,
    Div,
    Rem,
    TruncDiv,
    CheckedDiv,
    Coerce,
    Supertype,
    Reduce,
    Sort,
    Unique,
    Zip,
    Sum,
    Product,
    Text,
}
