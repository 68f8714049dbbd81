//! Scripts in, answers out.
#![tactic(auto)]

mod answer;
mod column;
mod dtypes;
mod expression;
mod line_error;
mod node;
mod numbers;
mod plan;
mod rows;
mod script;
mod slots;
mod stack;
mod ticks;
mod words;
mod zone;

pub use answer::{answer_text, bad_line_text, fault_text};
pub use col_expr::{EvalError, Expr, Inputs, RangePlan};
pub use col_series::Series;
pub use col_token::{Token, Tokens, line_count};
pub use plan::plan_text;
pub use script::{ReadError, Script, read_script};
