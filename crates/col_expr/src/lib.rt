//! Expressions over columns: building one, and evaluating it.
#![tactic(auto)]

mod check;
mod error;
mod evaluation;
mod expr;
mod fold_laws;
mod folded;
mod found_plan;
mod inputs;
mod laws;
mod node;
mod node_image;
mod operations;
mod part;
mod plan;
mod plan_laws;
mod span;
mod steps;
mod waiting;

pub use check::check_plan;
pub use col_series::{CastOptions, DataType, Series, TimeUnit, TimeZone};
pub use col_types::{BinOp, ScalarOp};
pub use error::{EvalError, ExprCause, ExprRefused};
pub use evaluation::evaluate;
pub use expr::Expr;
pub use fold_laws::{folding_changes_no_answer, known_folds, rules_of_folding};
pub use folded::evaluate_folded;
pub use inputs::Inputs;
pub use laws::{
    chunks_do_not_matter, defined_up_to_the_first_refusal, one_tree_fits,
    refusals_in_postfix_order, refusals_name_their_node,
};
pub use node::UnaryOp;
pub use plan::RangePlan;
pub use plan_laws::{found_plans_are_valid, valid_plans_are_kept};
pub use steps::Steps;
