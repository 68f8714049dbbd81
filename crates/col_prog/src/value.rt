// The value of a script's expression.
ghost use Rattle.std.specs.Prelude.{◌≡◌, ◌+◌, OnOk};
ghost use Rattle.col_model.specs.Chunked.{column_of, columns_of};
ghost use Rattle.col_expr.specs.Meaning.{step_count};
ghost use Rattle.col_expr.specs.Refusal.{GivesBy, outcome};
ghost use Rattle.col_prog.specs.Evaluated.{evaluated_tree};

use col_expr::{EvalError, RangePlan, Steps, evaluate, evaluate_folded};
use col_series::Series;
use col_text::Script;
use std::alloc::Global;
use std::sync::ledger::Ledger;

/// Which casts are folded. The value is the same.
#[derive(Clone, Copy)]
pub(crate) enum Folding {
    /// None.
    Without,
    /// Those that the script's plan allows.
    Given,
    /// Those that the plan allows that the columns give. Finding it takes no steps.
    Found,
}

/// The column of the script's expression, or its first refused node.
pub(crate) fn script_value<L: Ledger>(
    alloc: Global,
    script: &Script,
    folding: Folding,
    steps: &mut Steps<L>,
) -> Result<Series, EvalError>
    ensures outcome { GivesBy column_of result
        (outcome (columns_of script.now.inputs) script.now.expr) }
    ensures steps { OnOk result (steps.new ≡ steps.old
        + step_count (columns_of script.now.inputs) (evaluated_tree folding script.now)) }
{
    match folding {
        Folding::Without => evaluate(alloc, &script.expr, &script.inputs, steps),
        Folding::Given => {
            evaluate_folded(alloc, &script.expr, &script.inputs, &script.plan, steps)
        }
        Folding::Found => match RangePlan::of_inputs(alloc, &script.expr, &script.inputs) {
            Ok(plan) => evaluate_folded(alloc, &script.expr, &script.inputs, &plan, steps),
            Err(_) => Err(EvalError::NoMemory),
        },
    }
}
