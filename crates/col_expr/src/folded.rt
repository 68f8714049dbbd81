// Evaluating an expression with casts from unit to unit folded.
ghost use Rattle.std.specs.Prelude.{◌≡◌, ◌+◌, ◌≤◌, false, true, ℕ, List, OnOk};
ghost use Rattle.col_types.specs.DataType.{is_nested};
ghost use Rattle.col_types.specs.declared.cast_options.CastOptions.TheVariants.{NonStrict};
ghost use Rattle.col_model.specs.Column.{Column};
ghost use Rattle.col_model.specs.Chunked.{column_of, columns_of};
ghost use Rattle.col_expr.specs.Tree.{node_count, max_nodes};
ghost use Rattle.col_expr.specs.Numbers.{numbers_from};
ghost use Rattle.col_expr.specs.Built.{is_built_tree, is_built_cast, is_built_operation};
ghost use Rattle.col_expr.specs.Node.{node_tree};
ghost use Rattle.col_expr.specs.Meaning.{dtype_of, step_count};
ghost use Rattle.col_expr.specs.Refusal.{GivesBy, outcome};
ghost use Rattle.col_expr.specs.Found.{IsFine};
ghost use Rattle.col_expr.specs.Folded.{Numbered, folded, folded_by, fold_cast, plan_if, cast_over};
ghost use Rattle.col_expr.specs.Folded.{unit_step_by, step_of, is_covered};
ghost use Rattle.col_expr.specs.Waiting.{IsWaiting, IsFolding, IsReady, IsLevel, Leads, IsUnitCast};
ghost use Rattle.col_expr.specs.Waiting.{waiting_dtype, joined_waiting, under_last, same_way};
ghost use Rattle.col_expr.specs.Waiting.{last_turns_back, fold_over};

use crate::check::check_plan;
use crate::error::EvalError;
use crate::evaluation::{counted, input_column, take_number};
use crate::expr::Expr;
use crate::inputs::Inputs;
use crate::node::{Node, UnaryOp};
use crate::operations::{binary_column, unary_column};
use crate::plan::RangePlan;
use crate::steps::Steps;
use crate::waiting::{UnitCast, Waiting, Way};
use col_model::{UnitChange, unit_change};
use col_series::{CastOptions, DataType, Series};
use std::alloc::Global;
use std::sync::ledger::Ledger;

/// The answer of `evaluate`, under every plan. Casts from unit to unit that go on in one direction
/// are done as one, and one to a finer unit and back is left out where the plan is valid and covers
/// it, so that steps are those of the folded tree. The plan is checked once.
pub fn evaluate_folded<L: Ledger>(
    alloc: Global,
    expr: &Expr,
    inputs: &Inputs,
    plan: &RangePlan,
    steps: &mut Steps<L>,
) -> Result<Series, EvalError>
    ensures outcome { GivesBy column_of result (outcome (columns_of inputs.now) expr.now) }
    ensures steps { OnOk result (steps.new ≡ steps.old
        + step_count (columns_of inputs.now)
        (folded (columns_of inputs.now) plan.now expr.now).tree) }
{
    inputs.known();
    let valid = check_plan(expr, inputs, plan);
    let mut next = 0;
    match fold_node(alloc, expr.root(), inputs, plan, valid, &mut next, steps) {
        Ok(waiting) => settled(alloc, waiting, steps),
        Err(refusal) => Err(refusal),
    }
}

// The column of a node and the casts that wait over it, where the nodes below are numbered from
// `next` on.
fn fold_node<L: Ledger>(
    alloc: Global,
    node: &Node,
    inputs: &Inputs,
    plan: &RangePlan,
    valid: bool,
    next: &mut u32,
    steps: &mut Steps<L>,
) -> Result<Waiting, EvalError>
    requires small { next.old + node_count (node_tree node.now) ≤ max_nodes }
    requires built { is_built_tree (node_tree node.now) ≡ true }
    ensures next { OnOk result (next.new ≡ next.old + node_count (node_tree node.now)) }
    ensures folded { IsFolding (columns_of inputs.now)
        (folded_by (columns_of inputs.now) (plan_if valid plan.now)
        (numbers_from next.old (node_tree node.now)) (node_tree node.now))
        steps.old steps.new result }
{
    match node {
        Node::Input(index) => {
            let number = take_number(next);
            none_waits(input_column(alloc, inputs, *index, number))
        }
        Node::Unary(operation, operand) => {
            let below = fold_node(alloc, operand, inputs, plan, valid, next, steps)?;
            let number = take_number(next);
            fold_unary(alloc, operation, below, number, plan, valid, steps)
        }
        Node::Binary(op, left, right) => {
            let left = fold_node(alloc, left, inputs, plan, valid, next, steps)?;
            let left = settled(alloc, left, steps)?;
            let right = fold_node(alloc, right, inputs, plan, valid, next, steps)?;
            let right = settled(alloc, right, steps)?;
            let number = take_number(next);
            none_waits(counted(binary_column(alloc, *op, &left, &right, number), steps))
        }
    }
}

// An operation over a column and the casts that wait over it. A cast from unit to unit waits too.
fn fold_unary<L: Ledger>(
    alloc: Global,
    operation: &UnaryOp,
    below: Waiting,
    node: u32,
    plan: &RangePlan,
    valid: bool,
    steps: &mut Steps<L>,
) -> Result<Waiting, EvalError>
    requires built { is_built_operation operation.now ≡ true }
    ensures folded { (inputs : List Column) (operand : Numbered) (before : ℕ) →
        IsWaiting inputs operand before steps.old below →
        IsFolding inputs (fold_over inputs (plan_if valid plan.now) node operation.now operand)
        before steps.new result }
{
    match unit_cast(operation, node, waiting_dtype(&below)) {
        Some(cast) => fold_cast(alloc, below, cast, plan, valid),
        None => {
            let column = settled(alloc, below, steps)?;
            none_waits(counted(unary_column(alloc, operation, &column, node), steps))
        }
    }
}

// A cast over those that wait: it joins the last one where that one leads the same way, and is left
// out together with one that it turns back.
fn fold_cast(
    alloc: Global,
    below: Waiting,
    cast: UnitCast,
    plan: &RangePlan,
    valid: bool,
) -> Result<Waiting, EvalError>
    ensures folded { (inputs : List Column) (operand : Numbered) (before after : ℕ) →
        IsWaiting inputs operand before after below → Leads (dtype_of inputs operand.tree) cast →
        IsFolding inputs (fold_cast inputs (plan_if valid plan.now) cast.node operand cast.target
        NonStrict) before after result }
{
    let below = joined(below, &cast);
    if turns_back(&below, &cast, plan, valid) {
        return Ok(under_last(below));
    }
    match Box::new(alloc, below) {
        Ok(below) => Ok(Waiting::Cast(below, cast)),
        Err(_) => Err(EvalError::NoMemory),
    }
}

// The column once all that waits is done.
fn settled<L: Ledger>(
    alloc: Global,
    waiting: Waiting,
    steps: &mut Steps<L>,
) -> Result<Series, EvalError>
    ensures ready { (inputs : List Column) (folded : Numbered) (before : ℕ) →
        IsWaiting inputs folded before steps.old waiting →
        IsReady inputs folded before steps.new result }
{
    match waiting {
        Waiting::Column(column) => Ok(column),
        Waiting::Cast(below, cast) => {
            let column = settled(alloc, Box::into_inner(below), steps)?;
            done(alloc, &column, cast, steps)
        }
    }
}

// The column once a cast is done that waits.
fn done<L: Ledger>(
    alloc: Global,
    column: &Series,
    cast: UnitCast,
    steps: &mut Steps<L>,
) -> Result<Series, EvalError>
    ensures ready { (inputs : List Column) (folded : Numbered) (before : ℕ) →
        IsFine inputs folded.numbers folded.tree (column_of column.now) →
        steps.old ≡ before + step_count inputs folded.tree →
        IsReady inputs (cast_over cast.node folded cast.target NonStrict) before steps.new result }
{
    let operation = UnaryOp::Cast(cast.target, CastOptions::NonStrict);
    counted(unary_column(alloc, &operation, column, cast.node), steps)
}

// An answer over which nothing waits.
fn none_waits(answer: Result<Series, EvalError>) -> Result<Waiting, EvalError>
    ensures waiting { (inputs : List Column) (folded : Numbered) (before after : ℕ) →
        IsReady inputs folded before after answer → IsLevel (step_of inputs folded.tree) →
        IsFolding inputs folded before after result }
{
    match answer {
        Ok(column) => Ok(Waiting::Column(column)),
        Err(refusal) => Err(refusal),
    }
}

// ---- casts from unit to unit

// The cast that the operation of a node is, if it leads from this type to another unit.
fn unit_cast(operation: &UnaryOp, node: u32, dtype: &DataType) -> Option<UnitCast>
    ensures cast { IsUnitCast dtype.now node operation.now result }
{
    match operation {
        UnaryOp::Cast(target, CastOptions::NonStrict) => match unit_step(dtype, target) {
            Some(UnitChange::Finer(_)) => Some(cast_to(target, node, Way::Finer)),
            Some(UnitChange::Coarser(_)) => Some(cast_to(target, node, Way::Coarser)),
            _ => None,
        },
        _ => None,
    }
}

// The change of unit from one type to another, if a cast makes that and is never refused.
fn unit_step(from: &DataType, target: &DataType) -> Option<UnitChange>
    ensures step { result ≡ unit_step_by NonStrict from.now target.now }
{
    if !target.is_expression_target() {
        return None;
    }
    match (from, target) {
        (DataType::Datetime(from, _), DataType::Datetime(to, _)) => Some(unit_change(*from, *to)),
        (DataType::Duration(from), DataType::Duration(to)) => Some(unit_change(*from, *to)),
        _ => None,
    }
}

fn cast_to(target: &DataType, node: u32, way: Way) -> UnitCast
    requires flat { is_nested target.now ≡ false }
    requires built { is_built_cast target.now ≡ true }
    ensures node { result.node ≡ node }
    ensures target { result.target ≡ target.now }
    ensures way { result.way ≡ way }
{
    UnitCast {
        node,
        target: target.clone_flat(),
        way,
    }
}

// The type above all that waits.
fn waiting_dtype(waiting: &Waiting) -> &DataType
    ensures dtype { result.now ≡ waiting_dtype waiting.now }
{
    match waiting {
        Waiting::Column(column) => column.dtype(),
        Waiting::Cast(_, cast) => &cast.target,
    }
}

// What a cast stands over once it is joined.
fn joined(below: Waiting, cast: &UnitCast) -> Waiting
    ensures joined { result ≡ joined_waiting below cast.now }
{
    match below {
        Waiting::Column(column) => Waiting::Column(column),
        Waiting::Cast(below, last) => {
            if same_way(last.way, cast.way) {
                Box::into_inner(below)
            } else {
                Waiting::Cast(below, last)
            }
        }
    }
}

// What stands under the last cast.
fn under_last(waiting: Waiting) -> Waiting
    ensures under { result ≡ under_last waiting }
{
    match waiting {
        Waiting::Column(column) => Waiting::Column(column),
        Waiting::Cast(below, _) => Box::into_inner(below),
    }
}

fn same_way(first: Way, second: Way) -> bool
    ensures same { result ≡ same_way first second }
{
    matches!(
        (first, second),
        (Way::Finer, Way::Finer) | (Way::Coarser, Way::Coarser)
    )
}

// Whether a cast turns back the last one that waits, which a valid plan covers.
fn turns_back(below: &Waiting, cast: &UnitCast, plan: &RangePlan, valid: bool) -> bool
    ensures back { result ≡ last_turns_back (plan_if valid plan.now) below.now cast.now }
{
    match below {
        Waiting::Column(_) => false,
        Waiting::Cast(below, last) => match (last.way, cast.way) {
            (Way::Finer, Way::Coarser) => waiting_dtype(below).is_same(&cast.target)
                && is_covered(plan, valid, last.node),
            _ => false,
        },
    }
}

// Whether a plan that is valid covers a node.
fn is_covered(plan: &RangePlan, valid: bool, node: u32) -> bool
    ensures covered { result ≡ is_covered (plan_if valid plan.now) node }
{
    valid && plan.bounds(node).is_some()
}
