//! How deep and how large trees may be, and that a covered chain folds. What nodes answer, which of them is
//! refused first, and which plans hold is told by clauses, and shown by the rows of `col_rows`.
ghost use Rattle.std.specs.Prelude.{◌≡◌, ◌<◌, true, length, IfOk};
ghost use Rattle.col_model.specs.Column.{is_built_type};
ghost use Rattle.col_expr.specs.Built.{is_built_cast};

use col_expr::*;
use col_series::{AnyValue, PlSmallStr};
use std::alloc::Global;
use std::marker::Brand;
use std::sync::ledger::{Blank, Ledger};
use std::test::Fail;

const NS: TimeUnit = TimeUnit::Nanoseconds;

const MS: TimeUnit = TimeUnit::Milliseconds;

fn moments(unit: TimeUnit) -> DataType
    ensures built { is_built_type result ≡ true }
    ensures target { is_built_cast result ≡ true }
{
    DataType::Datetime(unit, None)
}

/// Inputs of one column of moments in milliseconds.
fn one_input(alloc: Global, slots: &[Option<i128>]) -> Result<Inputs, Fail>
    ensures one { IfOk result (λ inputs. length inputs ≡ 1) }
{
    let name = PlSmallStr::from_str(alloc, "a")?;
    let column = Series::from_slots(alloc, name, &moments(MS), slots)?;
    let mut inputs = Inputs::new(alloc);
    match inputs.push(column) {
        Ok(()) => Ok(inputs),
        Err(_) => Err(Fail::new("no memory")),
    }
}

fn built(answer: Result<Expr, ExprRefused>) -> Result<Expr, Fail> {
    match answer {
        Ok(expr) => Ok(expr),
        Err(refused) => Err(Fail::from(refused.cause)),
    }
}

/// Casts of moments to one unit after the other.
fn chain(alloc: Global, operand: Expr, units: &[TimeUnit]) -> Result<Expr, Fail> {
    let mut expr = operand;
    for unit in units.iter() {
        let cast = Expr::cast(alloc, expr, moments(*unit), CastOptions::NonStrict);
        expr = built(cast)?;
    }
    Ok(expr)
}

fn counted<L: Ledger>(
    alloc: Global,
    blank: Blank,
    expr: &Expr,
    inputs: &Inputs,
    plan: &RangePlan,
) -> Result<Series, EvalError>
    requires name { blank.name ≡ L.name }
    requires parts { blank.parts ≡ L.parts }
    requires open { 0 < blank.parts }
{
    let mut steps = Steps::<L>::new(blank);
    evaluate_folded(alloc, expr, inputs, plan, &mut steps)
}

fn answer(
    alloc: Global,
    expr: &Expr,
    inputs: &Inputs,
    plan: &RangePlan,
) -> Result<Series, EvalError> {
    counted::<Brand>(alloc, Blank::new(1), expr, inputs, plan)
}

fn tick(column: &Series, row: usize) -> Option<i64> {
    match column.get(row) {
        Ok(AnyValue::Datetime(tick, _, _)) => Some(tick),
        _ => None,
    }
}

/// The deepest chain of casts, and a cast more.
fn deepest(alloc: Global) -> Result<Result<Expr, ExprRefused>, Fail> {
    let mut deepest = Expr::input(0);
    for _cast in 0..511 {
        deepest = chain(alloc, deepest, &[MS])?;
    }
    Ok(Expr::cast(alloc, deepest, moments(MS), CastOptions::Strict))
}

#[test]
fn the_deepest_expression_is_evaluated(rt: HostRuntime) -> Result<(), Fail> {
    let alloc = rt.alloc();
    match deepest(alloc)? {
        Ok(_) => Err(Fail::new("not refused")),
        Err(refused) => {
            assert!(rt; refused.cause == ExprCause::ExprTooDeep { depth: 513 });
            assert!(rt; refused.left.depth() == 512 && refused.left.nodes() == 512);
            let inputs = one_input(alloc, &[Some(7)])?;
            let column = answer(alloc, &refused.left, &inputs, &RangePlan::new(alloc))?;
            assert_eq!(rt; tick(&column, 0), Some(7));
            Ok(())
        }
    }
}

/// The full tree of so many levels.
fn full(alloc: Global, levels: u32) -> Result<Expr, Fail> {
    if levels <= 1 {
        return Ok(Expr::input(0));
    }
    let left = full(alloc, levels - 1)?;
    let right = full(alloc, levels - 1)?;
    built(Expr::binary(alloc, BinOp::Add, left, right))
}

#[test]
fn the_largest_expression_is_built(rt: HostRuntime) -> Result<(), Fail> {
    let alloc = rt.alloc();
    let full = full(alloc, 20)?;
    assert_eq!(rt; full.nodes(), 1_048_575);
    let largest = built(Expr::shift(alloc, full, 1))?;
    match Expr::shift(alloc, largest, 1) {
        Ok(_) => Err(Fail::new("not refused")),
        Err(refused) => {
            assert!(rt; refused.cause == ExprCause::ExprTooLarge { nodes: 1_048_577 });
            assert!(rt; refused.left.nodes() == 1_048_576 && refused.left.depth() == 21);
            Ok(())
        }
    }
}

/// A million moments in milliseconds, from 0 to 10 over and over.
fn a_million_rows(alloc: Global) -> Result<Inputs, Fail> {
    let mut slots = Vec::new(alloc);
    for row in 0..1_000_000_u64 {
        match slots.push(Some(i128::from(row % 11))) {
            Ok(()) => {}
            Err(_) => return Err(Fail::new("no memory")),
        }
    }
    one_input(alloc, &slots)
}

/// Two hundred and fifty-five times the casts to nanoseconds and back, and a plan that covers each.
fn long_chain(alloc: Global) -> Result<(Expr, RangePlan), Fail> {
    let mut expr = Expr::input(0);
    let mut covered = RangePlan::new(alloc);
    covered.cover(0, 0, 10)?;
    for pair in 0..255 {
        expr = chain(alloc, expr, &[NS, MS])?;
        covered.cover(2 * pair + 1, 0, 10_000_000)?;
        covered.cover(2 * pair + 2, 0, 10)?;
    }
    Ok((expr, covered))
}

// Plain evaluation would cast 102,000,000,000 slots.
#[test]
fn a_long_chain_folds_in_time(rt: HostRuntime) -> Result<(), Fail> {
    let alloc = rt.alloc();
    let inputs = a_million_rows(alloc)?;
    let (expr, covered) = long_chain(alloc)?;
    assert!(rt; covered.bounds(510) == Some((0, 10)) && covered.bounds(511).is_none());
    for _call in 0..200 {
        let column = answer(alloc, &expr, &inputs, &covered)?;
        assert_eq!(rt; column.len(), 1_000_000);
        for (row, wanted) in [(0, Some(0)), (10, Some(10)), (999_999, Some(0))] {
            assert_eq!(rt; tick(&column, row), wanted, "at {row}");
        }
    }
    Ok(())
}
