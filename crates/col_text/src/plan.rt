// The line of a plan, and the lines of a whole plan.
ghost use Rattle.std.specs.Prelude.{◌≡◌, ◌≤ℤ◌, ◌++◌, OnOk, IfOk, IfSome, option_map, string_bytes};
ghost use Rattle.std.specs.Prelude.{[], ◌∷◌};
ghost use Rattle.col_token.specs.Tokens.{words_in};
ghost use Rattle.col_text.specs.Plans.{cover_of, interval_between, interval_named, node_text};
ghost use Rattle.col_text.specs.Plans.{plan_line, plan_text};

use crate::numbers::{integer, number};
use col_expr::RangePlan;
use col_token::first_token;
use std::alloc::{AllocError, Global};

/// A node's number and the ends of the interval that a plan has for it.
#[derive(Clone, Copy)]
pub(crate) struct Cover {
    pub node: u32,
    pub low: i128,
    pub high: i128,
}

/// The ends of an interval, where the low one isn't above the high one.
fn ends_named(low: &[u8], high: &[u8]) -> Option<(i128, i128)>
    ensures interval { option_map (λ ends. interval_between ends.0 ends.1) result
        ≡ interval_named low.now high.now }
    ensures ordered { IfSome result (λ ends. ends.0 ≤ℤ ends.1) }
{
    let low = integer(low)?;
    let high = integer(high)?;
    if low <= high { Some((low, high)) } else { None }
}

fn cover_named(node: &[u8], low: &[u8], high: &[u8]) -> Option<Cover>
    ensures cover { option_map cover_of result
        ≡ plan_line (node.now ∷ (low.now ∷ (high.now ∷ []))) }
    ensures ordered { IfSome result (λ cover. cover.low ≤ℤ cover.high) }
{
    let node = number(node)?;
    let (low, high) = ends_named(low, high)?;
    Some(Cover { node, low, high })
}

/// What stands behind `plan`: the number of a node, and the ends of its interval.
pub(crate) fn plan_line(line: &[u8]) -> Option<Cover>
    ensures cover { option_map cover_of result ≡ plan_line (words_in line.now) }
    ensures ordered { IfSome result (λ cover. cover.low ≤ℤ cover.high) }
{
    let (node, rest) = first_token(line)?;
    let (low, rest) = first_token(rest)?;
    let (high, rest) = first_token(rest)?;
    match first_token(rest) {
        Some(_) => None,
        None => cover_named(node, low, high),
    }
}

fn push_node(text: &mut String, plan: &RangePlan, node: u32) -> Result<(), AllocError>
    ensures text { OnOk result (string_bytes text.new
        ≡ string_bytes text.old ++ node_text plan.now node) }
{
    match plan.bounds(node) {
        Some((low, high)) => writeln!(text, "plan {node} {low} {high}"),
        None => Ok(()),
    }
}

/// The lines of the covered nodes below a number, in their order, as a script has them.
pub fn plan_text(alloc: Global, plan: &RangePlan, nodes: u32) -> Result<Vec<u8>, AllocError>
    ensures text { IfOk result (λ v. v.items ≡ plan_text plan.now nodes) }
{
    let mut text = String::new(alloc);
    for node in 0..nodes {
        push_node(&mut text, plan, node)?;
    }
    Ok(text.into_bytes())
}
