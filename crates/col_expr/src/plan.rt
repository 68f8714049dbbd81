// Plans of intervals for the nodes of an expression.
ghost use Rattle.std.specs.Prelude.{◌≡◌, ◌≤ℤ◌, [], Ok, ℤ, IfSome};
ghost use Rattle.std.specs.Option.{option_map};
ghost use Rattle.col_types.specs.PolarsError.{Becomes};
ghost use Rattle.col_model.specs.Arithmetic.{Interval as Range};
ghost use Rattle.col_model.specs.IntervalRoom.{IsOrdered};
ghost use Rattle.col_expr.specs.Plan.{interval_in, covering, ends_before};

use col_model::Interval;
use col_types::{PolarsError, PolarsResult};
use std::alloc::Global;
use std::collections::BTreeMap;
use std::marker::Model;

/// Intervals for the nodes of an expression, by their numbers in postfix order from 0. A contract
/// sees it as the list of the covered nodes with their intervals, in the order of their numbers.
#[derive(Drop)]
pub struct RangePlan {
    intervals: BTreeMap<u32, Interval>,
}

impl Model for RangePlan {
    ghost use Rattle.std.specs.Prelude.{ℕ, List};
    ghost use Rattle.std.specs.List.{All};
    ghost use Rattle.col_expr.specs.PlanNode.{IsCoverOrdered};
    ghost use Rattle.col_model.specs.Arithmetic.{Interval as Range};

    ghost Value = { List (ℕ × Range) };

    ghost view = { λ a. a.intervals.entries };

    ghost invariant = { λ a. All IsCoverOrdered a.intervals.entries };
}

impl RangePlan {
    /// No node is covered. It takes no memory.
    pub fn new(alloc: Global) -> RangePlan
        ensures empty { result ≡ [] }
    {
        RangePlan {
            intervals: BTreeMap::new(alloc),
        }
    }

    /// Covers a node by the integers from `low` to `high`, in place of an older interval. An `Err`
    /// is want of memory, and leaves the plan as it was.
    pub fn cover(&mut self, node: u32, low: i128, high: i128) -> PolarsResult<()>
        requires ordered { low ≤ℤ high }
        ensures covered { Becomes result self.old self.new
            (Ok (covering self.old node (record { low = low; high = high }))) }
    {
        self.put(node, Interval::new(low, high))
    }

    pub(crate) fn put(&mut self, node: u32, interval: Interval) -> PolarsResult<()>
        requires ordered { IsOrdered interval }
        ensures covered { Becomes result self.old self.new (Ok (covering self.old node interval)) }
    {
        match self.intervals.insert(node, interval) {
            Ok(_) => Ok(()),
            Err(_) => Err(PolarsError::NoMemory),
        }
    }

    /// The ends of a node's interval, none where the node isn't covered.
    pub fn bounds(&self, node: u32) -> Option<(i128, i128)>
        ensures interval { option_map (λ (ends : ℤ × ℤ). record { low = ends.0; high = ends.1 }) result
            ≡ interval_in self.now node }
    {
        match self.interval(node) {
            Some(interval) => Some((interval.low(), interval.high())),
            None => None,
        }
    }

    /// The interval of a node, none where the node isn't covered.
    pub fn interval(&self, node: u32) -> Option<Interval>
        ensures interval { result ≡ interval_in self.now node }
        ensures ordered { IfSome result IsOrdered }
    {
        match self.intervals.get(&node) {
            Some(interval) => Some(*interval),
            None => None,
        }
    }

    // Whether each covered number is less than this.
    pub(crate) fn ends_before(&self, count: u32) -> bool
        ensures ends { result ≡ ends_before self.now count }
    {
        match self.intervals.last_key_value() {
            Some((node, _)) => *node < count,
            None => true,
        }
    }
}
