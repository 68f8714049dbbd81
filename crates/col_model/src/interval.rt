// Intervals of integers.
ghost use Rattle.std.specs.Prelude.{◌≡◌, ◌≢◌, ◌≤◌, ◌<◌, ◌^◌, ◌+ℤ◌, ◌-ℤ◌, ◌*ℤ◌, pos, Some, unsigned_abs};
ghost use Rattle.std.specs.Int.{int_min, int_max};
ghost use Rattle.col_model.specs.Arithmetic.{is_within, is_inside};
ghost use Rattle.col_model.specs.Arithmetic.{floor_by, trunc_by, floor_div, trunc_div};
ghost use Rattle.col_model.specs.Formula.{spanned, at_ends, between_ends, quotient_interval};
ghost use Rattle.col_model.specs.Formula.{rest_interval, inside_interval};
ghost use Rattle.col_model.specs.IntervalRoom.{IsNear, IsOrdered, Multiply};

use std::marker::Model;

/// The integers from `low` to `high`, none where `high` is less.
#[derive(Clone, Copy, Debug)]
pub struct Interval {
    low: i128,
    high: i128,
}

impl Model for Interval {
    ghost use Rattle.col_model.specs.Arithmetic.{Interval as Range};

    ghost Value = { Range };

    ghost view = { λ a. record { low = a.low; high = a.high } };

    ghost inverse = { λ range. record { low = range.low; high = range.high } };
}

impl Interval {
    /// From one end to the other.
    pub fn new(low: i128, high: i128) -> Interval
        ensures interval { result ≡ record { low = low; high = high } }
    {
        Interval { low, high }
    }

    /// The least integer.
    pub fn low(self) -> i128
        ensures low { result ≡ self.low }
    {
        self.low
    }

    /// The greatest integer.
    pub fn high(self) -> i128
        ensures high { result ≡ self.high }
    {
        self.high
    }

    /// Whether the integer lies in the interval.
    pub fn contains(self, x: i128) -> bool
        ensures within { result ≡ is_within self x }
    {
        self.low <= x && x <= self.high
    }

    /// Whether both ends of the other interval lie in this one.
    pub fn encloses(self, inner: Interval) -> bool
        ensures inside { result ≡ is_inside self inner }
    {
        self.contains(inner.low) && self.contains(inner.high)
    }
}

// ---- what becomes of the ends

/// The least of four integers.
fn least(a: i128, b: i128, c: i128, d: i128) -> i128
    ensures least { result ≡ int_min (int_min a b) (int_min c d) }
{
    let first = a.min(b);
    let second = c.min(d);
    first.min(second)
}

/// The greatest of four integers.
fn greatest(a: i128, b: i128, c: i128, d: i128) -> i128
    ensures greatest { result ≡ int_max (int_max a b) (int_max c d) }
{
    let first = a.max(b);
    let second = c.max(d);
    first.max(second)
}

/// From the least to the greatest of four integers.
#[tactic(auto, unfolding(crate::specs::Formula::spanned))]
fn spanned(a: i128, b: i128, c: i128, d: i128) -> Interval
    ensures ends { result ≡ spanned a b c d }
{
    Interval::new(least(a, b, c, d), greatest(a, b, c, d))
}

/// The sums.
pub fn sum(p: Interval, q: Interval) -> Interval
    requires left { IsNear 126 p }
    requires right { IsNear 125 q }
    ensures ends { result ≡ record { low = p.low +ℤ q.low; high = p.high +ℤ q.high } }
{
    Interval::new(p.low + q.low, p.high + q.high)
}

/// The differences.
pub fn difference(p: Interval, q: Interval) -> Interval
    requires left { IsNear 126 p }
    requires right { IsNear 125 q }
    ensures ends { result ≡ record { low = p.low -ℤ q.high; high = p.high -ℤ q.low } }
{
    Interval::new(p.low - q.high, p.high - q.low)
}

/// The products.
pub fn product(p: Interval, q: Interval) -> Interval
    requires room { Multiply p q }
    ensures ends { result ≡ at_ends ◌*ℤ◌ p q }
{
    spanned(
        p.low * q.low,
        p.low * q.high,
        p.high * q.low,
        p.high * q.high,
    )
}

/// The quotients by a positive number, rounded down.
pub fn floor_by(p: Interval, k: u64) -> Interval
    requires some { 0 < k }
    ensures ends { result ≡ between_ends (λ v. floor_by v k) p }
{
    let k = i128::from(k);
    Interval::new(p.low.div_euclid(k), p.high.div_euclid(k))
}

/// The quotients by a positive number, rounded towards zero.
pub fn trunc_by(p: Interval, k: u64) -> Interval
    requires some { 0 < k }
    ensures ends { result ≡ between_ends (λ v. trunc_by v k) p }
{
    let k = i128::from(k);
    Interval::new(p.low / k, p.high / k)
}

/// The interval itself, none where it doesn't lie in the range.
pub fn inside(range: Interval, p: Interval) -> Option<Interval>
    ensures inside { result ≡ inside_interval range p }
{
    if range.encloses(p) { Some(p) } else { None }
}

/// What divisions leave, none where the divisor may be 0.
pub fn rest(p: Interval, divisor: Interval) -> Option<Interval>
    requires divisor { IsNear 125 divisor }
    ensures rest { result ≡ rest_interval p divisor }
{
    if divisor.contains(0) {
        None
    } else if 0 < divisor.low {
        Some(Interval::new(0, divisor.high - 1))
    } else {
        Some(Interval::new(divisor.low + 1, 0))
    }
}

/// The quotient rounded down.
fn floor_quotient(x: i128, divisor: i128) -> i128
    requires left { unsigned_abs x ≤ 2 ^ 125 }
    requires right { unsigned_abs divisor ≤ 2 ^ 125 }
    requires some { divisor ≢ pos 0 }
    ensures value { result ≡ floor_div x divisor }
{
    if divisor < 0 {
        (-x).div_euclid(-divisor)
    } else {
        x.div_euclid(divisor)
    }
}

/// The quotient rounded towards zero.
fn trunc_quotient(x: i128, divisor: i128) -> i128
    requires left { unsigned_abs x ≤ 2 ^ 125 }
    requires some { divisor ≢ pos 0 }
    ensures value { result ≡ trunc_div x divisor }
{
    x / divisor
}

/// The quotients rounded down of the four pairs of ends.
fn floor_corners(p: Interval, divisor: Interval) -> Interval
    requires left { IsNear 125 p }
    requires right { IsNear 125 divisor }
    requires low { divisor.low ≢ pos 0 }
    requires high { divisor.high ≢ pos 0 }
    ensures corners { result ≡ at_ends floor_div p divisor }
{
    spanned(
        floor_quotient(p.low, divisor.low),
        floor_quotient(p.low, divisor.high),
        floor_quotient(p.high, divisor.low),
        floor_quotient(p.high, divisor.high),
    )
}

/// The quotients rounded down, none where the divisor may be 0.
#[tactic(auto, using(crate::proofs::RoomLemmas::low_apart, crate::proofs::RoomLemmas::high_apart))]
pub fn floor_quotients(p: Interval, divisor: Interval) -> Option<Interval>
    requires left { IsNear 125 p }
    requires right { IsNear 125 divisor }
    requires ordered { IsOrdered divisor }
    ensures quotients { result ≡ quotient_interval floor_div p divisor }
{
    if divisor.contains(0) {
        None
    } else {
        Some(floor_corners(p, divisor))
    }
}

/// The quotients rounded towards zero of the four pairs of ends.
fn trunc_corners(p: Interval, divisor: Interval) -> Interval
    requires left { IsNear 125 p }
    requires right { IsNear 125 divisor }
    requires low { divisor.low ≢ pos 0 }
    requires high { divisor.high ≢ pos 0 }
    ensures corners { result ≡ at_ends trunc_div p divisor }
{
    spanned(
        trunc_quotient(p.low, divisor.low),
        trunc_quotient(p.low, divisor.high),
        trunc_quotient(p.high, divisor.low),
        trunc_quotient(p.high, divisor.high),
    )
}

/// The quotients rounded towards zero, none where the divisor may be 0.
#[tactic(auto, using(crate::proofs::RoomLemmas::low_apart, crate::proofs::RoomLemmas::high_apart))]
pub fn trunc_quotients(p: Interval, divisor: Interval) -> Option<Interval>
    requires left { IsNear 125 p }
    requires right { IsNear 125 divisor }
    requires ordered { IsOrdered divisor }
    ensures quotients { result ≡ quotient_interval trunc_div p divisor }
{
    if divisor.contains(0) {
        None
    } else {
        Some(trunc_corners(p, divisor))
    }
}
