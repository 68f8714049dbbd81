// Where the ticks lie that scalar forms give.
ghost use Rattle.std.specs.Prelude.{◌≡◌, true, Some};
ghost use Rattle.col_model.specs.Arithmetic.{word_values};
ghost use Rattle.col_model.specs.Column.{is_built_type};
ghost use Rattle.col_model.specs.Formula.{interval_of};
ghost use Rattle.col_model.specs.IntervalRoom.{IsNear, IsOrdered, only};
ghost use Rattle.col_model.specs.RuleIntervals.{scalar_interval};
ghost use Rattle.col_model.specs.ScalarTable.{is_scalar_of, right_form, left_form};
ghost use Rattle.col_model.specs.ScalarTable.{scalar_right_rule, scalar_left_rule};
ghost use Rattle.col_arith.specs.ScalarForm.{form_of, bounded_by, word_of};
ghost use Rattle.col_arith.specs.Intervals.{form_rule};

use crate::intervals::inside_of;
use crate::scalars::{ScalarForm, Ticks, ticks_of};
use col_model::{
    Interval, date_values, day_values, difference, floor_quotients, inside, only, product, rest,
    sum, tick_values, trunc_quotients,
};
use col_types::{BinOp, DataType, ScalarOp};

/// The values of the word of the ticks.
fn word_interval(ticks: Ticks) -> Interval
    ensures values { result ≡ word_values (word_of ticks) }
    ensures near { IsNear 63 result }
{
    match ticks {
        Ticks::Days => date_values(),
        Ticks::Times | Ticks::Wide => tick_values(),
    }
}

/// An interval joined with an integer on its right, none where the word may not hold it.
#[tactic(auto, using(col_model::proofs::RoomLemmas::scalar_multiply))]
fn right_interval(op: ScalarOp, ticks: Ticks, p: Interval, k: i128) -> Option<Interval>
    requires near { IsNear 63 p }
    requires scalar { IsNear 63 (only k) }
    ensures value { result ≡ interval_of (right_form op k (word_of ticks)) p p }
{
    let word = word_interval(ticks);
    let k = only(k);
    match op {
        ScalarOp::Add => inside(word, sum(p, k)),
        ScalarOp::Sub => inside(word, difference(p, k)),
        ScalarOp::Mul => inside(word, product(p, k)),
        ScalarOp::Div => inside_of(word, floor_quotients(p, k)),
        ScalarOp::Rem => rest(p, k),
        ScalarOp::TruncDiv => inside_of(word, trunc_quotients(p, k)),
    }
}

/// An interval joined with an integer on its left, none where the word may not hold it.
#[tactic(auto, using(col_model::proofs::RoomLemmas::scalar_multiply))]
fn left_interval(op: BinOp, ticks: Ticks, p: Interval, k: i128) -> Option<Interval>
    requires near { IsNear 63 p }
    requires ordered { IsOrdered p }
    requires scalar { IsNear 63 (only k) }
    ensures value { result ≡ interval_of (left_form k op (word_of ticks)) p p }
{
    let word = word_interval(ticks);
    let k = only(k);
    match op {
        BinOp::Add => inside(word, sum(k, p)),
        BinOp::Sub => inside(word, difference(k, p)),
        BinOp::Mul => inside(word, product(k, p)),
        BinOp::Div => inside_of(word, floor_quotients(k, p)),
        BinOp::Rem => rest(k, p),
    }
}

/// An interval joined with an integer under the form, none where the values may not hold it.
fn form_interval(form: ScalarForm, ticks: Ticks, p: Interval, k: i128) -> Option<Interval>
    requires near { IsNear 63 p }
    requires ordered { IsOrdered p }
    requires scalar { IsNear 63 (only k) }
    ensures value { result ≡
        interval_of (bounded_by ticks (form_of form k (word_of ticks))) p p }
{
    let joined = match form {
        ScalarForm::Right(op) => right_interval(op, ticks, p, k),
        ScalarForm::Left(op) => left_interval(op, ticks, p, k),
        ScalarForm::Checked => right_interval(ScalarOp::TruncDiv, ticks, p, k),
    };
    match ticks {
        Ticks::Times => inside_of(day_values(), joined),
        Ticks::Days | Ticks::Wide => joined,
    }
}

/// Where the slots of a column of this type lie that meets an integer under the form.
fn scalar_interval(form: ScalarForm, dtype: &DataType, k: i128, p: Interval) -> Option<Interval>
    requires built { is_built_type dtype.now ≡ true }
    requires near { IsNear 63 p }
    requires ordered { IsOrdered p }
    ensures interval { result ≡
        scalar_interval (is_scalar_of dtype.now k) (form_rule form k dtype.now) p }
{
    let ticks = ticks_of(dtype);
    if word_interval(ticks).contains(k) {
        form_interval(form, ticks, p, k)
    } else {
        None
    }
}

/// Where the slots of a column of this type lie that meets an integer on its right, none where its
/// word hasn't the integer, or where a slot may be lost or wrapped.
pub fn scalar_right_interval(
    dtype: &DataType,
    op: ScalarOp,
    k: i128,
    p: Interval,
) -> Option<Interval>
    requires built { is_built_type dtype.now ≡ true }
    requires near { IsNear 63 p }
    requires ordered { IsOrdered p }
    ensures interval { result ≡
        scalar_interval (is_scalar_of dtype.now k) (scalar_right_rule dtype.now op k) p }
{
    scalar_interval(ScalarForm::Right(op), dtype, k, p)
}

/// The same of an integer on the left.
pub fn scalar_left_interval(dtype: &DataType, k: i128, op: BinOp, p: Interval) -> Option<Interval>
    requires built { is_built_type dtype.now ≡ true }
    requires near { IsNear 63 p }
    requires ordered { IsOrdered p }
    ensures interval { result ≡
        scalar_interval (is_scalar_of dtype.now k) (scalar_left_rule k op dtype.now) p }
{
    scalar_interval(ScalarForm::Left(op), dtype, k, p)
}
