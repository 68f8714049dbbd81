// Words under the scalar forms.
ghost use Rattle.std.specs.Prelude.{◌≡◌, true};
ghost use Rattle.std.specs.Int.{w64};
ghost use Rattle.std.specs.Option.{option_and_then, option_map};
ghost use Rattle.col_model.specs.Arithmetic.{Signed, fitting_value, wrapped_value};
ghost use Rattle.col_model.specs.Column.{day_values, is_built_type};
ghost use Rattle.col_model.specs.Formula.{Fit, value_of};
ghost use Rattle.col_arith.specs.PairRule.{is_tick_in, tick_values};
ghost use Rattle.col_arith.specs.ScalarForm.{FitsType, form_of};

use col_kernel::Word;
use col_logical::{kept, tick};
use col_rule::{Outcome, SlotRule, outcome_of};
use col_types::{BinOp, DataType, NANOS_PER_DAY, ScalarOp};

/// How a column's value and an integer meet, and on which side the integer stands.
#[derive(Clone, Copy)]
pub(crate) enum ScalarForm {
    Right(ScalarOp),
    Left(BinOp),
    /// The value divided by the integer towards zero, null where its type hasn't the quotient.
    Checked,
}

/// The ticks of a type: in which word they are, and which bound they have in it.
#[derive(Clone, Copy)]
pub(crate) enum Ticks {
    /// Numbers of days, in 32 bits.
    Days,
    /// Nanoseconds of a day.
    Times,
    /// Ticks of any size, or integers, in 64 bits.
    Wide,
}

/// The ticks of columns of the type.
pub(crate) fn ticks_of(dtype: &DataType) -> Ticks
    requires built_type { is_built_type dtype.now ≡ true }
    ensures fits { FitsType dtype.now result }
{
    match dtype {
        DataType::Date => Ticks::Days,
        DataType::Time => Ticks::Times,
        DataType::Datetime(_, _) | DataType::Duration(_) | DataType::Int64 => Ticks::Wide,
        _ => unreachable!(),
    }
}

/// A word with an integer of its width, under a form.
#[derive(Drop)]
pub(crate) struct WithScalar<W: Word> {
    pub(crate) form: ScalarForm,
    pub(crate) k: W,
}

impl<W: Word> SlotRule<W, W> for WithScalar<W> {
    ghost value = { λ r x. value_of (form_of r.form (W.reading r.k) W.word_type) x x };

    ghost kept = { λ r x. value_of (form_of r.form (W.reading r.k) W.word_type) x x };

    fn at(&self, x: W) -> Outcome<W> {
        outcome_of(form_value(self.form, x, self.k))
    }
}

/// A time with an integer under a form, none outside the day.
#[derive(Drop)]
pub(crate) struct TimeWithScalar {
    pub(crate) form: ScalarForm,
    pub(crate) k: i64,
}

impl SlotRule<i64, i64> for TimeWithScalar {
    ghost value = { λ r x. value_of
        (Fit day_values (form_of r.form (wrapped_value (Signed w64) r.k) (Signed w64))) x x };

    ghost kept = { λ r x. value_of
        (Fit day_values (form_of r.form (wrapped_value (Signed w64) r.k) (Signed w64))) x x };

    fn at(&self, x: i64) -> Outcome<i64> {
        kept(time_in_day(wide_value(self.form, tick(x), tick(self.k))))
    }
}

/// A value and an integer of one word under the form.
fn form_value<W: Word>(form: ScalarForm, value: W, k: W) -> Option<W>
    ensures value { option_map W.reading result ≡
        value_of (form_of form (W.reading k) W.word_type) (W.reading value) (W.reading value) }
{
    match form {
        ScalarForm::Right(op) => match op {
            ScalarOp::Add => Some(value.add_wrap(k)),
            ScalarOp::Sub => Some(value.sub_wrap(k)),
            ScalarOp::Mul => Some(value.mul_wrap(k)),
            ScalarOp::Div => value.floor_div(k),
            ScalarOp::Rem => value.floor_mod(k),
            ScalarOp::TruncDiv => value.trunc_div(k),
        },
        ScalarForm::Left(op) => match op {
            BinOp::Add => Some(k.add_wrap(value)),
            BinOp::Sub => Some(k.sub_wrap(value)),
            BinOp::Mul => Some(k.mul_wrap(value)),
            BinOp::Div => k.floor_div(value),
            BinOp::Rem => k.floor_mod(value),
        },
        ScalarForm::Checked => value.div_checked(k),
    }
}

/// A tick of 64 bits and an integer under the form.
fn wide_value(form: ScalarForm, tick: i64, k: i64) -> Option<i64>
    ensures value { result ≡ value_of (form_of form k (Signed w64)) tick tick }
    ensures fits { is_tick_in tick_values result ≡ true }
{
    form_value(form, tick, k)
}

/// A time, none outside the day.
fn time_in_day(tick: Option<i64>) -> Option<i64>
    ensures value { result ≡ option_and_then (fitting_value day_values) tick }
{
    match tick {
        Some(tick) => {
            if 0 <= tick && tick < NANOS_PER_DAY {
                Some(tick)
            } else {
                None
            }
        }
        None => None,
    }
}
