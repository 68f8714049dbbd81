//! Words as the integers that they read as, and integers as words.
#![tactic(auto, using(crate::proofs::WordReadings::readings))]

ghost use Rattle.std.specs.Prelude.{◌≡◌, true, IfSome};
ghost use Rattle.std.specs.Int.{w32, w64};
ghost use Rattle.col_model.specs.Arithmetic.{Signed, is_within, word_values, wrapped_value};
ghost use Rattle.col_model.specs.Value.{integer_slot};
ghost use Rattle.col_buffer.specs.Validity.{slot_if};

use col_rule::Outcome;

/// The tick that a word reads as.
pub fn tick(x: i64) -> i64
    ensures tick { result ≡ wrapped_value (Signed w64) x }
    ensures range { is_within (word_values (Signed w64)) result ≡ true }
{
    x
}

/// The number of the day that a word reads as.
pub fn day(x: i32) -> i64
    ensures day { result ≡ wrapped_value (Signed w32) x }
    ensures range { is_within (word_values (Signed w32)) result ≡ true }
{
    i64::from(x)
}

/// The word of a tick, or any, and whether there is one.
pub fn tick_word(tick: Option<i64>) -> (i64, bool)
    ensures slot { slot_if (wrapped_value (Signed w64)) result.1 result.0 ≡ integer_slot tick }
{
    match tick {
        Some(word) => (word, true),
        None => (0, false),
    }
}

/// The word of a day's number, or any, and whether there is one.
pub fn day_word(number: Option<i64>) -> (i32, bool)
    requires range { IfSome number (λ x. is_within (word_values (Signed w32)) x ≡ true) }
    ensures slot { slot_if (wrapped_value (Signed w32)) result.1 result.0 ≡ integer_slot number }
{
    match number {
        Some(number) => (number as i32, true),
        None => (0, false),
    }
}

/// A tick where there is one, which is then kept.
pub fn kept(tick: Option<i64>) -> Outcome<i64>
    ensures value { slot_if (wrapped_value (Signed w64)) result.valid result.word
        ≡ integer_slot tick }
    ensures kept { slot_if (wrapped_value (Signed w64)) result.kept result.word
        ≡ integer_slot tick }
{
    let (word, valid) = tick_word(tick);
    Outcome {
        word,
        valid,
        kept: valid,
    }
}

/// A day's number where there is one, which is then kept.
pub fn kept_day(number: Option<i64>) -> Outcome<i32>
    requires range { IfSome number (λ x. is_within (word_values (Signed w32)) x ≡ true) }
    ensures value { slot_if (wrapped_value (Signed w32)) result.valid result.word
        ≡ integer_slot number }
    ensures kept { slot_if (wrapped_value (Signed w32)) result.kept result.word
        ≡ integer_slot number }
{
    let (word, valid) = day_word(number);
    Outcome {
        word,
        valid,
        kept: valid,
    }
}
