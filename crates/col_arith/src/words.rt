// The words in which columns keep their ticks.
ghost use Rattle.std.specs.Prelude.{◌≡◌, true};
ghost use Rattle.col_model.specs.Arithmetic.{is_within, word_values};
ghost use Rattle.col_model.specs.Value.{integer_slot};
ghost use Rattle.col_buffer.specs.Validity.{slot_if};
ghost use Rattle.col_arith.specs.PairRule.{is_tick_in};

use col_kernel::Word;
use col_logical::{day, day_word, tick, tick_word};

/// A word in which columns keep their ticks.
pub(crate) trait TickWord: Word {
    /// The tick that a word reads as.
    fn tick(self) -> i64
        ensures tick { result ≡ Self.reading self }
        ensures range { is_within (word_values Self.word_type) result ≡ true };

    /// The word of a tick, or any, and whether there is one.
    fn of_tick(tick: Option<i64>) -> (Self, bool)
        requires range { is_tick_in (word_values Self.word_type) tick ≡ true }
        ensures slot { slot_if Self.reading result.1 result.0 ≡ integer_slot tick };
}

impl TickWord for i32 {
    fn tick(self) -> i64 {
        day(self)
    }

    fn of_tick(tick: Option<i64>) -> (i32, bool) {
        day_word(tick)
    }
}

impl TickWord for i64 {
    fn tick(self) -> i64 {
        tick(self)
    }

    fn of_tick(tick: Option<i64>) -> (i64, bool) {
        tick_word(tick)
    }
}
