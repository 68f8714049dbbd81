//! The rows of the cast table for integers and truth values, as rules for a word.
#![tactic(auto, using(crate::proofs::WordRuleLaws::word_rules))]

ghost use Rattle.std.specs.Prelude.{◌≡◌, pos};
ghost use Rattle.std.specs.Int.{w8};
ghost use Rattle.col_types.specs.declared.cast_options.CastOptions.TheVariants.{NonStrict};
ghost use Rattle.col_buffer.specs.Validity.{slot_if};
ghost use Rattle.col_model.specs.Arithmetic.{Unsigned, is_within, wrapped_value};
ghost use Rattle.col_model.specs.CastTable.{narrowed};
ghost use Rattle.col_model.specs.Column.{day_values};
ghost use Rattle.col_model.specs.Formula.{Fit, NonZero, X, truth_of, value_of};
ghost use Rattle.col_model.specs.Value.{integer_slot};
ghost use Rattle.col_cast.specs.Casts.{is_wrapping};

use col_kernel::Word;
use col_rule::{Outcome, SlotRule};
use col_types::{CastOptions, NANOS_PER_DAY};

/// An integer in a word: null where the word doesn't hold it, or wrapped.
#[derive(Drop)]
pub(crate) struct Narrowing {
    pub(crate) options: CastOptions,
}

impl<T: Word, U: Word> SlotRule<T, U> for Narrowing {
    ghost value = { λ r x. value_of (narrowed r.options U.word_type X) x x };

    ghost kept = { λ r x. value_of (narrowed NonStrict U.word_type X) x x };

    fn at(&self, x: T) -> Outcome<U> {
        reread(x, self.options)
    }
}

/// A number of nanoseconds in a word, null where it doesn't lie in the day.
#[derive(Drop)]
pub(crate) struct InTheDay {
    pub(crate) options: CastOptions,
}

impl<T: Word, U: Word> SlotRule<T, U> for InTheDay {
    ghost value = { λ r x. value_of (Fit day_values (narrowed r.options U.word_type X)) x x };

    ghost kept = { λ r x. value_of (Fit day_values (narrowed NonStrict U.word_type X)) x x };

    fn at(&self, x: T) -> Outcome<U> {
        let one = reread::<T, U>(x, self.options);
        let within = is_in_the_day(one.word);
        Outcome {
            word: one.word,
            valid: one.valid & within,
            kept: one.kept & within,
        }
    }
}

/// Whether an integer isn't 0, as the number 0 or 1.
#[derive(Drop)]
pub(crate) struct TruthOf;

impl<T: Word> SlotRule<T, u8> for TruthOf {
    ghost value = { λ r x. value_of (NonZero X) x x };

    ghost kept = { λ r x. value_of (NonZero X) x x };

    fn at(&self, x: T) -> Outcome<u8> {
        Outcome {
            word: truth(x.to_i128()),
            valid: true,
            kept: true,
        }
    }
}

/// A word as another one, by the options.
fn reread<T: Word, U: Word>(x: T, options: CastOptions) -> Outcome<U>
    ensures value { slot_if U.reading result.valid result.word
        ≡ integer_slot (value_of (narrowed options U.word_type X) (T.reading x) (T.reading x)) }
    ensures kept { slot_if U.reading result.kept result.word
        ≡ integer_slot (value_of (narrowed NonStrict U.word_type X) (T.reading x) (T.reading x)) }
{
    narrowed(x.to_i128(), options)
}

/// An integer in a word, by the options.
pub(crate) fn narrowed<U: Word>(x: i128, options: CastOptions) -> Outcome<U>
    ensures value { slot_if U.reading result.valid result.word
        ≡ integer_slot (value_of (narrowed options U.word_type X) x x) }
    ensures kept { slot_if U.reading result.kept result.word
        ≡ integer_slot (value_of (narrowed NonStrict U.word_type X) x x) }
{
    match U::from_i128(x) {
        Some(word) => Outcome {
            word,
            valid: true,
            kept: true,
        },
        None => Outcome {
            word: U::wrap_i128(x),
            valid: wraps(options),
            kept: false,
        },
    }
}

fn wraps(options: CastOptions) -> bool
    ensures wraps { result ≡ is_wrapping options }
{
    matches!(options, CastOptions::Overflowing)
}

fn is_in_the_day<U: Word>(word: U) -> bool
    ensures within { result ≡ is_within day_values (U.reading word) }
{
    let nanos = word.to_i128();
    0 <= nanos && nanos < i128::from(NANOS_PER_DAY)
}

fn truth(x: i128) -> u8
    ensures truth { wrapped_value (Unsigned w8) (pos result) ≡ truth_of x }
{
    if x == 0 { 0 } else { 1 }
}
