//! Rules as values: what becomes of one word or of two.

ghost use Rattle.std.specs.Prelude.{◌≡◌, ℤ, Option};
ghost use Rattle.std.specs.Option.{option_map};
ghost use Rattle.col_model.specs.Value.{integer_slot};
ghost use Rattle.col_buffer.specs.Validity.{slot_if};

use col_kernel::Word;

/// What a rule gives at a word.
#[derive(Clone, Copy)]
pub struct Outcome<U: Word> {
    /// The value, or any word where there is none.
    pub word: U,
    /// Whether there is a value.
    pub valid: bool,
    /// Whether there is one and it didn't wrap.
    pub kept: bool,
}

/// A rule for one word.
pub trait SlotRule<T: Word, U: Word> {
    /// What the integer of a slot becomes, or null.
    ghost value: { Self → ℤ → Option ℤ };

    /// The same, null also where it would wrap.
    ghost kept: { Self → ℤ → Option ℤ };

    /// What becomes of a word.
    fn at(&self, x: T) -> Outcome<U>
        ensures value { slot_if U.reading result.valid result.word
            ≡ integer_slot (value self.now (T.reading x)) }
        ensures kept { slot_if U.reading result.kept result.word
            ≡ integer_slot (kept self.now (T.reading x)) };
}

/// A rule for two words.
pub trait PairRule<T: Word, U: Word, V: Word> {
    /// What the integers of two slots become, or null.
    ghost value: { Self → ℤ → ℤ → Option ℤ };

    /// What becomes of two words, or any word, and whether there is a value.
    fn at(&self, x: T, y: U) -> (V, bool)
        ensures value { slot_if V.reading result.1 result.0
            ≡ integer_slot (value self.now (T.reading x) (U.reading y)) };
}

/// A rule for two words with the right one given.
#[derive(Drop)]
pub struct WithRight<'a, R, U: Word> {
    pub rule: &'a R,
    pub right: U,
}

impl<'a, T: Word, U: Word, V: Word, R: PairRule<T, U, V>> SlotRule<T, V> for WithRight<'a, R, U> {
    ghost value = { λ r x. R.value r.rule.now x (U.reading r.right) };

    ghost kept = { λ r x. R.value r.rule.now x (U.reading r.right) };

    fn at(&self, x: T) -> Outcome<V> {
        let (word, valid) = self.rule.at(x, self.right);
        Outcome {
            word,
            valid,
            kept: valid,
        }
    }
}

/// A rule for two words with the left one given.
#[derive(Drop)]
pub struct WithLeft<'a, R, T: Word> {
    pub rule: &'a R,
    pub left: T,
}

impl<'a, T: Word, U: Word, V: Word, R: PairRule<T, U, V>> SlotRule<U, V> for WithLeft<'a, R, T> {
    ghost value = { λ r y. R.value r.rule.now (T.reading r.left) y };

    ghost kept = { λ r y. R.value r.rule.now (T.reading r.left) y };

    fn at(&self, y: U) -> Outcome<V> {
        let (word, valid) = self.rule.at(self.left, y);
        Outcome {
            word,
            valid,
            kept: valid,
        }
    }
}

/// The word, or any, and whether there is one.
pub fn in_parts<U: Word>(word: Option<U>) -> (U, bool)
    ensures slot { slot_if U.reading result.1 result.0 ≡ integer_slot (option_map U.reading word) }
{
    match word {
        Some(word) => (word, true),
        None => (U::wrap_i128(0), false),
    }
}

/// What a rule gives that never wraps: the word, where there is one.
pub fn outcome_of<U: Word>(word: Option<U>) -> Outcome<U>
    ensures value { slot_if U.reading result.valid result.word
        ≡ integer_slot (option_map U.reading word) }
    ensures kept { slot_if U.reading result.kept result.word
        ≡ integer_slot (option_map U.reading word) }
{
    let (word, valid) = in_parts(word);
    Outcome {
        word,
        valid,
        kept: valid,
    }
}
