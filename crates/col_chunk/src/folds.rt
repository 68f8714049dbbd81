//! Words joined one after another, and nulls passed over.

ghost use Rattle.std.specs.Prelude.{◌≡◌, ◌+◌, ◌≤◌, ◌<◌, ◌==◌, ℤ, Some, [], ◌∷◌, IfNone, IfSome, drop, fold, length, map};
ghost use Rattle.std.specs.Int.{bit_at};
ghost use Rattle.std.specs.Option.{option_map};
ghost use Rattle.col_model.specs.Words.{integers_of};
ghost use Rattle.col_buffer.specs.Validity.{Reaches, masked};
ghost use Rattle.col_chunk.specs.Folds.{run_slots};

use crate::{Chunk, View, WordChunk};
use col_buffer::{bits_of, part, word_from};
use col_kernel::Word;

/// How one more word is joined to what there is so far.
pub(crate) trait Step<T: Word> {
    /// The same of integers.
    ghost step: { ℤ → ℤ → ℤ };

    /// Joins a word.
    fn join(total: T, value: T) -> T
        ensures value { T.reading result ≡ step (T.reading total) (T.reading value) };
}

impl<T: Word> WordChunk<T> {
    /// Joins the valid words from a place on.
    #[tactic(auto, using(crate::proofs::WordLaws::word_laws))]
    pub(crate) fn fold<S: Step<T>>(&self, skip: usize, total: T) -> T
        requires inside { skip ≤ length self.now }
        ensures value { T.reading result
            ≡ fold S.step (T.reading total) (integers_of (drop skip self.now)) }
    {
        let place = self.offset + skip;
        let values = part(&self.values, place, self.len - skip);
        fold_part::<T, S>(total, values, bits_of(&self.validity), place)
    }

    /// The first valid word and the place behind it, if there is one.
    pub(crate) fn first_valid(&self) -> Option<(usize, T)>
        ensures none { IfNone result (integers_of self.now ≡ []) }
        ensures inside { IfSome result (λ first. first.0 ≤ length self.now) }
        ensures first { IfSome result (λ first. integers_of self.now
            ≡ T.reading first.1 ∷ integers_of (drop first.0 self.now)) }
    {
        for index in 0..self.len() {
            if let Some(value) = self.get(index) {
                return Some((index + 1, value));
            }
        }
        None
    }
}

/// Joins the valid words of a part.
fn fold_part<T: Word, S: Step<T>>(total: T, values: &[T], bits: Option<&[u64]>, place: usize) -> T
    requires reach { Reaches (option_map (λ words. words.now) bits) (place + length values.now) }
    requires fits { place + length values.now ≤ usize.MAX }
    ensures value { T.reading result
        ≡ fold S.step (T.reading total) (integers_of (masked T.reading (option_map
        (λ words. words.now) bits.entry) place values.now)) }
{
    match bits {
        None => fold_plain::<T, S>(total, values),
        Some(words) => fold_valid::<T, S>(total, values, words, place),
    }
}

/// Joins each word.
fn fold_plain<T: Word, S: Step<T>>(total: T, values: &[T]) -> T
    ensures value { T.reading result ≡ fold S.step (T.reading total) (map T.reading values.now) }
{
    let mut total = total;
    for value in values {
        total = S::join(total, *value);
    }
    total
}

/// Joins the words whose bits are set, 64 at a time.
fn fold_valid<T: Word, S: Step<T>>(total: T, values: &[T], words: &[u64], offset: usize) -> T
    requires reach { Reaches (Some words.now) (offset + length values.now) }
    requires fits { offset + length values.now ≤ usize.MAX }
    ensures value { T.reading result
        ≡ fold S.step (T.reading total) (integers_of (masked T.reading
        (Some words.now) offset values.now)) }
{
    let mut total = total;
    for at in 0..values.len().div_ceil(64) {
        let start = at * 64;
        let end = values.len().min(start.saturating_add(64));
        let word = word_from(words, offset + start);
        total = fold_run::<T, S>(total, &values[start..end], word);
    }
    total
}

/// Joins the words whose bits are set in one word of bits.
fn fold_run<T: Word, S: Step<T>>(total: T, values: &[T], word: u64) -> T
    requires short { length values.now ≤ 64 }
    ensures value { T.reading result
        ≡ fold S.step (T.reading total) (integers_of (run_slots T.reading word 0 values.now)) }
{
    if word == u64::MAX {
        return fold_plain::<T, S>(total, values);
    }
    let mut total = total;
    for at in 0..values.len() {
        let value = values[at];
        if has_bit(word, at) {
            total = S::join(total, value);
        }
    }
    total
}

/// Whether a bit of a word is set.
fn has_bit(word: u64, at: usize) -> bool
    requires inside { at < 64 }
    ensures set { result ≡ (bit_at word at == 1) }
{
    (word >> at) & 1 == 1
}
