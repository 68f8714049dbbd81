//! Where a loop takes its answers from.
#![tactic(auto, using(crate::proofs::RuleLaws::rule_laws))]

ghost use Rattle.std.specs.Prelude.{◌≡◌, ◌<◌, List, Option, None, length, slice_index_or};
ghost use Rattle.col_model.specs.Value.{Value};
ghost use Rattle.col_buffer.specs.Validity.{slot_if};
ghost use Rattle.col_rule.specs.Rules.{met_slots, word_slots_by};

use crate::rule::{Outcome, PairRule, SlotRule};
use col_kernel::Word;

/// A list of what a rule gives, computed as it is read.
pub trait Source<U: Word> {
    /// What there is at each place.
    ghost values: { Self → List (Option Value) };

    /// The same, null also where it would wrap.
    ghost keeps: { Self → List (Option Value) };

    /// The number of places.
    fn len(&self) -> usize
        ensures values { result ≡ length (values self.now) }
        ensures keeps { result ≡ length (keeps self.now) };

    /// What there is at a place.
    fn at(&self, index: usize) -> Outcome<U>
        requires inside { index < length (values self.now) }
        ensures value { slot_if U.reading result.valid result.word
            ≡ slice_index_or (values self.now) index None }
        ensures kept { slot_if U.reading result.kept result.word
            ≡ slice_index_or (keeps self.now) index None };
}

/// A rule at each of some words.
#[derive(Drop)]
pub struct Changing<'a, T: Word, R> {
    pub rule: &'a R,
    pub from: &'a [T],
}

impl<'a, T: Word, U: Word, R: SlotRule<T, U>> Source<U> for Changing<'a, T, R> {
    ghost values = { λ s. word_slots_by (R.value s.rule.now) T.reading s.from.now };

    ghost keeps = { λ s. word_slots_by (R.kept s.rule.now) T.reading s.from.now };

    fn len(&self) -> usize {
        self.from.len()
    }

    fn at(&self, index: usize) -> Outcome<U> {
        self.rule.at(self.from[index])
    }
}

/// A rule at each place of two lists of words, as far as the shorter one.
#[derive(Drop)]
pub struct Meeting<'a, T: Word, U: Word, R> {
    pub rule: &'a R,
    pub left: &'a [T],
    pub right: &'a [U],
}

impl<'a, T: Word, U: Word, V: Word, R: PairRule<T, U, V>> Source<V> for Meeting<'a, T, U, R> {
    ghost values = { λ s. met_slots (R.value s.rule.now) T.reading U.reading s.left.now s.right.now };

    ghost keeps = { λ s. met_slots (R.value s.rule.now) T.reading U.reading s.left.now s.right.now };

    fn len(&self) -> usize {
        self.left.len().min(self.right.len())
    }

    fn at(&self, index: usize) -> Outcome<V> {
        let (word, valid) = self.rule.at(self.left[index], self.right[index]);
        Outcome {
            word,
            valid,
            kept: valid,
        }
    }
}
