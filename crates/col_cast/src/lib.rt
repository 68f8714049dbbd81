//! Casts between columns of words, by the cast table.
#![tactic(auto)]

mod cast_word;
mod casting;
mod row;
mod rule;
mod tick_rows;
mod tick_rules;
mod word_rows;
mod word_rules;

pub use cast_word::{CastWord, Made, Stored};
pub use casting::{apply_rule, cast_words};
pub use rule::{CastRule, cast_rule};
