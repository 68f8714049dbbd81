//! Rules over columns of words: what becomes of one word, or of two, at each row.
#![tactic(auto)]

mod array;
mod chunk;
mod filling;
mod gaps;
mod joining;
mod rule;
mod source;

pub use array::{ChangedArray, change_array, map_array};
pub use chunk::{Changed, change, meet};
pub use filling::{Filled, fill};
pub use joining::meet_arrays;
pub use rule::{Outcome, PairRule, SlotRule, WithLeft, WithRight, in_parts, outcome_of};
pub use source::{Changing, Meeting, Source};
