//! Buffers of plain values and words of validity, and writes to them where they are shared.
#![tactic(auto)]

mod bits;
mod joining;
mod shared;
mod validity;

pub use bits::{count_set, is_set, with_bit, word_from};
pub use joining::{both, word_end};
pub use shared::{append_range, part, repeated, write_at};
pub use validity::{
    add_range, add_valid, bits_of, is_valid, null_places, set_valid, share, share_new, word_at,
};
