//! Columns of truth values, kept as bits.
#![tactic(auto)]

mod bit_chunk;
mod boolean;
mod sums;

pub use bit_chunk::{BitBuilder, BitChunk};
pub use boolean::{BooleanChunked, NewBoolean};
pub use sums::BooleanArithmetic;
