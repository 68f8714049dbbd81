//! Rows that a mask picks, and tests of slots for null, for columns of any chunks.
#![tactic(auto)]

mod columns;
mod filtering;
mod masks;
mod nulls;
mod zipping;

pub use filtering::ChunkFilter;
pub use nulls::ChunkNulls;
pub use zipping::ChunkZip;
