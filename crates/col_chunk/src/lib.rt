//! Columns in shared chunks, whatever a chunk keeps, and columns of words.
#![tactic(auto)]

mod access;
mod appending;
mod array;
mod chunk;
mod cursor;
mod folds;
mod items;
mod parts;
mod reductions;
mod rows;
mod setting;
mod taking;
mod word_chunk;
mod words;

pub use array::{ArrayOf, ROW_LIMIT};
pub use chunk::{Chunk, SetChunk, View};
pub use col_kernel::{Word, rescale_slot};
pub use cursor::Place;
pub use word_chunk::{WordBuilder, WordChunk, from_buffers};
pub use words::{
    ChunkView, ChunkedArray, IdxCa, Int8Chunked, Int16Chunked, Int32Chunked, Int64Chunked,
    Int128Chunked, UInt8Chunked, UInt16Chunked, UInt32Chunked, UInt64Chunked,
};
