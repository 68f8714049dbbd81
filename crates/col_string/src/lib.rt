//! Columns of texts and of bytes.
#![tactic(auto)]

mod additions;
mod binary;
mod conversions;
mod plain;
mod readings;
mod runs;
mod string;
mod views;

pub use additions::{BinaryArithmetic, StringArithmetic};
pub use binary::{BinaryChunk, BinaryChunked, BinaryItems, NewBinary};
pub use conversions::{BinaryConversion, StringConversion};
pub use plain::PlainBytes;
pub use readings::{AsBytes, AsText, ByteReading};
pub use runs::{Reading, RunBuilder, RunChunk};
pub use string::{NewString, StringChunk, StringChunked, StringItems};
pub use views::{Reader, RunView};
