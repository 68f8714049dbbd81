//! Arithmetic of columns of words: that wraps, that gives null where it leaves the word, with a
//! second column or with one number.
#![tactic(auto)]

mod arithmetic;
mod columns;
mod rules;

pub use arithmetic::ArithmeticChunked;
