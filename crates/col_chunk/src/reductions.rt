//! What columns of words come to.

ghost use Rattle.std.specs.Prelude.{◌≡◌, ◌+ℤ◌, ◌*ℤ◌, ◌+◌, ◌≤◌, drop, fold, length};
ghost use Rattle.std.specs.List.{reduce};
ghost use Rattle.std.specs.Option.{option_map};
ghost use Rattle.col_model.specs.Arithmetic.{wrapped_value};
ghost use Rattle.col_model.specs.Words.{bits_and, bits_or, bits_xor, greater, integers_of, lesser, product_of, sum_of};
ghost use Rattle.col_chunk.specs.Chunks.{joined};

use crate::folds::Step;
use crate::{ArrayOf, WordChunk};
use col_kernel::Word;

impl<T: Word> ArrayOf<WordChunk<T>> {
    /// The sum of the valid slots, wrapped. It is 0 where there are none.
    pub fn sum(&self) -> T
        ensures value { T.reading result ≡ sum_of T.word_type self.now.column.slots }
    {
        fold_from::<T, Sum>(self.chunks.as_slice(), 0, T::wrap_i128(0))
    }

    /// The product of the valid slots, wrapped. It is 1 where there are none.
    pub fn product(&self) -> T
        ensures value { T.reading result ≡ product_of T.word_type self.now.column.slots }
    {
        fold_from::<T, Product>(self.chunks.as_slice(), 0, T::wrap_i128(1))
    }

    /// The least valid slot, none where there is none.
    pub fn min(&self) -> Option<T>
        ensures value { option_map T.reading result
            ≡ reduce lesser (integers_of self.now.column.slots) }
    {
        reduce_all::<T, Lesser>(self.chunks.as_slice())
    }

    /// The greatest valid slot, none where there is none.
    pub fn max(&self) -> Option<T>
        ensures value { option_map T.reading result
            ≡ reduce greater (integers_of self.now.column.slots) }
    {
        reduce_all::<T, Greater>(self.chunks.as_slice())
    }

    /// The bits that all valid slots have, none where there is none.
    pub fn and_reduce(&self) -> Option<T>
        ensures value { option_map T.reading result
            ≡ reduce (bits_and T.word_type) (integers_of self.now.column.slots) }
    {
        reduce_all::<T, And>(self.chunks.as_slice())
    }

    /// The bits that a valid slot has, none where there is none.
    pub fn or_reduce(&self) -> Option<T>
        ensures value { option_map T.reading result
            ≡ reduce (bits_or T.word_type) (integers_of self.now.column.slots) }
    {
        reduce_all::<T, Or>(self.chunks.as_slice())
    }

    /// The bits that an odd number of valid slots have, none where there is none.
    pub fn xor_reduce(&self) -> Option<T>
        ensures value { option_map T.reading result
            ≡ reduce (bits_xor T.word_type) (integers_of self.now.column.slots) }
    {
        reduce_all::<T, Xor>(self.chunks.as_slice())
    }
}

struct Sum;

impl<T: Word> Step<T> for Sum {
    ghost step = { λ x y. wrapped_value T.word_type (x +ℤ y) };

    fn join(total: T, value: T) -> T {
        total.add_wrap(value)
    }
}

struct Product;

impl<T: Word> Step<T> for Product {
    ghost step = { λ x y. wrapped_value T.word_type (x *ℤ y) };

    fn join(total: T, value: T) -> T {
        total.mul_wrap(value)
    }
}

struct Lesser;

impl<T: Word> Step<T> for Lesser {
    ghost step = { lesser };

    fn join(total: T, value: T) -> T {
        if value.to_i128() < total.to_i128() {
            value
        } else {
            total
        }
    }
}

struct Greater;

impl<T: Word> Step<T> for Greater {
    ghost step = { greater };

    fn join(total: T, value: T) -> T {
        if total.to_i128() < value.to_i128() {
            value
        } else {
            total
        }
    }
}

struct And;

impl<T: Word> Step<T> for And {
    ghost step = { bits_and T.word_type };

    fn join(total: T, value: T) -> T {
        T::wrap_i128(total.to_i128() & value.to_i128())
    }
}

struct Or;

impl<T: Word> Step<T> for Or {
    ghost step = { bits_or T.word_type };

    fn join(total: T, value: T) -> T {
        T::wrap_i128(total.to_i128() | value.to_i128())
    }
}

struct Xor;

impl<T: Word> Step<T> for Xor {
    ghost step = { bits_xor T.word_type };

    fn join(total: T, value: T) -> T {
        T::wrap_i128(total.to_i128() ^ value.to_i128())
    }
}

/// Joins the valid words of the chunks from one on.
fn fold_from<T: Word, S: Step<T>>(chunks: &[WordChunk<T>], from: usize, total: T) -> T
    requires inside { from ≤ length chunks.now }
    ensures value { T.reading result ≡ fold S.step (T.reading total)
        (integers_of (joined (λ chunk. chunk) (drop from chunks.now))) }
{
    let mut total = total;
    for at in from..chunks.len() {
        let chunk = &chunks[at];
        total = chunk.fold::<S>(0, total);
    }
    total
}

/// Joins the valid words of a chunk that are behind a first one to it.
fn join_behind<T: Word, S: Step<T>>(chunk: &WordChunk<T>, first: (usize, T)) -> T
    requires inside { first.0 ≤ length chunk.now }
    ensures value { T.reading result ≡ fold S.step (T.reading first.1)
        (integers_of (drop first.0 chunk.now)) }
{
    chunk.fold::<S>(first.0, first.1)
}

/// Joins the valid words of chunks to the first of them.
fn reduce_all<T: Word, S: Step<T>>(chunks: &[WordChunk<T>]) -> Option<T>
    ensures value { option_map T.reading result
        ≡ reduce S.step (integers_of (joined (λ chunk. chunk) chunks.now)) }
{
    for at in 0..chunks.len() {
        let chunk = &chunks[at];
        match chunk.first_valid() {
            Some(first) => {
                let total = join_behind::<T, S>(chunk, first);
                return Some(fold_from::<T, S>(chunks, at + 1, total));
            }
            None => {}
        }
    }
    None
}
