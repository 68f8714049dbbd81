//! The loop over a source: values, and words of bits where something is lost.

ghost use Rattle.std.specs.Prelude.{◌≡◌, ◌+◌, ◌-◌, ◌<◌, ◌≤◌, ◌∷◌, ◌++◌, [], IfOk, Some, None, true, length, take, drop};
ghost use Rattle.std.specs.Option.{option_map};
ghost use Rattle.col_buffer.specs.Validity.{Reaches, masked};

use crate::source::Source;
use col_buffer::{with_bit, word_end};
use col_kernel::Word;
use std::alloc::{AllocError, Global};

/// What a source gives: values, bits that say whether they are there, and bits that say whether
/// they are neither null nor wrapped. Without bits each is.
#[derive(Drop)]
pub struct Filled<U: Word> {
    pub values: Vec<U>,
    pub valid: Option<Vec<u64>>,
    pub kept: Option<Vec<u64>>,
}

/// What the source gives at each place.
pub fn fill<U: Word, S: Source<U>>(alloc: Global, source: &S) -> Result<Filled<U>, AllocError>
    ensures values { IfOk result (λ filled. masked U.reading
        (option_map (λ words. words.items) filled.valid) 0 filled.values.items
        ≡ S.values source.now) }
    ensures keeps { IfOk result (λ filled. masked U.reading
        (option_map (λ words. words.items) filled.kept) 0 filled.values.items
        ≡ S.keeps source.now) }
    ensures len { IfOk result (λ filled. length filled.values.items
        ≡ length (S.values source.now)) }
    ensures valid { IfOk result (λ filled. Reaches (option_map (λ words. words.items) filled.valid)
        (length (S.values source.now))) }
    ensures kept { IfOk result (λ filled. Reaches (option_map (λ words. words.items) filled.kept)
        (length (S.values source.now))) }
{
    let mut values = Vec::new(alloc);
    values.resize(source.len(), U::wrap_i128(0))?;
    if fill_plain(source, values.as_mut_slice()) {
        return Ok(Filled {
            values,
            valid: None,
            kept: None,
        });
    }
    fill_marked(alloc, source)
}

/// What the source gives at each place, and whether all of it is kept. Where it isn't, nothing is
/// said of the values.
fn fill_plain<U: Word, S: Source<U>>(source: &S, values: &mut [U]) -> bool
    requires len { length values.old ≡ length (S.values source.now) }
    requires equal_lengths { length (S.keeps source.now) ≡ length (S.values source.now) }
    ensures len { length values.new ≡ length values.old }
    ensures values { result ≡ true → masked U.reading None 0 values.new ≡ S.values source.now }
    ensures keeps { result ≡ true → masked U.reading None 0 values.new ≡ S.keeps source.now }
{
    let mut all = true;
    for i in 0..values.len() {
        let one = source.at(i);
        values[i] = one.word;
        all = all & one.valid & one.kept;
    }
    all
}

/// What the source gives at each place, with bits.
fn fill_marked<U: Word, S: Source<U>>(alloc: Global, source: &S) -> Result<Filled<U>, AllocError>
    ensures values { IfOk result (λ filled. masked U.reading
        (option_map (λ words. words.items) filled.valid) 0 filled.values.items
        ≡ S.values source.now) }
    ensures keeps { IfOk result (λ filled. masked U.reading
        (option_map (λ words. words.items) filled.kept) 0 filled.values.items
        ≡ S.keeps source.now) }
    ensures len { IfOk result (λ filled. length filled.values.items
        ≡ length (S.values source.now)) }
    ensures valid { IfOk result (λ filled. Reaches (option_map (λ words. words.items) filled.valid)
        (length (S.values source.now))) }
    ensures kept { IfOk result (λ filled. Reaches (option_map (λ words. words.items) filled.kept)
        (length (S.values source.now))) }
{
    let len = source.len();
    let count = len.div_ceil(64);
    let mut values = Vec::with_capacity(alloc, len)?;
    let mut valid = Vec::with_capacity(alloc, count)?;
    let mut kept = Vec::with_capacity(alloc, count)?;
    for at in 0..count {
        let start = at * 64;
        let end = word_end(start, len);
        let (valid_word, kept_word) = fill_word(source, &mut values, start, end)?;
        valid.push(valid_word)?;
        kept.push(kept_word)?;
    }
    Ok(Filled {
        values,
        valid: Some(valid),
        kept: Some(kept),
    })
}

/// Puts what the source gives at at most 64 places behind other values.
fn fill_word<U: Word, S: Source<U>>(
    source: &S,
    values: &mut Vec<U>,
    start: usize,
    end: usize,
) -> Result<(u64, u64), AllocError>
    requires part { start ≤ end }
    requires inside { end ≤ length (S.values source.now) }
    requires equal_lengths { length (S.keeps source.now) ≡ length (S.values source.now) }
    requires short { end ≤ start + 64 }
    ensures values { IfOk result (λ words. masked U.reading (Some (words.0 ∷ [])) 0
        (drop (length values.old.items) values.new.items)
        ++ drop end (S.values source.now) ≡ drop start (S.values source.now)) }
    ensures keeps { IfOk result (λ words. masked U.reading (Some (words.1 ∷ [])) 0
        (drop (length values.old.items) values.new.items)
        ++ drop end (S.keeps source.now) ≡ drop start (S.keeps source.now)) }
    ensures before { IfOk result (λ words. take (length values.old.items) values.new.items
        ≡ values.old.items) }
    ensures len { IfOk result (λ words. length values.new.items
        ≡ length values.old.items + (end - start)) }
{
    let mut valid = 0u64;
    let mut kept = 0u64;
    for i in start..end {
        let one = source.at(i);
        valid = with_bit(valid, i - start, one.valid);
        kept = with_bit(kept, i - start, one.kept);
        values.push(one.word)?;
    }
    Ok((valid, kept))
}
