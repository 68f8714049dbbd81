//! Which places are valid: words of bits that may be shared, or none where all are.

ghost use Rattle.std.specs.Prelude.{◌≡◌, ◌+◌, ◌-◌, ◌*◌, ◌<◌, ◌≤◌, ◌==◌, ℕ, false, IfOk, OnOk, OnErr, Some, None, length};
ghost use Rattle.std.specs.Int.{bit_at};
ghost use Rattle.std.specs.Option.{option_map};
ghost use Rattle.col_buffer.specs.Validity.{AddsRange, AddsValid, Reaches, SetsBit, SetsValid, valid_at, valid_count};

use crate::bits::{count_set, is_set, push_bit, push_word, with_bit, word_from};
use crate::shared::write_at;
use std::alloc::{AllocError, Global};
use std::rc::Rc;

/// Whether a place is valid.
pub fn is_valid(validity: &Option<Rc<Vec<u64>>>, place: usize) -> bool
    requires reach { Reaches (option_map (λ words. words.value.items) validity.now) (place + 1) }
    ensures valid { result ≡ valid_at (option_map (λ words. words.value.items) validity.now) place }
{
    match validity {
        None => true,
        Some(words) => is_set(words.as_slice(), place),
    }
}

/// The words, where there are some.
pub fn bits_of(validity: &Option<Rc<Vec<u64>>>) -> Option<&[u64]>
    ensures words { option_map (λ words. words.now) result
        ≡ option_map (λ words. words.value.items) validity.now }
{
    match validity {
        None => None,
        Some(words) => Some(words.as_slice()),
    }
}

/// The same words, in the same memory.
pub fn share(validity: &Option<Rc<Vec<u64>>>) -> Result<Option<Rc<Vec<u64>>>, AllocError>
    ensures words { IfOk result (λ copy. option_map (λ words. words.value.items) copy
        ≡ option_map (λ words. words.value.items) validity.now) }
{
    match validity {
        None => Ok(None),
        Some(words) => Ok(Some(words.clone()?)),
    }
}

/// The words, made ready to be shared.
pub fn share_new(
    alloc: Global,
    validity: Option<Vec<u64>>,
) -> Result<Option<Rc<Vec<u64>>>, AllocError>
    ensures words { IfOk result (λ shared. option_map (λ words. words.value.items) shared
        ≡ option_map (λ words. words.items) validity) }
{
    match validity {
        None => Ok(None),
        Some(words) => Ok(Some(Rc::new(alloc, words)?)),
    }
}

/// How many of so many places from one on are not valid.
pub fn null_places(validity: Option<&[u64]>, offset: usize, len: usize) -> usize
    requires reach { Reaches (option_map (λ words. words.now) validity) (offset + len) }
    requires fits { offset + len ≤ usize.MAX }
    ensures count { result + valid_count (option_map
        (λ words. words.now) validity.entry) offset len ≡ len }
{
    match validity {
        None => 0,
        Some(words) => len - count_set(words, offset, len),
    }
}

/// Whether each of the 64 places from one on is valid, as far as an end.
pub fn word_at(validity: Option<&[u64]>, place: usize, end: usize) -> u64
    requires inside { place < end }
    requires reach { Reaches (option_map (λ words. words.now) validity) end }
    ensures bits { (j : ℕ) → j < 64 → place + j < end → (bit_at result j == 1)
        ≡ valid_at (option_map (λ words. words.now) validity.entry) (place + j) }
{
    let _ = end;
    match validity {
        None => u64::MAX,
        Some(words) => word_from(words, place),
    }
}

/// Writes whether a place is valid: in place where nobody else has the words, else into a copy.
pub fn set_valid(
    alloc: Global,
    validity: &mut Option<Rc<Vec<u64>>>,
    count: usize,
    place: usize,
    valid: bool,
) -> Result<(), AllocError>
    requires inside { place < count }
    requires reach { Reaches (option_map (λ words. words.value.items) validity.old) count }
    ensures ok { OnOk result (SetsValid (option_map (λ words. words.value.items) validity.old)
        (option_map (λ words. words.value.items) validity.new) count place valid) }
    ensures err { OnErr result (option_map (λ words. words.value.items) validity.new
        ≡ option_map (λ words. words.value.items) validity.old) }
{
    match validity {
        Some(words) => write_bit(alloc, words, place, valid),
        None => {
            if !valid {
                let words = all_but_one(alloc, count, place)?;
                *validity = Some(Rc::new(alloc, words)?);
            }
            Ok(())
        }
    }
}

/// Writes one bit.
fn write_bit(
    alloc: Global,
    words: &mut Rc<Vec<u64>>,
    place: usize,
    valid: bool,
) -> Result<(), AllocError>
    requires inside { place < 64 * length words.old.value.items }
    ensures ok { OnOk result (SetsBit words.old.value.items words.new.value.items place valid) }
    ensures err { OnErr result (words.new.value.items ≡ words.old.value.items) }
{
    let word = with_bit(words.as_slice()[place / 64], place % 64, valid);
    write_at(alloc, words, place / 64, word)
}

/// Words in which each of the first places is valid but one.
fn all_but_one(alloc: Global, count: usize, place: usize) -> Result<Vec<u64>, AllocError>
    requires inside { place < count }
    ensures words { IfOk result (λ words. SetsValid None (Some words.items) count place false) }
{
    let mut words = vec![in alloc; u64::MAX; count / 64 + 1]?;
    words[place / 64] = with_bit(u64::MAX, place % 64, false);
    Ok(words)
}

/// Writes whether the place behind those that count is valid.
pub fn add_valid(
    alloc: Global,
    validity: &mut Option<Vec<u64>>,
    place: usize,
    valid: bool,
) -> Result<(), AllocError>
    requires room { place < usize.MAX }
    requires reach { Reaches (option_map (λ words. words.items) validity.old) place }
    ensures ok { OnOk result (AddsValid (option_map (λ words. words.items) validity.old)
        (option_map (λ words. words.items) validity.new) place valid) }
    ensures reach { Reaches (option_map (λ words. words.items) validity.new) place }
{
    match validity {
        Some(words) => push_bit(words, place, valid),
        None => {
            if !valid {
                *validity = Some(all_but_one(alloc, place + 1, place)?);
            }
            Ok(())
        }
    }
}

/// Writes whether so many places are valid behind those that count, as others are from a start on.
pub fn add_range(
    alloc: Global,
    validity: &mut Option<Vec<u64>>,
    place: usize,
    from: Option<&[u64]>,
    start: usize,
    len: usize,
) -> Result<(), AllocError>
    requires fits { place + len ≤ usize.MAX }
    requires start_fits { start + len ≤ usize.MAX }
    requires reach { Reaches (option_map (λ words. words.items) validity.old) place }
    requires from { Reaches (option_map (λ words. words.now) from) (start + len) }
    ensures ok { OnOk result (AddsRange (option_map (λ words. words.items) validity.old)
        (option_map (λ words. words.items) validity.new) place (option_map
        (λ words. words.now) from.entry) start len) }
    ensures reach { Reaches (option_map (λ words. words.items) validity.new) place }
{
    match validity {
        Some(words) => append_bits(words, place, from, start, len),
        None => match from {
            None => Ok(()),
            Some(bits) => {
                let mut words = all_valid(alloc, place)?;
                append_bits(&mut words, place, Some(bits), start, len)?;
                *validity = Some(words);
                Ok(())
            }
        },
    }
}

/// Words in which each of the first places is valid.
fn all_valid(alloc: Global, count: usize) -> Result<Vec<u64>, AllocError>
    ensures reach { IfOk result (λ words. count ≤ 64 * length words.items) }
    ensures valid { IfOk result (λ words. (j : ℕ) → j < count → valid_at (Some words.items) j
        ≡ valid_at None j) }
{
    let words = vec![in alloc; u64::MAX; count / 64 + 1]?;
    Ok(words)
}

/// Writes so many bits behind those that count, 64 at a time.
fn append_bits(
    words: &mut Vec<u64>,
    place: usize,
    from: Option<&[u64]>,
    start: usize,
    len: usize,
) -> Result<(), AllocError>
    requires fits { place + len ≤ usize.MAX }
    requires start_fits { start + len ≤ usize.MAX }
    requires reach { place ≤ 64 * length words.old.items }
    requires from { Reaches (option_map (λ words. words.now) from) (start + len) }
    ensures ok { OnOk result (AddsRange (Some words.old.items) (Some words.new.items) place
        (option_map (λ words. words.now) from.entry) start len) }
    ensures reach { place ≤ 64 * length words.new.items }
{
    for at in 0..len.div_ceil(64) {
        let word = word_at(from, start + at * 64, start + len);
        push_word(words, place + at * 64, word)?;
    }
    Ok(())
}
