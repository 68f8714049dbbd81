//! Bits in words of 64.

ghost use Rattle.std.specs.Prelude.{◌≡◌, ◌≢◌, ◌+◌, ◌*◌, ◌/◌, ◌%◌, ◌<◌, ◌≤◌, ◌-◌, ◌==◌, ℕ, OnOk, Some, length, slice_index};
ghost use Rattle.std.specs.Int.{bit_at};
ghost use Rattle.col_buffer.specs.Validity.{AddsBit, AddsWord, Reaches, valid_at, valid_count};

use std::alloc::AllocError;

/// Whether the bit of a place is set.
pub fn is_set(words: &[u64], place: usize) -> bool
    requires inside { Reaches (Some words.now) (place + 1) }
    ensures set { result ≡ valid_at (Some words.now) place }
{
    (words[place / 64] >> (place % 64)) & 1 == 1
}

/// The word with one bit written.
pub fn with_bit(word: u64, place: usize, valid: bool) -> u64
    requires inside { place < 64 }
    ensures here { (bit_at result place == 1) ≡ valid }
    ensures others { (i : ℕ) → i < 64 → i ≢ place → bit_at result i ≡ bit_at word i }
{
    if valid {
        word | (1 << place)
    } else {
        word & !(1 << place)
    }
}

/// Writes the bit of the place behind those that count.
pub(crate) fn push_bit(words: &mut Vec<u64>, place: usize, valid: bool) -> Result<(), AllocError>
    requires reach { place ≤ 64 * length words.old.items }
    ensures ok { OnOk result (AddsBit words.old.items words.new.items place valid) }
    ensures reach { place ≤ 64 * length words.new.items }
{
    let at = place / 64;
    if at == words.len() {
        words.push(0)?;
    }
    words[at] = with_bit(words[at], place % 64, valid);
    Ok(())
}

/// The 64 bits from a place on; what is past the words is 0.
pub fn word_from(words: &[u64], place: usize) -> u64
    requires inside { place < 64 * length words.now }
    ensures bits { (j : ℕ) → j < 64 → place + j < 64 * length words.now
        → bit_at result j ≡ bit_at (slice_index words.now ((place + j) / 64)) ((place + j) % 64) }
{
    let at = place / 64;
    let skip = place % 64;
    if skip == 0 {
        return words[at];
    }
    let low = words[at];
    let high = if at + 1 < words.len() {
        words[at + 1]
    } else {
        0
    };
    joined_word(low, high, skip)
}

/// The 64 bits from a bit on of two words.
fn joined_word(low: u64, high: u64, skip: usize) -> u64
    requires some { 0 < skip }
    requires inside { skip < 64 }
    ensures low { (j : ℕ) → skip + j < 64 → bit_at result j ≡ bit_at low (skip + j) }
    ensures high { (j : ℕ) → j < 64 → 64 ≤ skip + j → bit_at result j
        ≡ bit_at high (skip + j - 64) }
{
    (low >> skip) | (high << (64 - skip))
}

/// The lowest bits of a word, and those of another one behind them.
fn overlaid(word: u64, kept: usize, other: u64) -> u64
    requires some { 0 < kept }
    requires inside { kept < 64 }
    ensures low { (j : ℕ) → j < kept → bit_at result j ≡ bit_at word j }
    ensures high { (j : ℕ) → kept ≤ j → j < 64 → bit_at result j ≡ bit_at other (j - kept) }
{
    joined_word(word << (64 - kept), other, 64 - kept)
}

/// Writes the bits of a word behind those that count.
pub(crate) fn push_word(words: &mut Vec<u64>, place: usize, word: u64) -> Result<(), AllocError>
    requires reach { place ≤ 64 * length words.old.items }
    ensures ok { OnOk result (AddsWord words.old.items words.new.items place word) }
    ensures reach { place ≤ 64 * length words.new.items }
{
    let at = place / 64;
    let kept = place % 64;
    if kept == 0 {
        words.truncate(at);
        words.push(word)?;
        return Ok(());
    }
    words.truncate(at + 1);
    words[at] = overlaid(words[at], kept, word);
    words.push(word >> (64 - kept))?;
    Ok(())
}

/// How many of so many bits from a place on are set.
pub fn count_set(words: &[u64], offset: usize, len: usize) -> usize
    requires inside { offset + len ≤ 64 * length words.now }
    requires fits { offset + len ≤ usize.MAX }
    ensures count { result ≡ valid_count (Some words.now) offset len }
{
    let mut count = 0;
    for at in 0..len / 64 {
        count += word_from(words, offset + at * 64).count_ones() as usize;
    }
    for place in offset + len / 64 * 64..offset + len {
        if is_set(words, place) {
            count += 1;
        }
    }
    count
}
