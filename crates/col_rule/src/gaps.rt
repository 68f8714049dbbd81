//! The first row that a rule doesn't keep.

ghost use Rattle.std.specs.Prelude.{◌≡◌, ◌&&◌, not, ◌+◌, ◌≤◌, Some, None};
ghost use Rattle.std.specs.Option.{option_map};
ghost use Rattle.col_buffer.specs.Validity.{Reaches, valid_at};
ghost use Rattle.col_rule.specs.Rules.{first_gap};

use col_buffer::is_set;

/// The words, where there are some.
pub(crate) fn words_of(bits: &Option<Vec<u64>>) -> Option<&[u64]>
    ensures words { option_map (λ words. words.now) result ≡ option_map (λ words. words.items) bits.now }
{
    match bits {
        None => None,
        Some(words) => Some(words.as_slice()),
    }
}

/// Whether a place is valid.
fn is_valid(bits: Option<&[u64]>, place: usize) -> bool
    requires reach { Reaches (option_map (λ words. words.now) bits) (place + 1) }
    ensures valid { result ≡ valid_at (option_map (λ words. words.now) bits.entry) place }
{
    match bits {
        None => true,
        Some(words) => is_set(words, place),
    }
}

/// The first of so many places that is valid, from a place on, and isn't kept.
pub(crate) fn first_gap(
    source: Option<&[u64]>,
    offset: usize,
    kept: Option<&[u64]>,
    len: usize,
) -> Option<usize>
    requires source { Reaches (option_map (λ words. words.now) source) (offset + len) }
    requires kept { Reaches (option_map (λ words. words.now) kept) len }
    requires fits { offset + len ≤ usize.MAX }
    ensures row { result ≡ first_gap (option_map (λ words. words.now) source.entry) offset
        (option_map (λ words. words.now) kept.entry) 0 len }
{
    match kept {
        None => None,
        Some(kept) => first_gap_of(source, offset, kept, len),
    }
}

/// The first of so many places that is valid, from a place on, and isn't kept.
#[tactic(auto, using(crate::proofs::RuleLaws::gap_laws))]
fn first_gap_of(source: Option<&[u64]>, offset: usize, kept: &[u64], len: usize) -> Option<usize>
    requires source { Reaches (option_map (λ words. words.now) source) (offset + len) }
    requires kept { Reaches (Some kept.now) len }
    requires fits { offset + len ≤ usize.MAX }
    ensures row { result ≡ first_gap (option_map (λ words. words.now) source.entry) offset
        (Some kept.now) 0 len }
{
    for i in 0..len {
        if is_gap(source, offset + i, kept, i) {
            return Some(i);
        }
    }
    None
}

/// Whether a place is valid and isn't kept.
fn is_gap(source: Option<&[u64]>, place: usize, kept: &[u64], i: usize) -> bool
    requires source { Reaches (option_map (λ words. words.now) source) (place + 1) }
    requires kept { Reaches (Some kept.now) (i + 1) }
    ensures gap { result ≡ valid_at (option_map (λ words. words.now) source.entry) place
        && not (valid_at (Some kept.now) i) }
{
    is_valid(source, place) && !is_set(kept, i)
}
