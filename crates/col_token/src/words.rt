//! The tokens of a line, taken off one at a time without memory of their own.

ghost use Rattle.std.specs.Prelude.{◌≡◌, ◌<◌, ◌≤◌, ◌+◌, ◌∷◌, ◌++◌, [], length, drop, IfSome, IfNone};
ghost use Rattle.std.specs.List.{position, position_or_len, before_first};
ghost use Rattle.col_token.specs.Tokens.{is_blank, without_blanks, words_in};

fn is_separator(byte: u8) -> bool
    ensures blank { result ≡ is_blank byte }
{
    byte == b' ' || byte == b'\t'
}

fn first_blank(line: &[u8]) -> Option<usize>
    ensures place { result ≡ position is_blank line.now }
{
    line.iter().position(|byte| is_separator(*byte))
}

/// What follows the blanks at the front of a line.
#[inline(always)]
pub fn skip_blanks(line: &[u8]) -> &[u8]
    ensures rest { result.now ≡ without_blanks line.now }
{
    let mut rest = line;
    while let [first, more @ ..] = rest
        && is_separator(*first)
    {
        rest = more;
    }
    rest
}

fn cut_word(line: &[u8]) -> (&[u8], &[u8])
    ensures word { result.0.now ≡ before_first is_blank line.now }
    ensures rest { result.1.now ≡ drop (position_or_len is_blank line.now) line.now }
{
    match first_blank(line) {
        Some(end) => line.split_at(end),
        None => (line, &[]),
    }
}

/// The first token of a line without its carriage return, and what follows it, or `None` where only
/// blanks are left.
pub fn first_token(line: &[u8]) -> Option<(&[u8], &[u8])>
    ensures none { IfNone result (words_in line.now ≡ []) }
    ensures first { IfSome result (λ cut. words_in line.now ≡ cut.0.now ∷ words_in cut.1.now) }
    ensures filled { IfSome result (λ cut. 0 < length cut.0.now) }
    ensures shorter { IfSome result (λ cut. length cut.1.now < length line.now) }
    ensures within { IfSome result (λ cut. length cut.0.now + length cut.1.now ≤ length line.now) }
    ensures place { IfSome result (λ cut. cut.0.now ++ cut.1.now ≡ without_blanks line.now) }
{
    let words = skip_blanks(line);
    if words.is_empty() {
        return None;
    }
    Some(cut_word(words))
}
