// Numbers and integers in decimal digits.
ghost use Rattle.std.specs.Prelude.{◌≡◌};
ghost use Rattle.col_text.specs.Numbers.{integer_of, number_of, small_integer, starts_with_sign};

fn integer_in(text: &str) -> Option<i128>
    ensures value { result ≡ integer_of text.now }
{
    text.parse().ok()
}

/// The integer that a token spells: digits with a sign or none, from -2^127 to 2^127 - 1.
pub(crate) fn integer(token: &[u8]) -> Option<i128>
    ensures value { result ≡ integer_of token.now }
{
    match str::from_utf8(token) {
        Ok(text) => integer_in(text),
        Err(_) => None,
    }
}

fn has_sign(token: &[u8]) -> bool
    ensures sign { result ≡ starts_with_sign token.now }
{
    matches!(token, [b'+' | b'-', ..])
}

fn small(value: i128) -> Option<u32>
    ensures value { result ≡ small_integer value }
{
    u32::try_from(value).ok()
}

/// The number that a token spells: digits without a sign, below 2^32.
pub(crate) fn number(token: &[u8]) -> Option<u32>
    ensures value { result ≡ number_of token.now }
{
    if has_sign(token) {
        return None;
    }
    small(integer(token)?)
}
