// Integers of 64 bits in decimal digits.
ghost use Rattle.std.specs.Prelude.{◌≡◌, ◌≤◌, length, take, IfSome};
ghost use Rattle.std.specs.Str.Parse.{AllDigits, digits_value, starts_with_minus};
ghost use Rattle.col_text.specs.Slots.{IsFrontTick, ends_token};
ghost use Rattle.col_text.specs.Numbers.{
  behind_sign,
  tick_fit,
  tick_of,
  with_sign,
};

use crate::numbers::integer;
use col_token::skip_blanks;

/// 64 bits without a sign hold each number of so many digits.
const FEW_DIGITS: usize = 19;

fn narrowed(value: i128) -> Option<i64>
    ensures value { result ≡ tick_fit value }
{
    i64::try_from(value).ok()
}

/// The integer of 64 bits that a token spells. It is for tokens of many digits: `front_tick` reads
/// the others faster.
pub(crate) fn tick(token: &[u8]) -> Option<i64>
    ensures value { result ≡ tick_of token.now }
{
    narrowed(integer(token)?)
}

/// Whether there is a minus, and what stands behind the sign.
#[inline(always)]
fn split_sign(token: &[u8]) -> (bool, &[u8])
    ensures minus { result.0 ≡ starts_with_minus token.now }
    ensures behind { result.1.now ≡ behind_sign token.now }
{
    match token {
        [b'-', behind @ ..] => (true, behind),
        [b'+', behind @ ..] => (false, behind),
        _ => (false, token),
    }
}

/// The number or its negative, where 64 bits hold it.
#[inline(always)]
fn signed_tick(minus: bool, value: u64) -> Option<i64>
    ensures value { result ≡ tick_fit (with_sign minus value) }
{
    if minus {
        0i64.checked_sub_unsigned(value)
    } else {
        0i64.checked_add_unsigned(value)
    }
}

/// A few digits at the front: their value and their count.
#[inline(always)]
fn front_digits(text: &[u8]) -> (u64, usize)
    ensures few { result.1 ≤ FEW_DIGITS }
    ensures within { result.1 ≤ length text.now }
    ensures digits { AllDigits 10 (take result.1 text.now) }
    ensures value { result.0 ≡ digits_value 10 (take result.1 text.now) }
{
    let mut value: u64 = 0;
    let mut count = 0;
    while count < text.len() && count < FEW_DIGITS && text[count].is_ascii_digit() {
        value = value * 10 + u64::from(text[count] - b'0');
        count += 1;
    }
    (value, count)
}

/// Whether a token in front of this text ends there.
#[inline(always)]
fn ends_token(rest: &[u8]) -> bool
    ensures end { result ≡ ends_token rest.now }
{
    match rest {
        [] => true,
        [byte, ..] => *byte == b' ' || *byte == b'\t',
    }
}

/// The integer of few digits that is a line's first token, and what follows it. `None` says only
/// that the token has to be read another way.
#[inline(always)]
pub(crate) fn front_tick(line: &[u8]) -> Option<(i64, &[u8])>
    ensures read { IfSome result (λ cut. IsFrontTick line.now cut.0 cut.1.now) }
{
    let text = skip_blanks(line);
    let (minus, digits) = split_sign(text);
    let (value, count) = front_digits(digits);
    if count == 0 {
        return None;
    }
    let (_, rest) = digits.split_at(count);
    if !ends_token(rest) {
        return None;
    }
    match signed_tick(minus, value) {
        Some(tick) => Some((tick, rest)),
        None => None,
    }
}
