// The nodes that tokens spell.
ghost use Rattle.std.specs.Prelude.{◌≡◌, ◌<◌, true, nat_eq, length, IfSome, option_map};
ghost use Rattle.std.specs.List.{position};
ghost use Rattle.col_text.specs.Symbols.{
  binary_symbol,
  cast_symbol,
  cast_symbol_by,
  hash,
  hash_parts,
  input_symbol,
  left_symbol,
  op_named,
  periods_of,
  right_symbol,
  scalar_op_named,
  shift_symbol,
  symbol_of,
  unit_named,
  unit_symbol,
};
ghost use Rattle.col_text.specs.Nodes.{is_built_node, node_symbol};

use crate::dtypes::target_named;
use crate::numbers::{integer, number};
use crate::words::is_word;
use col_expr::{BinOp, CastOptions, ScalarOp, UnaryOp};
use col_types::{TimeUnit, ZoneNames};

/// A node without its operands.
#[derive(Drop)]
pub(crate) enum Node {
    Input(u32),
    Binary(BinOp),
    Unary(UnaryOp),
}

fn input(token: &[u8]) -> Option<Node>
    ensures node { option_map node_symbol result ≡ input_symbol token.now }
    ensures built { IfSome result (λ node. is_built_node node ≡ true) }
{
    Some(Node::Input(number(token.strip_prefix(b"$")?)?))
}

fn cast_by(zones: &ZoneNames, options: CastOptions, word: &str, token: &[u8]) -> Option<Node>
    ensures node { option_map node_symbol result
        ≡ cast_symbol_by zones.now options word.now token.now }
    ensures built { IfSome result (λ node. is_built_node node ≡ true) }
{
    let dtype = target_named(zones, token.strip_prefix(word.as_bytes())?)?;
    Some(Node::Unary(UnaryOp::Cast(dtype, options)))
}

fn cast(zones: &ZoneNames, token: &[u8]) -> Option<Node>
    ensures node { option_map node_symbol result ≡ cast_symbol zones.now token.now }
    ensures built { IfSome result (λ node. is_built_node node ≡ true) }
{
    cast_by(zones, CastOptions::NonStrict, "cast:", token)
        .or_else(|| cast_by(zones, CastOptions::Strict, "cast!:", token))
        .or_else(|| cast_by(zones, CastOptions::Overflowing, "cast~:", token))
}

fn op_named(token: &[u8]) -> Option<BinOp>
    ensures op { result ≡ op_named token.now }
{
    if is_word(token, "+") {
        Some(BinOp::Add)
    } else if is_word(token, "-") {
        Some(BinOp::Sub)
    } else if is_word(token, "*") {
        Some(BinOp::Mul)
    } else if is_word(token, "/") {
        Some(BinOp::Div)
    } else if is_word(token, "%") {
        Some(BinOp::Rem)
    } else {
        None
    }
}

fn scalar_op_named(token: &[u8]) -> Option<ScalarOp>
    ensures op { result ≡ scalar_op_named token.now }
{
    if is_word(token, "+") {
        Some(ScalarOp::Add)
    } else if is_word(token, "-") {
        Some(ScalarOp::Sub)
    } else if is_word(token, "*") {
        Some(ScalarOp::Mul)
    } else if is_word(token, "/") {
        Some(ScalarOp::Div)
    } else if is_word(token, "%") {
        Some(ScalarOp::Rem)
    } else if is_word(token, "tdiv") {
        Some(ScalarOp::TruncDiv)
    } else {
        None
    }
}

fn binary(token: &[u8]) -> Option<Node>
    ensures node { option_map node_symbol result ≡ binary_symbol token.now }
    ensures built { IfSome result (λ node. is_built_node node ≡ true) }
{
    Some(Node::Binary(op_named(token)?))
}

fn hash_at(token: &[u8]) -> Option<usize>
    ensures at { result ≡ position (λ byte. nat_eq byte hash) token.now }
    ensures within { IfSome result (λ at. at < length token.now) }
{
    token.iter().position(|byte| *byte == b'#')
}

/// What stands before the first `#`, and what stands behind it.
fn hash_parts(token: &[u8]) -> Option<(&[u8], &[u8])>
    ensures parts { option_map (λ parts. (parts.0.now, parts.1.now)) result
        ≡ hash_parts token.now }
{
    let at = hash_at(token)?;
    let (before, _) = token.split_at(at);
    let (_, behind) = token.split_at(at + 1);
    Some((before, behind))
}

fn scalar_right(token: &[u8]) -> Option<Node>
    ensures node { option_map node_symbol result ≡ right_symbol token.now }
    ensures built { IfSome result (λ node. is_built_node node ≡ true) }
{
    let (sign, value) = hash_parts(token)?;
    let op = scalar_op_named(sign)?;
    Some(Node::Unary(UnaryOp::ScalarRight(op, integer(value)?)))
}

fn scalar_left(token: &[u8]) -> Option<Node>
    ensures node { option_map node_symbol result ≡ left_symbol token.now }
    ensures built { IfSome result (λ node. is_built_node node ≡ true) }
{
    let (value, sign) = hash_parts(token)?;
    let value = integer(value)?;
    Some(Node::Unary(UnaryOp::ScalarLeft(value, op_named(sign)?)))
}

fn unit_named(token: &[u8]) -> Option<TimeUnit>
    ensures unit { result ≡ unit_named token.now }
{
    if is_word(token, "ns") {
        Some(TimeUnit::Nanoseconds)
    } else if is_word(token, "us") {
        Some(TimeUnit::Microseconds)
    } else if is_word(token, "ms") {
        Some(TimeUnit::Milliseconds)
    } else {
        None
    }
}

fn unit(token: &[u8]) -> Option<Node>
    ensures node { option_map node_symbol result ≡ unit_symbol token.now }
    ensures built { IfSome result (λ node. is_built_node node ≡ true) }
{
    let unit = unit_named(token.strip_prefix(b"unit:")?)?;
    Some(Node::Unary(UnaryOp::InUnit(unit)))
}

fn periods(token: &[u8]) -> Option<i64>
    ensures periods { result ≡ periods_of token.now }
{
    i64::try_from(integer(token)?).ok()
}

fn shift(token: &[u8]) -> Option<Node>
    ensures node { option_map node_symbol result ≡ shift_symbol token.now }
    ensures built { IfSome result (λ node. is_built_node node ≡ true) }
{
    let periods = periods(token.strip_prefix(b"shift:")?)?;
    Some(Node::Unary(UnaryOp::Shift(periods)))
}

/// The node that a token spells, with the zones handed in before.
pub(crate) fn node_of(zones: &ZoneNames, token: &[u8]) -> Option<Node>
    ensures node { option_map node_symbol result ≡ symbol_of zones.now token.now }
    ensures built { IfSome result (λ node. is_built_node node ≡ true) }
{
    input(token)
        .or_else(|| cast(zones, token))
        .or_else(|| binary(token))
        .or_else(|| scalar_right(token))
        .or_else(|| scalar_left(token))
        .or_else(|| unit(token))
        .or_else(|| shift(token))
}
