//! Laws of lines and tokens. Each function does nothing: its contract is the law.

ghost use Rattle.std.specs.Prelude.{List, ℕ};
ghost use Rattle.col_token.specs.Laws.{HasTokensOfLines};

/// The tokens that `Tokens` gives are, places aside, those of the text's lines, in order: the
/// tokens of a grammar that is told line by line.
pub fn tokens_are_those_of_the_lines()
    ensures law { (text : List ℕ) → HasTokensOfLines text }
{}
