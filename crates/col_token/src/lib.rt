//! Lines and tokens of a text of bytes.
#![tactic(auto)]

mod laws;
mod lines;
mod tokens;
mod words;

pub use laws::tokens_are_those_of_the_lines;
pub use lines::{MAX_TEXT, content, first_line, line_count};
pub use tokens::{Token, Tokens};
pub use words::{first_token, skip_blanks};
