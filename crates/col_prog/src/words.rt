// The words of a command.
ghost use Rattle.std.specs.Prelude.{◌≡◌, ◌∷◌, ◌++◌, []};
ghost use Rattle.col_types.specs.PolarsError.{Becomes};
ghost use Rattle.col_prog.specs.Words.{command_of, command_named};

use col_types::{PlSmallStr, PolarsResult};
use std::alloc::Global;
use std::marker::Model;

/// What the words of a command ask for.
#[derive(Clone, Copy, Debug, PartialEq, Eq)]
pub enum Command {
    /// To answer a script.
    Eval,
    /// The same, with casts folded that the script's plan allows.
    Fold,
    /// The same, with casts folded that the plan allows that the columns give.
    Autofold,
    /// To say whether a script's plan holds.
    Check,
    /// To find a plan for a script.
    Plan,
    /// To say how the program is used.
    Help,
    /// To say which version it is.
    Version,
}

/// The words of a command line, without the program's name.
#[derive(Drop)]
pub struct Words {
    words: Vec<PlSmallStr>,
}

impl Model for Words {
    ghost use Rattle.std.specs.Prelude.{List, ℕ};

    ghost Value = { List (List ℕ) };

    ghost view = { λ w. w.words.items };
}

impl Words {
    /// No words.
    pub fn new(alloc: Global) -> Words
        ensures empty { result ≡ [] }
    {
        Words {
            words: Vec::new(alloc),
        }
    }

    /// Adds a word at the end. Want of memory is the only refusal, and changes nothing.
    pub fn push(&mut self, word: PlSmallStr) -> PolarsResult<()>
        ensures pushed { Becomes result self.old self.new (Ok (self.old ++ word ∷ [])) }
    {
        self.words.push(word)?;
        Ok(())
    }

    /// The command that the words tell, and None where they tell none.
    pub fn command(&self) -> Option<Command>
        ensures command { result ≡ command_of self.now }
    {
        match self.words.as_slice() {
            [word] => command_named(word.as_str()),
            _ => None,
        }
    }
}

fn command_named(word: &str) -> Option<Command>
    ensures command { result ≡ command_named word.now }
{
    match word {
        "eval" => Some(Command::Eval),
        "fold" => Some(Command::Fold),
        "autofold" => Some(Command::Autofold),
        "check" => Some(Command::Check),
        "plan" => Some(Command::Plan),
        "--help" => Some(Command::Help),
        "--version" => Some(Command::Version),
        _ => None,
    }
}
