// A script, line by line.
ghost use Rattle.std.specs.Prelude.{◌≡◌, ◌<◌, ◌≤◌, ◌+◌, ◌-◌, ◌^◌, length, OnOk};
ghost use Rattle.col_token.specs.Places.{longest_text};
ghost use Rattle.col_token.specs.Tokens.{words_in};
ghost use Rattle.col_text.specs.Reading.{Becomes};
ghost use Rattle.col_text.specs.Script.{
  Reads,
  finished,
  no_progress,
  progress_after,
  script_of,
  with_column,
  with_expression,
  with_plan,
  with_zone,
};

use crate::column::column_line;
use crate::expression::expression_line;
use crate::line_error::LineError;
use crate::plan::{Cover, plan_line};
use crate::words::is_word;
use crate::zone::zone_line;
use col_expr::{Expr, Inputs, RangePlan};
use col_token::{content, first_line, first_token};
use col_types::ZoneNames;
use std::alloc::Global;

/// The columns of a script, the expression over them, and the plan of its nodes.
#[derive(Drop)]
pub struct Script {
    pub inputs: Inputs,
    pub expr: Expr,
    pub plan: RangePlan,
}

/// Why a script isn't read.
#[derive(Drop, Debug, PartialEq, Eq)]
pub enum ReadError {
    /// The first line, numbered from 1, that breaks the grammar. Where no expression comes, it is
    /// the line behind the last one.
    BadLine { line: u32 },
    /// Memory is wanting.
    NoMemory,
}

/// What is read of a script so far. Behind the expression come lines without tokens alone.
#[derive(Drop)]
pub(crate) struct Progress {
    zones: ZoneNames,
    inputs: Inputs,
    plan: RangePlan,
    expr: Option<Expr>,
}

impl Progress {
    fn new(alloc: Global) -> Progress
        ensures nothing { result ≡ no_progress }
    {
        Progress {
            zones: ZoneNames::new(alloc),
            inputs: Inputs::new(alloc),
            plan: RangePlan::new(alloc),
            expr: None,
        }
    }

    fn push_zone(&mut self, alloc: Global, line: &[u8]) -> Result<(), LineError>
        ensures progress { Becomes result self.new (with_zone self.old (words_in line.now)) }
        ensures count { OnOk result (length self.new.inputs ≤ length self.old.inputs + 1) }
    {
        let name = zone_line(alloc, line)?;
        match self.zones.insert(name) {
            Ok(()) => Ok(()),
            Err(_) => Err(LineError::NoMemory),
        }
    }

    fn push_column(&mut self, alloc: Global, line: &[u8]) -> Result<(), LineError>
        requires room { length self.old.inputs < 2 ^ 32 - 1 }
        ensures progress { Becomes result self.new (with_column self.old (words_in line.now)) }
        ensures count { OnOk result (length self.new.inputs ≤ length self.old.inputs + 1) }
    {
        let column = column_line(alloc, &self.zones, line)?;
        match self.inputs.push(column) {
            Ok(()) => Ok(()),
            Err(_) => Err(LineError::NoMemory),
        }
    }

    fn push_plan(&mut self, line: &[u8]) -> Result<(), LineError>
        ensures progress { Becomes result self.new (with_plan self.old (words_in line.now)) }
        ensures count { OnOk result (length self.new.inputs ≤ length self.old.inputs + 1) }
    {
        let Some(Cover { node, low, high }) = plan_line(line) else {
            return Err(LineError::Bad);
        };
        match self.plan.cover(node, low, high) {
            Ok(()) => Ok(()),
            Err(_) => Err(LineError::NoMemory),
        }
    }

    fn set_expression(&mut self, alloc: Global, line: &[u8]) -> Result<(), LineError>
        ensures progress { Becomes result self.new (with_expression self.old (words_in line.now)) }
        ensures count { OnOk result (length self.new.inputs ≤ length self.old.inputs + 1) }
    {
        self.expr = Some(expression_line(alloc, &self.zones, line)?);
        Ok(())
    }

    /// Reads one line more.
    fn read_line(&mut self, alloc: Global, line: &[u8]) -> Result<(), LineError>
        requires room { length self.old.inputs < 2 ^ 32 - 1 }
        ensures progress { Becomes result self.new (progress_after self.old (words_in line.now)) }
        ensures count { OnOk result (length self.new.inputs ≤ length self.old.inputs + 1) }
    {
        let Some((word, rest)) = first_token(line) else {
            return Ok(());
        };
        if self.expr.is_some() {
            Err(LineError::Bad)
        } else if is_word(word, "zone") {
            self.push_zone(alloc, rest)
        } else if is_word(word, "col") {
            self.push_column(alloc, rest)
        } else if is_word(word, "plan") {
            self.push_plan(rest)
        } else if is_word(word, "expr") {
            self.set_expression(alloc, rest)
        } else {
            Err(LineError::Bad)
        }
    }

    /// The script, or, where its expression is missing, that the line of this number is bad.
    fn script(self, line: u32) -> Result<Script, ReadError>
        ensures script { Reads result (finished line self) }
    {
        let Progress {
            inputs,
            plan,
            expr,
            ..
        } = self;
        match expr {
            Some(expr) => Ok(Script { inputs, expr, plan }),
            None => Err(ReadError::BadLine { line }),
        }
    }
}

/// The script that the text is, or its first bad line. The text has at most
/// `col_token::MAX_TEXT` bytes.
pub fn read_script(alloc: Global, text: &[u8]) -> Result<Script, ReadError>
    requires short { length text.now ≤ longest_text }
    ensures script { Reads result (script_of text.now) }
{
    let mut progress = Progress::new(alloc);
    let mut number: u32 = 1;
    let mut rest = text;
    'lines: while !rest.is_empty() {
        let (line, more) = first_line(rest);
        match progress.read_line(alloc, content(line)) {
            Ok(()) => {}
            Err(LineError::Bad) => return Err(ReadError::BadLine { line: number }),
            Err(LineError::NoMemory) => return Err(ReadError::NoMemory),
        }
        number += 1;
        rest = more;
    }
    progress.script(number)
}
