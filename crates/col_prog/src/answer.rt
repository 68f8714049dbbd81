// The answer to a command, before it is written.
ghost use Rattle.std.specs.Prelude.{◌≡◌, ◌≤◌, ◌+◌, true, false, length, IfOk, OnOk, OnErr};
ghost use Rattle.std.specs.Prelude.{IfSome, Some, Err};
ghost use Rattle.std.specs.Io.KnownBytes.{IsAtEnd};
ghost use Rattle.col_model.specs.Chunked.{columns_of};
ghost use Rattle.col_text.specs.Answer.{bad_line_text};
ghost use Rattle.col_text.specs.Script.{Reads, script_of};
ghost use Rattle.col_expr.specs.Meaning.{step_count};
ghost use Rattle.col_expr.specs.Refusal.{outcome};
ghost use Rattle.col_prog.specs.Device.{Rose};
ghost use Rattle.col_prog.specs.Reading.{Took, TookUpTo};
ghost use Rattle.col_prog.specs.HelpText.{help_text};
ghost use Rattle.col_prog.specs.Answer.{reply_to, reply_to_script, reply_to_outcome, IsAnswer};
ghost use Rattle.col_prog.specs.Answer.{value_reply, verdict_reply, plan_reply};
ghost use Rattle.col_prog.specs.Answer.{reads_script, own_text};
ghost use Rattle.col_prog.specs.Evaluated.{evaluated_tree, folding_of, script_steps};

use crate::device::Source;
use crate::reading::{MAX_SCRIPT, ReadError, read_all};
use crate::status::Status;
use crate::value::{Folding, script_value};
use crate::words::Command;
use col_expr::{EvalError, RangePlan, Steps, check_plan};
use col_text::{
    ReadError as ScriptError, Script, answer_text, bad_line_text, fault_text, plan_text,
    read_script,
};
use std::alloc::{AllocError, Global};
use std::sync::ledger::Ledger;

const HELP: &str = "\
tizlumed answers one expression over columns of integers, dates, times, moments\n\
and lengths.\n\
\n\
usage: tizlumed eval < SCRIPT\n\
\x20      tizlumed fold < SCRIPT\n\
\x20      tizlumed autofold < SCRIPT\n\
\x20      tizlumed check < SCRIPT\n\
\x20      tizlumed plan < SCRIPT\n\
\x20      tizlumed --help\n\
\x20      tizlumed --version\n\
\n\
`eval` answers the expression of a script, `check` whether the script's plan\n\
holds, and `plan` the plan that its columns give. `fold` and `autofold` answer as\n\
`eval`, with casts between units folded by the script's plan, and by that one.\n\
\n\
A script has any number of lines `zone NAME`, `col NAME TYPE SLOT ..` and\n\
`plan NODE LOW HIGH`, and then one line `expr TOKEN ..` in postfix order. A SLOT\n\
is `null` or an integer. A TYPE is i64, date, time, datetime[UNIT],\n\
datetime[UNIT,ZONE] or duration[UNIT], a UNIT ns, us or ms. A NODE is a token's\n\
place from 0, LOW and HIGH are the ends of its slots' interval. A TOKEN is\n\
\x20 $N             column N, from 0\n\
\x20 cast:TYPE      a cast; cast!: refuses to lose a slot, cast~: wraps a day\n\
\x20 +, -, *, /, %  the two operands before it\n\
\x20 +#K, K#+       an operand and an integer, so with each operator; also tdiv#K\n\
\x20 unit:UNIT      another unit, wrapped\n\
\x20 shift:P        each slot P rows further down\n";

const VERSION: &str = "tizlumed 0.2.0\n";

/// A whole text, and the status that tells it.
#[derive(Drop)]
pub(crate) struct Answer {
    pub text: Vec<u8>,
    pub status: Status,
}

/// The answer to a command. A command that says a text of its own reads nothing, and each other one
/// reads the source to its end.
pub(crate) fn answer_to<S: Source, L: Ledger>(
    alloc: Global,
    command: Command,
    source: &mut S,
    steps: &mut Steps<L>,
) -> Result<Answer, ReadError>
    ensures text { IfOk result (λ a. IfSome (S.left source.old) (λ bytes.
        a.text.items ≡ (reply_to (Some command) bytes).text)) }
    ensures status { IfOk result (λ a. IfSome (S.left source.old) (λ bytes.
        a.status ≡ (reply_to (Some command) bytes).status)) }
    ensures answer { IfOk result (λ a. IsAnswer a.status) }
    ensures own_text { IfSome (own_text command) (λ text. IfOk result (λ a. a.text.items ≡ text)) }
    ensures unread { reads_script command ≡ false → source.new ≡ source.old }
    ensures end { reads_script command ≡ true → OnOk result (IsAtEnd (S.left source.new)) }
    ensures within { reads_script command ≡ true → OnOk result (IfSome (S.left source.old) (λ bytes.
        length bytes ≤ MAX_SCRIPT)) }
    ensures front { OnErr result
        (TookUpTo (S.left source.old) (S.left source.new) (MAX_SCRIPT + 1)) }
    ensures too_long { result ≡ Err ReadError.TooLong →
        Took (S.left source.old) (S.left source.new) (MAX_SCRIPT + 1) }
    ensures not_too_long { result ≡ Err ReadError.Fault →
        TookUpTo (S.left source.old) (S.left source.new) MAX_SCRIPT }
    ensures fault { result ≡ Err ReadError.Fault →
        Rose (S.faults source.old) (S.faults source.new) }
    ensures steps { IfOk result (λ a. a.status ≡ Status.Done → IfSome (S.left source.old) (λ bytes.
        steps.new ≡ steps.old + script_steps (folding_of command) (script_of bytes))) }
{
    match command {
        Command::Eval => {
            let bytes = read_all(alloc, source)?;
            Ok(value_answer(alloc, bytes, Folding::Without, steps)?)
        }
        Command::Fold => {
            let bytes = read_all(alloc, source)?;
            Ok(value_answer(alloc, bytes, Folding::Given, steps)?)
        }
        Command::Autofold => {
            let bytes = read_all(alloc, source)?;
            Ok(value_answer(alloc, bytes, Folding::Found, steps)?)
        }
        Command::Check => {
            let bytes = read_all(alloc, source)?;
            Ok(verdict_answer(alloc, bytes)?)
        }
        Command::Plan => {
            let bytes = read_all(alloc, source)?;
            Ok(plan_answer(alloc, bytes)?)
        }
        Command::Help => Ok(help(alloc)?),
        Command::Version => Ok(own_answer(alloc, VERSION)?),
    }
}

fn help(alloc: Global) -> Result<Answer, AllocError>
    ensures text { IfOk result (λ a. a.text.items ≡ help_text) }
    ensures status { IfOk result (λ a. a.status ≡ Status.Done) }
{
    own_answer(alloc, HELP)
}

/// A text of the program itself.
fn own_answer(alloc: Global, text: &str) -> Result<Answer, AllocError>
    ensures text { IfOk result (λ a. a.text.items ≡ text.now) }
    ensures status { IfOk result (λ a. a.status ≡ Status.Done) }
{
    Ok(Answer {
        text: Vec::from_slice(alloc, text.as_bytes())?,
        status: Status::Done,
    })
}

/// The script that the bytes are, or why there is none. The bytes are let go.
fn script_of(alloc: Global, bytes: Vec<u8>) -> Result<Script, ScriptError>
    requires short { length bytes.items ≤ MAX_SCRIPT }
    ensures script { Reads result (script_of bytes.items) }
{
    read_script(alloc, bytes.as_slice())
}

fn bad_line_answer(alloc: Global, line: u32) -> Result<Answer, AllocError>
    ensures text { IfOk result (λ a. a.text.items ≡ bad_line_text line) }
    ensures status { IfOk result (λ a. a.status ≡ Status.BadScript) }
{
    Ok(Answer {
        text: bad_line_text(alloc, line)?,
        status: Status::BadScript,
    })
}

/// The value of a script, its first refused node, or its first bad line.
fn value_answer<L: Ledger>(
    alloc: Global,
    bytes: Vec<u8>,
    folding: Folding,
    steps: &mut Steps<L>,
) -> Result<Answer, AllocError>
    requires short { length bytes.items ≤ MAX_SCRIPT }
    ensures text { IfOk result (λ a.
        a.text.items ≡ (reply_to_script value_reply (script_of bytes.items)).text) }
    ensures status { IfOk result (λ a.
        a.status ≡ (reply_to_script value_reply (script_of bytes.items)).status) }
    ensures answer { IfOk result (λ a. IsAnswer a.status) }
    ensures steps { IfOk result (λ a. a.status ≡ Status.Done → steps.new ≡ steps.old
        + script_steps (Some folding) (script_of bytes.items)) }
{
    match script_of(alloc, bytes) {
        Ok(script) => expression_answer(alloc, script, folding, steps),
        Err(ScriptError::BadLine { line }) => bad_line_answer(alloc, line),
        Err(ScriptError::NoMemory) => Err(AllocError),
    }
}

/// Whether the plan of a script holds, or its first bad line.
fn verdict_answer(alloc: Global, bytes: Vec<u8>) -> Result<Answer, AllocError>
    requires short { length bytes.items ≤ MAX_SCRIPT }
    ensures text { IfOk result (λ a.
        a.text.items ≡ (reply_to_script verdict_reply (script_of bytes.items)).text) }
    ensures status { IfOk result (λ a.
        a.status ≡ (reply_to_script verdict_reply (script_of bytes.items)).status) }
    ensures answer { IfOk result (λ a. IsAnswer a.status) }
{
    match script_of(alloc, bytes) {
        Ok(script) => own_answer(alloc, verdict(&script)),
        Err(ScriptError::BadLine { line }) => bad_line_answer(alloc, line),
        Err(ScriptError::NoMemory) => Err(AllocError),
    }
}

fn verdict(script: &Script) -> &'static str
    ensures text { result.now ≡ (verdict_reply script.now).text }
{
    if check_plan(&script.expr, &script.inputs, &script.plan) {
        "yes\n"
    } else {
        "no\n"
    }
}

/// The plan that is found for a script, or its first bad line.
fn plan_answer(alloc: Global, bytes: Vec<u8>) -> Result<Answer, AllocError>
    requires short { length bytes.items ≤ MAX_SCRIPT }
    ensures text { IfOk result (λ a.
        a.text.items ≡ (reply_to_script plan_reply (script_of bytes.items)).text) }
    ensures status { IfOk result (λ a.
        a.status ≡ (reply_to_script plan_reply (script_of bytes.items)).status) }
    ensures answer { IfOk result (λ a. IsAnswer a.status) }
{
    match script_of(alloc, bytes) {
        Ok(script) => found_answer(alloc, &script),
        Err(ScriptError::BadLine { line }) => bad_line_answer(alloc, line),
        Err(ScriptError::NoMemory) => Err(AllocError),
    }
}

fn found_answer(alloc: Global, script: &Script) -> Result<Answer, AllocError>
    ensures text { IfOk result (λ a. a.text.items ≡ (plan_reply script.now).text) }
    ensures status { IfOk result (λ a. a.status ≡ Status.Done) }
{
    match RangePlan::of_inputs(alloc, &script.expr, &script.inputs) {
        Ok(plan) => Ok(Answer {
            text: plan_text(alloc, &plan, script.expr.nodes())?,
            status: Status::Done,
        }),
        Err(_) => Err(AllocError),
    }
}

/// The column of the script's expression, or its first refused node.
fn expression_answer<L: Ledger>(
    alloc: Global,
    script: Script,
    folding: Folding,
    steps: &mut Steps<L>,
) -> Result<Answer, AllocError>
    ensures text { IfOk result (λ a.
        a.text.items ≡ (reply_to_outcome (outcome (columns_of script.inputs) script.expr)).text) }
    ensures status { IfOk result (λ a.
        a.status ≡ (reply_to_outcome (outcome (columns_of script.inputs) script.expr)).status) }
    ensures answer { IfOk result (λ a. IsAnswer a.status) }
    ensures steps { IfOk result (λ a. a.status ≡ Status.Done → steps.new ≡ steps.old
        + step_count (columns_of script.inputs) (evaluated_tree folding script)) }
{
    let outcome = script_value(alloc, &script, folding, steps);
    drop(script);
    match outcome {
        Ok(column) => Ok(Answer {
            text: answer_text(alloc, &column)?,
            status: Status::Done,
        }),
        Err(EvalError::NoMemory) => Err(AllocError),
        Err(fault) => Ok(Answer {
            text: fault_text(alloc, &fault)?,
            status: Status::Refused,
        }),
    }
}
