//! Runs each script of a list, through devices of several steps, and prints the first answer that is
//! not the one that stands beside it.
#![tactic(auto)]

ghost use Rattle.std.specs.Prelude.{◌≡◌, ◌<◌, None};

mod cut;
mod row;

use anyhow::Result;
use col_prog::{MemorySink, PlSmallStr, Sink, Source, Status, Steps, SureSource, Words, run};
use cut::{Cut, cut_script, most_slots};
use row::{Row, rows_of};
use std::alloc::Global;
use std::io;
use std::marker::Brand;
use std::sync::ledger::{Blank, Ledger};

/// How many bytes the devices move at a call.
const STEPS: [usize; 4] = [1, 3, 7, 4096];

/// The step of one run of many, each in turn.
fn step_in_turn(runs: usize) -> usize
    ensures step { 0 < result }
{
    match runs % 4 {
        0 => 1,
        1 => 3,
        2 => 7,
        _ => 4096,
    }
}

/// A plan that no expression keeps, whose intervals are narrow: no tree has the last node.
const FALSE_PLAN: &str = "\
plan 1 0 9\n\
plan 2 0 9\n\
plan 3 0 9\n\
plan 4294967295 0 9\n";

fn words_of(alloc: Global, text: &str) -> Result<Words> {
    let mut words = Words::new(alloc);
    if text == "(no words)" {
        return Ok(words);
    }
    for word in text.split_whitespace() {
        words.push(PlSmallStr::from_str(alloc, word)?)?;
    }
    Ok(words)
}

fn run_counted<S: Source, K: Sink, L: Ledger>(
    alloc: Global,
    words: &Words,
    source: &mut S,
    sink: &mut K,
    blank: Blank,
) -> Status
    requires name { blank.name ≡ L.name }
    requires parts { blank.parts ≡ L.parts }
    requires open { 0 < blank.parts }
    requires room { K.room sink.old ≡ None }
{
    run(alloc, words, source, sink, &mut Steps::<L>::new(blank))
}

/// What is run, and what it has to answer.
#[derive(Clone, Copy)]
struct Run<'a> {
    title: &'a str,
    words: &'a str,
    plan: &'a str,
    script: &'a str,
    status: &'a str,
    answer: &'a str,
}

/// The row by these words, with the lines of a plan in front of its script.
fn run_of<'a>(row: &'a Row, words: &'a str, plan: &'a str) -> Run<'a> {
    Run {
        title: row.title.as_str(),
        words,
        plan,
        script: row.script.as_str(),
        status: row.status.as_str(),
        answer: row.answer.as_str(),
    }
}

/// The row of `eval` by a script that is the row's but for the ends of chunks.
fn cut_run_of<'a>(row: &'a Row, script: &'a str) -> Run<'a> {
    Run {
        script,
        ..run_of(row, "eval", "")
    }
}

/// The check of a plan for the row's script.
fn check_of<'a>(row: &'a Row, plan: &'a str, answer: &'a str) -> Run<'a> {
    Run {
        status: "done",
        answer,
        ..run_of(row, "check", plan)
    }
}

/// What the program answers by devices of this step.
fn answer_to(alloc: Global, run: &Run<'_>, step: usize) -> Result<(Status, MemorySink)>
    requires step { 0 < step }
{
    let words = words_of(alloc, run.words)?;
    let mut script = Vec::from_slice(alloc, run.plan.as_bytes())?;
    script.extend_from_slice(run.script.as_bytes())?;
    let mut source = SureSource::new(script, step);
    let mut sink = MemorySink::new(alloc, step, Vec::new(alloc));
    let status = run_counted::<_, _, Brand>(alloc, &words, &mut source, &mut sink, Blank::new(1));
    Ok((status, sink))
}

/// Whether a run, which is counted, answers as it has to; prints what differs.
fn is_answered(rt: &HostRuntime, runs: &mut usize, run: &Run<'_>, step: usize) -> Result<bool>
    requires step { 0 < step }
{
    let (status, sink) = answer_to(rt.alloc(), run, step)?;
    *runs = runs.saturating_add(1);
    let same = status.message() == run.status && sink.bytes() == run.answer.as_bytes();
    if !same {
        let text = String::from_utf8_lossy(rt.alloc(), sink.bytes())?;
        println!(rt;
            "{} by {} at step {step}: {}",
            run.title,
            run.words,
            status.message()
        )?;
        println!(rt; "{}{text}", run.plan)?;
    }
    Ok(same)
}

/// The same, by devices of the step whose turn it is.
fn is_answered_in_turn(rt: &HostRuntime, runs: &mut usize, run: &Run<'_>) -> Result<bool> {
    let step = step_in_turn(*runs);
    is_answered(rt, runs, run, step)
}

/// Whether a row is answered: one by hand by devices of each step.
fn is_met(rt: &HostRuntime, runs: &mut usize, row: &Row) -> Result<bool> {
    let run = run_of(row, row.words.as_str(), "");
    if row.in_table {
        return is_answered_in_turn(rt, runs, &run);
    }
    for step in STEPS {
        if !is_answered(rt, runs, &run, step)? {
            return Ok(false);
        }
    }
    Ok(true)
}

/// The lines of the plan that is found for the row's script.
fn found_plan(alloc: Global, row: &Row) -> Result<String> {
    let (_, sink) = answer_to(alloc, &run_of(row, "plan", ""), 4096)?;
    Ok(String::from_utf8_lossy(alloc, sink.bytes())?)
}

/// Whether these words answer as the row of `eval`, with the lines of a plan in front of its script.
fn is_alike(
    rt: &HostRuntime,
    runs: &mut usize,
    row: &Row,
    words: &str,
    plan: &str,
) -> Result<bool> {
    is_answered_in_turn(rt, runs, &run_of(row, words, plan))
}

/// Whether the check of a plan for the row's script answers this.
fn is_checked(
    rt: &HostRuntime,
    runs: &mut usize,
    row: &Row,
    plan: &str,
    answer: &str,
) -> Result<bool> {
    is_answered_in_turn(rt, runs, &check_of(row, plan, answer))
}

/// Whether folding answers as the row of `eval`: without a plan, under a false one, and under the one
/// that is found, which is true.
fn is_folded(rt: &HostRuntime, runs: &mut usize, row: &Row) -> Result<bool> {
    if !is_alike(rt, runs, row, "fold", "")? || !is_alike(rt, runs, row, "autofold", "")? {
        return Ok(false);
    }
    if row.status.as_str() == "bad script" {
        return Ok(true);
    }
    let found = found_plan(rt.alloc(), row)?;
    Ok(
        is_alike(rt, runs, row, "fold", FALSE_PLAN)?
            && is_checked(rt, runs, row, FALSE_PLAN, "no\n")?
            && is_alike(rt, runs, row, "fold", found.as_str())?
            && is_checked(rt, runs, row, found.as_str(), "yes\n")?,
    )
}

/// Whether the row's script answers alike with its columns cut.
fn is_alike_cut(rt: &HostRuntime, runs: &mut usize, row: &Row, cut: Cut) -> Result<bool> {
    let script = cut_script(rt.alloc(), row.script.as_str(), cut)?;
    is_answered_in_turn(rt, runs, &cut_run_of(row, script.as_str()))
}

/// Whether chunks change no answer: those of a cut at each place where a column has two slots or more,
/// and of one row each. The end of a chunk makes no bad line good, so a bad script is left out.
fn is_answered_cut(rt: &HostRuntime, runs: &mut usize, row: &Row) -> Result<bool> {
    let slots = most_slots(row.script.as_str());
    if slots < 2 || row.status.as_str() == "bad script" {
        return Ok(true);
    }
    for place in 0..slots - 1 {
        if !is_alike_cut(rt, runs, row, Cut::Behind(place))? {
            return Ok(false);
        }
    }
    is_alike_cut(rt, runs, row, Cut::Everywhere)
}

/// Whether a row of `eval` is answered alike by folding, and in chunks.
fn is_evaluated_alike(rt: &HostRuntime, runs: &mut usize, row: &Row) -> Result<bool> {
    Ok(is_folded(rt, runs, row)? && is_answered_cut(rt, runs, row)?)
}

fn main(rt: HostRuntime) -> Result<()> {
    let alloc = rt.alloc();
    let list = io::read_to_string(alloc, rt.reader())?;
    let rows = rows_of(alloc, list.as_str())?;
    let mut runs = 0;
    for row in &rows {
        if !is_met(&rt, &mut runs, row)? {
            return Ok(());
        }
        if row.words.as_str() == "eval" && !is_evaluated_alike(&rt, &mut runs, row)? {
            return Ok(());
        }
    }
    println!(rt;
        "{} rows are answered as they have to be, in {runs} runs",
        rows.len()
    )?;
    Ok(())
}
