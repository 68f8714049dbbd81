//! Makes one call of a column of words, many times over, and prints what its answers come to,
//! so that `bench/` can time it.
#![tactic(auto)]

mod columns;
mod temporal;
mod walks;

use anyhow::{Context, Result, bail};
use col_chunk::{IdxCa, Int64Chunked};
use col_series::{Physical, Series, TimeUnit};
use columns::{column_of, scattered_rows, set_word};
use std::alloc::Global;
use std::env;

/// Joins what a call answers to what there was so far.
fn mixed(total: i64, answer: i64) -> i64 {
    total.wrapping_mul(31).wrapping_add(answer)
}

/// The first and the last slot of a column, 0 for a null one.
fn ends_of(column: &Int64Chunked) -> i64 {
    let len = column.len();
    if len == 0 {
        return 0;
    }
    let first = column.get(0).unwrap_or(0);
    mixed(first, column.get(len - 1).unwrap_or(0))
}

/// The same of the column from the last row to the first.
fn ends_reversed(alloc: Global, column: &Int64Chunked) -> Result<i64> {
    Ok(ends_of(&column.reverse(alloc)?))
}

/// The same of the rows that indices name.
fn ends_taken(alloc: Global, column: &Int64Chunked, indices: &IdxCa) -> Result<i64> {
    Ok(ends_of(&column.take(alloc, indices)?))
}

/// The ends of a column that keeps ticks.
fn ends_of_ticks(column: Series) -> Result<i64> {
    match column.physical() {
        Physical::Int64(words) => Ok(ends_of(words)),
        Physical::Int32(_) => bail!("days"),
    }
}

/// What one call answers.
fn answer_of(alloc: Global, column: &Int64Chunked, call: &str, indices: &IdxCa) -> Result<i64> {
    match call {
        "sum" => Ok(column.sum()),
        "product" => Ok(column.product()),
        "min" => Ok(column.min().unwrap_or(0)),
        "max" => Ok(column.max().unwrap_or(0)),
        "reverse" => ends_reversed(alloc, column),
        "take" => ends_taken(alloc, column, indices),
        "views" => Ok(walks::sum_by_views(column)),
        "runs" => Ok(walks::sum_by_runs(alloc, column)?),
        "add" => ends_of_ticks(temporal::later(alloc, column)?),
        "coarser" => ends_of_ticks(temporal::in_unit(alloc, column, TimeUnit::Milliseconds)?),
        "finer" => ends_of_ticks(temporal::in_unit(alloc, column, TimeUnit::Nanoseconds)?),
        _ => bail!("no call {call}"),
    }
}

/// The word that a round writes.
fn round_word(round: usize) -> i64 {
    i64::try_from(round).unwrap_or(0)
}

/// What the call answers in so many rounds, each with another word in one of the first rows.
fn repeat(alloc: Global, column: &mut Int64Chunked, call: &str, rounds: usize) -> Result<i64> {
    let indices = scattered_rows(alloc, column.len())?;
    let mut total = 0i64;
    for round in 0..rounds {
        set_word(column, round % 8 + 1, round_word(round))?;
        total = mixed(total, answer_of(alloc, column, call, &indices)?);
    }
    Ok(total)
}

/// The number that a word of the command line spells.
fn number(word: Option<String>, what: &'static str) -> Result<usize> {
    let word = word.context(what)?;
    word.as_str().parse::<usize>().context(what)
}

fn main(rt: HostRuntime) -> Result<()> {
    let alloc = rt.alloc();
    let mut args = env::args(&rt)?.skip(1);
    let call = args.next().context("a call")?;
    let null_step = number(args.next(), "how far nulls are apart")?;
    let rows = number(args.next(), "rows")?;
    let chunk_rows = number(args.next(), "rows of a chunk")?;
    let memory = args.next().context("shared or own memory")?;
    let rounds = number(args.next(), "rounds")?;
    let mut column = column_of(alloc, rows, null_step, chunk_rows, memory.as_str())?;
    let total = repeat(alloc, &mut column, call.as_str(), rounds)?;
    println!(rt; "{total}")?;
    Ok(())
}
