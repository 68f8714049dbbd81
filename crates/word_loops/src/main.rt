//! Applies one function of `Word` to a million words, many times over, and prints their sum, so that
//! `bench/` can time it against a plain loop.
#![tactic(auto)]

ghost use Rattle.std.specs.Prelude.{◌≡◌, ◌<◌, length};

use anyhow::{Context, Result, bail};
use col_kernel::Word;
use std::alloc::{AllocError, Global};
use std::env;

const ROWS: usize = 1_000_000;

/// Words that look random and are the same at each run.
fn words(alloc: Global, seed: i64) -> Result<Vec<i64>, AllocError> {
    let mut words = Vec::with_capacity(alloc, ROWS)?;
    let mut word = seed;
    for _ in 0..ROWS {
        word = word
            .wrapping_mul(6_364_136_223_846_793_005)
            .wrapping_add(1_442_695_040_888_963_407);
        words.push(word)?;
    }
    Ok(words)
}

fn add<T: Word>(total: &mut [T], words: &[T])
    requires rows { length total.old ≡ length words.now }
{
    for i in 0..total.len() {
        total[i] = total[i].add_wrap(words[i]);
    }
}

fn multiply<T: Word>(total: &mut [T], words: &[T])
    requires rows { length total.old ≡ length words.now }
{
    for i in 0..total.len() {
        total[i] = total[i].mul_wrap(words[i]);
    }
}

fn add_quotients<T: Word>(total: &mut [T], words: &[T], divisor: T)
    requires rows { length total.old ≡ length words.now }
{
    for i in 0..total.len() {
        if let Some(quotient) = words[i].floor_div(divisor) {
            total[i] = total[i].add_wrap(quotient);
        }
    }
}

/// Applies the operation so many times, with another divisor in each round.
fn repeat(total: &mut [i64], words: &[i64], operation: &str, rounds: u32) -> Result<()>
    requires rows { length total.old ≡ length words.now }
{
    for round in 0..rounds {
        match operation {
            "add" => add(total, words),
            "multiply" => multiply(total, words),
            "floor_div" => add_quotients(total, words, i64::from(round).wrapping_add(7)),
            _ => bail!("no operation {operation}"),
        }
    }
    Ok(())
}

/// The sum of all totals after so many rounds.
fn sum_after(alloc: Global, operation: &str, rounds: u32) -> Result<i64> {
    let words = words(alloc, 1)?;
    let mut total = self::words(alloc, 2)?;
    if total.len() != words.len() {
        bail!("out of step");
    }
    repeat(total.as_mut_slice(), words.as_slice(), operation, rounds)?;
    Ok(total.iter().fold(0i64, |sum, word| sum.wrapping_add(*word)))
}

fn main(rt: HostRuntime) -> Result<()> {
    let alloc = rt.alloc();
    let mut args = env::args(&rt)?.skip(1);
    let operation = args.next().context("an operation")?;
    let rounds = args.next().context("rounds")?;
    let rounds = rounds.as_str().parse::<u32>().context("rounds")?;
    let sum = sum_after(alloc, operation.as_str(), rounds)?;
    println!(rt; "{sum}")?;
    Ok(())
}
