//! The program: it answers one expression over the columns of a script.
#![tactic(auto)]

ghost use Rattle.std.specs.Prelude.{◌≡◌, ◌<◌, ◌++◌, ◌∷◌, [], None, Ok};
ghost use Rattle.col_types.specs.PolarsError.{Becomes};

use col_prog::{
    PlSmallStr, PolarsResult, ReadSource, Sink, Source, Status, Steps, Words, WriteSink, run,
};
use std::alloc::Global;
use std::marker::Brand;
use std::process::ExitCode;
use std::rt::Env;
use std::sync::ledger::{Blank, Ledger};
use std::{env, io};

/// The words of the command line, without the program's name. A word that isn't UTF-8 is a bad one.
fn words_of<R: Env + AllocGlobal>(rt: &R, alloc: Global) -> Result<Words, Status> {
    let args = match env::args(rt) {
        Ok(args) => args,
        Err(error) => {
            return Err(match error.kind() {
                io::ErrorKind::OutOfMemory => Status::NoMemory,
                _ => Status::BadWords,
            });
        }
    };
    let mut words = Words::new(alloc);
    for arg in args.skip(1) {
        if push_word(alloc, &mut words, arg.as_str()).is_err() {
            return Err(Status::NoMemory);
        }
    }
    Ok(words)
}

fn push_word(alloc: Global, words: &mut Words, word: &str) -> PolarsResult<()>
    ensures pushed { Becomes result words.old words.new (Ok (words.old ++ word.now ∷ [])) }
{
    words.push(PlSmallStr::from_str(alloc, word)?)
}

/// One run, with a fresh count of steps.
fn run_counted<S: Source, K: Sink, L: Ledger>(
    alloc: Global,
    words: &Words,
    source: &mut S,
    sink: &mut K,
    blank: Blank,
) -> Status
    requires name { blank.name ≡ L.name }
    requires parts { blank.parts ≡ L.parts }
    requires open { 0 < blank.parts }
    requires room { K.room sink.old ≡ None }
{
    run(alloc, words, source, sink, &mut Steps::<L>::new(blank))
}

fn main(rt: HostRuntime) -> ExitCode {
    let alloc = rt.alloc();
    let status = match words_of(&rt, alloc) {
        Ok(words) => {
            let mut source = ReadSource::new(rt.stdin());
            let mut sink = WriteSink::new(rt.stdout());
            run_counted::<_, _, Brand>(alloc, &words, &mut source, &mut sink, Blank::new(1))
        }
        Err(status) => status,
    };
    if status != Status::Done && status != Status::Refused {
        let _ = eprintln!(rt; "{}", status.message());
    }
    ExitCode::from(status.code())
}
