// Runs that no list of rows can show: devices that fail, long scripts, deep expressions.
ghost use Rattle.std.specs.Prelude.{◌≡◌, ◌<◌, ◌∷◌, [], None, codes, IfOk};

use col_prog::{
    MemorySink, MemorySource, PlSmallStr, Sink, Source, Status, Steps, SureSink, SureSource, Words,
    run,
};
use std::alloc::{AllocError, Global};
use std::marker::Brand;
use std::sync::ledger::{Blank, Ledger};
use std::test::Fail;

const ROUNDING: &str = "col a datetime[ns] -1 | null 1999999\nexpr $0 cast:datetime[ms]\n";

/// The words of a command of one word.
fn words_of(alloc: Global, word: &str) -> Result<Words, Fail> {
    let mut words = Words::new(alloc);
    words.push(PlSmallStr::from_str(alloc, word)?)?;
    Ok(words)
}

/// One run, with a fresh count of steps.
fn run_counted<S: Source, K: Sink, L: Ledger>(
    alloc: Global,
    words: &Words,
    source: &mut S,
    sink: &mut K,
    blank: Blank,
) -> Status
    requires name { blank.name ≡ L.name }
    requires parts { blank.parts ≡ L.parts }
    requires open { 0 < blank.parts }
    requires room { K.room sink.old ≡ None }
{
    run(alloc, words, source, sink, &mut Steps::<L>::new(blank))
}

/// The answer to a script where these calls of the devices fail.
fn answer_to(
    alloc: Global,
    script: Vec<u8>,
    step: usize,
    reads: &[u64],
    writes: &[u64],
) -> Result<(Status, MemorySink), Fail>
    requires step { 0 < step }
{
    let words = words_of(alloc, "eval")?;
    let mut source = MemorySource::new(script, step, Vec::from_slice(alloc, reads)?);
    let mut sink = MemorySink::new(alloc, step, Vec::from_slice(alloc, writes)?);
    let status = run_counted::<_, _, Brand>(alloc, &words, &mut source, &mut sink, Blank::new(1));
    Ok((status, sink))
}

#[test]
fn devices_that_fail(rt: HostRuntime) -> Result<(), Fail> {
    let (none, first, second): (&[u64], &[u64], &[u64]) = (&[], &[0], &[1]);
    for (reads, writes, wanted, text) in [
        (first, none, Status::ReadFault, ""),
        (second, none, Status::ReadFault, ""),
        (none, first, Status::WriteFault, ""),
        (none, second, Status::WriteFault, "a d"),
        (none, none, Status::Done, "a datetime[ms] 3\n-1\nnull\n1\n"),
    ] {
        let script = Vec::from_slice(rt.alloc(), ROUNDING.as_bytes())?;
        let (status, sink) = answer_to(rt.alloc(), script, 3, reads, writes)?;
        assert_eq!(rt; status, wanted, "at {wanted:?}");
        assert_eq!(rt; sink.bytes(), text.as_bytes(), "at {wanted:?}");
    }
    Ok(())
}

#[test]
fn the_longest_script(rt: HostRuntime) -> Result<(), Fail> {
    for (length, wanted, text) in [
        (16_777_216, Status::BadScript, "bad line 2\n"),
        (16_777_217, Status::TooLong, ""),
    ] {
        let script = vec![in rt.alloc(); b' '; length]?;
        let (status, sink) = answer_to(rt.alloc(), script, 1 << 20, &[], &[])?;
        assert_eq!(rt; status, wanted, "at {length}");
        assert_eq!(rt; sink.bytes(), text.as_bytes(), "at {length}");
    }
    Ok(())
}

fn chain(alloc: Global, casts: usize) -> Result<Vec<u8>, Fail> {
    let mut script = String::from_str(alloc, "col a datetime[ms] 5\nexpr $0")?;
    for _ in 0..casts {
        script.push_str(" cast:datetime[ms]")?;
    }
    Ok(script.into_bytes())
}

#[test]
fn the_deepest_chain(rt: HostRuntime) -> Result<(), Fail> {
    for (casts, wanted, text) in [
        (511, Status::Done, "a datetime[ms] 1\n5\n"),
        (512, Status::BadScript, "bad line 2\n"),
    ] {
        let script = chain(rt.alloc(), casts)?;
        let (status, sink) = answer_to(rt.alloc(), script, 4096, &[], &[])?;
        assert_eq!(rt; status, wanted, "at {casts}");
        assert_eq!(rt; sink.bytes(), text.as_bytes(), "at {casts}");
    }
    Ok(())
}

const ROOM: usize = 2000;

fn line_feed(alloc: Global) -> Result<SureSource, AllocError>
    ensures left { IfOk result (λ source. source.left ≡ 10 ∷ []) }
{
    Ok(SureSource::new(Vec::from_slice(alloc, b"\n")?, 1))
}

fn room_of(alloc: Global, count: usize) -> Result<SureSink, AllocError>
    ensures room { IfOk result (λ sink. sink.room ≡ count) }
{
    Ok(SureSink::new(vec![in alloc; 0u8; count]?, 2))
}

/// A run whose sink takes a limited number of bytes, which the answer has to fit.
fn run_in_room<L: Ledger>(
    alloc: Global,
    words: &Words,
    source: &mut SureSource,
    sink: &mut SureSink,
    blank: Blank,
) -> Status
    requires name { blank.name ≡ L.name }
    requires parts { blank.parts ≡ L.parts }
    requires open { 0 < blank.parts }
    requires script { source.old.left ≡ 10 ∷ [] }
    requires room { sink.old.room ≡ ROOM }
{
    run(alloc, words, source, sink, &mut Steps::<L>::new(blank))
}

fn answer_in_room(alloc: Global) -> Result<(Status, SureSink), Fail> {
    let words = words_of(alloc, "eval")?;
    let mut source = line_feed(alloc)?;
    let mut sink = room_of(alloc, ROOM)?;
    let status = run_in_room::<Brand>(alloc, &words, &mut source, &mut sink, Blank::new(1));
    Ok((status, sink))
}

#[test]
fn an_answer_fits_its_room(rt: HostRuntime) -> Result<(), Fail> {
    let (status, sink) = answer_in_room(rt.alloc())?;
    assert_eq!(rt; status, Status::BadScript);
    assert_eq!(rt; sink.bytes(), b"bad line 2\n".as_slice());
    Ok(())
}

// A verdict takes few bytes, whatever the plan.
const VERDICT_ROOM: usize = 32;

fn check_words(alloc: Global) -> Result<Words, Fail>
    ensures words { IfOk result (λ words. words ≡ codes "check" ∷ []) }
{
    let mut words = Words::new(alloc);
    words.push(PlSmallStr::from_str(alloc, "check")?)?;
    Ok(words)
}

fn one_cast(alloc: Global) -> Result<SureSource, AllocError>
    ensures left { IfOk result (λ source.
        source.left ≡ codes "col a datetime[ms] 5\nexpr $0 cast:datetime[ns]\n") }
{
    let script = b"col a datetime[ms] 5\nexpr $0 cast:datetime[ns]\n";
    Ok(SureSource::new(Vec::from_slice(alloc, script)?, 1))
}

fn check_in_room<L: Ledger>(
    alloc: Global,
    words: &Words,
    source: &mut SureSource,
    sink: &mut SureSink,
    blank: Blank,
) -> Status
    requires name { blank.name ≡ L.name }
    requires parts { blank.parts ≡ L.parts }
    requires open { 0 < blank.parts }
    requires words { words.now ≡ codes "check" ∷ [] }
    requires script { source.old.left
        ≡ codes "col a datetime[ms] 5\nexpr $0 cast:datetime[ns]\n" }
    requires room { sink.old.room ≡ VERDICT_ROOM }
{
    run(alloc, words, source, sink, &mut Steps::<L>::new(blank))
}

fn verdict_in_room(alloc: Global) -> Result<(Status, SureSink), Fail> {
    let words = check_words(alloc)?;
    let mut source = one_cast(alloc)?;
    let mut sink = room_of(alloc, VERDICT_ROOM)?;
    let status = check_in_room::<Brand>(alloc, &words, &mut source, &mut sink, Blank::new(1));
    Ok((status, sink))
}

#[test]
fn a_verdict_fits_its_room(rt: HostRuntime) -> Result<(), Fail> {
    let (status, sink) = verdict_in_room(rt.alloc())?;
    assert_eq!(rt; status, Status::Done);
    assert_eq!(rt; sink.bytes(), b"yes\n".as_slice());
    Ok(())
}
