// One run of the program: its words, its script, its answer.
ghost use Rattle.std.specs.Prelude.{◌≡◌, ◌≤◌, ◌↔◌, ◌+◌, length, IfSome, true, false, None};
ghost use Rattle.std.specs.Io.KnownBytes.{IsAtEnd, Appends};
ghost use Rattle.col_prog.specs.Device.{Rose};
ghost use Rattle.col_prog.specs.Reading.{Took, TookUpTo, AppendsFront};
ghost use Rattle.col_prog.specs.Words.{command_of};
ghost use Rattle.col_prog.specs.Answer.{answer_of, asked_text, read_by, IsAnswer, IsUnwritten};
ghost use Rattle.col_prog.specs.Answer.{IsStatus, HoldsAnswer};
ghost use Rattle.col_prog.specs.Evaluated.{steps_of};

use crate::answer::answer_to;
use crate::device::{Failed, Sink, Source};
use crate::reading::{MAX_SCRIPT, ReadError};
use crate::status::Status;
use crate::words::{Command, Words};
use crate::writing::write_all;
use col_expr::Steps;
use std::alloc::Global;
use std::sync::ledger::Ledger;

/// Reads the words, then the source to its end, then builds the whole answer, and only then writes
/// it. Each write offers all that is left of the answer.
///
/// Where a sink has limited room, the source has to tell its bytes and the room to hold the answer.
#[tactic(auto, unfolding(crate::specs::Answer::answer_of, crate::specs::Evaluated::steps_of))]
pub fn run<S: Source, K: Sink, L: Ledger>(
    alloc: Global,
    words: &Words,
    source: &mut S,
    sink: &mut K,
    steps: &mut Steps<L>,
) -> Status
    requires room { HoldsAnswer words.now (K.room sink.old) (S.left source.old) }

    // The words tell no command: nothing is read or written.
    ensures bad_words { (result ≡ Status.BadWords) ↔ (command_of words.now ≡ None) }
    ensures bad_words_read { result ≡ Status.BadWords → source.new ≡ source.old }

    // A command that says a text of its own needs no script, and nothing of it is read.
    ensures own_text { IfSome (asked_text words.now) (λ text. IsAnswer result →
        Appends (K.contents sink.old) (K.contents sink.new) text) }
    ensures unread { read_by words.now ≡ false → source.new ≡ source.old }

    // The answer: the source was read to its end, and exactly the answer to its bytes was written.
    ensures status { IsAnswer result → IfSome (S.left source.old) (λ bytes.
        result ≡ (answer_of words.now bytes).status) }
    ensures text { IsAnswer result → IfSome (S.left source.old) (λ bytes.
        Appends (K.contents sink.old) (K.contents sink.new) (answer_of words.now bytes).text) }
    ensures end { read_by words.now ≡ true → IsAnswer result →
        IsAtEnd (S.left source.new) }
    ensures within { read_by words.now ≡ true → IsAnswer result →
        IfSome (S.left source.old) (λ bytes. length bytes ≤ MAX_SCRIPT) }

    // The sink failed: a front of the answer was written.
    ensures write_fault { result ≡ Status.WriteFault →
        Rose (K.faults sink.old) (K.faults sink.new) }
    ensures write_front { result ≡ Status.WriteFault → IfSome (S.left source.old) (λ bytes.
        AppendsFront (K.contents sink.old) (K.contents sink.new) (answer_of words.now bytes).text) }
    ensures write_end { read_by words.now ≡ true → result ≡ Status.WriteFault →
        IsAtEnd (S.left source.new) }
    ensures write_within { read_by words.now ≡ true → result ≡ Status.WriteFault →
        IfSome (S.left source.old) (λ bytes. length bytes ≤ MAX_SCRIPT) }

    // It stopped short before the writing: nothing was written.
    ensures unwritten { IsUnwritten result → sink.new ≡ sink.old }
    ensures read_fault { result ≡ Status.ReadFault →
        Rose (S.faults source.old) (S.faults source.new) }
    ensures read_front { result ≡ Status.ReadFault →
        TookUpTo (S.left source.old) (S.left source.new) MAX_SCRIPT }
    ensures too_long { result ≡ Status.TooLong →
        Took (S.left source.old) (S.left source.new) (MAX_SCRIPT + 1) }
    ensures no_memory { result ≡ Status.NoMemory →
        TookUpTo (S.left source.old) (S.left source.new) (MAX_SCRIPT + 1) }

    // The steps of an answer without a refusal: the slots of the evaluated nodes that are no inputs.
    ensures steps { result ≡ Status.Done → IfSome (S.left source.old) (λ bytes.
        steps.new ≡ steps.old + steps_of words.now bytes) }

    // Completeness: with a command, a script that isn't too long and devices that don't fail, the
    // status is that of the answer, or memory is wanting.
    ensures complete { IfSome (S.left source.old) (λ bytes. length bytes ≤ MAX_SCRIPT →
        (Rose (S.faults source.old) (S.faults source.new) → ⊥) →
        (Rose (K.faults sink.old) (K.faults sink.new) → ⊥) →
        IsStatus result (answer_of words.now bytes).status) }
{
    let command = match words.command() {
        Some(command) => command,
        None => return Status::BadWords,
    };
    let answer = match answer_to(alloc, command, source, steps) {
        Ok(answer) => answer,
        Err(ReadError::Fault) => return Status::ReadFault,
        Err(ReadError::TooLong) => return Status::TooLong,
        Err(ReadError::NoMemory) => return Status::NoMemory,
    };
    match write_all(sink, answer.text.as_slice()) {
        Ok(()) => answer.status,
        Err(Failed) => Status::WriteFault,
    }
}
