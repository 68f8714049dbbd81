// Writing a whole text.
ghost use Rattle.std.specs.Prelude.{◌<◌, ◌≤◌, length, take, IfOk, OnOk, OnErr};
ghost use Rattle.std.specs.Io.KnownBytes.{Appends, Keeps};
ghost use Rattle.col_prog.specs.Device.{Rose, Fits, HasCause, TakesRoom};
ghost use Rattle.col_prog.specs.Reading.{AppendsFront};

use crate::device::{Failed, Sink};

/// Writes all of the text, or a front of it where the sink fails. Each write offers all that is
/// left of the text.
pub fn write_all<K: Sink>(sink: &mut K, text: &[u8]) -> Result<(), Failed>
    requires fits { Fits (K.room sink.old) (length text.now) }
    ensures written { OnOk result (Appends (K.contents sink.old) (K.contents sink.new) text.now) }
    ensures front { OnErr result
        (AppendsFront (K.contents sink.old) (K.contents sink.new) text.now) }
    ensures fault { OnErr result (Rose (K.faults sink.old) (K.faults sink.new)) }
    ensures later { K.faults sink.old ≤ K.faults sink.new }
{
    let mut at = 0;
    'writing: while at < text.len() {
        let count = write_turn(sink, &text[at..])?;
        at += count;
    }
    Ok(())
}

// One turn: it writes a byte at least, and at most what is left.
fn write_turn<K: Sink>(sink: &mut K, rest: &[u8]) -> Result<usize, Failed>
    requires left { 0 < length rest.now }
    requires room { Fits (K.room sink.old) (length rest.now) }
    ensures progress { IfOk result (λ count. 0 < count) }
    ensures bound { IfOk result (λ count. count ≤ length rest.now) }
    ensures written { IfOk result (λ count.
        Appends (K.contents sink.old) (K.contents sink.new) (take count rest.now)) }
    ensures unchanged { OnErr result (Keeps (K.contents sink.old) (K.contents sink.new)) }
    ensures room { TakesRoom (K.room sink.old) (K.room sink.new) result }
    ensures cause { HasCause (K.faults sink.old) (K.faults sink.new) result }
{
    sink.write(rest)
}
