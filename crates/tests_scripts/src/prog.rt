// What no clause says: that calls succeed, and what std's readers and writers do to the adapters.
use col_prog::{
    Command, Failed, MemorySink, MemorySource, ReadError, ReadSource, Sink, Source, Status,
    SureSink, SureSource, Words, WriteSink, read_all, write_all,
};
use col_types::PlSmallStr;
use std::io::{self, ErrorKind, Read, Write};
use std::test::Fail;

/// Gives one byte a call, and fails at one call.
#[derive(Drop)]
struct SlowReader {
    left: &'static [u8],
    call: u64,
    fails: u64,
}

impl Read for SlowReader {
    fn read(&mut self, buf: &mut [u8]) -> io::Result<usize> {
        let call = self.call;
        self.call = call.saturating_add(1);
        if call == self.fails {
            return Err(ErrorKind::Other.into());
        }
        if self.left.is_empty() || buf.is_empty() {
            return Ok(0);
        }
        buf[0] = self.left[0];
        self.left = &self.left[1..];
        Ok(1)
    }
}

/// What a writer does wrong at its second call.
#[derive(Clone, Copy, PartialEq, Eq)]
enum Fault {
    Nowhere,
    InWrite,
    InFlush,
    TakesNothing,
}

/// Takes one byte a call.
#[derive(Drop)]
struct SlowWriter {
    bytes: Vec<u8>,
    fault: Fault,
}

impl Write for SlowWriter {
    fn write(&mut self, buf: &[u8]) -> io::Result<usize> {
        if self.bytes.len() == 1 && self.fault == Fault::InWrite {
            return Err(ErrorKind::Other.into());
        }
        if buf.is_empty() || self.bytes.len() == 1 && self.fault == Fault::TakesNothing {
            return Ok(0);
        }
        self.bytes.extend_from_slice(&buf[..1])?;
        Ok(1)
    }

    fn flush(&mut self) -> io::Result<()> {
        if self.bytes.len() == 2 && self.fault == Fault::InFlush {
            return Err(ErrorKind::Other.into());
        }
        Ok(())
    }
}

#[test]
fn a_reader_is_read_to_its_end_unless_it_fails(rt: HostRuntime) -> Result<(), Fail> {
    for (fails, wanted) in [
        (9, Ok("abc")),
        (3, Err(ReadError::Fault)),
        (1, Err(ReadError::Fault)),
    ] {
        let mut source = ReadSource::new(SlowReader {
            left: b"abc",
            call: 0,
            fails,
        });
        match read_all(rt.alloc(), &mut source) {
            Ok(bytes) => assert_eq!(rt;
                Ok(bytes.as_slice()),
                wanted.map(str::as_bytes),
                "at {fails}"
            ),
            Err(error) => assert_eq!(rt; Err(error), wanted, "at {fails}"),
        }
    }
    Ok(())
}

#[test]
fn a_writer_that_fails_keeps_a_front(rt: HostRuntime) -> Result<(), Fail> {
    for (at, fault, written, result) in [
        ("no fault", Fault::Nowhere, "abc", Ok(())),
        ("write", Fault::InWrite, "a", Err(Failed)),
        ("flush", Fault::InFlush, "ab", Err(Failed)),
        ("nothing taken", Fault::TakesNothing, "a", Err(Failed)),
    ] {
        let bytes = Vec::new(rt.alloc());
        let mut sink = WriteSink::new(SlowWriter { bytes, fault });
        assert_eq!(rt; write_all(&mut sink, b"abc"), result, "at {at}");
        assert_eq!(rt;
            sink.into_inner().bytes.as_slice(),
            written.as_bytes(),
            "at {at}"
        );
    }
    Ok(())
}

#[test]
fn a_source_in_memory_fails_at_the_listed_call(rt: HostRuntime) -> Result<(), Fail> {
    let bytes = Vec::from_slice(rt.alloc(), b"abcde")?;
    let mut source = MemorySource::new(bytes, 2, Vec::from_slice(rt.alloc(), &[1])?);
    let mut piece = *b"...";
    for (call, given, wanted) in [
        (0, Ok(2), b"ab."),
        (1, Err(Failed), b"ab."),
        (2, Ok(2), b"cd."),
        (3, Ok(1), b"ed."),
        (4, Ok(0), b"ed."),
    ] {
        assert_eq!(rt; source.read(&mut piece), given, "at {call}");
        assert_eq!(rt; &piece, wanted, "at {call}");
    }
    Ok(())
}

#[test]
fn a_sink_in_memory_fails_at_the_listed_call(rt: HostRuntime) -> Result<(), Fail> {
    let fails = Vec::from_slice(rt.alloc(), &[1])?;
    let mut sink = MemorySink::new(rt.alloc(), 2, fails);
    for (call, taken, written) in [(0, Ok(2), "ab"), (1, Err(Failed), "ab"), (2, Ok(2), "abab")] {
        assert_eq!(rt; sink.write(b"abc"), taken, "at {call}");
        assert_eq!(rt; sink.bytes(), written.as_bytes(), "at {call}");
    }
    Ok(())
}

#[test]
fn sure_devices_take_and_give_all(rt: HostRuntime) -> Result<(), Fail> {
    let mut source = SureSource::new(Vec::from_slice(rt.alloc(), b"abcde")?, 2);
    assert_eq!(rt;
        read_all(rt.alloc(), &mut source)?.as_slice(),
        b"abcde".as_slice()
    );
    let mut sink = SureSink::new(Vec::from_slice(rt.alloc(), b"....")?, 2);
    assert_eq!(rt; write_all(&mut sink, b"abc"), Ok(()));
    assert_eq!(rt; sink.bytes(), b"abc".as_slice());
    Ok(())
}

#[test]
fn one_word_tells_the_command(rt: HostRuntime) -> Result<(), Fail> {
    for (word, wanted) in [
        ("eval", Some(Command::Eval)),
        ("fold", Some(Command::Fold)),
        ("autofold", Some(Command::Autofold)),
        ("check", Some(Command::Check)),
        ("plan", Some(Command::Plan)),
        ("--help", Some(Command::Help)),
        ("--version", Some(Command::Version)),
        ("Eval", None),
    ] {
        let mut words = Words::new(rt.alloc());
        words.push(PlSmallStr::from_str(rt.alloc(), word)?)?;
        assert_eq!(rt; words.command(), wanted, "at {word}");
    }
    assert_eq!(rt; Status::ReadFault.code(), 4);
    assert_eq!(rt; Status::ReadFault.message(), "read fault");
    Ok(())
}
