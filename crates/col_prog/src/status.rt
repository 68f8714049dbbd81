// How a run ends.
ghost use Rattle.std.specs.Prelude.{◌≡◌};
ghost use Rattle.col_prog.specs.Status.{code_of, message_of};

/// How a run ends.
#[derive(Clone, Copy, Debug, PartialEq, Eq)]
pub enum Status {
    /// The answer was written whole.
    Done,
    /// A refusal was the answer, and it was written whole.
    Refused,
    /// The script isn't well formed, and its first bad line was written whole.
    BadScript,
    /// The words tell no command.
    BadWords,
    /// The source failed.
    ReadFault,
    /// The sink failed.
    WriteFault,
    /// The script has more bytes than a script may have.
    TooLong,
    /// Memory was wanting.
    NoMemory,
}

impl Status {
    /// The exit code, from 0 to 7.
    pub fn code(self) -> u8
        ensures code { result ≡ code_of self }
    {
        match self {
            Status::Done => 0,
            Status::Refused => 1,
            Status::BadScript => 2,
            Status::BadWords => 3,
            Status::ReadFault => 4,
            Status::WriteFault => 5,
            Status::TooLong => 6,
            Status::NoMemory => 7,
        }
    }

    /// The name in lower case, with spaces between its words.
    pub fn message(self) -> &'static str
        ensures message { result.now ≡ message_of self }
    {
        match self {
            Status::Done => "done",
            Status::Refused => "refused",
            Status::BadScript => "bad script",
            Status::BadWords => "bad words",
            Status::ReadFault => "read fault",
            Status::WriteFault => "write fault",
            Status::TooLong => "too long",
            Status::NoMemory => "no memory",
        }
    }
}
