//! How a call of the program ends.
ghost use Rattle.std.specs.Prelude.{◌≡◌};
ghost use Rattle.replies.specs.Status.{code_of};

/// How a call of the program ends.
#[derive(Clone, Copy, Debug, PartialEq, Eq)]
pub enum Status {
    /// The answer was written to out.
    Done,
    /// The run trapped.
    Trap,
    /// The words ask for nothing that is there.
    Usage,
    /// The file is no spelling of a module.
    Malformed,
    /// The module is not valid.
    Invalid,
    /// The file is no script that breaks no rule.
    BadScript,
    /// The file could not be read.
    ReadFault,
    /// Out or err could not be written.
    WriteFault,
    /// Memory ran out.
    OutOfMemory,
    /// A counted quantity passes its number.
    Limit,
    /// The steps are used up, and the run has not ended.
    Running,
    /// The file is no text of a module.
    BadText,
    /// The file is no trace of the run.
    BadTrace,
}

impl Status {
    /// The exit code.
    pub fn code(self) -> u8
        ensures { result ≡ code_of self }
    {
        match self {
            Status::Done => 0,
            Status::Trap => 1,
            Status::Usage => 2,
            Status::Malformed => 3,
            Status::Invalid => 4,
            Status::BadScript => 5,
            Status::ReadFault => 6,
            Status::WriteFault => 7,
            Status::OutOfMemory => 8,
            Status::Limit => 9,
            Status::Running => 10,
            Status::BadText => 12,
            Status::BadTrace => 13,
        }
    }
}
