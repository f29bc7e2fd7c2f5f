// How a call of the program ends.
ghost use Rattle.std.specs.Prelude.{◌≡◌};
ghost use Rattle.session.specs.Ending.{status_of};

/// How a call ended. Its number is the status of the process.
#[derive(Clone, Copy, Debug, PartialEq, Eq)]
pub enum Status {
    /// The work was done, and all its bytes were taken.
    Done = 0,
    /// The words are none of the forms.
    Usage = 2,
    /// The configuration is refused.
    Config = 3,
    /// The image is refused.
    Image = 4,
    /// A line of the script is refused.
    Script = 5,
    /// A file is absent, or longer than its limit.
    File = 7,
    /// The store failed.
    Store = 8,
    /// The console or the report failed.
    Sink = 9,
    /// Memory could not be had.
    Memory = 10,
    /// There are too few parts of a kind.
    Part = 11,
    /// The source is refused.
    Source = 12,
}

impl Status {
    ghost use Rattle.session.specs.Codes.{code_of};

    /// The status of the process.
    pub fn code(self) -> u8
        ensures { result ≡ code_of self }
    {
        self as u8
    }
}

/// The status of a call that was made.
pub(crate) fn status_of(done: Result<(), Status>) -> Status
    ensures { result ≡ status_of done }
{
    match done {
        Ok(()) => Status::Done,
        Err(status) => status,
    }
}
