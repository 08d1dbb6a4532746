// How a run ends.
ghost use Rattle.std.specs.Prelude.{◌≡◌};
ghost use Rattle.chyp_base.specs.Status.{number_of};

/// How a run of the checker ends.
#[derive(Clone, Copy, Debug, PartialEq, Eq)]
pub enum Status {
    /// The run ended, and every statement of the text is good.
    Done,
    /// The run ended, and some statement of the text is not good, or has no verdict yet.
    SomeNotGood,
    /// The words of the command line are none of those that are accepted.
    BadWords,
    /// The source failed.
    ReadFault,
    /// The sink failed.
    WriteFault,
    /// The library failed.
    LibraryFault,
    /// A text, a stream or the number of modules passed its limit.
    TooLong,
    /// The stream holds what is no command.
    BadCommand,
    /// There was no memory to go on.
    NoMemory,
}

impl Status {
    /// The exit status of the program: 0 for `Done`, and then one more for each in order.
    pub fn number(self) -> u8
        ensures { result ≡ number_of self }
    {
        match self {
            Status::Done => 0,
            Status::SomeNotGood => 1,
            Status::BadWords => 2,
            Status::ReadFault => 3,
            Status::WriteFault => 4,
            Status::LibraryFault => 5,
            Status::TooLong => 6,
            Status::BadCommand => 7,
            Status::NoMemory => 8,
        }
    }
}
