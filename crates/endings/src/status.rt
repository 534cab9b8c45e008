ghost use Rattle.std.specs.Prelude.{◌≡◌, ◌≤◌};
ghost use Rattle.endings.specs.Status.{status_code};

/// How a call ended. The order in which the statuses are tried is: usage, the sources, the scripts, the opening, the
/// run, the sink; want of memory may stand in place of any but the first.
#[derive(Clone, Copy, Debug)]
pub enum Status {
    /// All was done and printed.
    Success,
    /// The words are no command.
    Usage,
    /// A script is outside the grammar or a limit.
    BadScript,
    /// A call of a half failed.
    DriveFault,
    /// The halves hold no store that this call serves.
    BadStore,
    /// All was done, but a line could not be printed.
    SinkFault,
    /// A script could not be read.
    SourceFault,
    /// There was not enough memory.
    Memory,
}

impl Status {
    /// The exit status of a program that ends so, 0 to 7.
    pub fn code(self) -> u8
        ensures code { result ≡ status_code self }
        ensures range { result ≤ 7 }
    {
        match self {
            Status::Success => 0,
            Status::Usage => 1,
            Status::BadScript => 2,
            Status::DriveFault => 3,
            Status::BadStore => 4,
            Status::SinkFault => 5,
            Status::SourceFault => 6,
            Status::Memory => 7,
        }
    }
}
