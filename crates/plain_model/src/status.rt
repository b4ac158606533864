//! How a run ends.
ghost use Rattle.std.specs.Prelude.{◌≡◌};
ghost use Rattle.plain_model.specs.Statuses.{exit_code};

/// How a run ends. The exit statuses are 0 to 7 in this order. (own)
#[derive(Clone, Copy, Debug, PartialEq, Eq)]
pub enum Status {
    /// Each command was carried out.
    Done,
    /// Some command was refused.
    Refused,
    /// The words of the command line aren't right.
    Usage,
    /// There is no such script.
    NoScript,
    /// The script isn't in form, or passes its limit.
    BadScript,
    /// Reading failed outside.
    SourceFault,
    /// Writing or printing failed outside.
    SinkFault,
    /// There was no memory.
    Memory,
}

impl Status {
    /// The exit status of the program.
    pub fn code(self) -> u8
        ensures { result ≡ exit_code self }
    {
        match self {
            Status::Done => 0,
            Status::Refused => 1,
            Status::Usage => 2,
            Status::NoScript => 3,
            Status::BadScript => 4,
            Status::SourceFault => 5,
            Status::SinkFault => 6,
            Status::Memory => 7,
        }
    }
}
