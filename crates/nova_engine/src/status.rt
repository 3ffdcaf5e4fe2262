//! How a call of the program ends.
ghost use Rattle.std.specs.Prelude.{◌≡◌};
ghost use Rattle.nova_engine.specs.Status.{code_of};

/// How a call of the program ends.
#[derive(Clone, Copy, Debug, PartialEq, Eq)]
pub enum Status {
    /// The input was read to its end, and everything was replied.
    Done,
    /// The words are none of the program's forms.
    Usage,
    ReadFault,
    DiskFault,
    ReplyFault,
    NoMemory,
    /// No store is there.
    NoStore,
    /// A store is there already.
    StoreThere,
    /// The workflow's text is refused; the line that says why was replied.
    FlowRefused,
    /// A file of the store is damaged; the line that names it and the place was replied.
    Damaged,
    /// The journal or a counter has no room for a command.
    Full,
    InputTooLong,
}

impl Status {
    /// The number that the process ends with.
    pub fn code(self) -> u8
        ensures { result ≡ code_of self }
    {
        match self {
            Status::Done => 0,
            Status::Usage => 1,
            Status::ReadFault => 2,
            Status::DiskFault => 3,
            Status::ReplyFault => 4,
            Status::NoMemory => 5,
            Status::NoStore => 6,
            Status::StoreThere => 7,
            Status::FlowRefused => 8,
            Status::Damaged => 9,
            Status::Full => 10,
            Status::InputTooLong => 11,
        }
    }
}
