// How a command ended.
ghost use Rattle.std.specs.Prelude.{◌≡◌};

/// How a command ended. Its number is the program's exit status.
#[derive(Clone, Copy, Debug, PartialEq, Eq)]
pub enum Status {
    /// All was read to its end and all was written.
    Done,
    /// Want of memory.
    Memory,
    /// The words are of no stated form.
    Usage,
    /// The plan breaks a rule of its format.
    PlanFault,
    /// A file couldn't be opened or created.
    OpenFault,
    /// A read failed.
    ReadFault,
    /// A write failed.
    WriteFault,
    /// The certificate's verdict isn't yes.
    CheckNo,
    /// A source gave more bytes than its limit.
    TooMuch,
}

impl Status {
    ghost use Rattle.qna_edges.specs.Status.{number_of};

    /// The exit status, from 0 to 8.
    pub fn number(self) -> u8
        ensures { result ≡ number_of self }
    {
        match self {
            Status::Done => 0,
            Status::Memory => 1,
            Status::Usage => 2,
            Status::PlanFault => 3,
            Status::OpenFault => 4,
            Status::ReadFault => 5,
            Status::WriteFault => 6,
            Status::CheckNo => 7,
            Status::TooMuch => 8,
        }
    }
}
