// How a call of the program ends.
ghost use Rattle.std.specs.Prelude.{◌≡◌};
ghost use Rattle.amm_engine.specs.Codes.{code_of};

/// How a call of the program ended.
#[derive(Clone, Copy, Debug, PartialEq, Eq)]
pub enum Status {
    /// All was read and answered.
    Done,
    /// What was to be checked is not so.
    No,
    /// The words ask for nothing that the program does.
    Usage,
    /// A read failed.
    ReadFault,
    /// A write failed.
    WriteFault,
    /// There was no memory.
    Memory,
    /// The input has more than 2^30 bytes.
    InputLimit,
}

impl Status {
    /// The number with which the process ends, 0 to 6.
    pub fn code(&self) -> u8
        ensures { result ≡ code_of self.now }
    {
        match self {
            Status::Done => 0,
            Status::No => 1,
            Status::Usage => 2,
            Status::ReadFault => 3,
            Status::WriteFault => 4,
            Status::Memory => 5,
            Status::InputLimit => 6,
        }
    }
}
