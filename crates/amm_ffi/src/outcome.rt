// How a call has ended, as C is told.
ghost use Rattle.std.specs.Prelude.{◌≡◌};
ghost use Rattle.amm_ffi.specs.Statuses.{status_of};

/// The statuses, each once: `enum exchange_status` of the header.
pub const DONE: u8 = 0;
/// Memory was wanted, and nothing has changed.
pub const MEMORY: u8 = 1;
/// The handle has no session.
pub const SHUT: u8 = 2;
/// The handle has a session already.
pub const OPEN: u8 = 3;
/// The bytes are more than one line: a newline stands among them.
pub const BROKEN: u8 = 4;
/// The session has no number left for another line.
pub const FULL: u8 = 5;

/// Why a line is not answered.
#[derive(Clone, Copy, Debug, PartialEq, Eq)]
pub enum Unanswered {
    Memory,
    Broken,
    Full,
}

impl Unanswered {
    /// The status that tells it.
    pub(crate) fn status(self) -> u8
        ensures { result ≡ status_of self }
    {
        match self {
            Unanswered::Memory => MEMORY,
            Unanswered::Broken => BROKEN,
            Unanswered::Full => FULL,
        }
    }
}

/// How a call has ended, and how long the text is that it gives: `struct exchange_answered`.
#[repr(C)]
#[derive(Clone, Copy)]
pub struct Answered {
    pub status: u8,
    pub length: usize,
}
