// A source of bytes.
ghost use Rattle.std.specs.Prelude.{◌≡◌, ◌≤◌, ◌<◌, List, ℕ, Option, length, IfOk, IsErr, vec_len};
ghost use Rattle.std.specs.Io.{ReadsAtMost};
ghost use Rattle.std.specs.Io.KnownBytes.{ReadConsumes};
ghost use Rattle.amm_io.specs.Causes.{HasCause};

use std::alloc::{AllocError, Global};
use thiserror::Error;

/// The source failed.
#[derive(Clone, Copy, PartialEq, Eq, Debug, Drop, Error)]
#[error("the source failed")]
pub struct Failed;

/// What bytes are read from. A source may tell the bytes that are still to come, and it counts its
/// faults.
pub trait Source {
    /// The bytes that are still to come, where the source tells them.
    ghost left: { Self → Option (List ℕ) };

    /// How often the source has failed.
    ghost faults: { Self → ℕ };

    /// Gives the next bytes, and says how many: 0 for a buffer that is not empty only at the end of
    /// the input. `Err` comes only where the count of faults rose.
    fn read(&mut self, buf: &mut [u8]) -> Result<usize, Failed>
        ensures bound { ReadsAtMost result buf.new }
        ensures bytes { ReadConsumes (left self.old) (left self.new) result buf.new }
        ensures cause { HasCause (faults self.old) (faults self.new) (IsErr result) };
}

/// Why the reading of a source ended before the input did.
#[derive(Clone, Copy, PartialEq, Eq, Debug, Drop, Error)]
pub enum IoEnd {
    #[error("the source failed")]
    ReadFault,
    #[error("the input is too long")]
    InputLimit,
    #[error("out of memory")]
    Memory,
}

/// How many bytes are asked for in one read.
pub(crate) const CHUNK: usize = 65536;

/// A buffer of zeros.
pub(crate) fn zeros(alloc: Global, size: usize) -> Result<Vec<u8>, AllocError>
    ensures { IfOk result (λ buffer. vec_len buffer ≡ size) }
{
    vec![in alloc; 0u8; size]
}

/// Reads once, and takes no more than so many bytes.
pub(crate) fn read_at_most<S: Source>(
    source: &mut S,
    buf: &mut [u8],
    most: usize,
) -> Result<usize, Failed>
    requires { 0 < most }
    ensures bound { IfOk result (λ count. (count ≤ length buf.new) × (count ≤ most)) }
    ensures bytes { ReadConsumes (S.left source.old) (S.left source.new) result buf.new }
    ensures cause { HasCause (S.faults source.old) (S.faults source.new) (IsErr result) }
{
    let size = most.min(buf.len());
    source.read(&mut buf[..size])
}
