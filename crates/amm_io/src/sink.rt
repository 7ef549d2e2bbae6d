// A sink of bytes.
ghost use Rattle.std.specs.Prelude.{◌≡◌, ◌≤◌, ◌<◌, List, ℕ, Option, length, IfOk, IsErrOf, OnOk, OnErr};
ghost use Rattle.std.specs.Io.{WritesAtMost};
ghost use Rattle.std.specs.Io.KnownBytes.{WriteAppends, Appends};
ghost use Rattle.amm_io.specs.Causes.{HasCause};
ghost use Rattle.amm_io.specs.Traffic.{AppendsPart};

use amm_model::Memory;
use thiserror::Error;

/// Why a sink took nothing.
#[derive(Clone, Copy, PartialEq, Eq, Debug, Drop, Error)]
pub enum IoFail {
    #[error("the sink failed")]
    Failed,
    #[error("out of memory")]
    Memory,
}

/// What bytes are written to. A sink may tell the bytes that it took, and it counts its faults.
pub trait Sink {
    /// The bytes that were taken so far, where the sink tells them.
    ghost written: { Self → Option (List ℕ) };

    /// How often the sink has failed.
    ghost faults: { Self → ℕ };

    /// Takes bytes from the front, and says how many: at least one of a piece that is not empty.
    /// `Failed` comes only where the count of faults rose.
    fn write(&mut self, bytes: &[u8]) -> Result<usize, IoFail>
        ensures bound { WritesAtMost result bytes.now }
        ensures some { IfOk result (λ count. 0 < length bytes.now → 0 < count) }
        ensures bytes { WriteAppends (written self.old) (written self.new) result bytes.now }
        ensures cause { HasCause (faults self.old) (faults self.new) (IsErrOf result IoFail.Failed) };
}

/// Why not all bytes were written.
#[derive(Clone, Copy, PartialEq, Eq, Debug, Drop, Error)]
pub enum WriteEnd {
    #[error("the sink failed")]
    WriteFault,
    #[error("out of memory")]
    Memory,
}

impl From<Memory> for WriteEnd {
    ghost use Rattle.amm_io.specs.declared.sink.WriteEnd.TheVariants.{Memory as NoMemory};

    ghost from_gives = { λ _ end. end ≡ NoMemory };

    fn from(_: Memory) -> WriteEnd {
        WriteEnd::Memory
    }
}

/// Writes all the bytes. On an end the sink has taken a front of them, and not all; WriteFault
/// comes only where its count of faults rose.
pub fn write_all<K: Sink>(sink: &mut K, bytes: &[u8]) -> Result<(), WriteEnd>
    ensures ok { OnOk result (Appends (K.written sink.old) (K.written sink.new) bytes.now) }
    ensures err { OnErr result (AppendsPart (K.written sink.old) (K.written sink.new) bytes.now) }
    ensures cause { HasCause (K.faults sink.old) (K.faults sink.new) (IsErrOf result WriteEnd.WriteFault) }
{
    let mut done = 0;
    while done < bytes.len() {
        match sink.write(&bytes[done..]) {
            Ok(count) => done += count,
            Err(IoFail::Failed) => return Err(WriteEnd::WriteFault),
            Err(IoFail::Memory) => return Err(WriteEnd::Memory),
        }
    }
    Ok(())
}
