// All the bytes of a source at once.
ghost use Rattle.std.specs.Prelude.{IfOk, IsErrOf};
ghost use Rattle.amm_io.specs.Causes.{HasCause};
ghost use Rattle.amm_io.specs.Traffic.{TakesAll, TakesWithin};

use crate::source::{CHUNK, read_at_most, zeros};
use crate::{Failed, IoEnd, Source};
use std::alloc::Global;

/// All the bytes of a source, of which there may be `limit`. InputLimit comes exactly where the
/// byte after the limit was taken, and no byte behind that one is; ReadFault only where the count
/// of faults rose.
pub fn read_within<S: Source>(alloc: Global, source: &mut S, limit: u64) -> Result<Vec<u8>, IoEnd>
    ensures all { IfOk result (λ bytes. TakesAll limit (S.left source.old) (S.left source.new) bytes.items) }
    ensures passed { TakesWithin limit (S.left source.old) (S.left source.new) (IsErrOf result IoEnd.InputLimit) ⊥ }
    ensures cause { HasCause (S.faults source.old) (S.faults source.new) (IsErrOf result IoEnd.ReadFault) }
{
    let Ok(mut chunk) = zeros(alloc, CHUNK) else {
        return Err(IoEnd::Memory);
    };
    let mut bytes = Vec::new(alloc);
    'chunk: loop {
        let room = limit - bytes.len() as u64;
        let most = room.min(CHUNK as u64 - 1) as usize + 1;
        let count = match read_at_most(source, chunk.as_mut_slice(), most) {
            Ok(count) => count,
            Err(Failed) => return Err(IoEnd::ReadFault),
        };
        if count == 0 {
            return Ok(bytes);
        }
        if count as u64 > room {
            return Err(IoEnd::InputLimit);
        }
        let Ok(()) = bytes.extend_from_slice(&chunk[..count]) else {
            return Err(IoEnd::Memory);
        };
    }
}
