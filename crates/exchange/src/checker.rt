// The word `check`: the finding of all that a source gives, as a line on a sink.
ghost use Rattle.std.specs.Prelude.{◌≡◌, ◌≢◌, ◌⊎◌, IsErrOf, OnErr, OnOk};
ghost use Rattle.std.specs.Io.KnownBytes.{Appends};
ghost use Rattle.amm_io.specs.Causes.{HasCause};
ghost use Rattle.amm_io.specs.Traffic.{AppendsPart, TakesWithin};
ghost use Rattle.amm_model.specs.declared.limits.TheConstants.{CHECK_LIMIT};
ghost use Rattle.exchange.specs.Findings.{Assures, CutsFinding, TellsFinding, finding_line};

use crate::finding::Finding;
use amm_engine::Status;
use amm_io::{IoEnd, Sink, Source, WriteEnd, read_within, write_all};
use amm_model::limits::CHECK_LIMIT;
use std::alloc::Global;

/// Reads a certificate of at most 2^20 bytes, and writes the line of what is found of it.
pub fn check<S: Source, K: Sink>(alloc: Global, source: &mut S, sink: &mut K) -> Status
    ensures tells { (result ≡ Status.Done) ⊎ (result ≡ Status.No) →
        TellsFinding CHECK_LIMIT (S.left source.old) (S.left source.new) (K.written sink.old) (K.written sink.new) result }
    ensures assures { result ≡ Status.Done →
        Assures CHECK_LIMIT (S.left source.old) (S.left source.new) (K.written sink.old) (K.written sink.new) }
    ensures never { result ≢ Status.Usage }
    ensures passed { TakesWithin CHECK_LIMIT (S.left source.old) (S.left source.new) (result ≡ Status.InputLimit) ⊥ }
    ensures unwritten { (result ≡ Status.ReadFault) ⊎ (result ≡ Status.InputLimit) → sink.new ≡ sink.old }
    ensures cut { result ≡ Status.WriteFault →
        CutsFinding CHECK_LIMIT (S.left source.old) (S.left source.new) (K.written sink.old) (K.written sink.new) }
    ensures memory { result ≡ Status.Memory → (sink.new ≡ sink.old)
        ⊎ CutsFinding CHECK_LIMIT (S.left source.old) (S.left source.new) (K.written sink.old) (K.written sink.new) }
    ensures read_fault { HasCause (S.faults source.old) (S.faults source.new) (result ≡ Status.ReadFault) }
    ensures write_fault { HasCause (K.faults sink.old) (K.faults sink.new) (result ≡ Status.WriteFault) }
{
    let bytes = match read_within(alloc, source, CHECK_LIMIT) {
        Ok(bytes) => bytes,
        Err(IoEnd::ReadFault) => return Status::ReadFault,
        Err(IoEnd::InputLimit) => return Status::InputLimit,
        Err(IoEnd::Memory) => return Status::Memory,
    };
    let Ok(finding) = Finding::of(alloc, bytes.as_slice()) else {
        return Status::Memory;
    };
    match write_finding(alloc, finding, sink) {
        Ok(()) => finding.status(),
        Err(WriteEnd::WriteFault) => Status::WriteFault,
        Err(WriteEnd::Memory) => Status::Memory,
    }
}

/// Writes the line of a finding.
fn write_finding<K: Sink>(alloc: Global, finding: Finding, sink: &mut K) -> Result<(), WriteEnd>
    ensures ok { OnOk result (Appends (K.written sink.old) (K.written sink.new) (finding_line finding)) }
    ensures err { OnErr result (AppendsPart (K.written sink.old) (K.written sink.new) (finding_line finding)) }
    ensures cause { HasCause (K.faults sink.old) (K.faults sink.new) (IsErrOf result WriteEnd.WriteFault) }
{
    let Ok(line) = finding.line(alloc) else {
        return Err(WriteEnd::Memory);
    };
    write_all(sink, line.as_slice())
}
