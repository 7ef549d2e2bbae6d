// The word `work`: how many lines of a seed a new engine accepts, as a line on a sink.
ghost use Rattle.std.specs.Prelude.{◌≡◌, ◌⊎◌, [], Some, List, ℕ, Option, IfOk};
ghost use Rattle.amm_io.specs.Causes.{HasCause};
ghost use Rattle.amm_work.specs.Commands.{work_bytes};
ghost use Rattle.exchange.specs.Headline.{RepliesToAll};
ghost use Rattle.exchange.specs.Work.{CountsRun, CutsCounts, TellsCounts, work_line};

use crate::runner::run;
use crate::summary::Summary;
use crate::verdicts::Verdicts;
use amm_engine::{Seed, Status};
use amm_io::{Sink, SureSink, SureSource, WriteEnd, write_all};
use amm_model::Memory;
use amm_work::make;
use std::alloc::Global;

/// Answers so many lines of a seed in memory, and writes the line of how many replies accept and
/// how many refuse. The statuses are Done, WriteFault and Memory.
pub fn work<K: Sink>(alloc: Global, tables: Seed, seed: u64, count: u32, sink: &mut K) -> Status
    ensures tells { result ≡ Status.Done → TellsCounts seed count (K.written sink.old) (K.written sink.new) }
    ensures cut { result ≡ Status.WriteFault → CutsCounts seed count (K.written sink.old) (K.written sink.new) }
    ensures memory { result ≡ Status.Memory → (sink.new ≡ sink.old) ⊎ CutsCounts seed count (K.written sink.old) (K.written sink.new) }
    ensures answers { (result ≡ Status.Done) ⊎ (result ≡ Status.WriteFault) ⊎ (result ≡ Status.Memory) }
    ensures write_fault { HasCause (K.faults sink.old) (K.faults sink.new) (result ≡ Status.WriteFault) }
{
    let Ok(line) = counts_line(alloc, tables, seed, count) else {
        return Status::Memory;
    };
    match write_all(sink, line.as_slice()) {
        Ok(()) => Status::Done,
        Err(WriteEnd::WriteFault) => Status::WriteFault,
        Err(WriteEnd::Memory) => Status::Memory,
    }
}

/// The line of the counts, which are taken from the bytes of the replies.
fn counts_line(alloc: Global, tables: Seed, seed: u64, count: u32) -> Result<Vec<u8>, Memory>
    ensures { IfOk result (λ line. (accepted : ℕ) × (refused : ℕ) × CountsRun seed count accepted refused × (line.items ≡ work_line seed count accepted refused)) }
{
    let replies = replies(alloc, tables, seed, count)?;
    let verdicts = Verdicts::of(replies.bytes());
    let summary = Summary {
        seed,
        count,
        verdicts,
    };
    summary.line(alloc)
}

/// The replies to the lines of a seed, from the opening ledger on.
fn replies(alloc: Global, tables: Seed, seed: u64, count: u32) -> Result<SureSink, Memory>
    ensures { IfOk result (λ replies. (left : Option (List ℕ)) × RepliesToAll (work_bytes seed count) [] left (Some replies)) }
{
    let mut source = SureSource::new(make(alloc, seed, count)?);
    let mut replies = SureSink::new(alloc);
    match run(alloc, tables, &mut source, &mut replies) {
        Status::Done => Ok(replies),
        // Neither of the two fails, and the lines are far within the limit of an input, so that
        // only want of memory is left.
        _ => Err(Memory),
    }
}
