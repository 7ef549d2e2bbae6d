// The word `run`: a new engine over the lines of a source.
ghost use Rattle.std.specs.Prelude.{◌≡◌, ◌≢◌};
ghost use Rattle.amm_io.specs.Causes.{HasCause};
ghost use Rattle.amm_model.specs.declared.limits.TheConstants.{INPUT_LIMIT};
ghost use Rattle.amm_model.specs.Ledger.{Ledger, opening_ledger};
ghost use Rattle.amm_engine.specs.Service.{ServesAll, ServesEnded, ServesToLimit, BreaksOff, LacksMemory};

use amm_engine::{Engine, Seed, Status};
use amm_io::{Sink, Source};
use std::alloc::Global;

/// Answers the lines of the source on the sink, from the opening ledger on.
pub fn run<S: Source, K: Sink>(alloc: Global, seed: Seed, source: &mut S, sink: &mut K) -> Status
    ensures done { result ≡ Status.Done → (final : Ledger) ×
        ServesAll INPUT_LIMIT (S.left source.old) (S.left source.new) (K.written sink.old) (K.written sink.new) opening_ledger final }
    ensures ended { result ≡ Status.ReadFault → (final : Ledger) ×
        ServesEnded INPUT_LIMIT (S.left source.old) (S.left source.new) (K.written sink.old) (K.written sink.new) opening_ledger final }
    ensures passed { result ≡ Status.InputLimit → (final : Ledger) ×
        ServesToLimit INPUT_LIMIT (S.left source.old) (S.left source.new) (K.written sink.old) (K.written sink.new) opening_ledger final }
    ensures broken { result ≡ Status.WriteFault → (final : Ledger) ×
        BreaksOff INPUT_LIMIT (S.left source.old) (S.left source.new) (K.written sink.old) (K.written sink.new) opening_ledger final }
    ensures memory { result ≡ Status.Memory → (final : Ledger) ×
        LacksMemory INPUT_LIMIT (S.left source.old) (S.left source.new) (K.written sink.old) (K.written sink.new) opening_ledger final }
    ensures never { (result ≢ Status.No) × (result ≢ Status.Usage) }
    ensures read_fault { HasCause (S.faults source.old) (S.faults source.new) (result ≡ Status.ReadFault) }
    ensures write_fault { HasCause (K.faults sink.old) (K.faults sink.new) (result ≡ Status.WriteFault) }
{
    let Ok(mut engine) = Engine::with_seed(alloc, seed) else {
        return Status::Memory;
    };
    engine.serve(alloc, source, sink)
}
