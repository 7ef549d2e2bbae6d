// The top call.
ghost use Rattle.std.specs.Prelude.{◌≡◌, ◌≢◌, ◌≤◌, ◌⊎◌, ◌↔◌, ℕ, List, Some, length};
ghost use Rattle.amm_io.specs.Causes.{HasCause, Rose};
ghost use Rattle.amm_io.specs.Traffic.{TakesWithin};
ghost use Rattle.amm_model.specs.declared.limits.TheConstants.{CHECK_LIMIT, INPUT_LIMIT};
ghost use Rattle.amm_model.specs.Ledger.{Ledger, opening_ledger};
ghost use Rattle.amm_engine.specs.Service.{ServesAll, ServesEnded, ServesToLimit, BreaksOff, LacksMemory};
ghost use Rattle.exchange.specs.declared.words.Request.{Request as Asked};
ghost use Rattle.exchange.specs.declared.words.Request.TheVariants.{Check, Run, Work};
ghost use Rattle.exchange.specs.Words.{Asks};
ghost use Rattle.exchange.specs.Findings.{Assures, CutsFinding, TellsFinding};
ghost use Rattle.exchange.specs.Headline.{RepliesToAll};
ghost use Rattle.exchange.specs.Work.{CutsCounts, TellsCounts};

use crate::checker::check;
use crate::runner::run;
use crate::words::{Request, request_of};
use crate::worker::work;
use amm_engine::{Seed, Status};
use amm_io::{Sink, Source};
use std::alloc::Global;

/// Does all that the program does: with the one word `run` it answers the lines of the source on
/// the sink, with the one word `check` it tells on the sink what is found of a certificate, and
/// with the words `work`, SEED and COUNT it tells how many of so many lines it accepts. No clause
/// speaks of the seed of the tables: it decides only where names lie in them.
pub fn exchange<S: Source, K: Sink>(
    alloc: Global,
    seed: Seed,
    words: &[String],
    source: &mut S,
    sink: &mut K,
) -> Status
    ensures usage { (result ≡ Status.Usage) ↔ ((request : Asked) → Asks words.now request → ⊥) }
    ensures untouched { result ≡ Status.Usage → (source.new ≡ source.old) × (sink.new ≡ sink.old) }
    ensures read_fault { HasCause (S.faults source.old) (S.faults source.new) (result ≡ Status.ReadFault) }
    ensures write_fault { HasCause (K.faults sink.old) (K.faults sink.new) (result ≡ Status.WriteFault) }

    // With the word `run`.
    ensures replies { Asks words.now Run → (input before : List ℕ) → S.left source.old ≡ Some input → K.written sink.old ≡ Some before →
        result ≡ Status.Done → RepliesToAll input before (S.left source.new) (K.written sink.new) }
    ensures limit { Asks words.now Run → TakesWithin INPUT_LIMIT (S.left source.old) (S.left source.new)
        (result ≡ Status.InputLimit) ((result ≡ Status.WriteFault) ⊎ (result ≡ Status.Memory)) }
    ensures ended { Asks words.now Run → result ≡ Status.ReadFault → (final : Ledger) ×
        ServesEnded INPUT_LIMIT (S.left source.old) (S.left source.new) (K.written sink.old) (K.written sink.new) opening_ledger final }
    ensures passed { Asks words.now Run → result ≡ Status.InputLimit → (final : Ledger) ×
        ServesToLimit INPUT_LIMIT (S.left source.old) (S.left source.new) (K.written sink.old) (K.written sink.new) opening_ledger final }
    ensures broken { Asks words.now Run → result ≡ Status.WriteFault → (final : Ledger) ×
        BreaksOff INPUT_LIMIT (S.left source.old) (S.left source.new) (K.written sink.old) (K.written sink.new) opening_ledger final }
    ensures memory { Asks words.now Run → result ≡ Status.Memory → (final : Ledger) ×
        LacksMemory INPUT_LIMIT (S.left source.old) (S.left source.new) (K.written sink.old) (K.written sink.new) opening_ledger final }

    // With no fault, an input within its limit is answered to its end, unless memory runs out.
    ensures complete { Asks words.now Run → (Rose (S.faults source.old) (S.faults source.new) → ⊥) → (Rose (K.faults sink.old) (K.faults sink.new) → ⊥) →
        ((input : List ℕ) × (S.left source.old ≡ Some input) × (length input ≤ INPUT_LIMIT)) → (result ≡ Status.Done) ⊎ (result ≡ Status.Memory) }

    // With the word `check`. No comes with it alone.
    ensures checks { result ≡ Status.No → Asks words.now Check }
    ensures tells { Asks words.now Check → (result ≡ Status.Done) ⊎ (result ≡ Status.No) →
        TellsFinding CHECK_LIMIT (S.left source.old) (S.left source.new) (K.written sink.old) (K.written sink.new) result }
    ensures assures { Asks words.now Check → result ≡ Status.Done →
        Assures CHECK_LIMIT (S.left source.old) (S.left source.new) (K.written sink.old) (K.written sink.new) }
    ensures check_limit { Asks words.now Check → TakesWithin CHECK_LIMIT (S.left source.old) (S.left source.new) (result ≡ Status.InputLimit) ⊥ }
    ensures unwritten { Asks words.now Check → (result ≡ Status.ReadFault) ⊎ (result ≡ Status.InputLimit) → sink.new ≡ sink.old }
    ensures cut { Asks words.now Check → result ≡ Status.WriteFault →
        CutsFinding CHECK_LIMIT (S.left source.old) (S.left source.new) (K.written sink.old) (K.written sink.new) }
    ensures check_memory { Asks words.now Check → result ≡ Status.Memory → (sink.new ≡ sink.old)
        ⊎ CutsFinding CHECK_LIMIT (S.left source.old) (S.left source.new) (K.written sink.old) (K.written sink.new) }
    ensures check_complete { Asks words.now Check → (Rose (S.faults source.old) (S.faults source.new) → ⊥) → (Rose (K.faults sink.old) (K.faults sink.new) → ⊥) →
        ((input : List ℕ) × (S.left source.old ≡ Some input) × (length input ≤ CHECK_LIMIT)) → (result ≡ Status.Done) ⊎ (result ≡ Status.No) ⊎ (result ≡ Status.Memory) }

    // With the words `work`, SEED and COUNT. Nothing is read, and neither No, ReadFault nor
    // InputLimit comes.
    ensures unread { (number count : ℕ) → Asks words.now (Work number count) → source.new ≡ source.old }
    ensures work_answers { (number count : ℕ) → Asks words.now (Work number count) →
        (result ≡ Status.Done) ⊎ (result ≡ Status.WriteFault) ⊎ (result ≡ Status.Memory) }
    ensures counts { (number count : ℕ) → Asks words.now (Work number count) → result ≡ Status.Done →
        TellsCounts number count (K.written sink.old) (K.written sink.new) }
    ensures counts_cut { (number count : ℕ) → Asks words.now (Work number count) → result ≡ Status.WriteFault →
        CutsCounts number count (K.written sink.old) (K.written sink.new) }
    ensures work_memory { (number count : ℕ) → Asks words.now (Work number count) → result ≡ Status.Memory → (sink.new ≡ sink.old)
        ⊎ CutsCounts number count (K.written sink.old) (K.written sink.new) }
    ensures work_complete { (number count : ℕ) → Asks words.now (Work number count) → (Rose (K.faults sink.old) (K.faults sink.new) → ⊥) →
        (result ≡ Status.Done) ⊎ (result ≡ Status.Memory) }
{
    match request_of(words) {
        Some(Request::Run) => run(alloc, seed, source, sink),
        Some(Request::Check) => check(alloc, source, sink),
        Some(
            Request::Work {
                seed: number,
                count,
            },
        ) => work(alloc, seed, number, count, sink),
        None => Status::Usage,
    }
}
