// The engine: one line, and all the lines of a source.
ghost use Rattle.std.specs.Prelude.{◌≡◌, ◌≤◌, ◌⊎◌, ◌≢◌, List, ℕ, IfOk, OnErr, OnOk, IsErrOf};
ghost use Rattle.std.specs.Io.KnownBytes.{Appends};
ghost use Rattle.amm_io.specs.Causes.{HasCause};
ghost use Rattle.amm_io.specs.Traffic.{AppendsPart};
ghost use Rattle.amm_model.specs.declared.line.Line.TheVariants.{Whole};
ghost use Rattle.amm_model.specs.declared.limits.TheConstants.{INPUT_LIMIT};
ghost use Rattle.amm_model.specs.Ledger.{opening_ledger};
ghost use Rattle.amm_model.specs.CommandView.{view_of};
ghost use Rattle.amm_model.specs.Fits.{Fits};
ghost use Rattle.amm_model.specs.Sound.{IsAtRest};
ghost use Rattle.amm_engine.specs.Commands.{AnswersCommand};
ghost use Rattle.amm_engine.specs.Service.{AnswersLine, ServesAll, ServesEnded, ServesToLimit, BreaksOff, LacksMemory};

use crate::Status;
use crate::transaction::{run, write_reply};
use amm_command::read_line;
use amm_io::{IoEnd, Lines, Sink, Source, WriteEnd, write_all};
use amm_model::limits::INPUT_LIMIT;
use amm_model::{Answer, Command, Fault, Line, Memory, Refusal};
use amm_state::{Book, Seed, State};
use std::alloc::Global;
use std::marker::Model;

/// A ledger that answers lines. It is at rest between them.
#[derive(Drop)]
pub struct Engine {
    // It is away only while a line is answered.
    state: Option<State>,
}

impl Model for Engine {
    ghost use Rattle.std.specs.Prelude.{IsSome};
    ghost use Rattle.std.specs.Option.{unwrap_or};
    ghost use Rattle.amm_model.specs.Ledger.{Ledger, opening_ledger};
    ghost use Rattle.amm_model.specs.Codes.{ledger_code};
    ghost use Rattle.amm_model.specs.Sound.{IsAtRest};

    ghost Value = { Ledger };

    ghost coded = { ledger_code };

    ghost view = { λ engine. unwrap_or engine.state opening_ledger };

    ghost invariant = { λ engine. IsSome engine.state × IsAtRest (unwrap_or engine.state opening_ledger) };
}

impl Engine {
    /// An engine on the opening ledger, whose tables hash from a seed that everybody knows.
    pub fn new(alloc: Global) -> Result<Engine, Memory>
        ensures { IfOk result (λ engine. engine ≡ opening_ledger) }
    {
        Engine::with_seed(alloc, Seed::new(0))
    }

    /// The same, whose tables hash from this seed. No clause speaks of it.
    pub fn with_seed(alloc: Global, seed: Seed) -> Result<Engine, Memory>
        ensures { IfOk result (λ engine. engine ≡ opening_ledger) }
    {
        Ok(Engine {
            state: Some(State::with_seed(alloc, seed)?),
        })
    }

    /// The ledger, which is at rest.
    pub fn book(&self) -> &Book
        ensures ledger { result.now.ledger ≡ self.now }
        ensures rest { IsAtRest self.now }
    {
        self.state.as_ref().unwrap().book()
    }

    /// Answers one line: the text of its reply with its newline, nothing for a blank line. The
    /// number is the one that the reply bears. A line that is refused changes nothing, and neither
    /// does one whose reply finds no memory.
    pub fn step(&mut self, alloc: Global, number: u64, line: &Line) -> Result<Vec<u8>, Memory>
        ensures ok { IfOk result (λ text. AnswersLine self.old number line.now text.items self.new) }
        ensures err { OnErr result (self.new ≡ self.old) }
    {
        let mut text = Vec::new(alloc);
        self.answer(alloc, number, line, &mut text)?;
        Ok(text)
    }

    /// Answers one line, and makes the text that of its reply.
    fn answer(
        &mut self,
        alloc: Global,
        number: u64,
        line: &Line,
        text: &mut Vec<u8>,
    ) -> Result<(), Memory>
        ensures ok { OnOk result (AnswersLine self.old number line.now text.new.items self.new) }
        ensures err { OnErr result (self.new ≡ self.old) }
    {
        let _rest = self.book();
        match line {
            Line::Blank => {
                text.clear();
                Ok(())
            }
            Line::Long => write_reply(text, number, &Answer::Refused(Refusal::LongLine)),
            Line::Whole(bytes) => self.answer_whole(alloc, number, bytes.as_slice(), text),
        }
    }

    /// Answers the bytes of a line.
    fn answer_whole(
        &mut self,
        alloc: Global,
        number: u64,
        bytes: &[u8],
        text: &mut Vec<u8>,
    ) -> Result<(), Memory>
        requires rest { IsAtRest self.old }
        ensures ok { OnOk result (AnswersLine self.old number (Whole bytes.now) text.new.items self.new) }
        ensures err { OnErr result (self.new ≡ self.old) }
    {
        match read_line(alloc, bytes) {
            Ok(command) => self.answer_command(alloc, number, &command, text),
            Err(Fault::Refused(why)) => write_reply(text, number, &Answer::Refused(why)),
            Err(Fault::Memory) => Err(Memory),
        }
    }

    /// Answers a command.
    fn answer_command(
        &mut self,
        alloc: Global,
        number: u64,
        command: &Command,
        text: &mut Vec<u8>,
    ) -> Result<(), Memory>
        requires fits { Fits (view_of command.now) }
        ensures ok { OnOk result (AnswersCommand self.old number (view_of command.now) text.new.items self.new) }
        ensures err { OnErr result (self.new ≡ self.old) }
    {
        let state = self.state.take().unwrap();
        let (state, result) = run(alloc, state, number, command, text);
        self.state = Some(state);
        result
    }

    /// Answers each line of a source as it ends, up to 2^30 bytes of them. Whatever ends it, the
    /// ledger is then the one after the lines whose replies are wholly written; only a failed write
    /// or want of memory may leave it one line further. The statuses are Done, ReadFault,
    /// WriteFault, Memory and InputLimit.
    pub fn serve<S: Source, K: Sink>(
        &mut self,
        alloc: Global,
        source: &mut S,
        sink: &mut K,
    ) -> Status
        ensures done { result ≡ Status.Done → ServesAll INPUT_LIMIT (S.left source.old) (S.left source.new) (K.written sink.old) (K.written sink.new) self.old self.new }
        ensures ended { result ≡ Status.ReadFault → ServesEnded INPUT_LIMIT (S.left source.old) (S.left source.new) (K.written sink.old) (K.written sink.new) self.old self.new }
        ensures passed { result ≡ Status.InputLimit → ServesToLimit INPUT_LIMIT (S.left source.old) (S.left source.new) (K.written sink.old) (K.written sink.new) self.old self.new }
        ensures broken { result ≡ Status.WriteFault → BreaksOff INPUT_LIMIT (S.left source.old) (S.left source.new) (K.written sink.old) (K.written sink.new) self.old self.new }
        ensures memory { result ≡ Status.Memory → LacksMemory INPUT_LIMIT (S.left source.old) (S.left source.new) (K.written sink.old) (K.written sink.new) self.old self.new }
        ensures never { (result ≢ Status.No) × (result ≢ Status.Usage) }
        ensures read_fault { HasCause (S.faults source.old) (S.faults source.new) (result ≡ Status.ReadFault) }
        ensures write_fault { HasCause (K.faults sink.old) (K.faults sink.new) (result ≡ Status.WriteFault) }
    {
        let Ok(mut lines) = Lines::new(alloc, INPUT_LIMIT) else {
            return Status::Memory;
        };
        let mut text = Vec::new(alloc);
        let mut number = 1u64;
        'line: loop {
            let line = match lines.next(alloc, source) {
                Ok(Some(line)) => line,
                Ok(None) => return Status::Done,
                Err(IoEnd::ReadFault) => return Status::ReadFault,
                Err(IoEnd::InputLimit) => return Status::InputLimit,
                Err(IoEnd::Memory) => return Status::Memory,
            };
            match self.answer_one(alloc, number, &line, &mut text, sink) {
                Ok(()) => number += 1,
                Err(WriteEnd::WriteFault) => return Status::WriteFault,
                Err(WriteEnd::Memory) => return Status::Memory,
            }
            lines.give_back(line);
        }
    }

    /// Answers one line and writes the reply.
    fn answer_one<K: Sink>(
        &mut self,
        alloc: Global,
        number: u64,
        line: &Line,
        text: &mut Vec<u8>,
        sink: &mut K,
    ) -> Result<(), WriteEnd>
        ensures ok { OnOk result ((reply : List ℕ) × AnswersLine self.old number line.now reply self.new × Appends (K.written sink.old) (K.written sink.new) reply) }
        ensures broken { IsErrOf result WriteEnd.WriteFault →
            (reply : List ℕ) × AnswersLine self.old number line.now reply self.new × AppendsPart (K.written sink.old) (K.written sink.new) reply }
        ensures memory { IsErrOf result WriteEnd.Memory → ((self.new ≡ self.old) × (sink.new ≡ sink.old))
            ⊎ ((reply : List ℕ) × AnswersLine self.old number line.now reply self.new × AppendsPart (K.written sink.old) (K.written sink.new) reply) }
        ensures cause { HasCause (K.faults sink.old) (K.faults sink.new) (IsErrOf result WriteEnd.WriteFault) }
    {
        self.answer(alloc, number, line, text)?;
        write_all(sink, text.as_slice())
    }
}
