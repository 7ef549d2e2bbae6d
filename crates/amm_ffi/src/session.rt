// What lies behind a handle: an engine that knows the number of its next line.
ghost use Rattle.std.specs.Prelude.{◌≡◌, ◌-◌, ◌^◌, ◌<◌, IfErr, IfOk, OnErr, OnOk};
ghost use Rattle.amm_model.specs.Lines.{IsUnbroken};
ghost use Rattle.amm_ffi.specs.Progress.{AnswersBytes, IsWhy, opening};

use crate::line::{is_unbroken, to_line};
use crate::outcome::Unanswered;
use amm_engine::Engine;
use amm_model::Memory;
use std::alloc::Global;
use std::marker::Model;

/// An engine, the number of its next line, and its last reply.
#[derive(Drop)]
pub struct Session {
    engine: Engine,
    number: u64,
    reply: Vec<u8>,
}

impl Model for Session {
    ghost use Rattle.amm_ffi.specs.Progress.{Progress, progress_code};

    ghost Value = { Progress };

    ghost coded = { progress_code };

    ghost view = { λ s. record { ledger = s.engine; number = s.number; reply = s.reply.items } };
}

impl Session {
    /// A session on the opening ledger, which has answered nothing.
    pub(crate) fn new(alloc: Global) -> Result<Session, Memory>
        ensures { IfOk result (λ session. session ≡ opening) }
    {
        Ok(Session {
            engine: Engine::new(alloc)?,
            number: 1,
            reply: Vec::new(alloc),
        })
    }

    /// Answers a line, and keeps the reply. A line that is not answered changes nothing.
    pub(crate) fn answer(&mut self, alloc: Global, bytes: &[u8]) -> Result<(), Unanswered>
        ensures ok { OnOk result (AnswersBytes self.old bytes.now self.new) }
        ensures err { OnErr result (self.new ≡ self.old) }
        ensures why { IfErr result (λ why. IsWhy self.old bytes.now why) }
    {
        if !is_unbroken(bytes) {
            return Err(Unanswered::Broken);
        }
        if self.number == u64::MAX {
            return Err(Unanswered::Full);
        }
        match self.answer_line(alloc, bytes) {
            Ok(()) => Ok(()),
            Err(_) => Err(Unanswered::Memory),
        }
    }

    /// Answers a line that has a number.
    fn answer_line(&mut self, alloc: Global, bytes: &[u8]) -> Result<(), Memory>
        requires unbroken { IsUnbroken bytes.now }
        requires room { self.old.number < 2 ^ 64 - 1 }
        ensures ok { OnOk result (AnswersBytes self.old bytes.now self.new) }
        ensures err { OnErr result (self.new ≡ self.old) }
    {
        let line = to_line(alloc, bytes)?;
        let reply = self.engine.step(alloc, self.number, &line)?;
        self.reply = reply;
        self.number += 1;
        Ok(())
    }

    /// The last reply, with its newline.
    pub(crate) fn reply(&self) -> &[u8]
        ensures { result.now ≡ self.now.reply }
    {
        self.reply.as_slice()
    }
}
