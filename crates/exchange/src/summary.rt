// The line that tells how many lines of a seed were accepted.
ghost use Rattle.std.specs.Prelude.{◌≡◌, IfOk, OnOk};
ghost use Rattle.serde_json.specs.Events.{SendsValue};
ghost use Rattle.serde_json.specs.Written.{compact_text};
ghost use Rattle.exchange.specs.Work.{work_line, work_value};

use crate::verdicts::Verdicts;
use amm_model::Memory;
use serde::{Described, Serialize, Serializer};
use std::alloc::Global;

/// What was asked for, and the verdicts of the replies.
#[derive(Clone, Copy, Debug, PartialEq, Eq)]
pub struct Summary {
    pub seed: u64,
    pub count: u32,
    pub verdicts: Verdicts,
}

impl Summary {
    /// Its line. Memory is the only error.
    #[tactic(auto, unfolding(crate::specs::Work::work_line))]
    pub fn line(self, alloc: Global) -> Result<Vec<u8>, Memory>
        ensures { IfOk result (λ line. line.items ≡ work_line self.seed self.count self.verdicts.accepted self.verdicts.refused) }
    {
        let mut line = self.text(alloc)?;
        line.push(b'\n')?;
        Ok(line)
    }

    /// Its row, as `serde_json` writes it.
    fn text(self, alloc: Global) -> Result<Vec<u8>, Memory>
        ensures { IfOk result (λ text. text.items ≡ compact_text (work_value self.seed self.count self.verdicts.accepted self.verdicts.refused)) }
    {
        match serde_json::to_vec(alloc, &self) {
            Ok(text) => Ok(text),
            // A row sends no keys and flattens nothing, so nothing else fails.
            Err(_) => Err(Memory),
        }
    }
}

/// What is written of it.
impl Described for Summary {
    ghost writes = { λ summary. SendsValue (work_value summary.seed summary.count summary.verdicts.accepted summary.verdicts.refused) };
}

impl Serialize for Summary {
    fn serialize<S: Serializer>(&self, out: &mut S) -> Result<(), S::Error> {
        out.begin_seq(Some(5))?;
        out.str("work")?;
        out.u64(self.seed)?;
        out.u64(self.count as u64)?;
        out.u64(self.verdicts.accepted)?;
        out.u64(self.verdicts.refused)?;
        out.end_seq()
    }
}
