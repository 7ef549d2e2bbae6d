// A part of the input that is being read.
ghost use Rattle.std.specs.Prelude.{◌≡◌, ◌++◌, ℕ, List, [], OnOk, IsTrue, ◌↔◌};
ghost use Rattle.amm_model.specs.Lines.{line_of};
ghost use Rattle.amm_io.specs.Parts.{Holds};

use crate::bytes::all_blank;
use amm_model::limits::LINE_LIMIT;
use amm_model::{ByteLine, Line, Memory};
use std::marker::Model;

#[derive(Drop)]
pub(crate) struct Part {
    bytes: Vec<u8>,
    long: bool,
}

impl Model for Part {
    ghost use Rattle.amm_io.specs.Parts.{Beginning};

    ghost Value = { Beginning };

    ghost view = { λ part. record { bytes = part.bytes.items; long = part.long } };
}

impl Part {
    /// A part with nothing in it yet, which takes over the room of this buffer.
    pub(crate) fn over(mut buffer: Vec<u8>) -> Part
        ensures { Holds result [] }
    {
        buffer.clear();
        Part {
            bytes: buffer,
            long: false,
        }
    }

    /// Adds what comes next. The bytes of a part that is too long are let go.
    pub(crate) fn push(&mut self, more: &[u8]) -> Result<(), Memory>
        ensures { OnOk result ((seen : List ℕ) → Holds self.old seen → Holds self.new (seen ++ more.now)) }
    {
        if self.long {
            return Ok(());
        }
        if more.len() > LINE_LIMIT || self.bytes.len() + more.len() > LINE_LIMIT {
            self.long = true;
            self.bytes.clear();
            return Ok(());
        }
        self.bytes.extend_from_slice(more)?;
        Ok(())
    }

    pub(crate) fn is_empty(&self) -> bool
        ensures { (seen : List ℕ) → Holds self.now seen → (IsTrue result ↔ (seen ≡ [])) }
    {
        !self.long && self.bytes.is_empty()
    }

    /// The line that the part is, over the part's own buffer.
    #[tactic(auto, unfolding(amm_model::specs::Lines::line_of))]
    pub(crate) fn into_line(self) -> Line
        ensures { (seen : List ℕ) → Holds self seen → result ≡ line_of seen }
    {
        if self.long {
            return Line::Long;
        }
        if all_blank(self.bytes.as_slice()) {
            return Line::Blank;
        }
        Line::Whole(ByteLine::from_vec(self.bytes))
    }
}
