// The line that bytes are.
ghost use Rattle.std.specs.Prelude.{◌≡◌, ◌↔◌, IfOk, IsTrue};
ghost use Rattle.std.specs.List.{list_all};
ghost use Rattle.amm_model.specs.Lines.{IsUnbroken, is_blank as blank, line_of};

use amm_model::limits::LINE_LIMIT;
use amm_model::{ByteLine, Line, Memory};
use memchr::memchr;
use std::alloc::Global;

/// Whether no newline stands among the bytes.
pub(crate) fn is_unbroken(bytes: &[u8]) -> bool
    ensures { IsTrue result ↔ IsUnbroken bytes.now }
{
    memchr(b'\n', bytes).is_none()
}

fn is_blank(byte: u8) -> bool
    ensures { result ≡ blank byte }
{
    byte == b' ' || byte == b'\t' || byte == b'\r'
}

/// Whether all of the bytes are spaces, tabs or carriage returns.
fn all_blank(bytes: &[u8]) -> bool
    ensures { result ≡ list_all blank bytes.now }
{
    bytes.iter().all(|byte| is_blank(*byte))
}

/// The line that the bytes are, read as a part of an input between newlines.
#[tactic(auto, unfolding(amm_model::specs::Lines::line_of))]
pub(crate) fn to_line(alloc: Global, bytes: &[u8]) -> Result<Line, Memory>
    ensures { IfOk result (λ line. line ≡ line_of bytes.now) }
{
    if bytes.len() > LINE_LIMIT {
        return Ok(Line::Long);
    }
    if all_blank(bytes) {
        return Ok(Line::Blank);
    }
    Ok(Line::Whole(ByteLine::from_vec(bytes.to_vec(alloc)?)))
}
