//! A whole reply.
ghost use Rattle.std.specs.Prelude.{◌≡◌, IfOk};
ghost use Rattle.serde_json.specs.Written.{compact_text};
ghost use Rattle.amm_model.specs.ReplyText.{reply_text, reply_value, CanBeWritten};

use crate::reply_row::ReplyRow;
use amm_model::{Answer, Memory, Reply};
use std::alloc::Global;

/// The text of a reply, with its newline.
pub fn write(alloc: Global, reply: &Reply) -> Result<Vec<u8>, Memory>
    requires { CanBeWritten reply.now.answer }
    ensures { IfOk result (λ text. text.items ≡ reply_text reply.now) }
{
    write_answer(alloc, reply.line, &reply.answer)
}

/// The same of the parts of a reply: the number of its line, and the answer.
#[tactic(auto, unfolding(amm_model::specs::ReplyText::reply_text))]
pub fn write_answer(alloc: Global, line: u64, answer: &Answer) -> Result<Vec<u8>, Memory>
    requires { CanBeWritten answer.now }
    ensures { IfOk result (λ text. text.items ≡ reply_text (record { line = line; answer = answer.now })) }
{
    let mut text = row_text(alloc, line, answer)?;
    text.push(b'\n')?;
    Ok(text)
}

/// The text of a reply's row, as `serde_json` writes it.
fn row_text(alloc: Global, line: u64, answer: &Answer) -> Result<Vec<u8>, Memory>
    requires { CanBeWritten answer.now }
    ensures { IfOk result (λ text. text.items
        ≡ compact_text (reply_value (record { line = line; answer = answer.now }))) }
{
    match serde_json::to_vec(alloc, &ReplyRow { line, answer }) {
        Ok(text) => Ok(text),
        // A row sends no keys and flattens nothing, so nothing else fails.
        Err(_) => Err(Memory),
    }
}
