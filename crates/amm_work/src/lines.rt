//! The bytes of the lines.
ghost use Rattle.std.specs.Prelude.{◌≡◌, ◌<◌, ◌^◌, ◌++◌, IfOk, OnOk};
ghost use Rattle.serde_json.specs.Written.{compact_text};
ghost use Rattle.amm_command.specs.Rows.{row_value};
ghost use Rattle.amm_work.specs.Commands.{command_of, line_from, line_text, work_bytes};

use crate::draws::Generator;
use crate::work_line::WorkLine;
use amm_model::Memory;
use std::alloc::Global;

/// The first `count` lines of a seed, each with its newline. Memory is the only error.
pub fn make(alloc: Global, seed: u64, count: u32) -> Result<Vec<u8>, Memory>
    ensures { IfOk result (λ bytes. bytes.items ≡ work_bytes seed count) }
{
    let mut generator = Generator { state: seed };
    let mut bytes = Vec::new(alloc);
    for number in 0..count {
        push_line(alloc, &mut generator, number as u64, &mut bytes)?;
    }
    Ok(bytes)
}

/// The line with a number, counted from 0, behind what is there.
fn push_line(
    alloc: Global,
    generator: &mut Generator,
    number: u64,
    bytes: &mut Vec<u8>,
) -> Result<(), Memory>
    requires { number < 2 ^ 32 }
    ensures bytes { OnOk result (bytes.new.items ≡ bytes.old.items ++ line_text (command_of (line_from generator.old.state number).0)) }
    ensures state { OnOk result (generator.new.state ≡ (line_from generator.old.state number).1) }
{
    let line = generator.line(number);
    let text = line_bytes(alloc, line)?;
    bytes.extend_from_slice(text.as_slice())?;
    Ok(())
}

/// A line with its newline.
#[tactic(auto, unfolding(crate::specs::Commands::line_text))]
fn line_bytes(alloc: Global, line: WorkLine) -> Result<Vec<u8>, Memory>
    ensures { IfOk result (λ text. text.items ≡ line_text (command_of line)) }
{
    let mut text = row_text(alloc, line)?;
    text.push(b'\n')?;
    Ok(text)
}

/// A line's row, as `serde_json` writes it.
fn row_text(alloc: Global, line: WorkLine) -> Result<Vec<u8>, Memory>
    ensures { IfOk result (λ text. text.items ≡ compact_text (row_value (command_of line))) }
{
    match serde_json::to_vec(alloc, &line) {
        Ok(text) => Ok(text),
        // A row sends no keys and flattens nothing, so nothing else fails.
        Err(_) => Err(Memory),
    }
}
