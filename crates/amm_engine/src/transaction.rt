//! A command within one transaction, and the text of its reply.
ghost use Rattle.std.specs.Prelude.{◌≡◌, ◌≢◌, Ok, OnOk, OnErr};
ghost use Rattle.amm_state.specs.declared.mark.Mark.{Mark};
ghost use Rattle.amm_model.specs.CommandView.{view_of};
ghost use Rattle.amm_model.specs.declared.reply.Answer.{Answer};
ghost use Rattle.amm_model.specs.Fits.{Fits};
ghost use Rattle.amm_model.specs.ReplyText.{reply_text, CanBeWritten};
ghost use Rattle.amm_model.specs.Sound.{IsAtRest};
ghost use Rattle.amm_engine.specs.Commands.{AnswersCommand, Accepted, Declined};

use crate::dispatch::perform;
use amm_model::{Answer, Command, Fault, Memory, Refusal};
use amm_reply::write_answer;
use amm_state::{State, Tx};
use std::alloc::Global;

/// How a command that was tried has ended.
#[derive(Drop)]
enum Trial {
    Accepted,
    Declined,
}

/// Makes the text that of the reply.
pub(crate) fn write_reply(text: &mut Vec<u8>, number: u64, answer: &Answer) -> Result<(), Memory>
    requires { CanBeWritten answer.now }
    ensures { OnOk result (text.new.items ≡ reply_text (record { line = number; answer = answer.now })) }
{
    *text = write_answer(*text.allocator(), number, answer)?;
    Ok(())
}

/// Does a command in a transaction of its own. The reply's text is made before the ledger is kept,
/// and a refused command leaves the ledger as it was.
pub(crate) fn run(
    alloc: Global,
    state: State,
    number: u64,
    command: &Command,
    text: &mut Vec<u8>,
) -> (State, Result<(), Memory>)
    requires rest { IsAtRest state }
    requires fits { Fits (view_of command.now) }
    ensures rest { IsAtRest result.0 }
    ensures ok { OnOk result.1 (AnswersCommand state number (view_of command.now) text.new.items result.0) }
    ensures err { OnErr result.1 (result.0 ≡ state) }
{
    let mut tx = Tx::begin(state);
    match try_command(alloc, &mut tx, number, command, text) {
        Ok(Trial::Accepted) => (tx.commit(), Ok(())),
        Ok(Trial::Declined) => (tx.rollback(), Ok(())),
        Err(Memory) => (tx.rollback(), Err(Memory)),
    }
}

/// Tries a command and writes what it gives, or why it is refused.
fn try_command(
    alloc: Global,
    tx: &mut Tx,
    number: u64,
    command: &Command,
    text: &mut Vec<u8>,
) -> Result<Trial, Memory>
    requires clean { tx.old.mark ≡ Mark.Clean }
    requires rest { IsAtRest tx.old.present }
    requires fits { Fits (view_of command.now) }
    ensures opening { tx.new.opening ≡ tx.old.opening }
    ensures accepted { result ≡ Ok Trial.Accepted → Accepted tx.old.present number (view_of command.now) text.new.items tx.new }
    ensures refused { result ≡ Ok Trial.Declined → Declined tx.old.present number (view_of command.now) text.new.items }
{
    match perform(alloc, tx, command) {
        Ok(answer) => accept(text, number, answer),
        Err(Fault::Refused(why)) => decline(text, number, why),
        Err(Fault::Memory) => Err(Memory),
    }
}

// Each of the two ends is a call of its own: an answer is a wide enum, and a `?` in the function
// that owns one takes the prover minutes.
fn accept(text: &mut Vec<u8>, number: u64, answer: Answer) -> Result<Trial, Memory>
    requires { CanBeWritten answer }
    ensures kind { result ≢ Ok Trial.Declined }
    ensures written { OnOk result (text.new.items ≡ reply_text (record { line = number; answer = answer })) }
{
    match write_reply(text, number, &answer) {
        Ok(()) => Ok(Trial::Accepted),
        Err(Memory) => Err(Memory),
    }
}

fn decline(text: &mut Vec<u8>, number: u64, why: Refusal) -> Result<Trial, Memory>
    ensures kind { result ≢ Ok Trial.Accepted }
    ensures written { OnOk result (text.new.items ≡ reply_text (record { line = number; answer = Answer.Refused why })) }
{
    match write_reply(text, number, &Answer::Refused(why)) {
        Ok(()) => Ok(Trial::Declined),
        Err(Memory) => Err(Memory),
    }
}
