//! What each command does to the ledger, and what it answers.
ghost use Rattle.std.specs.Prelude.{◌≡◌};
ghost use Rattle.amm_model.specs.CommandView.{view_of};
ghost use Rattle.amm_model.specs.Factory.{set_fee_to, set_setter};
ghost use Rattle.amm_model.specs.Fits.{Fits};
ghost use Rattle.amm_model.specs.Meaning.{deposit as deposit_in, outcome_with, withdraw as withdraw_in};
ghost use Rattle.amm_model.specs.Postings.{set_time};
ghost use Rattle.amm_model.specs.Sound.{IsAtRest, IsSound};
ghost use Rattle.amm_model.specs.declared.reply.Answer.TheVariants as answers;
ghost use Rattle.amm_state.specs.Tx.{Meets};
ghost use Rattle.amm_engine.specs.Commands.{DoesCommand};

use crate::basket::basket;
use crate::cycle::cycle;
use crate::oracle::{average, consult, observe, window};
use crate::queries::{balance, certificate, pool_record, quote_in, quote_out, total};
use crate::split::split;
use amm_model::{Answer, Asset, Command, Fault, Holder, TokenName, UserName};
use amm_script::{known, run_step};
use amm_state::{Mark, Tx};
use std::alloc::Global;

/// Does what a command asks for.
pub(crate) fn perform(alloc: Global, tx: &mut Tx, command: &Command) -> Result<Answer, Fault>
    requires clean { tx.old.mark ≡ Mark.Clean }
    requires rest { IsAtRest tx.old.present }
    requires fits { Fits (view_of command.now) }
    ensures does { DoesCommand tx.old tx.new (view_of command.now) result }
{
    match command {
        Command::Deposit { user, token, n } => deposit(alloc, tx, user, token, *n),
        Command::Withdraw { user, token, n } => withdraw(alloc, tx, user, token, *n),
        Command::Time { n } => time(alloc, tx, *n),
        Command::FeeTo { actor, to } => fee_to(alloc, tx, actor, to),
        Command::Setter { actor, to } => setter(alloc, tx, actor, to),
        Command::QuoteOut { path, n } => quote_out(alloc, tx, path, *n),
        Command::QuoteIn { path, n } => quote_in(alloc, tx, path, *n),
        Command::Split { s, t, d } => split(alloc, tx, s, t, *d),
        Command::Certificate { quote } => certificate(alloc, tx, *quote),
        Command::Pool { pool } => pool_record(tx, pool),
        Command::Balance { asset, holder } => balance(tx, asset, holder),
        Command::Total { asset } => total(tx, asset),
        Command::Observe { pool, .. } => observe(alloc, tx, pool),
        Command::Average { first, second } => average(tx, *first, *second),
        Command::Consult {
            first,
            second,
            token,
            n,
        } => consult(tx, *first, *second, token, *n),
        Command::Window { pool, seconds } => window(tx, pool, *seconds),
        Command::Basket {
            actor,
            parts,
            t,
            min,
            deadline,
        } => basket(alloc, tx, actor, parts, t, *min, *deadline),
        Command::Cycle { actor, t, deadline } => cycle(alloc, tx, actor, t, *deadline),
        Command::Act { actor, step } => run_step(alloc, tx, actor, step),
    }
}

#[tactic(auto, unfolding(amm_model::specs::Meaning::deposit))]
fn deposit(
    alloc: Global,
    tx: &mut Tx,
    user: &UserName,
    token: &TokenName,
    n: u64,
) -> Result<Answer, Fault>
    requires clean { tx.old.mark ≡ Mark.Clean }
    ensures meets { Meets tx.old tx.new result (deposit_in tx.old.present user.now token.now n) }
{
    let asset = Asset::Token(*token);
    let holder = Holder::User(*user);
    tx.list_token(alloc, token)?;
    tx.issue(alloc, &asset, &holder, n)?;
    let book = tx.book();
    Ok(Answer::Deposit {
        balance: book.balance(&asset, &holder),
        total: book.total(&asset),
    })
}

#[tactic(auto, unfolding(amm_model::specs::Meaning::withdraw))]
fn withdraw(
    alloc: Global,
    tx: &mut Tx,
    user: &UserName,
    token: &TokenName,
    n: u64,
) -> Result<Answer, Fault>
    requires clean { tx.old.mark ≡ Mark.Clean }
    ensures meets { Meets tx.old tx.new result (withdraw_in tx.old.present user.now token.now n) }
{
    let asset = Asset::Token(*token);
    let holder = Holder::User(*user);
    tx.admit(known(tx.book(), &asset))?;
    tx.retire(alloc, &asset, &holder, n)?;
    let book = tx.book();
    Ok(Answer::Withdraw {
        balance: book.balance(&asset, &holder),
        total: book.total(&asset),
    })
}

fn time(alloc: Global, tx: &mut Tx, n: u64) -> Result<Answer, Fault>
    requires clean { tx.old.mark ≡ Mark.Clean }
    ensures meets { Meets tx.old tx.new result (outcome_with answers.Time (set_time tx.old.present n)) }
{
    tx.set_time(alloc, n)?;
    Ok(Answer::Time)
}

fn fee_to(alloc: Global, tx: &mut Tx, actor: &UserName, to: &Holder) -> Result<Answer, Fault>
    requires clean { tx.old.mark ≡ Mark.Clean }
    requires sound { IsSound tx.old.present }
    ensures meets { Meets tx.old tx.new result (outcome_with answers.FeeTo (set_fee_to tx.old.present actor.now to.now)) }
{
    amm_factory::set_fee_to(alloc, tx, actor, to)?;
    Ok(Answer::FeeTo)
}

fn setter(alloc: Global, tx: &mut Tx, actor: &UserName, to: &UserName) -> Result<Answer, Fault>
    requires clean { tx.old.mark ≡ Mark.Clean }
    requires sound { IsSound tx.old.present }
    ensures meets { Meets tx.old tx.new result (outcome_with answers.Setter (set_setter tx.old.present actor.now to.now)) }
{
    amm_factory::set_setter(alloc, tx, actor, to)?;
    Ok(Answer::Setter)
}
