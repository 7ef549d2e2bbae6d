//! What is asked of the ledger, and changes nothing.
ghost use Rattle.std.specs.Prelude.{◌≡◌, ◌≤◌, ok_or};
ghost use Rattle.amm_model.specs.Fits.{IsPath};
ghost use Rattle.amm_model.specs.Ledger.{balance, pair_of, quote_of, total};
ghost use Rattle.amm_model.specs.Meaning.{known_asset, pool_answer, query};
ghost use Rattle.amm_model.specs.Router.{amounts_in, amounts_out};
ghost use Rattle.amm_model.specs.Sound.{IsSound};
ghost use Rattle.amm_model.specs.declared.fault.Refusal.TheVariants as code;
ghost use Rattle.amm_model.specs.declared.limits.TheConstants.{AMOUNT_LIMIT};
ghost use Rattle.amm_model.specs.declared.reply.Answer.TheVariants as answers;
ghost use Rattle.amm_state.specs.Tx.{Meets};

use amm_model::{Answer, Asset, Fault, Holder, Memory, PoolName, Refusal, RoutePath};
use amm_path::{amounts_in, amounts_out};
use amm_script::known;
use amm_state::{Mark, Tx};
use std::alloc::Global;

/// The record of a pair, what its pool holds of the two tokens, and its shares.
pub(crate) fn pool_record(tx: &mut Tx, pool: &PoolName) -> Result<Answer, Fault>
    requires clean { tx.old.mark ≡ Mark.Clean }
    ensures meets { Meets tx.old tx.new result (query tx.old.present (pool_answer tx.old.present pool.now) (ok_or (pair_of tx.old.present.pairs pool.now) code.NoPair)) }
{
    let book = tx.book();
    let Some(pair) = book.pair(pool) else {
        return Err(tx.refuse(Refusal::NoPair));
    };
    let holder = Holder::Pool(*pool);
    Ok(Answer::Pool {
        pair: *pair,
        b0: book.balance(&Asset::Token(*pool.token0()), &holder),
        b1: book.balance(&Asset::Token(*pool.token1()), &holder),
        supply: book.total(&Asset::Share(*pool)),
    })
}

pub(crate) fn balance(tx: &mut Tx, asset: &Asset, holder: &Holder) -> Result<Answer, Fault>
    requires clean { tx.old.mark ≡ Mark.Clean }
    ensures meets { Meets tx.old tx.new result (query tx.old.present (λ _. answers.Balance (balance tx.old.present asset.now holder.now)) (known_asset tx.old.present asset.now)) }
{
    tx.admit(known(tx.book(), asset))?;
    Ok(Answer::Balance {
        n: tx.book().balance(asset, holder),
    })
}

pub(crate) fn total(tx: &mut Tx, asset: &Asset) -> Result<Answer, Fault>
    requires clean { tx.old.mark ≡ Mark.Clean }
    ensures meets { Meets tx.old tx.new result (query tx.old.present (λ _. answers.Total (total tx.old.present asset.now)) (known_asset tx.old.present asset.now)) }
{
    tx.admit(known(tx.book(), asset))?;
    Ok(Answer::Total {
        n: tx.book().total(asset),
    })
}

/// The amounts along a path for an input of `n`, at most 2^52-1.
pub(crate) fn quote_out(
    alloc: Global,
    tx: &mut Tx,
    path: &RoutePath,
    n: u64,
) -> Result<Answer, Fault>
    requires clean { tx.old.mark ≡ Mark.Clean }
    requires sound { IsSound tx.old.present }
    requires path { IsPath path.now }
    requires amount { n ≤ AMOUNT_LIMIT }
    ensures meets { Meets tx.old tx.new result (query tx.old.present answers.QuoteOut (amounts_out tx.old.present path.now n)) }
{
    match amounts_out(alloc, tx.book(), path, n) {
        Ok(amounts) => Ok(Answer::QuoteOut { amounts }),
        Err(fault) => Err(tx.fail(fault)),
    }
}

/// The amounts along a path for an output of `n`, at most 2^52-1.
pub(crate) fn quote_in(
    alloc: Global,
    tx: &mut Tx,
    path: &RoutePath,
    n: u64,
) -> Result<Answer, Fault>
    requires clean { tx.old.mark ≡ Mark.Clean }
    requires sound { IsSound tx.old.present }
    requires path { IsPath path.now }
    requires amount { n ≤ AMOUNT_LIMIT }
    ensures meets { Meets tx.old tx.new result (query tx.old.present answers.QuoteIn (amounts_in tx.old.present path.now n)) }
{
    match amounts_in(alloc, tx.book(), path, n) {
        Ok(amounts) => Ok(Answer::QuoteIn { amounts }),
        Err(fault) => Err(tx.fail(fault)),
    }
}

/// The certificate of the kept quote with this number, counted from 1.
pub(crate) fn certificate(alloc: Global, tx: &mut Tx, number: u64) -> Result<Answer, Fault>
    requires clean { tx.old.mark ≡ Mark.Clean }
    ensures meets { Meets tx.old tx.new result (query tx.old.present answers.Certificate (ok_or (quote_of tx.old.present.quotes number) code.NoQuote)) }
{
    let Some(quote) = tx.book().quote(number) else {
        return Err(tx.refuse(Refusal::NoQuote));
    };
    match quote.copy(alloc) {
        Ok(quote) => Ok(Answer::Certificate { quote }),
        Err(Memory) => Err(tx.lack()),
    }
}
