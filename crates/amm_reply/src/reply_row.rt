//! The row of a reply, as what it sends to a `Serializer`.
ghost use Rattle.std.specs.Prelude.{◌≡◌, ◌≤◌, ◌+◌, ◌∷◌, [], OnOk, map, codes, length};
ghost use Rattle.serde_json.specs.Data.{string};
ghost use Rattle.serde_json.specs.Events.{SendsValue};
ghost use Rattle.amm_model.specs.Json.{whole, wide, list};
ghost use Rattle.amm_model.specs.Certificate.{AreWritable, IsWritable, prices_value, legs_value, certificate_value};
ghost use Rattle.amm_model.specs.Refusals.{refusal_number, refusal_word};
ghost use Rattle.amm_model.specs.ReplyText.{open_quote_values, reply_value, CanBeWritten};
ghost use Rattle.amm_text.specs.Sends.{SendsFront};
ghost use Rattle.amm_cert.proofs.OneProof.{answer_prop};

use amm_cert::quote::{send_legs, send_priced, send_prices, send_route};
use amm_cert::send_certificate;
use amm_model::{
    Answer, Averages, Observation, OpenQuote, PairRecord, PoolName, Quote, Refusal, WindowAnswer,
};
use amm_text::{send_numbers, send_pool, send_wide};
use serde::{Described, Serialize, Serializer};

/// A reply as the row that is written: the number of its line, and the answer.
#[derive(Drop)]
pub(crate) struct ReplyRow<'a> {
    pub(crate) line: u64,
    pub(crate) answer: &'a Answer,
    ghost writable: { CanBeWritten answer.now } by { answer_prop answer.now },
}

impl Described for ReplyRow<'_> {
    ghost writes = { λ row. SendsValue (reply_value (record { line = row.line; answer = row.answer.now })) };
}

impl Serialize for ReplyRow<'_> {
    fn serialize<S: Serializer>(&self, out: &mut S) -> Result<(), S::Error> {
        let line = self.line;
        match self.answer {
            Answer::Refused(why) => refused(line, *why, out),
            Answer::Deposit { balance, total } => accepted(line, &[*balance, *total], out),
            Answer::Withdraw { balance, total } => accepted(line, &[*balance, *total], out),
            Answer::Transfer => accepted(line, &[], out),
            Answer::Time => accepted(line, &[], out),
            Answer::FeeTo => accepted(line, &[], out),
            Answer::Setter => accepted(line, &[], out),
            Answer::Create { pool } => created(line, pool, out),
            Answer::Mint(made) => accepted(line, &[made.shares, made.fee_shares], out),
            Answer::Burn(made) => {
                accepted(line, &[made.amount0, made.amount1, made.fee_shares], out)
            }
            Answer::Swap(made) => {
                accepted(line, &[made.in0, made.in1, made.out0, made.out1], out)
            }
            Answer::Skim(made) => accepted(line, &[made.sent0, made.sent1], out),
            Answer::Flash(made) => {
                accepted(line, &[made.in0, made.in1, made.out0, made.out1], out)
            }
            Answer::Sync { r0, r1 } => accepted(line, &[*r0, *r1], out),
            Answer::Add(made) => accepted(line, &[made.a, made.b, made.shares], out),
            Answer::Remove(made) => accepted(line, &[made.a, made.b], out),
            Answer::SwapIn { amounts } => amounts_along(line, amounts.as_slice(), out),
            Answer::SwapOut { amounts } => amounts_along(line, amounts.as_slice(), out),
            Answer::QuoteOut { amounts } => amounts_along(line, amounts.as_slice(), out),
            Answer::QuoteIn { amounts } => amounts_along(line, amounts.as_slice(), out),
            Answer::Split { number, quote } => split(line, *number, quote, out),
            Answer::Settle { delivered } => accepted(line, &[*delivered], out),
            Answer::Certificate { quote } => certificate(line, quote, out),
            Answer::Pool {
                pair,
                b0,
                b1,
                supply,
            } => pool(line, pair, *b0, *b1, *supply, out),
            Answer::Balance { n } => accepted(line, &[*n], out),
            Answer::Total { n } => accepted(line, &[*n], out),
            Answer::Observe {
                number,
                observation,
            } => observed(line, *number, observation, out),
            Answer::Average(averages) => averaged(line, averages, out),
            Answer::Consult { n } => accepted(line, &[*n], out),
            Answer::Window(found) => window(line, found, out),
            Answer::Basket(quote) => open_quote(line, quote, out),
            Answer::Cycle(quote) => open_quote(line, quote, out),
        }
    }
}

/// The front of a row: the number of its line and a word, with so many values behind them.
fn front<S: Serializer>(line: u64, word: &str, behind: usize, out: &mut S) -> Result<(), S::Error>
    requires { behind ≤ 9 }
    ensures { OnOk result (SendsFront (2 + behind) (whole line ∷ string word.now ∷ [])
        (S.written out.old) (S.written out.new)) }
{
    out.begin_seq(Some(2 + behind))?;
    out.u64(line)?;
    out.str(word)
}

fn refused<S: Serializer>(line: u64, why: Refusal, out: &mut S) -> Result<(), S::Error>
    ensures { OnOk result (SendsValue (list (whole line ∷ string (codes "no")
        ∷ whole (refusal_number why) ∷ string (refusal_word why) ∷ []))
        (S.written out.old) (S.written out.new)) }
{
    front(line, "no", 2, out)?;
    out.u64(why.number())?;
    out.str(why.word())?;
    out.end_seq()
}

/// The word `ok`, and numbers.
fn accepted<S: Serializer>(line: u64, numbers: &[u64], out: &mut S) -> Result<(), S::Error>
    requires { length numbers.now ≤ 4 }
    ensures { OnOk result (SendsValue (list (whole line ∷ string (codes "ok") ∷ map whole numbers.now))
        (S.written out.old) (S.written out.new)) }
{
    front(line, "ok", numbers.len(), out)?;
    send_numbers(numbers, out)?;
    out.end_seq()
}

fn created<S: Serializer>(line: u64, pool: &PoolName, out: &mut S) -> Result<(), S::Error>
    ensures { OnOk result (SendsValue (list (whole line ∷ string (codes "ok") ∷ string pool.now ∷ []))
        (S.written out.old) (S.written out.new)) }
{
    front(line, "ok", 1, out)?;
    send_pool(pool, out)?;
    out.end_seq()
}

fn amounts_along<S: Serializer>(line: u64, amounts: &[u64], out: &mut S) -> Result<(), S::Error>
    ensures { OnOk result (SendsValue (list (whole line ∷ string (codes "ok")
        ∷ list (map whole amounts.now) ∷ [])) (S.written out.old) (S.written out.new)) }
{
    front(line, "ok", 1, out)?;
    send_list(amounts, out)?;
    out.end_seq()
}

/// An array of numbers.
fn send_list<S: Serializer>(numbers: &[u64], out: &mut S) -> Result<(), S::Error>
    ensures { OnOk result (SendsValue (list (map whole numbers.now))
        (S.written out.old) (S.written out.new)) }
{
    out.begin_seq(Some(numbers.len()))?;
    send_numbers(numbers, out)?;
    out.end_seq()
}

fn split<S: Serializer>(line: u64, number: u64, quote: &Quote, out: &mut S) -> Result<(), S::Error>
    requires { IsWritable quote.now }
    ensures { OnOk result (SendsValue (list (whole line ∷ string (codes "ok") ∷ whole number
        ∷ whole quote.now.delivered ∷ wide quote.now.bound ∷ prices_value quote.now
        ∷ legs_value quote.now ∷ [])) (S.written out.old) (S.written out.new)) }
{
    front(line, "ok", 5, out)?;
    out.u64(number)?;
    out.u64(quote.delivered)?;
    send_wide(quote.bound, out)?;
    send_prices(quote, out)?;
    send_legs(quote, out)?;
    out.end_seq()
}

/// What is delivered, its bound, prices and legs: of a basket, and of a cycle.
fn open_quote<S: Serializer>(line: u64, quote: &OpenQuote, out: &mut S) -> Result<(), S::Error>
    requires { AreWritable quote.now.problem.tokens quote.now.problem.pools quote.now.prices quote.now.route.legs }
    ensures { OnOk result (SendsValue (list (whole line ∷ string (codes "ok")
        ∷ open_quote_values quote.now)) (S.written out.old) (S.written out.new)) }
{
    front(line, "ok", 4, out)?;
    out.u64(quote.delivered)?;
    send_wide(quote.bound, out)?;
    send_priced(quote.problem.tokens(), quote.prices.as_slice(), out)?;
    send_route(quote.problem.pools(), quote.route.legs.as_slice(), out)?;
    out.end_seq()
}

fn certificate<S: Serializer>(line: u64, quote: &Quote, out: &mut S) -> Result<(), S::Error>
    requires { IsWritable quote.now }
    ensures { OnOk result (SendsValue (list (whole line ∷ string (codes "ok")
        ∷ certificate_value quote.now ∷ [])) (S.written out.old) (S.written out.new)) }
{
    front(line, "ok", 1, out)?;
    send_certificate(quote, out)?;
    out.end_seq()
}

fn pool<S: Serializer>(
    line: u64,
    pair: &PairRecord,
    b0: u64,
    b1: u64,
    supply: u64,
    out: &mut S,
) -> Result<(), S::Error>
    ensures { OnOk result (SendsValue (list (whole line ∷ string (codes "ok")
        ∷ whole pair.now.r0 ∷ whole pair.now.r1 ∷ whole b0 ∷ whole b1 ∷ whole supply
        ∷ wide pair.now.k_last ∷ whole pair.now.last ∷ wide pair.now.acc0 ∷ wide pair.now.acc1
        ∷ [])) (S.written out.old) (S.written out.new)) }
{
    front(line, "ok", 9, out)?;
    out.u64(pair.r0)?;
    out.u64(pair.r1)?;
    out.u64(b0)?;
    out.u64(b1)?;
    out.u64(supply)?;
    send_wide(pair.k_last, out)?;
    out.u64(u64::from(pair.last))?;
    send_wide(pair.acc0, out)?;
    send_wide(pair.acc1, out)?;
    out.end_seq()
}

/// The number of an observation, its time, and the accumulators of token 0 and token 1.
fn observed<S: Serializer>(
    line: u64,
    number: u64,
    observation: &Observation,
    out: &mut S,
) -> Result<(), S::Error>
    ensures { OnOk result (SendsValue (list (whole line ∷ string (codes "ok") ∷ whole number
        ∷ whole observation.now.time ∷ wide observation.now.acc0 ∷ wide observation.now.acc1
        ∷ [])) (S.written out.old) (S.written out.new)) }
{
    front(line, "ok", 4, out)?;
    out.u64(number)?;
    out.u64(observation.time)?;
    send_wide(observation.acc0, out)?;
    send_wide(observation.acc1, out)?;
    out.end_seq()
}

/// The average prices of token 0 and token 1.
fn averaged<S: Serializer>(line: u64, averages: &Averages, out: &mut S) -> Result<(), S::Error>
    ensures { OnOk result (SendsValue (list (whole line ∷ string (codes "ok")
        ∷ wide averages.now.price0 ∷ wide averages.now.price1 ∷ []))
        (S.written out.old) (S.written out.new)) }
{
    front(line, "ok", 2, out)?;
    send_wide(averages.price0, out)?;
    send_wide(averages.price1, out)?;
    out.end_seq()
}

/// The numbers of two observations, and the average prices between them.
fn window<S: Serializer>(line: u64, found: &WindowAnswer, out: &mut S) -> Result<(), S::Error>
    ensures { OnOk result (SendsValue (list (whole line ∷ string (codes "ok")
        ∷ whole found.now.first ∷ whole found.now.second ∷ wide found.now.averages.price0
        ∷ wide found.now.averages.price1 ∷ [])) (S.written out.old) (S.written out.new)) }
{
    front(line, "ok", 4, out)?;
    out.u64(found.first)?;
    out.u64(found.second)?;
    send_wide(found.averages.price0, out)?;
    send_wide(found.averages.price1, out)?;
    out.end_seq()
}
