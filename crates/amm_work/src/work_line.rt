//! A line, as the row that it sends to a `Serializer`.
ghost use Rattle.std.specs.Prelude.{◌≡◌, ◌∷◌, ◌<◌, ◌^◌, ℕ, [], OnOk, map, codes};
ghost use Rattle.serde_json.specs.Data.{string};
ghost use Rattle.serde_json.specs.Events.{SendsValue};
ghost use Rattle.amm_model.specs.declared.limits.TheConstants.{AMOUNT_LIMIT};
ghost use Rattle.amm_model.specs.Json.{whole, list};
ghost use Rattle.amm_command.specs.Rows.{row_value};
ghost use Rattle.amm_work.specs.Commands.{command_of, drawn_command, paid_back};
ghost use Rattle.amm_work.specs.Names.{next_user, pool_name, third_token, token0_name, token_name, user_name};
ghost use Rattle.amm_text.specs.Sends.{SendsEach};

use crate::draws::{Draws, Kind};
use crate::names::{next_user, pool_name, third_token, token_name, token0, user_name};
use amm_model::limits::AMOUNT_LIMIT;
use serde::{Described, Serialize, Serializer};

/// What stands on a line.
#[derive(Clone, Copy, PartialEq, Eq, Debug, Drop)]
pub enum WorkLine {
    /// 10^12 of a token for a user.
    Deposit { user: u8, token: u8 },
    /// The first liquidity of a pool, 10^10 of each token.
    FirstAdd { a: u8, b: u8 },
    /// A question for the best route of so much AA into BB.
    Split { amount: u64 },
    /// The certificate of the quote with this number.
    Certificate { quote: u64 },
    /// What was drawn for the line with this number.
    Drawn { number: u64, draws: Draws },
}

impl Described for WorkLine {
    ghost writes = { λ line. SendsValue (row_value (command_of line)) };
}

impl Serialize for WorkLine {
    fn serialize<S: Serializer>(&self, out: &mut S) -> Result<(), S::Error> {
        match self {
            WorkLine::Deposit { user, token } => deposit(*user, *token, out),
            WorkLine::FirstAdd { a, b } => add(0, *a, *b, 10000000000, out),
            WorkLine::Split { amount } => split(*amount, out),
            WorkLine::Certificate { quote } => with_number("certificate", *quote, out),
            WorkLine::Drawn { number, draws } => drawn(*number, draws, out),
        }
    }
}

/// What was drawn.
fn drawn<S: Serializer>(number: u64, draws: &Draws, out: &mut S) -> Result<(), S::Error>
    ensures { OnOk result (SendsValue (row_value (drawn_command draws.now.kind number draws.now)) (S.written out.old) (S.written out.new)) }
{
    let (user, a, b) = (draws.user, draws.a, draws.b);
    let n = draws.n as u64;
    match draws.kind {
        Kind::SwapIn => swap("swapin", user, &[a, b], n, 0, out),
        Kind::SwapOut => swap("swapout", user, &[a, b], n, 1000000000, out),
        Kind::SwapThrough => swap("swapin", user, &[a, b, third_token(a, b)], n, 0, out),
        Kind::Add => add(user, a, b, n, out),
        Kind::Remove => remove(a, b, n, out),
        Kind::Time => with_number("time", number, out),
        Kind::Flash => flash(user, a, b, n, out),
        Kind::Transfer => transfer(user, a, user_name(next_user(user)), n, out),
        Kind::Balance => balance(a, user, out),
        Kind::Pool => pool(a, b, out),
    }
}

fn send_user<S: Serializer>(user: u8, out: &mut S) -> Result<(), S::Error>
    ensures { OnOk result (SendsValue (string (user_name user)) (S.written out.old) (S.written out.new)) }
{
    out.str(user_name(user))
}

fn send_token<S: Serializer>(token: u8, out: &mut S) -> Result<(), S::Error>
    ensures { OnOk result (SendsValue (string (token_name token)) (S.written out.old) (S.written out.new)) }
{
    out.str(token_name(token))
}

fn send_pool<S: Serializer>(a: u8, b: u8, out: &mut S) -> Result<(), S::Error>
    ensures { OnOk result (SendsValue (string (pool_name a b)) (S.written out.old) (S.written out.new)) }
{
    out.str(pool_name(a, b))
}

/// Tokens, one behind the other.
fn send_tokens<S: Serializer>(tokens: &[u8], out: &mut S) -> Result<(), S::Error>
    ensures { OnOk result (SendsEach (map (λ (t : ℕ). string (token_name t)) tokens.now) (S.written out.old) (S.written out.new)) }
{
    for token in tokens {
        send_token(*token, out)?;
    }
    Ok(())
}

/// The tokens of a path.
fn send_path<S: Serializer>(tokens: &[u8], out: &mut S) -> Result<(), S::Error>
    ensures { OnOk result (SendsValue (list (map (λ (t : ℕ). string (token_name t)) tokens.now)) (S.written out.old) (S.written out.new)) }
{
    out.begin_seq(Some(tokens.len()))?;
    send_tokens(tokens, out)?;
    out.end_seq()
}

/// A word and a number.
fn with_number<S: Serializer>(word: &str, n: u64, out: &mut S) -> Result<(), S::Error>
    ensures { OnOk result (SendsValue (list (string word.now ∷ whole n ∷ [])) (S.written out.old) (S.written out.new)) }
{
    out.begin_seq(Some(2))?;
    out.str(word)?;
    out.u64(n)?;
    out.end_seq()
}

fn deposit<S: Serializer>(user: u8, token: u8, out: &mut S) -> Result<(), S::Error>
    ensures { OnOk result (SendsValue (list (string (codes "deposit") ∷ string (user_name user)
        ∷ string (token_name token) ∷ whole 1000000000000 ∷ [])) (S.written out.old) (S.written out.new)) }
{
    out.begin_seq(Some(4))?;
    out.str("deposit")?;
    send_user(user, out)?;
    send_token(token, out)?;
    out.u64(1000000000000)?;
    out.end_seq()
}

/// Liquidity: as much of each of two tokens.
fn add<S: Serializer>(user: u8, a: u8, b: u8, n: u64, out: &mut S) -> Result<(), S::Error>
    ensures { OnOk result (SendsValue (list (string (codes "add") ∷ string (user_name user)
        ∷ string (token_name a) ∷ string (token_name b) ∷ whole n ∷ whole n ∷ whole 0 ∷ whole 0
        ∷ string (user_name user) ∷ whole AMOUNT_LIMIT ∷ [])) (S.written out.old) (S.written out.new)) }
{
    out.begin_seq(Some(10))?;
    out.str("add")?;
    send_user(user, out)?;
    send_token(a, out)?;
    send_token(b, out)?;
    out.u64(n)?;
    out.u64(n)?;
    out.u64(0)?;
    out.u64(0)?;
    send_user(user, out)?;
    out.u64(AMOUNT_LIMIT)?;
    out.end_seq()
}

/// Shares of user 0, whose first liquidity the pools have.
fn remove<S: Serializer>(a: u8, b: u8, shares: u64, out: &mut S) -> Result<(), S::Error>
    ensures { OnOk result (SendsValue (list (string (codes "remove") ∷ string (user_name 0)
        ∷ string (token_name a) ∷ string (token_name b) ∷ whole shares ∷ whole 0 ∷ whole 0
        ∷ string (user_name 0) ∷ whole AMOUNT_LIMIT ∷ [])) (S.written out.old) (S.written out.new)) }
{
    out.begin_seq(Some(9))?;
    out.str("remove")?;
    send_user(0, out)?;
    send_token(a, out)?;
    send_token(b, out)?;
    out.u64(shares)?;
    out.u64(0)?;
    out.u64(0)?;
    send_user(0, out)?;
    out.u64(AMOUNT_LIMIT)?;
    out.end_seq()
}

/// A swap along a path, by its word, with an amount and the limit of the other end.
fn swap<S: Serializer>(
    word: &str,
    user: u8,
    path: &[u8],
    n: u64,
    limit: u64,
    out: &mut S,
) -> Result<(), S::Error>
    ensures { OnOk result (SendsValue (list (string word.now ∷ string (user_name user)
        ∷ list (map (λ (t : ℕ). string (token_name t)) path.now) ∷ whole n ∷ whole limit
        ∷ string (user_name user) ∷ whole AMOUNT_LIMIT ∷ [])) (S.written out.old) (S.written out.new)) }
{
    out.begin_seq(Some(7))?;
    out.str(word)?;
    send_user(user, out)?;
    send_path(path, out)?;
    out.u64(n)?;
    out.u64(limit)?;
    send_user(user, out)?;
    out.u64(AMOUNT_LIMIT)?;
    out.end_seq()
}

/// A loan of a pool's token 0, which is paid back with a little more than the fee.
fn flash<S: Serializer>(user: u8, a: u8, b: u8, n: u64, out: &mut S) -> Result<(), S::Error>
    requires { n < 2 ^ 32 }
    ensures { OnOk result (SendsValue (list (string (codes "flash") ∷ string (user_name user)
        ∷ string (pool_name a b) ∷ whole n ∷ whole 0
        ∷ list (list (string (codes "transfer") ∷ string (user_name user) ∷ string (token0_name a b)
        ∷ string (pool_name a b) ∷ whole (paid_back n) ∷ []) ∷ []) ∷ []))
        (S.written out.old) (S.written out.new)) }
{
    out.begin_seq(Some(6))?;
    out.str("flash")?;
    send_user(user, out)?;
    send_pool(a, b, out)?;
    out.u64(n)?;
    out.u64(0)?;
    pay_back(user, a, b, n + n / 300 + 1, out)?;
    out.end_seq()
}

/// The one step of a loan: token 0 for the pool.
fn pay_back<S: Serializer>(user: u8, a: u8, b: u8, n: u64, out: &mut S) -> Result<(), S::Error>
    ensures { OnOk result (SendsValue (list (list (string (codes "transfer") ∷ string (user_name user)
        ∷ string (token0_name a b) ∷ string (pool_name a b) ∷ whole n ∷ []) ∷ []))
        (S.written out.old) (S.written out.new)) }
{
    out.begin_seq(Some(1))?;
    transfer(user, token0(a, b), pool_name(a, b), n, out)?;
    out.end_seq()
}

fn transfer<S: Serializer>(
    user: u8,
    token: u8,
    to: &str,
    n: u64,
    out: &mut S,
) -> Result<(), S::Error>
    ensures { OnOk result (SendsValue (list (string (codes "transfer") ∷ string (user_name user)
        ∷ string (token_name token) ∷ string to.now ∷ whole n ∷ [])) (S.written out.old) (S.written out.new)) }
{
    out.begin_seq(Some(5))?;
    out.str("transfer")?;
    send_user(user, out)?;
    send_token(token, out)?;
    out.str(to)?;
    out.u64(n)?;
    out.end_seq()
}

fn split<S: Serializer>(amount: u64, out: &mut S) -> Result<(), S::Error>
    ensures { OnOk result (SendsValue (list (string (codes "split") ∷ string (codes "AA")
        ∷ string (codes "BB") ∷ whole amount ∷ [])) (S.written out.old) (S.written out.new)) }
{
    out.begin_seq(Some(4))?;
    out.str("split")?;
    out.str("AA")?;
    out.str("BB")?;
    out.u64(amount)?;
    out.end_seq()
}

fn balance<S: Serializer>(token: u8, user: u8, out: &mut S) -> Result<(), S::Error>
    ensures { OnOk result (SendsValue (list (string (codes "balance") ∷ string (token_name token)
        ∷ string (user_name user) ∷ [])) (S.written out.old) (S.written out.new)) }
{
    out.begin_seq(Some(3))?;
    out.str("balance")?;
    send_token(token, out)?;
    send_user(user, out)?;
    out.end_seq()
}

fn pool<S: Serializer>(a: u8, b: u8, out: &mut S) -> Result<(), S::Error>
    ensures { OnOk result (SendsValue (list (string (codes "pool") ∷ string (pool_name a b) ∷ []))
        (S.written out.old) (S.written out.new)) }
{
    out.begin_seq(Some(2))?;
    out.str("pool")?;
    send_pool(a, b, out)?;
    out.end_seq()
}
