//! The users, tokens and pools of the lines.
ghost use Rattle.std.specs.Prelude.{◌≡◌, min};
ghost use Rattle.amm_work.specs.Names.{next_user, pool_in_order, pool_name, third_token, token_name, user_name};

pub fn user_name(user: u8) -> &'static str
    ensures { result.now ≡ user_name user }
{
    match user {
        0 => "u0",
        1 => "u1",
        2 => "u2",
        _ => "u3",
    }
}

pub fn token_name(token: u8) -> &'static str
    ensures { result.now ≡ token_name token }
{
    match token {
        0 => "AA",
        1 => "BB",
        2 => "CC",
        _ => "DD",
    }
}

/// The pool of two tokens in either order.
pub fn pool_name(a: u8, b: u8) -> &'static str
    ensures { result.now ≡ pool_name a b }
{
    pool_in_order(a.min(b), a.max(b))
}

/// The one of two tokens that is token 0 of their pool.
pub fn token0(a: u8, b: u8) -> u8
    ensures { result ≡ min a b }
{
    a.min(b)
}

fn pool_in_order(low: u8, high: u8) -> &'static str
    ensures { result.now ≡ pool_in_order low high }
{
    match low {
        0 => match high {
            1 => "AA/BB",
            2 => "AA/CC",
            _ => "AA/DD",
        },
        1 => match high {
            2 => "BB/CC",
            _ => "BB/DD",
        },
        _ => "CC/DD",
    }
}

/// The user behind one.
pub fn next_user(user: u8) -> u8
    ensures { result ≡ next_user user }
{
    ((u32::from(user) + 1) % 4) as u8
}

/// The first token that is neither of two.
pub fn third_token(a: u8, b: u8) -> u8
    ensures { result ≡ third_token a b }
{
    if a != 0 && b != 0 {
        0
    } else if a != 1 && b != 1 {
        1
    } else if a != 2 && b != 2 {
        2
    } else {
        3
    }
}
