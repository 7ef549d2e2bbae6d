//! What a line asks for.
use crate::{PartList, RoutePath};
use amm_names::{Asset, Holder, PoolName, TokenName, UserName};

/// What is to be added to the pool of two tokens at a fee of 1, 3 or 10 thousandths. Amounts are at
/// most 2^52-1.
#[derive(Clone, Copy, Drop)]
pub struct AddWant {
    pub a: TokenName,
    pub b: TokenName,
    pub fee: u8,
    pub a_desired: u64,
    pub b_desired: u64,
    pub a_min: u64,
    pub b_min: u64,
}

/// What is to be taken out of the pool of two tokens at a fee of 1, 3 or 10 thousandths. Amounts
/// are at most 2^52-1.
#[derive(Clone, Copy, Drop)]
pub struct RemoveWant {
    pub a: TokenName,
    pub b: TokenName,
    pub fee: u8,
    pub shares: u64,
    pub a_min: u64,
    pub b_min: u64,
}

/// What a user can do by a command, or within a loan.
#[derive(Drop)]
pub enum Step {
    Transfer {
        asset: Asset,
        to: Holder,
        n: u64,
    },
    Create {
        a: TokenName,
        b: TokenName,
        fee: u8,
    },
    Mint {
        pool: PoolName,
        to: Holder,
    },
    Burn {
        pool: PoolName,
        to: Holder,
    },
    Swap {
        pool: PoolName,
        out0: u64,
        out1: u64,
        to: Holder,
    },
    Skim {
        pool: PoolName,
        to: Holder,
    },
    Sync {
        pool: PoolName,
    },
    Flash {
        pool: PoolName,
        out0: u64,
        out1: u64,
        steps: Vec<Step>,
    },
    Add {
        want: AddWant,
        to: Holder,
        deadline: u64,
    },
    Remove {
        want: RemoveWant,
        to: Holder,
        deadline: u64,
    },
    SwapIn {
        path: RoutePath,
        x: u64,
        min: u64,
        to: Holder,
        deadline: u64,
    },
    SwapOut {
        path: RoutePath,
        y: u64,
        max: u64,
        to: Holder,
        deadline: u64,
    },
    Settle {
        quote: u64,
        deadline: u64,
    },
}

/// What a line asks for.
#[derive(Drop)]
pub enum Command {
    Deposit {
        user: UserName,
        token: TokenName,
        n: u64,
    },
    Withdraw {
        user: UserName,
        token: TokenName,
        n: u64,
    },
    Time {
        n: u64,
    },
    FeeTo {
        actor: UserName,
        to: Holder,
    },
    Setter {
        actor: UserName,
        to: UserName,
    },
    QuoteOut {
        path: RoutePath,
        n: u64,
    },
    QuoteIn {
        path: RoutePath,
        n: u64,
    },
    Split {
        s: TokenName,
        t: TokenName,
        d: u64,
    },
    Certificate {
        quote: u64,
    },
    Pool {
        pool: PoolName,
    },
    Balance {
        asset: Asset,
        holder: Holder,
    },
    Total {
        asset: Asset,
    },
    Observe {
        actor: UserName,
        pool: PoolName,
    },
    Average {
        first: u64,
        second: u64,
    },
    Consult {
        first: u64,
        second: u64,
        token: TokenName,
        n: u64,
    },
    Window {
        pool: PoolName,
        seconds: u64,
    },
    Basket {
        actor: UserName,
        parts: PartList,
        t: TokenName,
        min: u64,
        deadline: u64,
    },
    Cycle {
        actor: UserName,
        t: TokenName,
        deadline: u64,
    },
    Act {
        actor: UserName,
        step: Step,
    },
}
