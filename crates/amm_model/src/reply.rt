//! What is answered to a line.
use crate::{
    AddReceipt, AmountList, Averages, BurnReceipt, MintReceipt, Observation, OpenQuote, PairRecord,
    Quote, Refusal, RemoveReceipt, SkimReceipt, SwapReceipt, WindowAnswer,
};
use amm_names::PoolName;

/// The answer to a command, or why it is refused.
#[derive(Drop)]
pub enum Answer {
    Refused(Refusal),
    Deposit {
        balance: u64,
        total: u64,
    },
    Withdraw {
        balance: u64,
        total: u64,
    },
    Transfer,
    Time,
    FeeTo,
    Setter,
    Create {
        pool: PoolName,
    },
    Mint(MintReceipt),
    Burn(BurnReceipt),
    Swap(SwapReceipt),
    Skim(SkimReceipt),
    Flash(SwapReceipt),
    Sync {
        r0: u64,
        r1: u64,
    },
    Add(AddReceipt),
    Remove(RemoveReceipt),
    SwapIn {
        amounts: AmountList,
    },
    SwapOut {
        amounts: AmountList,
    },
    QuoteOut {
        amounts: AmountList,
    },
    QuoteIn {
        amounts: AmountList,
    },
    Split {
        number: u64,
        quote: Quote,
    },
    Settle {
        delivered: u64,
    },
    Certificate {
        quote: Quote,
    },
    Pool {
        pair: PairRecord,
        b0: u64,
        b1: u64,
        supply: u64,
    },
    Balance {
        n: u64,
    },
    Total {
        n: u64,
    },
    Observe {
        number: u64,
        observation: Observation,
    },
    Average(Averages),
    Consult {
        n: u64,
    },
    Window(WindowAnswer),
    Basket(OpenQuote),
    Cycle(OpenQuote),
}

/// The answer to a line, with the number of the line, counted from 1.
#[derive(Drop)]
pub struct Reply {
    pub line: u64,
    pub answer: Answer,
}
