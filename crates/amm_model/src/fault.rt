//! Why a call gives no result.
use amm_names::Memory;
use std::alloc::{AllocError, AllocFailed};
use thiserror::Error;

/// Why a line is refused.
#[derive(Clone, Copy, Debug, PartialEq, Eq)]
pub enum Refusal {
    BadJson,
    BadCommand,
    LongLine,
    TokenLimit,
    TotalLimit,
    UnknownToken,
    Funds,
    TimeBack,
    Identical,
    PairExists,
    PairLimit,
    Forbidden,
    NoPair,
    Locked,
    InsufficientOutputAmount,
    InsufficientLiquidity,
    InvalidTo,
    InsufficientInputAmount,
    K,
    Overflow,
    InsufficientLiquidityMinted,
    InsufficientLiquidityBurned,
    Expired,
    InsufficientAAmount,
    InsufficientBAmount,
    InsufficientAmount,
    ExcessiveInputAmount,
    AmountLimit,
    ZeroAmount,
    NoRoute,
    QuoteLimit,
    NoQuote,
    Stale,
    ObservationLimit,
    NoObservation,
    BadWindow,
}

impl Refusal {
    ghost use Rattle.std.specs.Prelude.{◌≡◌};
    ghost use Rattle.amm_model.specs.Refusals.{refusal_number, refusal_word};

    /// The number by which it is printed.
    pub fn number(self) -> u64
        ensures { result ≡ refusal_number self }
    {
        match self {
            Refusal::BadJson => 1,
            Refusal::BadCommand => 2,
            Refusal::LongLine => 3,
            Refusal::TokenLimit => 4,
            Refusal::TotalLimit => 5,
            Refusal::UnknownToken => 6,
            Refusal::Funds => 7,
            Refusal::TimeBack => 8,
            Refusal::Identical => 9,
            Refusal::PairExists => 10,
            Refusal::PairLimit => 11,
            Refusal::Forbidden => 12,
            Refusal::NoPair => 13,
            Refusal::Locked => 14,
            Refusal::InsufficientOutputAmount => 15,
            Refusal::InsufficientLiquidity => 16,
            Refusal::InvalidTo => 17,
            Refusal::InsufficientInputAmount => 18,
            Refusal::K => 19,
            Refusal::Overflow => 20,
            Refusal::InsufficientLiquidityMinted => 21,
            Refusal::InsufficientLiquidityBurned => 22,
            Refusal::Expired => 23,
            Refusal::InsufficientAAmount => 24,
            Refusal::InsufficientBAmount => 25,
            Refusal::InsufficientAmount => 26,
            Refusal::ExcessiveInputAmount => 27,
            Refusal::AmountLimit => 28,
            Refusal::ZeroAmount => 29,
            Refusal::NoRoute => 30,
            Refusal::QuoteLimit => 31,
            Refusal::NoQuote => 32,
            Refusal::Stale => 33,
            Refusal::ObservationLimit => 34,
            Refusal::NoObservation => 35,
            Refusal::BadWindow => 36,
        }
    }

    /// The word by which it is printed.
    pub fn word(self) -> &'static str
        ensures { result.now ≡ refusal_word self }
    {
        match self {
            Refusal::BadJson => "BAD_JSON",
            Refusal::BadCommand => "BAD_COMMAND",
            Refusal::LongLine => "LONG_LINE",
            Refusal::TokenLimit => "TOKEN_LIMIT",
            Refusal::TotalLimit => "TOTAL_LIMIT",
            Refusal::UnknownToken => "UNKNOWN_TOKEN",
            Refusal::Funds => "FUNDS",
            Refusal::TimeBack => "TIME_BACK",
            Refusal::Identical => "IDENTICAL",
            Refusal::PairExists => "PAIR_EXISTS",
            Refusal::PairLimit => "PAIR_LIMIT",
            Refusal::Forbidden => "FORBIDDEN",
            Refusal::NoPair => "NO_PAIR",
            Refusal::Locked => "LOCKED",
            Refusal::InsufficientOutputAmount => "INSUFFICIENT_OUTPUT_AMOUNT",
            Refusal::InsufficientLiquidity => "INSUFFICIENT_LIQUIDITY",
            Refusal::InvalidTo => "INVALID_TO",
            Refusal::InsufficientInputAmount => "INSUFFICIENT_INPUT_AMOUNT",
            Refusal::K => "K",
            Refusal::Overflow => "OVERFLOW",
            Refusal::InsufficientLiquidityMinted => "INSUFFICIENT_LIQUIDITY_MINTED",
            Refusal::InsufficientLiquidityBurned => "INSUFFICIENT_LIQUIDITY_BURNED",
            Refusal::Expired => "EXPIRED",
            Refusal::InsufficientAAmount => "INSUFFICIENT_A_AMOUNT",
            Refusal::InsufficientBAmount => "INSUFFICIENT_B_AMOUNT",
            Refusal::InsufficientAmount => "INSUFFICIENT_AMOUNT",
            Refusal::ExcessiveInputAmount => "EXCESSIVE_INPUT_AMOUNT",
            Refusal::AmountLimit => "AMOUNT_LIMIT",
            Refusal::ZeroAmount => "ZERO_AMOUNT",
            Refusal::NoRoute => "NO_ROUTE",
            Refusal::QuoteLimit => "QUOTE_LIMIT",
            Refusal::NoQuote => "NO_QUOTE",
            Refusal::Stale => "STALE",
            Refusal::ObservationLimit => "OBSERVATION_LIMIT",
            Refusal::NoObservation => "NO_OBSERVATION",
            Refusal::BadWindow => "BAD_WINDOW",
        }
    }
}

/// A refusal, or want of memory.
#[derive(Clone, Copy, Debug, PartialEq, Eq, Error)]
pub enum Fault {
    #[error("refused: {0:?}")]
    Refused(Refusal),
    #[error("out of memory")]
    Memory,
}

impl From<Memory> for Fault {
    ghost use Rattle.std.specs.Prelude.{◌≡◌};
    ghost use Rattle.amm_model.specs.declared.fault.Fault.TheVariants as faults;

    ghost from_gives = { λ _ e. e ≡ faults.Memory };

    fn from(_e: Memory) -> Fault {
        Fault::Memory
    }
}

impl From<AllocError> for Fault {
    ghost use Rattle.std.specs.Prelude.{◌≡◌};
    ghost use Rattle.amm_model.specs.declared.fault.Fault.TheVariants as faults;

    ghost from_gives = { λ _ e. e ≡ faults.Memory };

    fn from(_e: AllocError) -> Fault {
        Fault::Memory
    }
}

impl<T: Drop> From<AllocFailed<T>> for Fault {
    ghost use Rattle.std.specs.Prelude.{◌≡◌};
    ghost use Rattle.amm_model.specs.declared.fault.Fault.TheVariants as faults;

    ghost from_gives = { λ _ e. e ≡ faults.Memory };

    fn from(_e: AllocFailed<T>) -> Fault {
        Fault::Memory
    }
}
