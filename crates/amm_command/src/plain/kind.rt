//! The word at the front of a row. A word that is none is found out here, before its row is read.
ghost use Rattle.std.specs.Prelude.{◌≡◌, IfSome};
ghost use Rattle.amm_command.specs.Kinds.{kind_word, market_word, step_word};

/// What a step can ask for, and a line too.
#[derive(Clone, Copy, Drop)]
pub enum StepKind {
    Transfer,
    Create,
    Mint,
    Burn,
    Swap,
    Skim,
    Sync,
    Flash,
    Add,
    Remove,
    SwapIn,
    SwapOut,
    Settle,
}

/// What only a line can ask for of routes and of the price oracle.
#[derive(Clone, Copy, Drop)]
pub enum MarketKind {
    Split,
    Certificate,
    Basket,
    Cycle,
    Observe,
    Average,
    Consult,
    Window,
}

/// What a line can ask for.
#[derive(Clone, Copy, Drop)]
pub enum Kind {
    Deposit,
    Withdraw,
    Time,
    FeeTo,
    Setter,
    QuoteOut,
    QuoteIn,
    Pool,
    Balance,
    Total,
    Market(MarketKind),
    Step(StepKind),
}

impl StepKind {
    /// The kind that the word is, if it is one.
    pub fn of(word: &[u8]) -> Option<StepKind>
        ensures { IfSome result (λ kind. word.now ≡ step_word kind) }
    {
        match StepKind::of_ledger(word) {
            Some(kind) => Some(kind),
            None => StepKind::of_router(word),
        }
    }

    /// The kind, of those of balances and pairs, that the word is.
    fn of_ledger(word: &[u8]) -> Option<StepKind>
        ensures { IfSome result (λ kind. word.now ≡ step_word kind) }
    {
        if word == b"transfer".as_slice() {
            Some(StepKind::Transfer)
        } else if word == b"create".as_slice() {
            Some(StepKind::Create)
        } else if word == b"mint".as_slice() {
            Some(StepKind::Mint)
        } else if word == b"burn".as_slice() {
            Some(StepKind::Burn)
        } else if word == b"swap".as_slice() {
            Some(StepKind::Swap)
        } else if word == b"skim".as_slice() {
            Some(StepKind::Skim)
        } else if word == b"sync".as_slice() {
            Some(StepKind::Sync)
        } else if word == b"flash".as_slice() {
            Some(StepKind::Flash)
        } else {
            None
        }
    }

    /// The kind, of those of the router and of settlement, that the word is.
    fn of_router(word: &[u8]) -> Option<StepKind>
        ensures { IfSome result (λ kind. word.now ≡ step_word kind) }
    {
        if word == b"add".as_slice() {
            Some(StepKind::Add)
        } else if word == b"remove".as_slice() {
            Some(StepKind::Remove)
        } else if word == b"swapin".as_slice() {
            Some(StepKind::SwapIn)
        } else if word == b"swapout".as_slice() {
            Some(StepKind::SwapOut)
        } else if word == b"settle".as_slice() {
            Some(StepKind::Settle)
        } else {
            None
        }
    }
}

impl MarketKind {
    /// The kind that the word is, if it is one.
    fn of(word: &[u8]) -> Option<MarketKind>
        ensures { IfSome result (λ kind. word.now ≡ market_word kind) }
    {
        if word == b"split".as_slice() {
            Some(MarketKind::Split)
        } else if word == b"certificate".as_slice() {
            Some(MarketKind::Certificate)
        } else if word == b"basket".as_slice() {
            Some(MarketKind::Basket)
        } else if word == b"cycle".as_slice() {
            Some(MarketKind::Cycle)
        } else if word == b"observe".as_slice() {
            Some(MarketKind::Observe)
        } else if word == b"average".as_slice() {
            Some(MarketKind::Average)
        } else if word == b"consult".as_slice() {
            Some(MarketKind::Consult)
        } else if word == b"window".as_slice() {
            Some(MarketKind::Window)
        } else {
            None
        }
    }
}

impl Kind {
    /// The kind that the word is, if it is one.
    pub fn of(word: &[u8]) -> Option<Kind>
        ensures { IfSome result (λ kind. word.now ≡ kind_word kind) }
    {
        match StepKind::of(word) {
            Some(kind) => Some(Kind::Step(kind)),
            None => Kind::of_line(word),
        }
    }

    /// The kind, of those that no step has, that the word is.
    fn of_line(word: &[u8]) -> Option<Kind>
        ensures { IfSome result (λ kind. word.now ≡ kind_word kind) }
    {
        match MarketKind::of(word) {
            Some(kind) => Some(Kind::Market(kind)),
            None => Kind::of_ledger(word),
        }
    }

    /// The kind, of those of the ledger's state, that the word is.
    fn of_ledger(word: &[u8]) -> Option<Kind>
        ensures { IfSome result (λ kind. word.now ≡ kind_word kind) }
    {
        if word == b"deposit".as_slice() {
            Some(Kind::Deposit)
        } else if word == b"withdraw".as_slice() {
            Some(Kind::Withdraw)
        } else if word == b"time".as_slice() {
            Some(Kind::Time)
        } else if word == b"feeto".as_slice() {
            Some(Kind::FeeTo)
        } else if word == b"setter".as_slice() {
            Some(Kind::Setter)
        } else if word == b"quoteout".as_slice() {
            Some(Kind::QuoteOut)
        } else if word == b"quotein".as_slice() {
            Some(Kind::QuoteIn)
        } else if word == b"pool".as_slice() {
            Some(Kind::Pool)
        } else if word == b"balance".as_slice() {
            Some(Kind::Balance)
        } else if word == b"total".as_slice() {
            Some(Kind::Total)
        } else {
            None
        }
    }
}
