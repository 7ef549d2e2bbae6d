//! The limits of this profile, each once: what `..._LIMIT` says is still allowed, and one more is
//! not. Definitions and contracts cite these constants.

/// The greatest amount, balance, total, time, deadline and number of a quote, 2^52-1.
pub const AMOUNT_LIMIT: u64 = 0xf_ffff_ffff_ffff;

/// The greatest reserve of a pool, 2^48-1.
pub const RESERVE_LIMIT: u64 = 0xffff_ffff_ffff;

/// How many of the first shares of a pool nobody can take out again (whitepaper, 3.4).
pub const FIRST_LOCKED: u64 = 1000;

/// The most tokens of a ledger.
pub const TOKEN_LIMIT: usize = 64;

/// The most pairs of a ledger, and so the most pools of a routing problem.
pub const PAIR_LIMIT: usize = 256;

/// The most quotes that are kept.
pub const QUOTE_LIMIT: usize = 256;

/// The most observations that are kept.
pub const OBSERVATION_LIMIT: usize = 4096;

/// The fewest tokens of a path.
pub const PATH_LEAST: usize = 2;

/// The most tokens of a path.
pub const PATH_LIMIT: usize = 8;

/// The most steps of a line, at every level.
pub const STEP_LIMIT: usize = 256;

/// The most loans inside one another.
pub const LOAN_LIMIT: usize = 8;

/// The most bytes of a line, without its newline.
pub const LINE_LIMIT: usize = 65536;

/// The most bytes of an input of lines, 2^30.
pub const INPUT_LIMIT: u64 = 0x4000_0000;

/// The most bytes of a certificate that is checked, 2^20.
pub const CHECK_LIMIT: u64 = 0x10_0000;

/// The greatest price of a token, 2^40-1.
pub const PRICE_LIMIT: u64 = 0xff_ffff_ffff;

/// The most parts of a routing problem.
pub const PART_LIMIT: usize = 8;
