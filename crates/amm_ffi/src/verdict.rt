// What is found of a certificate, as C is told.
use amm_check::Verdict;

/// The verdicts, each once: `enum exchange_verdict` of the header.
pub const YES: u8 = 0;
/// The bytes are no certificate.
pub const BAD_CERT: u8 = 1;
/// The legs are no leg-by-leg route of the pools.
pub const BAD_ROUTE: u8 = 2;
/// The legs deliver another amount.
pub const BAD_DELIVERED: u8 = 3;
/// The bound is not that of the prices.
pub const BAD_BOUND: u8 = 4;

/// The verdict of a certificate, and the two amounts that it claims.
#[derive(Clone, Copy)]
pub(crate) struct Judged {
    pub(crate) verdict: Verdict,
    pub(crate) delivered: u64,
    pub(crate) bound: u128,
}

/// What is found of some bytes: `struct exchange_checked`. The last two are 0 where it is no yes,
/// and `length` is that of the bound's digits.
#[repr(C)]
#[derive(Clone, Copy)]
pub struct Checked {
    pub status: u8,
    pub verdict: u8,
    pub delivered: u64,
    pub length: usize,
}
