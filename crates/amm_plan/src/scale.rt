//! Fixed-point numbers of the plan: how many bits each has, and why they fit.
//!
//! | number | bits |
//! |---|---|
//! | start price | 21 to 60, so times a reserve below 108, times what is held below 117 |
//! | value of a side at the start prices | at most 56, by a shift that all values share |
//! | factor on a start price | 21 to 62, so a price at factors is below 122 |
//! | value at a factor | below 58, so a product of two has a root below 58 |
//! | net of a token | 58, and 256 trades of 58: below 67 |
//! | share of a resistor | 56, so times a resistor below 120, times a flow below 124 |
//! | voltage | a flow of 68 with 44 behind the point, over a sum that is not 0; clamped to 50 |

/// The deepest side of a pool starts below 2^56.
pub const DEEPEST_BITS: u32 = 56;

/// Binary places of a factor and of a voltage.
pub const FACTOR_BITS: u32 = 44;

/// The factor 1.
pub const ONE_FACTOR: u64 = 0x1000_0000_0000;

/// A factor is at least 2^20: a token's price can fall to one part in 2^24 of its start.
pub const LEAST_FACTOR: u64 = 0x10_0000;

/// A factor is at most 2^62, so that it is a positive number of 64 bits with a sign.
pub const MOST_FACTOR: u64 = 0x4000_0000_0000_0000;

/// The start price of the target, 2^40: in the middle, on a scale of bits, of what prices may be.
pub const UNIT_PRICE: u64 = 0x100_0000_0000;

/// Binary places of the target's start price.
pub const UNIT_BITS: u32 = 40;

/// A start price is at least 2^20: with 20 bits it is exact to one part in a million.
pub const LEAST_PRICE: u64 = 0x10_0000;

/// A start price is below 2^60.
pub const MOST_PRICE: u64 = 0xfff_ffff_ffff_ffff;

/// A value at a factor is at most 2^58.
pub const MOST_VALUE: u128 = 0x400_0000_0000_0000;

/// A planned input is at most 2^52: nobody holds more.
pub const MOST_INPUT: u128 = 0x10_0000_0000_0000;

/// Binary places of a resistor's share of all resistors at a token.
pub const SHARE_BITS: u32 = 56;

/// Binary places of the damping of a step.
pub const DAMPING_BITS: u32 = 32;
