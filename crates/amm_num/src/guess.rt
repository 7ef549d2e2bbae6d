// A guess at a square root, in whole numbers. Nothing is promised of it: it is right or one too
// high at every number that was tried, and its caller tests it.

// For the top byte of a number of at least 2^62: the root of its middle, scaled to 256 .. 511, less
// 256.
const ROOTS: [u8; 256] = [
    0, 0, 0, 0, 0, 0, 0, 0, 0, 0, 0, 0, 0, 0, 0, 0, 0, 0, 0, 0, 0, 0, 0, 0, 0, 0, 0, 0, 0, 0, 0, 0,
    0, 0, 0, 0, 0, 0, 0, 0, 0, 0, 0, 0, 0, 0, 0, 0, 0, 0, 0, 0, 0, 0, 0, 0, 0, 0, 0, 0, 0, 0, 0, 0,
    1, 3, 5, 7, 9, 11, 13, 15, 16, 18, 20, 22, 24, 26, 28, 29, 31, 33, 35, 36, 38, 40, 42, 43, 45,
    47, 48, 50, 52, 53, 55, 57, 58, 60, 62, 63, 65, 66, 68, 70, 71, 73, 74, 76, 77, 79, 80, 82, 83,
    85, 86, 88, 89, 91, 92, 94, 95, 97, 98, 100, 101, 102, 104, 105, 107, 108, 110, 111, 112, 114,
    115, 116, 118, 119, 121, 122, 123, 125, 126, 127, 129, 130, 131, 133, 134, 135, 137, 138, 139,
    140, 142, 143, 144, 146, 147, 148, 149, 151, 152, 153, 154, 156, 157, 158, 159, 161, 162, 163,
    164, 166, 167, 168, 169, 170, 172, 173, 174, 175, 176, 177, 179, 180, 181, 182, 183, 185, 186,
    187, 188, 189, 190, 191, 193, 194, 195, 196, 197, 198, 199, 200, 202, 203, 204, 205, 206, 207,
    208, 209, 210, 212, 213, 214, 215, 216, 217, 218, 219, 220, 221, 222, 223, 225, 226, 227, 228,
    229, 230, 231, 232, 233, 234, 235, 236, 237, 238, 239, 240, 241, 242, 243, 244, 245, 246, 247,
    248, 249, 250, 251, 252, 253, 254, 255,
];

// Near the root of `n`.
pub fn guess_root(n: u128) -> u64 {
    let high = (n >> 64) as u64;
    if high == 0 {
        return guess_small((n & u64::MAX as u128) as u64);
    }
    let shift = high.leading_zeros() / 2 % 32;
    let scaled = n << (2 * shift);
    let top = (scaled >> 64) as u64;
    let half = guess_half(top);
    let rest = top.wrapping_sub(half.wrapping_mul(half));
    let low = (scaled & u64::MAX as u128) as u64;
    let next = ((rest << 31) | (low >> 33)) / half.max(1);
    (half << 32).saturating_add(next) >> shift
}

// Near the root of a number of 64 bits.
fn guess_small(n: u64) -> u64 {
    if n == 0 {
        return 0;
    }
    let shift = n.leading_zeros() / 2 % 32;
    guess_half(n << (2 * shift)) >> shift
}

// Near the root of a number of at least 2^62: two steps of Newton's method from the table, the
// first in 32 bits.
fn guess_half(top: u64) -> u64 {
    let first = (256 + ROOTS[(top >> 56) as usize] as u32) * 128;
    let high = (top >> 32) as u32;
    let second = ((first + high / first) / 2) as u64 * 0x1_0000;
    let half = ((second + top / second) / 2).min(0xffff_ffff);
    if half * half > top { half - 1 } else { half }
}
