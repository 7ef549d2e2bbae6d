//! Whole-number arithmetic at 128 bits: the square root rounded down, and a product divided once.
//!
//! `root` guesses in whole numbers and tests its guess by multiplying; a guess that fails costs
//! time alone, since `root_by_bits` then answers.
#![tactic(auto)]

mod guess;

ghost use Rattle.std.specs.Prelude.{◌≡◌, ◌+◌, ◌*◌, ◌/◌, ◌<◌, ◌≤◌, IsTrue};

use guess::guess_root;

/// The square root of `n`, rounded down.
pub fn root(n: u128) -> u64
    ensures square_le { result * result ≤ n }
    ensures next_square_gt { n < (result + 1) * (result + 1) }
{
    let guess = guess_root(n);
    if is_root(n, guess) {
        return guess;
    }
    let below = guess.wrapping_sub(1);
    if is_root(n, below) {
        return below;
    }
    root_by_bits(n)
}

/// The same square root, bit by bit from the top. It is slower, and kept to measure `root` against.
pub fn root_by_bits(n: u128) -> u64
    ensures square_le { result * result ≤ n }
    ensures next_square_gt { n < (result + 1) * (result + 1) }
{
    let mut low: u64 = 0;
    let mut place: u32 = 64;
    while place > 0 {
        place -= 1;
        let candidate = low + (1u64 << place);
        if candidate as u128 * candidate as u128 <= n {
            low = candidate;
        }
    }
    low
}

/// `a * b / c`, rounded down once.
pub fn mul_div(a: u64, b: u64, c: u128) -> u128
    requires { 0 < c }
    ensures { result ≡ a * b / c }
{
    a as u128 * b as u128 / c
}

// Whether `r` is the root of `n`.
fn is_root(n: u128, r: u64) -> bool
    ensures { IsTrue result → (r * r ≤ n) × (n < (r + 1) * (r + 1)) }
{
    let square = r as u128 * r as u128;
    square <= n && n - square <= 2 * (r as u128)
}

#[cfg(test)]
mod tests {
    use super::*;

    #[test]
    fn roots_of_the_table(rt: HostRuntime) {
        for (n, r) in [
            (0, 0),
            (1, 1),
            (3, 1),
            (4, 2),
            (1994000000, 44654),
            (281474976710655, 16777215),
            (28147497671065500, 167772159),
            (u64::MAX as u128, 0xffff_ffff),
            (0x1_0000_0000_0000_0000, 0x1_0000_0000),
            (u128::MAX, u64::MAX),
        ] {
            assert_eq!(rt; root(n), r);
            assert_eq!(rt; root_by_bits(n), r);
        }
    }

    #[test]
    fn products_are_divided_once(rt: HostRuntime) {
        assert_eq!(rt; mul_div(7, 3, 2), 10);
        assert_eq!(rt;
            mul_div(u64::MAX, u64::MAX, u64::MAX as u128),
            u64::MAX as u128
        );
    }
}
