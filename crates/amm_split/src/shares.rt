//! The share that gains most of all that can be taken.
ghost use Rattle.std.specs.Prelude.{◌≡◌, ◌≢◌, ◌↔◌, ◌<◌, ◌≤◌, ◌+◌, ◌^◌, ℕ, All, IsTrue, length, slice_index};
ghost use Rattle.amm_model.specs.Paths.{AreApart, hop_places};
ghost use Rattle.amm_model.specs.Values.{sixteenths as sixteenths_of};
ghost use Rattle.amm_graph.specs.Hops.{hops_of};
ghost use Rattle.amm_split.specs.Shares.{AreTerms, AreWide, IsBest, IsOffer, gain_on};

use crate::rows::Row;
use amm_graph::Path;

/// How an amount is spread: shares of `least` to `most` sixteenths, each judged at a price of what
/// it brings in and one of what it gives.
#[derive(Clone, Copy, Drop)]
pub struct Terms {
    pub d: u64,
    pub least: usize,
    pub most: usize,
    pub price_in: u64,
    pub price_out: u64,
}

/// A number of sixteenths and what they gain.
#[derive(Clone, Copy, Drop)]
pub struct Offer {
    pub size: usize,
    pub gain: u128,
}

/// A path, by its place, with a number of sixteenths and what they gain.
#[derive(Clone, Copy, Drop)]
pub struct Choice {
    pub path: usize,
    pub size: usize,
    pub gain: u128,
}

/// The share that gains most of all that can be taken: on the first such path, and of the least
/// size. A gain of 0 where none gains.
pub fn best_share(terms: &Terms, paths: &[Path], rows: &[Row], left: usize, used: &[u32]) -> Choice
    requires terms { AreTerms terms.now }
    requires rows { AreWide rows.now (length paths.now) }
    requires left { left ≤ 16 }
    ensures { IsBest terms.now left used.now paths.now rows.now (length paths.now) result }
{
    let mut best = Choice {
        path: 0,
        size: 0,
        gain: 0,
    };
    for i in 0..paths.len() {
        best = better(terms, paths, rows, left, used, i, best);
    }
    best
}

// The choice so far, or what the next path offers if that gains more.
fn better(
    terms: &Terms,
    paths: &[Path],
    rows: &[Row],
    left: usize,
    used: &[u32],
    i: usize,
    best: Choice,
) -> Choice
    requires terms { AreTerms terms.now }
    requires rows { AreWide rows.now (length paths.now) }
    requires left { left ≤ 16 }
    requires within { i < length paths.now }
    requires best { IsBest terms.now left used.now paths.now rows.now i best }
    ensures { IsBest terms.now left used.now paths.now rows.now (i + 1) result }
{
    let offer = best_size(terms, &rows[i], left);
    if offer.gain <= best.gain {
        return best;
    }
    if !is_free(&paths[i], used) {
        return best;
    }
    Choice {
        path: i,
        size: offer.size,
        gain: offer.gain,
    }
}

// The size that gains most on a path, and the least of those. A gain of 0 where none gains.
fn best_size(terms: &Terms, row: &Row, left: usize) -> Offer
    requires terms { AreTerms terms.now }
    requires long { length row.now.amounts ≡ 17 }
    requires below { (k : ℕ) → slice_index row.now.amounts k < 2 ^ 48 }
    requires left { left ≤ 16 }
    ensures { IsOffer terms.now left row.now.amounts result }
{
    let mut best = Offer { size: 0, gain: 0 };
    let end = terms.most.min(left) + 1;
    for size in terms.least..end {
        let gain = gain_of(terms, row, size);
        if gain > best.gain {
            best = Offer { size, gain };
        }
    }
    best
}

// What so many sixteenths gain on a path.
fn gain_of(terms: &Terms, row: &Row, size: usize) -> u128
    requires terms { AreTerms terms.now }
    requires long { length row.now.amounts ≡ 17 }
    requires below { (k : ℕ) → slice_index row.now.amounts k < 2 ^ 48 }
    requires size { size ≤ 16 }
    ensures { result ≡ gain_on terms.now row.now.amounts size }
{
    let value = terms.price_out as u128 * row.amounts[size] as u128;
    value.saturating_sub(terms.price_in as u128 * sixteenths(terms.d, size) as u128)
}

/// So many sixteenths of an amount.
pub fn sixteenths(d: u64, size: usize) -> u64
    requires amount { d < 2 ^ 52 }
    requires size { size ≤ 16 }
    ensures value { result ≡ sixteenths_of d size }
    ensures within { result ≤ d }
{
    d * size as u64 / 16
}

// Whether none of the path's pools is used.
fn is_free(path: &Path, used: &[u32]) -> bool
    ensures { IsTrue result ↔ AreApart (hop_places (hops_of path.now)) used.now }
{
    if !is_unused_from(path.count, 0, used, path.hop0.pool) {
        return false;
    }
    if !is_unused_from(path.count, 1, used, path.hop1.pool) {
        return false;
    }
    is_unused_from(path.count, 2, used, path.hop2.pool)
}

// Whether the pool is not used, which counts from a number of hops on.
fn is_unused_from(count: u8, least: u8, used: &[u32], place: u32) -> bool
    ensures { IsTrue result ↔ (least < count → All (λ (q : ℕ). place ≢ q) used.now) }
{
    if count <= least {
        return true;
    }
    is_unused(used, place)
}

// Whether the pool is not used.
fn is_unused(used: &[u32], place: u32) -> bool
    ensures { IsTrue result ↔ All (λ (q : ℕ). place ≢ q) used.now }
{
    for p in used {
        if place == *p {
            return false;
        }
    }
    true
}
