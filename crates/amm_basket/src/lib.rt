//! Several tokens sold for one, over all pools at once, with a bound.
//!
//! `basket` answers an open problem with a quote: settled prices, their bound, and a leg-by-leg
//! route that starts with all parts. It delivers at least what the parts give in turn, each whole
//! on its best path over pools that no part before took, and at least what any one part gives on
//! one path or on two. More is proposed and judged as for a split: by the evaluator of legs. That
//! no route of the problem, whatever its trades and their order, delivers more than the bound is
//! `no_open_route_beats` of `amm_bound`.
#![tactic(auto)]

mod alone;
mod answers;
mod candidates;
mod in_turn;

pub use answers::basket;
