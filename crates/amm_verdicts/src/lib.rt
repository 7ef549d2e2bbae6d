//! Which lines are refused depends on the lines alone, as long as none trades along a route that
//! was found: none settles a quote, sells a basket or takes a cycle. A split may find any route
//! that answers its problem, so two runs over the same lines may print different routes; but every
//! other line does the same in both, whatever quotes are kept, and a split is refused for reasons
//! that do not lie in them. So both runs refuse the same lines by the same codes, and count as many
//! accepted and refused lines.
//!
//! It holds of the definitions, whoever ran the lines, so this crate has no code, and stands on the
//! definitions alone.
#![tactic(auto)]

mod law;

pub use law::verdicts_are_fixed;
