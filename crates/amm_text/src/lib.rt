//! Parts of JSON rows: what they send to a `Serializer`, from which `serde_json` writes replies,
//! certificates and the line of a check. Each sends exactly its value.
#![tactic(auto)]

mod row;

pub use row::{send_numbers, send_pool, send_token, send_wide};
