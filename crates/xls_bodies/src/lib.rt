//! The bodies of records with those of the Continue records directly behind them.
#![tactic(auto)]

mod body;
mod bytes;
mod continues;

pub use body::{Body, body_of};
pub use bytes::Bytes;
