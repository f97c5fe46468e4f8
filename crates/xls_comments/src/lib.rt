//! The comments of a sheet, by the records of its part.
#![tactic(auto)]

mod biff5;
mod biff8;
mod comments;
mod damage;
mod fields;
mod items;
mod objects;
pub mod types;
mod units;

pub use comments::Comments;
pub use damage::{Damage, DamagedRecord, Flaw};
pub use items::{Comment, CommentItem, Visibility};

#[cfg(test)]
mod tests;
