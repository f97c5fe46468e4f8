//! The links of a sheet, by the records of its part.
#![tactic(auto)]

mod damage;
mod items;
mod links;
mod monikers;
mod splitting;
mod strings;
pub mod types;

pub use damage::{Damage, DamagedRecord, Flaw, Part};
pub use items::{Link, LinkItem, LinkKind};
pub use links::Links;

#[cfg(test)]
mod tests;
