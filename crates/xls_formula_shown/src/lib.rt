//! The text of a formula as Excel shows it, [MS-XLS] 2.5.198: what its tokens write.
#![tactic(auto)]

mod effects;
mod held;
mod leaves;
mod puts;
mod scope;
mod stack;
mod waiting;
mod walk;

pub use scope::Scope;
pub use walk::FormulaText;
