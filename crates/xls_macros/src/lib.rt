//! The sources of a macro project ([MS-OVBA]), and what kind of module each is.
#![tactic(auto)]

mod fault;
mod kind;
mod lines;
mod macros;
mod newlines;
mod page;
mod source;
mod streams;
#[cfg(test)]
mod tests;
mod texts;

pub use fault::ModuleFault;
pub use kind::ModuleKind;
pub use lines::write_macros;
pub use macros::{Macros, macros_of};
