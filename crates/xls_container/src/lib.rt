//! What a file holds: a compound file with a workbook's stream, a bare workbook stream, or something else.
#![tactic(auto)]

mod container;
mod fault;
mod kind;
mod laws;
mod obfuscation;

pub use container::Container;
pub use fault::FileFault;
pub use kind::FileKind;
pub use laws::one_answer;
pub use obfuscation::is_obfuscated;
pub use xls_compound::{Compound, CompoundError};
