//! Macro projects ([MS-OVBA]): their compression, the source of a module, and the directory with its references and modules.
#![tactic(auto)]

mod chunks;
mod compression_error;
mod compression_laws;
mod container;
mod directory;
mod error;
mod fields;
mod items;
mod laws;
mod libids;
mod modules;
mod project;
mod references;
mod source;
mod tokens;

pub use compression_error::{OvbaError, OvbaPart};
pub use compression_laws::{one_decompression, stored_reads_back};
pub use container::decompress;
pub use error::{VbaError, VbaPart};
pub use laws::one_reading;
pub use modules::Module;
pub use project::VbaProject;
pub use references::Reference;
pub use source::module_source;
