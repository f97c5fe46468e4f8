//! What stands beside the workbook in its file: its properties, its macro project, its streams; and these as
//! lines.
#![tactic(auto)]

mod fault;
mod line;
mod macro_directory;
mod project;
mod properties;
mod property_streams;
mod streams;

pub use fault::ProjectFault;
pub use macro_directory::{directory_bytes, directory_entry, project_of};
pub use project::write_project;
pub use properties::write_properties;
pub use property_streams::properties_of;
pub use streams::write_streams;
