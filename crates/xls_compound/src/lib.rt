//! A compound file ([MS-CFB]): its directory, what it lists, and the bytes of its streams.
#![tactic(auto)]

mod compound;
mod directory;
mod directory_entry;
mod directory_laws;
mod entry;
mod error;
mod fault;
mod items;
mod laws;
mod names;
mod tasks;
mod walk;

pub use compound::Compound;
pub use directory::Directory;
pub use directory_laws::one_listing;
pub use entry::{Entries, Entry};
pub use error::CompoundError;
pub use fault::{DirectoryError, DirectoryFault};
pub use items::Item;
pub use laws::{laid_found, one_compound};
pub use xls_sectors::{SectorError, SectorFault, Table};
