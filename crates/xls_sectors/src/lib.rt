//! The sectors of a compound file ([MS-CFB]): its header, its DIFAT and FAT, the chains of sectors
//! in a table, and the bytes of a stream.
#![tactic(auto)]

mod chains;
mod error;
mod header;
mod laws;
mod sectors;

pub use chains::Chains;
pub use error::{SectorError, SectorFault, Table};
pub use header::{Header, read_header};
pub use laws::{one_answer, one_outcome};
pub use sectors::Sectors;
