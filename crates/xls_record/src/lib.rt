//! A record of a workbook stream, the versions of the record format, and the errors of every reader of records.
#![tactic(auto)]

mod endless;
mod error;
mod laws;
mod lengths;
mod memory;
mod reading;
mod record;
mod source;
mod version;

pub use endless::EndlessSource;
pub use error::XlsError;
pub use laws::steady_count;
pub use lengths::need;
pub use memory::{MemorySource, SteadySource};
pub use reading::{StreamBytes, read_all};
pub use record::{Pieces, Record};
pub use source::{ReadFault, Source, StdSource};
pub use version::{Biff, is_biff8};
pub use xls_stream::Part;
