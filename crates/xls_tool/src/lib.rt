//! The work of the program `xls`, over any host that reads files and writes them: the words of the command line,
//! one file or many, where texts go, and the exit status.
#![tactic(auto)]

mod file;
mod job;
mod macros;
mod many;
mod misplaced;
mod one;
mod opened;
mod problem;
mod runs;
mod say;
mod sheets;
mod tell;
mod unlock;
mod unseen;
mod work;

pub use problem::Problem;
pub use runs::run;
pub use xls_files::{Host, Kind, Listed, Name, Place, Reason};
pub use xls_output::{MemorySink, Sink, StdSink, WriteFault};
