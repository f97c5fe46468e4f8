//! Where text goes, and what is gathered before it is written.
#![tactic(auto)]

mod gathers;
mod memory;
mod sink;
mod stop;
mod text;
mod writer;

pub use gathers::{Gathers, flush};
pub use memory::MemorySink;
pub use sink::{Sink, StdSink, WriteFault, write_all};
pub use stop::Stop;
pub use text::OutputText;
pub use writer::{PIECE, Writer};
