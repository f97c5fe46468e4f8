//! The commands of the program: what the words of its command line ask for, over a source and a sink.
#![tactic(auto)]

mod command;
mod laws;
mod perform;
mod runs;
mod sample;
mod sample_laws;
mod sample_words;
mod summary;
mod words;

pub use command::Command;
pub use laws::remade_dumps;
pub use runs::run;
pub use sample::generate_stream;
pub use sample_laws::{
    sample_bytes, sample_carries, sample_laid, sample_length, sample_opens, sample_range,
    sample_reading, sample_shows, sample_sound,
};
pub use sample_words::word_of;
pub use words::words_in;
