//! Writes what a workbook stream holds.
#![tactic(auto)]

use std::io::{ErrorKind, Write};
use std::process::ExitCode;
use xls_book::StdSource;
use xls_command::words_in;
pub use xls_command::{generate_stream, run};
pub use xls_output::{MemorySink, Sink, StdSink, WriteFault};

/// What standard error is told of a status. Of 0 and 1 standard output tells.
fn message(status: u8) -> Option<&'static str> {
    match status {
        2 => Some(
            "usage: xls_dump [dump | sheets | check | refs | remake | props | csv SHEET | generate N] < STREAM",
        ),
        3 => Some("xls_dump: standard input can't be read"),
        4 => Some("xls_dump: standard output can't be written"),
        5 => Some("xls_dump: out of memory"),
        _ => None,
    }
}

/// The status of the run that the words of the command line ask for.
fn status_of(rt: &HostRuntime) -> u8 {
    let alloc = rt.alloc();
    let words = match words_in(alloc, rt) {
        Ok(words) => words,
        Err(error) => {
            return match error.kind() {
                ErrorKind::OutOfMemory => 5,
                _ => 2,
            };
        }
    };
    let mut source = StdSource::new(rt.stdin());
    let mut sink = StdSink::new(rt.stdout());
    run(alloc, &words, &mut source, &mut sink)
}

fn main(rt: HostRuntime) -> ExitCode {
    let status = status_of(&rt);
    if let Some(line) = message(status) {
        // Where standard error can't be written either, the status tells alone.
        let _ = writeln!(rt.stderr(), "{line}");
    }
    ExitCode::from(status)
}
