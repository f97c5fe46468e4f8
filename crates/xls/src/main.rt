//! Reads old Excel workbooks: the work of `xls_tool` over the files of the system.
#![tactic(auto)]

mod file;
mod folder;
mod host;
mod list;
mod reason;
mod words;

use crate::host::StdHost;
use crate::words::words_in;
use std::io;
use std::io::ErrorKind;
use std::process::ExitCode;
use xls_tool::{Host, StdSink, run};

/// The status where the words can't be taken, and what is told of it.
fn reported(error: &io::Error) -> (u8, &'static str) {
    match error.kind() {
        ErrorKind::OutOfMemory => (5, "xls: out of memory"),
        _ => (2, "error: a word of the command line isn't UTF-8"),
    }
}

/// The status of the run that the words of the command line ask for.
fn status_of(rt: &HostRuntime) -> u8 {
    let mut host = StdHost::new(rt);
    match words_in(rt.alloc(), rt) {
        Ok(words) => {
            let mut out = StdSink::new(rt.stdout());
            run(rt.alloc(), &mut host, &mut out, words.as_slice())
        }
        Err(error) => {
            let (status, line) = reported(&error);
            host.say(line);
            status
        }
    }
}

fn main(rt: HostRuntime) -> ExitCode {
    ExitCode::from(status_of(&rt))
}
