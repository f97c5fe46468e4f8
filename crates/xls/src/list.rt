//! Lists of names.

use std::alloc::AllocError;
use std::fs::File;
use std::io;
use std::io::{BufRead, BufReader, Read};
use xls_tool::Name;

/// Where a list stands.
#[derive(Drop)]
enum Stand {
    Input(io::Stdin),
    File(File),
}

impl Read for Stand {
    fn read(&mut self, buf: &mut [u8]) -> io::Result<usize> {
        match self {
            Stand::Input(input) => input.read(buf),
            Stand::File(file) => file.read(buf),
        }
    }
}

/// A list of names that is read name by name.
#[derive(Drop)]
pub(crate) struct List {
    lines: BufReader<Stand>,
}

/// The name that bytes are.
fn name_of(bytes: Vec<u8>) -> Name {
    match String::from_utf8(bytes) {
        Ok(name) => Name::Text(name),
        Err(_) => Name::Unnamed,
    }
}

impl List {
    /// The list in a file, or on standard input where the path is `-`.
    pub(crate) fn open(rt: &HostRuntime, path: &str) -> io::Result<List> {
        let stand = if path == "-" {
            Stand::Input(rt.stdin())
        } else {
            Stand::File(File::open(rt, path)?)
        };
        Ok(List {
            lines: BufReader::new(rt.alloc(), stand)?,
        })
    }

    /// The next name, which ends before this byte or at the end of the list; a line may end by a return and a newline.
    /// None at its end.
    pub(crate) fn next(&mut self, rt: &HostRuntime, end: u8) -> io::Result<Option<Name>> {
        let mut bytes = Vec::new(rt.alloc());
        if self.lines.read_until(end, &mut bytes)? == 0 {
            return Ok(None);
        }
        if bytes.last() == Some(&end) {
            bytes.pop();
        }
        if end == b'\n' && bytes.last() == Some(&b'\r') {
            bytes.pop();
        }
        Ok(Some(name_of(bytes)))
    }
}
