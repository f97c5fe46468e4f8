//! The files of the system as a host.

use crate::file::OutFile;
use crate::folder::{is_taken, list_at, place_at};
use crate::list::List;
use crate::reason::reason_of;
use std::alloc::Global;
use std::fs::File;
use std::io::{IsTerminal, Read, Write};
use std::{fs, io};
use xls_tool::{Host, Listed, Name, Place, Reason};

/// What goes before a line on a terminal, so that it takes the place of what was shown.
const ERASE: &str = "\r\x1b[K";

/// The files of the system, and its standard input and error.
#[derive(Drop)]
pub(crate) struct StdHost<'r> {
    rt: &'r HostRuntime,
    is_terminal: bool,
    /// The list whose names are read.
    list: Option<List>,
}

impl<'r> StdHost<'r> {
    pub(crate) fn new(rt: &'r HostRuntime) -> StdHost<'r> {
        StdHost {
            rt,
            is_terminal: rt.stderr().is_terminal(),
            list: None,
        }
    }

    /// What the system answered, or why it didn't.
    fn reported<T>(&self, answer: io::Result<T>) -> Result<T, Reason> {
        match answer {
            Ok(value) => Ok(value),
            Err(error) => Err(reason_of(self.rt.alloc(), &error)),
        }
    }

    /// The next name of a list, which is opened by the first of them.
    fn take_name(&mut self, list: &str, end: u8) -> io::Result<Option<Name>> {
        if let Some(names) = &mut self.list {
            return names.next(self.rt, end);
        }
        let mut names = List::open(self.rt, list)?;
        let name = names.next(self.rt, end);
        self.list = Some(names);
        name
    }
}

/// The bytes of a file that has so many of them, read at once; an error where it has fewer.
fn read_whole(file: &mut File, alloc: Global, size: u64) -> io::Result<Vec<u8>> {
    let mut bytes = Vec::new(alloc);
    bytes.resize(usize::try_from(size).unwrap_or(usize::MAX), 0)?;
    file.read_exact(&mut bytes)?;
    Ok(bytes)
}

/// All bytes of a file. They are read at once where it has as many as the system tells.
fn file_bytes(rt: &HostRuntime, path: &str) -> io::Result<Vec<u8>> {
    let mut file = File::open(rt, path)?;
    let size = file.metadata()?.len();
    let Ok(mut bytes) = read_whole(&mut file, rt.alloc(), size) else {
        return fs::read(rt, path);
    };
    // What stands past the size: a pipe has none, and a file may have grown. Mostly there is none, and what was read
    // stays where it is.
    let mut others = Vec::new(rt.alloc());
    file.read_to_end(&mut others)?;
    bytes.extend_from_slice(&others)?;
    Ok(bytes)
}

/// All bytes of standard input.
fn input(rt: &HostRuntime) -> io::Result<Vec<u8>> {
    let mut bytes = Vec::new(rt.alloc());
    rt.stdin().read_to_end(&mut bytes)?;
    Ok(bytes)
}

impl<'r> Host for StdHost<'r> {
    ghost use Rattle.std.specs.Prelude.{[], false};

    // A file of the system may change at any time, so nothing is told.
    ghost reads = { λ _ _ _. Unit {0} };

    // Nor is it told which files were made.
    ghost files = { λ _. record { begun = []; placed = [] } };

    ghost tells = { false };

    type File = OutFile<'r>;

    fn place(&mut self, path: &str) -> Result<Place, Reason> {
        self.reported(place_at(self.rt, path))
    }

    fn list(&mut self, folder: &str) -> Result<Vec<Listed>, Reason> {
        self.reported(list_at(self.rt, folder))
    }

    fn read(&mut self, path: &str) -> Result<Vec<u8>, Reason> {
        self.reported(file_bytes(self.rt, path))
    }

    fn read_input(&mut self) -> Result<Vec<u8>, Reason> {
        self.reported(input(self.rt))
    }

    fn next_name(&mut self, list: &str, by_nul: bool) -> Result<Option<Name>, Reason> {
        let end = if by_nul { 0 } else { b'\n' };
        let name = self.take_name(list, end);
        self.reported(name)
    }

    fn is_taken(&mut self, path: &str) -> bool {
        is_taken(self.rt, path)
    }

    fn create(&mut self, path: &str) -> Result<OutFile<'r>, Reason> {
        Ok(OutFile::new(self.rt, path)?)
    }

    fn close(&mut self, file: OutFile<'r>, path: &str, writes_over: bool) -> Result<(), Reason> {
        file.close(path, writes_over)
    }

    fn give_up(&mut self, file: OutFile<'r>) -> Reason {
        file.give_up()
    }

    fn say(&mut self, line: &str) {
        let erase = if self.is_terminal { ERASE } else { "" };
        // Where standard error can't be written, the status tells alone.
        let _ = writeln!(self.rt.stderr(), "{erase}{line}");
    }

    fn shows(&self) -> bool {
        self.is_terminal
    }

    fn show(&mut self, progress: &str) {
        if self.is_terminal {
            let _ = write!(self.rt.stderr(), "{ERASE}{progress}");
        }
    }
}
