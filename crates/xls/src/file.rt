//! Files that are written.

ghost use Rattle.std.specs.Prelude.{◌≡◌};

use crate::folder::is_taken;
use crate::reason::reason_of;
use std::alloc::AllocError;
use std::fs::{File, OpenOptions};
use std::io::{ErrorKind, Write};
use std::{fs, io};
use xls_tool::{Reason, Sink, WriteFault};

/// Makes the folders in which a path lies.
fn make_folders(rt: &HostRuntime, path: &str) -> io::Result<()> {
    match path.rsplit_once('/') {
        Some((folder, _)) => fs::create_dir_all(rt, folder),
        None => Ok(()),
    }
}

/// Opens a new file to be written.
fn open(rt: &HostRuntime, path: &str) -> io::Result<File> {
    let mut options = OpenOptions::new();
    options.write(true);
    options.create_new(true);
    options.open(rt, path)
}

/// Makes a file. Folders that aren't there are made with it; a file that is there is taken away, as a run may have left
/// it that was killed.
fn make(rt: &HostRuntime, path: &str) -> io::Result<File> {
    match open(rt, path) {
        // Most files go into the folder of the file before, so a folder is looked for only where it is missed.
        Err(error) if error.kind() == ErrorKind::NotFound => make_folders(rt, path)?,
        Err(error) if error.kind() == ErrorKind::AlreadyExists => fs::remove_file(rt, path)?,
        answer => return answer,
    }
    open(rt, path)
}

/// Moves a file to a path at which nothing stands. Where it can't have two paths for a moment, nothing tells whether
/// something comes to stand there meanwhile.
fn move_beside(rt: &HostRuntime, from: &str, to: &str) -> io::Result<()> {
    match fs::hard_link(rt, from, to) {
        Ok(()) => fs::remove_file(rt, from),
        Err(error) if error.kind() == ErrorKind::AlreadyExists || is_taken(rt, to) => {
            Err(io::Error::from(ErrorKind::AlreadyExists))
        }
        Err(_) => fs::rename(rt, from, to),
    }
}

/// How often an interrupted write is tried again.
const TRIES: u32 = 1_000;

/// Writes, and writes again where that was interrupted.
fn write_on(file: &mut File, piece: &[u8]) -> io::Result<usize> {
    for _ in 0..TRIES {
        match file.write(piece) {
            Err(error) if error.kind() == ErrorKind::Interrupted => {}
            answer => return answer,
        }
    }
    file.write(piece)
}

/// A file that is made by its first write, or by its end.
#[derive(Drop)]
pub(crate) struct OutFile<'r> {
    rt: &'r HostRuntime,
    path: String,
    file: Option<File>,
    /// What the system said of the last write that failed.
    said: Option<Reason>,
    faults: u64,
}

impl<'r> OutFile<'r> {
    /// A file that isn't made yet.
    pub(crate) fn new(rt: &'r HostRuntime, path: &str) -> Result<OutFile<'r>, AllocError> {
        Ok(OutFile {
            rt,
            path: String::from_str(rt.alloc(), path)?,
            file: None,
            said: None,
            faults: 0,
        })
    }

    /// Writes the first bytes of a piece, into the file that is made by the first of them.
    fn write_piece(&mut self, piece: &[u8]) -> io::Result<usize>
        ensures { self.new.faults ≡ self.old.faults }
    {
        if let Some(file) = &mut self.file {
            return write_on(file, piece);
        }
        let mut file = make(self.rt, self.path.as_str())?;
        let written = write_on(&mut file, piece);
        self.file = Some(file);
        written
    }

    /// Moves the file to a path; it is made where nothing was written.
    fn move_to(&self, path: &str, writes_over: bool) -> io::Result<()> {
        if self.file.is_none() {
            make(self.rt, self.path.as_str())?;
        }
        if writes_over {
            fs::rename(self.rt, self.path.as_str(), path)
        } else {
            move_beside(self.rt, self.path.as_str(), path)
        }
    }

    /// Moves the file to a path, or takes it away.
    pub(crate) fn close(self, path: &str, writes_over: bool) -> Result<(), Reason> {
        match self.move_to(path, writes_over) {
            Ok(()) => Ok(()),
            Err(error) => {
                let _ = fs::remove_file(self.rt, self.path.as_str());
                Err(reason_of(self.rt.alloc(), &error))
            }
        }
    }

    /// Takes away what was written, and tells why the last write failed.
    pub(crate) fn give_up(self) -> Reason {
        let OutFile {
            rt,
            path,
            file,
            said,
            ..
        } = self;
        if file.is_some() {
            // Where it can't be taken away, it stays until the next run.
            let _ = fs::remove_file(rt, path.as_str());
        }
        said.unwrap_or(Reason::Memory)
    }
}

impl Sink for OutFile<'_> {
    ghost use Rattle.std.specs.Prelude.{None};

    ghost state = { λ s. record { written = None; faults = s.faults; takes = λ _. ⊥ } };

    fn write(&mut self, piece: &[u8]) -> Result<usize, WriteFault> {
        let error = match self.write_piece(piece) {
            Ok(count) if 0 < count && count <= piece.len() => return Ok(count),
            Ok(_) => io::Error::from(ErrorKind::WriteZero),
            Err(error) => error,
        };
        self.said = Some(reason_of(self.rt.alloc(), &error));
        self.faults = self.faults.saturating_add(1);
        Err(WriteFault)
    }
}
