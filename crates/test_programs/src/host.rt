//! A host in memory.

use crate::files::FILES;
use std::alloc::{AllocError, Global};
use xls_tool::{Host, Kind, Listed, Name, Place, Reason, Sink, WriteFault};

/// A file that is written.
#[derive(Drop)]
pub struct MemoryFile {
    path: String,
    text: Vec<u8>,
    faults: u64,
}

impl Sink for MemoryFile {
    ghost use Rattle.std.specs.Prelude.{None};

    ghost state = { λ s. record { written = None; faults = s.faults; takes = λ _. ⊥ } };

    fn write(&mut self, piece: &[u8]) -> Result<usize, WriteFault> {
        match self.text.extend_from_slice(piece) {
            Ok(()) => Ok(piece.len()),
            Err(_) => {
                self.faults = self.faults.saturating_add(1);
                Err(WriteFault)
            }
        }
    }
}

/// The files of the tests, what is written beside them, and what is told.
#[derive(Drop)]
pub struct MemoryHost {
    alloc: Global,
    /// What standard input holds, and the names of a list, the next one last.
    pub input: &'static [&'static [u8]],
    pub names: Vec<&'static str>,
    /// Each line that is told, and each file that is written: its path, an equals sign and its text.
    pub said: String,
    pub written: String,
}

fn reported(alloc: Global, text: &str) -> Result<Reason, AllocError> {
    Ok(Reason::Reported(String::from_str(alloc, text)?))
}

fn reason(alloc: Global, text: &str) -> Reason {
    match reported(alloc, text) {
        Ok(reason) => reason,
        Err(_) => Reason::Memory,
    }
}

fn joined(alloc: Global, parts: &[&[u8]]) -> Result<Vec<u8>, Reason> {
    let mut bytes = Vec::new(alloc);
    for part in parts {
        bytes.extend_from_slice(part)?;
    }
    Ok(bytes)
}

/// What stands below a folder, by a path from it on.
fn below<'p>(path: &'p str, folder: &str) -> Option<&'p str> {
    match path.strip_prefix(folder) {
        Some(rest) => rest.strip_prefix('/'),
        None => None,
    }
}

/// What a path from a folder on says of the folder.
fn listed(alloc: Global, rest: &str) -> Result<Listed, AllocError> {
    let (name, kind) = match rest.split_once('/') {
        Some((folder, _)) => (folder, Kind::Folder),
        None => (rest, Kind::File),
    };
    Ok(Listed {
        name: Some(String::from_str(alloc, name)?),
        kind,
    })
}

/// What stands in a folder; a folder in it once for each file below that.
fn list_of(alloc: Global, folder: &str) -> Result<Vec<Listed>, AllocError> {
    let mut all = Vec::new(alloc);
    for (file, _) in FILES.iter() {
        if let Some(rest) = below(file, folder) {
            all.push(listed(alloc, rest)?)?;
        }
    }
    Ok(all)
}

impl MemoryHost {
    pub fn new(alloc: Global) -> MemoryHost {
        MemoryHost {
            alloc,
            input: &[],
            names: Vec::new(alloc),
            said: String::new(alloc),
            written: String::new(alloc),
        }
    }

    /// Keeps what was written into a file: its path, from that of its part on where it has one.
    fn keep(&mut self, file: &MemoryFile, path: &str) -> Result<(), AllocError> {
        self.written.push_str(path)?;
        if file.path.as_str().strip_suffix(".part") != Some(path) {
            self.written.push_str(" from ")?;
            self.written.push_str(file.path.as_str())?;
        }
        self.written.push('=')?;
        self.written
            .push_str(String::from_utf8_lossy(self.alloc, &file.text)?.as_str())?;
        Ok(())
    }

    fn keep_line(&mut self, line: &str) -> Result<(), AllocError> {
        self.said.push_str(line)?;
        self.said.push('\n')
    }
}

impl Host for MemoryHost {
    ghost use Rattle.std.specs.Prelude.{[], false};

    ghost reads = { λ _ _ _. Unit {0} };

    ghost files = { λ _. record { begun = []; placed = [] } };

    ghost tells = { false };

    type File = MemoryFile;

    fn place(&mut self, path: &str) -> Result<Place, Reason> {
        if path == "pipe" {
            return Ok(Place::Other);
        }
        for (file, _) in FILES.iter() {
            if *file == path {
                return Ok(Place::File);
            }
            if below(file, path).is_some() {
                return Ok(Place::Folder);
            }
        }
        Err(reason(self.alloc, "not found"))
    }

    fn list(&mut self, folder: &str) -> Result<Vec<Listed>, Reason> {
        Ok(list_of(self.alloc, folder)?)
    }

    fn read(&mut self, path: &str) -> Result<Vec<u8>, Reason> {
        for (file, parts) in FILES.iter() {
            if *file == path {
                return joined(self.alloc, parts);
            }
        }
        Err(reason(self.alloc, "not found"))
    }

    fn read_input(&mut self) -> Result<Vec<u8>, Reason> {
        joined(self.alloc, self.input)
    }

    fn next_name(&mut self, _list: &str, _by_nul: bool) -> Result<Option<Name>, Reason> {
        match self.names.pop() {
            Some(name) => Ok(Some(Name::Text(String::from_str(self.alloc, name)?))),
            None => Ok(None),
        }
    }

    fn is_taken(&mut self, path: &str) -> bool {
        self.place(path).is_ok()
    }

    fn create(&mut self, path: &str) -> Result<MemoryFile, Reason> {
        Ok(MemoryFile {
            path: String::from_str(self.alloc, path)?,
            text: Vec::new(self.alloc),
            faults: 0,
        })
    }

    fn close(&mut self, file: MemoryFile, path: &str, writes_over: bool) -> Result<(), Reason> {
        if !writes_over && self.is_taken(path) {
            return Err(Reason::Exists);
        }
        self.keep(&file, path)?;
        Ok(())
    }

    fn give_up(&mut self, _file: MemoryFile) -> Reason {
        Reason::Memory
    }

    fn say(&mut self, line: &str) {
        let _ = self.keep_line(line);
    }

    fn shows(&self) -> bool {
        false
    }

    fn show(&mut self, _progress: &str) {}
}
