//! What the program reads and writes by.

ghost use Rattle.std.specs.Prelude.{◌≡◌, ◌≢◌, ℕ, Bool, List, Option, Some, None, IfOk, IfErr, codes};
ghost use Rattle.xls_files.specs.Files.{Begins, HostFiles, IsEmpty, Places};
ghost use Rattle.xls_files.specs.Reads.{Stays};
ghost use Rattle.xls_files.specs.declared.host.Place.TheVariants.{File};
ghost use Rattle.xls_files.specs.declared.host.Reason.TheVariants.{Memory};

use std::alloc::AllocError;
use std::fmt;
use xls_output::Sink;

/// Why something can't be read or written.
#[derive(Debug, Drop)]
pub enum Reason {
    /// Memory ran out.
    Memory,
    /// Something stands there that isn't to be replaced.
    Exists,
    /// What the system says.
    Reported(String),
}

impl fmt::Display for Reason {
    ghost use Rattle.std.specs.Prelude.{Some};
    ghost use Rattle.xls_files.specs.Reasons.{reason_text};

    ghost output = { λ reason. Some (reason_text reason) };

    fn fmt<W: fmt::Write>(&self, f: &mut fmt::Formatter<W>) -> fmt::Result {
        match self {
            Reason::Memory => f.write_str("out of memory"),
            Reason::Exists => f.write_str("File exists"),
            Reason::Reported(text) => write!(f, "{text}"),
        }
    }
}

impl From<AllocError> for Reason {
    ghost from_gives = { λ _ e. e ≡ Memory };

    fn from(_: AllocError) -> Reason {
        Reason::Memory
    }
}

/// What stands at a path, links followed.
#[derive(Clone, Copy, Debug, PartialEq, Eq)]
pub enum Place {
    /// A regular file.
    File,
    Folder,
    /// A pipe, a device, a socket.
    Other,
}

/// What is known of a name in a folder.
#[derive(Clone, Copy, Debug, PartialEq, Eq, PartialOrd, Ord)]
pub enum Kind {
    /// A regular file, or a link to one.
    File,
    /// A folder, and no link to one.
    Folder,
    /// It can't be looked at.
    Unseen,
}

/// What stands in a folder. Its order is by name.
#[derive(Debug, PartialEq, Eq, PartialOrd, Ord, Drop)]
pub struct Listed {
    /// None where it isn't UTF-8.
    pub name: Option<String>,
    pub kind: Kind,
}

/// The name of a file in a list.
#[derive(Debug, Drop)]
pub enum Name {
    Text(String),
    /// It isn't UTF-8.
    Unnamed,
}

/// Where files are read and written. Standard output is a sink apart from it.
pub trait Host {
    /// What it may find at a path: the bytes of a file, or None where there is no file that it can read. `-` is
    /// standard input.
    ghost reads: { Self → List ℕ → Option (List ℕ) → Type 0 };

    /// The files that it was told to make: a host tells of some, or of none.
    ghost files: { Self → HostFiles Self.File };

    /// Whether its files tell what they hold.
    ghost tells: { Bool };

    /// A file that is written. Its first write makes it, or its end.
    type File: Sink + Drop;

    /// What stands at a path.
    fn place(&mut self, path: &str) -> Result<Place, Reason>
        ensures place { IfOk result (λ place. place ≢ File → reads self.new path.now None) }
        ensures reason { IfErr result (λ reason. reason ≢ Memory → reads self.new path.now None) }
        ensures stays { Stays (reads self.old) (reads self.new) }
        ensures files { files self.new ≡ files self.old };

    /// The folders and regular files in a folder, and what can't be looked at, in any order.
    fn list(&mut self, folder: &str) -> Result<Vec<Listed>, Reason>
        ensures { files self.new ≡ files self.old };

    /// The bytes of a file.
    fn read(&mut self, path: &str) -> Result<Vec<u8>, Reason>
        ensures bytes { IfOk result (λ bytes. reads self.old path.now (Some bytes.items)) }
        ensures reason { IfErr result (λ reason. reason ≢ Memory → reads self.old path.now None) }
        ensures files { files self.new ≡ files self.old };

    /// The bytes of standard input.
    fn read_input(&mut self) -> Result<Vec<u8>, Reason>
        ensures bytes { IfOk result (λ bytes. reads self.old (codes "-") (Some bytes.items)) }
        ensures reason { IfErr result (λ reason. reason ≢ Memory → reads self.old (codes "-") None) }
        ensures files { files self.new ≡ files self.old };

    /// The next name of a list, which stands in a file, or on standard input where that is `-`. None at its end.
    fn next_name(&mut self, list: &str, by_nul: bool) -> Result<Option<Name>, Reason>
        ensures { files self.new ≡ files self.old };

    /// Whether anything stands at a path. A link does, whatever it leads to.
    fn is_taken(&mut self, path: &str) -> bool
        ensures { files self.new ≡ files self.old };

    /// Begins a file of this path, in folders that are made with it. What stands there is lost.
    fn create(&mut self, path: &str) -> Result<Self::File, Reason>
        ensures empty { IfOk result (λ file. IsEmpty tells (Self.File.state file)) }
        ensures files { Begins path.now (files self.old) (files self.new) result };

    /// Ends a file, no write of which failed, and moves it to this path at once: either all of it stands there, or what
    /// stood there before, and the file is taken away. What stands there is replaced only where that is said, else it
    /// is `Exists`.
    fn close(&mut self, file: Self::File, path: &str, writes_over: bool) -> Result<(), Reason>
        ensures { Places (record { file = file; path = path.now; over = writes_over }) (files self.old) (files self.new) result };

    /// Takes a file away, as far as that can be done. Why its last write failed, if one did.
    fn give_up(&mut self, file: Self::File) -> Reason
        ensures { files self.new ≡ files self.old };

    /// Tells a line on standard error.
    fn say(&mut self, line: &str)
        ensures { files self.new ≡ files self.old };

    /// Whether standard error is a terminal.
    fn shows(&self) -> bool;

    /// Shows how far the work is, in place of what was shown before. Only a terminal is shown it; what is told takes
    /// its place, and before a line of standard output nothing is shown.
    fn show(&mut self, progress: &str)
        ensures { files self.new ≡ files self.old };
}

/// What stands at a path; `-` is standard input, which is read as a file.
pub fn place_of<H: Host>(host: &mut H, path: &str) -> Result<Place, Reason>
    ensures place { IfOk result (λ place. place ≢ File → H.reads host.new path.now None) }
    ensures reason { IfErr result (λ reason. reason ≢ Memory → H.reads host.new path.now None) }
    ensures stays { Stays (H.reads host.old) (H.reads host.new) }
    ensures files { H.files host.new ≡ H.files host.old }
{
    if path == "-" {
        return Ok(Place::File);
    }
    host.place(path)
}
