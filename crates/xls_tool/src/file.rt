//! Files that are read.

ghost use Rattle.std.specs.Prelude.{◌≡◌, IfOk, IfErr, Some};
ghost use Rattle.xls_tool.specs.Steps.{IsUnread};

use crate::problem::Problem;
use xls_container::Container;
use xls_files::Host;

/// A file that was opened.
#[derive(Drop)]
pub(crate) struct OpenedFile<'f> {
    /// By which it is told of.
    pub path: &'f str,
    pub container: Container<'f>,
}

/// The stream of a file's workbook.
#[derive(Drop)]
pub(crate) struct Workbook<'f> {
    /// The path of the file.
    pub path: &'f str,
    pub stream: &'f [u8],
}

/// The bytes of a file, or of standard input.
pub(crate) fn read<H: Host>(host: &mut H, path: &str) -> Result<Vec<u8>, Problem>
    ensures bytes { IfOk result (λ bytes. H.reads host.old path.now (Some bytes.items)) }
    ensures unread { IfErr result (IsUnread (H.reads host.old path.now)) }
    ensures files { H.files host.new ≡ H.files host.old }
{
    let bytes = if path == "-" {
        host.read_input()
    } else {
        host.read(path)
    };
    match bytes {
        Ok(bytes) => Ok(bytes),
        Err(reason) => Err(Problem::Unread(reason)),
    }
}
