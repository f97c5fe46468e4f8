//! Files that are whole or not there.

ghost use Rattle.std.specs.Prelude.{◌≡◌, IfOk};
ghost use Rattle.std.specs.String.{string_bytes};
ghost use Rattle.xls_files.specs.Files.{Begins, IsEmpty, part_path};

use crate::host::{Host, Reason};
use std::alloc::{AllocError, Global};

/// The path of the part that a file is written into.
fn part_of(alloc: Global, path: &str) -> Result<String, AllocError>
    ensures { IfOk result (λ part. string_bytes part ≡ part_path path.now) }
{
    let mut part = String::from_str(alloc, path)?;
    part.push_str(".part")?;
    Ok(part)
}

/// Begins the part that the file of a path is written into; `close` moves it there. Nothing changes at the path.
/// `Exists` where something stands there that isn't to be replaced.
pub fn begin<H: Host>(
    alloc: Global,
    host: &mut H,
    path: &str,
    writes_over: bool,
) -> Result<H::File, Reason>
    ensures empty { IfOk result (λ file. IsEmpty H.tells (H.File.state file)) }
    ensures files { Begins (part_path path.now) (H.files host.old) (H.files host.new) result }
{
    if !writes_over && host.is_taken(path) {
        return Err(Reason::Exists);
    }
    let part = part_of(alloc, path)?;
    host.create(part.as_str())
}
