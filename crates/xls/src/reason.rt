//! What the system says.

use std::alloc::{AllocError, Global};
use std::io;
use std::io::ErrorKind;
use xls_tool::Reason;

/// The text of an error, without the number that the system gives it.
fn text_of(alloc: Global, error: &io::Error) -> Result<String, AllocError> {
    let text = format!(in alloc; "{error}")?;
    match text.split_once(" (os error ") {
        Some((said, _)) => String::from_str(alloc, said),
        None => text.clone(),
    }
}

/// Why something can't be read or written.
pub(crate) fn reason_of(alloc: Global, error: &io::Error) -> Reason {
    match error.kind() {
        ErrorKind::OutOfMemory => return Reason::Memory,
        ErrorKind::AlreadyExists => return Reason::Exists,
        _ => {}
    }
    match text_of(alloc, error) {
        Ok(text) => Reason::Reported(text),
        Err(_) => Reason::Memory,
    }
}
