//! What stands at a path, and in a folder.

use std::fs::Metadata;
use std::io::ErrorKind;
use std::{fs, io};
use xls_tool::{Kind, Listed, Place};

/// What stands there.
fn place_in(metadata: &Metadata) -> Place {
    if metadata.is_file() {
        Place::File
    } else if metadata.is_dir() {
        Place::Folder
    } else {
        Place::Other
    }
}

/// What stands at a path, links followed.
pub(crate) fn place_at(rt: &HostRuntime, path: &str) -> io::Result<Place> {
    Ok(place_in(&fs::metadata(rt, path)?))
}

/// Whether anything stands at a path. A link does, whatever it leads to.
pub(crate) fn is_taken(rt: &HostRuntime, path: &str) -> bool {
    fs::symlink_metadata(rt, path).is_ok()
}

/// What a link in a folder is taken for: one that leads to a folder is passed by, and one that can't be followed is a
/// file, so that reading it says why.
fn kind_linked(rt: &HostRuntime, path: &str) -> Option<Kind> {
    match place_at(rt, path) {
        Ok(Place::File) | Err(_) => Some(Kind::File),
        Ok(Place::Folder | Place::Other) => None,
    }
}

/// What stands at a path in a folder, if it is listed. An error where the folder isn't entered.
fn kind_listed(rt: &HostRuntime, path: &str) -> io::Result<Option<Kind>> {
    let metadata = match fs::symlink_metadata(rt, path) {
        Ok(metadata) => metadata,
        Err(error) if error.kind() == ErrorKind::PermissionDenied => return Err(error),
        Err(_) => return Ok(Some(Kind::Unseen)),
    };
    if metadata.is_symlink() {
        return Ok(kind_linked(rt, path));
    }
    Ok(match place_in(&metadata) {
        Place::File => Some(Kind::File),
        Place::Folder => Some(Kind::Folder),
        Place::Other => None,
    })
}

/// What is told of a name in a folder, if it is listed.
fn listed(rt: &HostRuntime, path: &str, name: &str) -> io::Result<Option<Listed>> {
    let Some(kind) = kind_listed(rt, path)? else {
        return Ok(None);
    };
    let name = Some(String::from_str(rt.alloc(), name)?);
    Ok(Some(Listed { name, kind }))
}

/// The folders and regular files in a folder, and what can't be looked at.
pub(crate) fn list_at(rt: &HostRuntime, folder: &str) -> io::Result<Vec<Listed>> {
    let mut all = Vec::new(rt.alloc());
    for entry in fs::read_dir(rt, folder)? {
        match entry {
            Ok(entry) => {
                if let Some(found) = listed(rt, entry.path().as_str(), entry.file_name())? {
                    all.push(found)?;
                }
            }
            Err(error) if error.kind() == ErrorKind::InvalidFilename => {
                all.push(Listed {
                    name: None,
                    kind: Kind::Unseen,
                })?;
            }
            Err(error) => return Err(error),
        }
    }
    Ok(all)
}
