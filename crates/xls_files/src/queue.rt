//! Files and folders that are still to be answered.

ghost use Rattle.std.specs.Prelude.{◌≡◌};

use crate::host::{Host, Kind, Listed, Place, Reason, place_of};
use crate::paths::{is_workbook, joined};
use std::alloc::{AllocError, Global};

/// What is still to be answered.
#[derive(Drop)]
enum Item {
    /// What stands there isn't known yet.
    Unseen(String),
    File(String),
    Folder(String),
    /// A name in this folder that isn't UTF-8.
    Unnamed(String),
}

/// What stands at the path of a name in a folder.
fn item_of(kind: Kind, path: String) -> Item {
    match kind {
        Kind::File => Item::File(path),
        Kind::Folder => Item::Folder(path),
        Kind::Unseen => Item::Unseen(path),
    }
}

/// What comes next.
#[derive(Drop)]
pub enum Next {
    /// A regular file, or standard input.
    File(String),
    /// What is no regular file.
    Irregular(String),
    /// A folder that can't be listed, or a file that isn't there.
    Unread(String, Reason),
    /// A name in this folder that isn't UTF-8.
    Unnamed(String),
}

/// Files and folders that are still to be answered, the next one last.
#[derive(Drop)]
pub struct Queue {
    alloc: Global,
    left: Vec<Item>,
}

impl Queue {
    pub fn new(alloc: Global) -> Queue {
        Queue {
            alloc,
            left: Vec::new(alloc),
        }
    }

    /// Puts a file or folder before those that are left.
    pub fn give(&mut self, path: &str) -> Result<(), AllocError> {
        let path = String::from_str(self.alloc, path)?;
        self.left.push(Item::Unseen(path))?;
        Ok(())
    }

    /// Puts what stands in a folder before what is left, if it is a workbook, a folder, or isn't known.
    fn put(&mut self, folder: &str, listed: Listed) -> Result<(), AllocError> {
        let Listed { name, kind } = listed;
        let item = match name {
            None => Item::Unnamed(String::from_str(self.alloc, folder)?),
            Some(name) if kind != Kind::File || is_workbook(name.as_str()) => {
                item_of(kind, joined(self.alloc, folder, name.as_str())?)
            }
            Some(_) => return Ok(()),
        };
        self.left.push(item)?;
        Ok(())
    }

    /// Puts all that stands in a folder before what is left, by name.
    fn put_all(&mut self, folder: &str, mut listed: Vec<Listed>) -> Result<(), AllocError> {
        listed.sort()?;
        for item in listed.into_iter().rev() {
            self.put(folder, item)?;
        }
        Ok(())
    }

    /// Takes a folder: what stands in it comes next.
    fn take_folder<H: Host>(
        &mut self,
        host: &mut H,
        folder: String,
    ) -> Result<Option<Next>, AllocError>
        ensures { H.files host.new ≡ H.files host.old }
    {
        match host.list(folder.as_str()) {
            Ok(listed) => {
                self.put_all(folder.as_str(), listed)?;
                Ok(None)
            }
            Err(reason) => Ok(Some(Next::Unread(folder, reason))),
        }
    }

    /// Takes what was given.
    fn take_named<H: Host>(
        &mut self,
        host: &mut H,
        path: String,
    ) -> Result<Option<Next>, AllocError>
        ensures { H.files host.new ≡ H.files host.old }
    {
        match place_of(host, path.as_str()) {
            Ok(Place::File) => Ok(Some(Next::File(path))),
            Ok(Place::Folder) => self.take_folder(host, path),
            Ok(Place::Other) => Ok(Some(Next::Irregular(path))),
            Err(reason) => Ok(Some(Next::Unread(path, reason))),
        }
    }

    /// Takes an item: it comes next, or what stands in it does.
    fn take<H: Host>(&mut self, host: &mut H, item: Item) -> Result<Option<Next>, AllocError>
        ensures { H.files host.new ≡ H.files host.old }
    {
        match item {
            Item::Unseen(path) => self.take_named(host, path),
            Item::File(path) => Ok(Some(Next::File(path))),
            Item::Folder(path) => self.take_folder(host, path),
            Item::Unnamed(folder) => Ok(Some(Next::Unnamed(folder))),
        }
    }

    /// The next file, or what can't be read.
    pub fn next<H: Host>(&mut self, host: &mut H) -> Result<Option<Next>, AllocError>
        ensures { H.files host.new ≡ H.files host.old }
    {
        'items: for _ in 0..u64::MAX {
            let Some(item) = self.left.pop() else {
                return Ok(None);
            };
            if let Some(next) = self.take(host, item)? {
                return Ok(Some(next));
            }
        }
        Ok(None)
    }
}
