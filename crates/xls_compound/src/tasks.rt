//! What is still to be read of a tree.

use crate::directory_entry::Entry;

/// The tree that a number leads to, or an entry whose left is read: itself, its children, its right.
#[derive(Drop)]
pub(crate) enum Task<'a> {
    Tree {
        number: u32,
        parent: Option<usize>,
    },
    Rest {
        entry: Entry<'a>,
        parent: Option<usize>,
    },
}
