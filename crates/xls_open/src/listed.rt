//! What the globals list: sheets and names.

use xls_data::Sheet;

/// A sheet of the globals, and where its part begins.
#[derive(Drop)]
pub struct Listed {
    pub offset: usize,
    pub sheet: Sheet,
}

/// A name and what it names: the index of a reference, if there is one, and a text.
pub type Lbl = (String, (Option<usize>, String));
