//! What opening the bytes of a source answers, the globals of a stream, and the check of a stream.
#![tactic(auto)]

mod check;
mod classes;
mod formula;
mod globals;
mod globals_record;
mod laws;
mod listed;
mod names;
mod options;
mod settings;

pub use check::{check_sheets_of, check_stream};
pub use classes::classes_of;
pub use formula::FormulaBuffer;
pub use globals::{Globals, read_globals};
pub use laws::{
    checked_alike, laid_checks, laid_opens, laid_sound, one_list_per_stream, pages_hang_on_nothing,
    same_list_same_book,
};
pub use listed::{Lbl, Listed};
pub use names::{Naming, naming_of};
pub use options::{MAX_BYTES, MAX_CELLS, XlsOptions};
pub use settings::Settings;
