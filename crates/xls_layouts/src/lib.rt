//! Layouts of a string table and of a workbook stream, and the laws over them.
#![tactic(auto)]

mod laws;

pub use laws::{
    canonical_layout, laid_alone, laid_count, laid_fits, laid_stream, laid_strings, laid_texts,
    same_elements, same_tables,
};
