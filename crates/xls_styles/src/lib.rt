//! How the cells of a workbook look, by the records of its globals: fonts, formats of cells, codes of number formats and
//! the palette, with the words for them.
#![tactic(auto)]

mod alignments;
mod borders;
mod codes;
mod colors;
mod damage;
mod fields;
mod fills;
mod fonts;
mod formats;
mod marks;
mod places;
mod sizes;
mod styles;
pub mod types;
mod words;
mod xfs;

pub use alignments::{Alignment, alignment_text};
pub use borders::{Border, Borders, LineStyle, borders_text};
pub use colors::Color;
pub use damage::{Damage, DamagedRecord, Flaw};
pub use fills::{Fill, fill_text};
pub use fonts::{FontMarks, Script, Underline};
pub use marks::{Protection, cell_marks_text, font_marks_text};
pub use sizes::Size;
pub use styles::{CellStyle, FontStyle, Styles};

#[cfg(test)]
mod tests;
