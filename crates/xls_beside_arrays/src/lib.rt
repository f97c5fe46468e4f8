//! What a workbook has beside its values, counted and put into arrays that the caller owns: what is hidden in its sheets,
//! how cells look, comments and links, and the other workbooks that it refers to.
#![tactic(auto)]

mod books;
mod cell_styles;
mod comments;
mod damage;
mod ending;
mod hidden;
mod items;
mod links;
mod opening;
mod outside;
mod rooms;
mod style_numbers;
mod styles;

pub use books::read_books;
pub use cell_styles::read_cell_styles;
pub use comments::read_comments;
pub use hidden::read_hidden_runs;
pub use items::{
    BookItem, BorderItem, CellStyleItem, CommentItem, Counts, DamageItem, HiddenRunItem, LinkItem,
    OutsideItem, StyleItem,
};
pub use links::read_links;
pub use outside::read_outside;
pub use styles::read_styles;
