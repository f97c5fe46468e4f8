//! The tokens of formulas as Excel shows them, [MS-XLS] 2.5.198: what each is by its bytes and the code tables, the
//! values of constant arrays, and the counts of operands. Takes no memory.
#![tactic(auto)]

mod areas;
mod arrays;
mod attributes;
mod counts;
mod extra;
mod fault;
mod fields;
mod links;
mod read;
mod tokens;

pub use arrays::{ArraySize, SerAr, read_array_size, read_ser_ar};
pub use counts::operand_count;
pub use extra::{after_elf, after_mem_area};
pub use fault::Fault;
pub use read::read_shown_ptg;
pub use tokens::{NameLink, SheetLink, ShownPtg, Space, SpacePlace};
