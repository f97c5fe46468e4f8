//! Numbers in the bytes of a workbook stream, whole numbers in the bits of doubles, the names of
//! columns, characters, and texts with escapes.
#![tactic(auto)]

mod characters;
mod columns;
mod doubles;
mod escapes;
mod laws;
mod numbers;

pub use characters::{first_char, split_at_first};
pub use columns::push_column;
pub use doubles::{trunc_checked_of_bits, trunc_of_bits, whole_of_bits};
pub use escapes::push_escaped;
pub use laws::column_names;
pub use numbers::{
    U32s, read_bits, read_i16, read_i32, read_u16, read_u32, read_u64, read_usize, to_u32,
};
