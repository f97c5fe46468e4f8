//! What the bytes of a workbook stream say: what is in force, what each record gives, the reading of the
//! list that they carry, and their first fault. These are definitions (`specs/`), with laws over them.
#![tactic(auto)]

mod laws;

pub use laws::{one_first_fault, regions_by_name, sound_where_full};
