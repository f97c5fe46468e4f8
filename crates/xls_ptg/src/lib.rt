//! The tokens of formulas, [MS-XLS] 2.5.198: what each is by its bytes and the code tables. Takes no
//! memory.
#![tactic(auto)]

mod attributes;
mod cite;
mod constants;
mod control;
mod corner;
mod fields;
mod functions;
mod named;
mod operators;
mod read;
mod references;
mod references3d;
mod strings;
mod tokens;

pub use cite::{RawCite, Token, read_token};
pub use corner::Corner;
pub use fields::{is_biff8, short, word_at};
pub use operators::Operator;
pub use read::read_ptg;
pub use references3d::{area3d_corners, area3d_size, ixti, ref3d_corner, ref3d_size};
pub use strings::split_no_cch;
pub use tokens::Ptg;
