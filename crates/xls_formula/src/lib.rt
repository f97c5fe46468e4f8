//! Formulas and defined names: from token bytes to text; the names of functions.
#![tactic(auto)]

mod defined;
mod effect;
mod ftab;
mod functions;
mod names;
mod numbers;
mod parse;
mod push;
mod put;
mod scope;
mod table;
mod words;

pub use defined::{check_lbl, parse_defined_names, parse_lbl};
pub use effect::{Effect, read_effect};
pub use ftab::{FTAB, FTAB_ARGC, FTAB_LEN};
pub use functions::FunctionTable;
pub use names::Names;
pub use numbers::NumberStyle;
pub use parse::{FormulaTexts, parse_formula, tokens_of};
pub use push::push_functions;
pub use scope::{Scope, sheet_of_reference};
pub use words::Word;
pub use xls_ptg::{RawCite, Token, read_token};
