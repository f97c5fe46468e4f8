//! Code pages by tables: DOS, Windows, Macintosh, KOI8, ISO 8859, and the pages of pairs 932, 936, 949 and 950.
#![tactic(auto)]

mod dos;
mod double;
mod iso;
mod laws;
mod macintosh;
mod page;
mod pairs_932;
mod pairs_936;
mod pairs_949;
mod pairs_950;
mod single;
mod windows;

pub use double::DoublePage;
pub use laws::no_ascii_is_lost;
pub use page::CodePage;
pub use single::SinglePage;
