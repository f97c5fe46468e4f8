//! The codes of number formats: their items, their sections, and which section a number is shown by.
#![tactic(auto)]

mod brackets;
mod builtins;
mod choices;
mod classes;
mod formats;
mod heads;
mod items;
mod laws;
mod section_items;
mod sections;
mod shown_texts;
mod texts;
mod walk;

pub use builtins::built_in_code;
pub use choices::Choice;
pub use classes::{Class, class_of};
pub use formats::Format;
pub use items::{Comparison, Condition, Item, Letter, Place};
pub use laws::items_spell_the_code;
pub use section_items::{SectionItems, SectionIter};
pub use sections::{Kind, Section, read_section};
pub use shown_texts::{push_shown_text, texts_code};
pub use walk::Items;
