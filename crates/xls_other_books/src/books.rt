//! What is linked, with its sheets and names.

ghost use Rattle.std.specs.Prelude.{◌≡◌};
ghost use Rattle.std.specs.Option.{option_map};
ghost use Rattle.xls_other_books.specs.Books.{is_book, is_nothing};
ghost use Rattle.xls_other_books.specs.Texts.{kind_text};

use crate::damage::Damage;

/// The kind of what is linked.
#[derive(Clone, Copy, Debug, PartialEq, Eq)]
pub enum Linked {
    /// This workbook, nothing, or what couldn't be read.
    Nothing,
    /// Added functions, as of an add-in.
    Functions,
    /// Another workbook.
    Book,
    /// A program, with a topic.
    Program,
}

/// The word for the kind of a workbook or a program; none where neither is linked.
pub fn kind_word(linked: Linked) -> Option<&'static str>
    ensures { option_map (λ word. word.now) result ≡ kind_text linked }
{
    match linked {
        Linked::Nothing | Linked::Functions => None,
        Linked::Book => Some("book"),
        Linked::Program => Some("dde"),
    }
}

/// Whether nothing is linked.
pub(crate) fn is_nothing(linked: Linked) -> bool
    ensures { result ≡ is_nothing linked }
{
    matches!(linked, Linked::Nothing)
}

/// Whether another workbook is linked.
pub(crate) fn is_book(linked: Linked) -> bool
    ensures { result ≡ is_book linked }
{
    matches!(linked, Linked::Book)
}

/// What is linked: another workbook or a program, added functions, or nothing.
#[derive(Drop)]
pub struct Book {
    pub linked: Linked,
    /// Its path; of a program its name. Empty where it is neither.
    pub path: String,
    /// The topic of a program, else empty.
    pub topic: String,
    /// Its sheets. None of what is neither a workbook nor a program.
    pub sheets: Vec<String>,
    /// Its names, or the added functions, in the order of their records, damaged ones among them. None where nothing is
    /// linked.
    pub names: Vec<Result<String, Damage>>,
    /// What is wrong with its record, to be told behind the names.
    pub damage: Option<Damage>,
}
