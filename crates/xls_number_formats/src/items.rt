//! What the items of a code are.

/// A place for a digit.
#[derive(Clone, Copy, Debug, PartialEq, Eq)]
pub enum Place {
    /// `0`: without a digit it shows 0.
    Zero,
    /// `#`: without a digit it shows nothing.
    Hash,
    /// `?`: without a digit it shows a blank.
    Question,
}

/// A letter that stands for a part of a date.
#[derive(Clone, Copy, Debug, PartialEq, Eq)]
pub enum Letter {
    /// The year.
    Y,
    /// The month, or minutes beside hours or seconds.
    M,
    /// The day.
    D,
    /// Hours.
    H,
    /// Seconds.
    S,
    /// The year of an era.
    E,
    /// The Buddhist year.
    B,
    /// The name of an era.
    G,
}

/// How a condition compares a number with its own.
#[derive(Clone, Copy, Debug, PartialEq, Eq)]
pub enum Comparison {
    /// `<`
    Below,
    /// `>`
    Above,
    /// `=`
    Same,
    /// `<=`
    AtMost,
    /// `>=`
    AtLeast,
    /// `<>`
    Other,
}

/// A condition of a section, as `[<=100]`.
#[derive(Clone, Copy, Debug)]
pub struct Condition {
    pub comparison: Comparison,
    /// The double nearest to the decimal number of the code.
    pub bound: f64,
}

/// What an item of a code is. Each comes with the text that it shows where it stands for itself.
#[derive(Clone, Copy, Debug)]
pub enum Item {
    /// Quoted text, an escaped character, `_` and a character (a blank), `*` and a character
    /// (nothing), the symbol of a currency, or any character that has no other meaning.
    Literal,
    /// A bracket that shows nothing: a colour, a locale, one that isn't known.
    Hidden,
    /// A bracket with a condition.
    Condition(Condition),
    /// A bracket of one letter of `h`, `m` and `s`, once or more: elapsed time. Its text is the letters.
    Elapsed(Letter),
    Place(Place),
    /// `.`
    Point,
    /// `,`
    Comma,
    /// `%`
    Percent,
    /// `/`
    Slash,
    /// `@`
    Text,
    /// `E` or `e` and a sign, behind a place of the section; whether the sign is `+`.
    Exponent(bool),
    /// `General`
    General,
    /// `AM/PM`
    AmPm,
    /// `A/P`
    AP,
    /// A letter of a date, once or more.
    Letters(Letter),
    /// A digit from 1 to 9.
    Digit,
}
