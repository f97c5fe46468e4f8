//! What the items of a date's section stand for.

ghost use Rattle.std.specs.Prelude.{◌≡◌, drop, length};
ghost use Rattle.std.specs.Str.{chars};
ghost use Rattle.xls_shown_dates.specs.Fields.{letter_in, letters, first, letter_after, zeros_after, is_clock_letter, is_seconds_letter, month_or_minutes, letters_field, elapsed_field, zero_field, field_of};
ghost use Rattle.xls_shown_dates.specs.Scans.{LooksAhead};

use xls_number_formats::{Item, Letter, Place, SectionIter};

/// What an item of a date's section stands for.
#[derive(Clone, Copy, Debug, PartialEq, Eq)]
pub enum Field {
    /// It stands for itself.
    Own,
    Year,
    /// The year in four digits.
    FullYear,
    /// The year and 543.
    BuddhistYear,
    /// Nothing.
    Nothing,
    Month,
    Day,
    Hours,
    Minutes,
    Seconds,
    /// Hours since day 0.
    ElapsedHours,
    /// Minutes since day 0.
    ElapsedMinutes,
    /// Seconds since day 0.
    ElapsedSeconds,
    Tenths,
    Hundredths,
    Thousandths,
    /// AM or PM.
    HalfDay,
    /// The letter of AM or PM.
    HalfDayLetter,
}

pub(crate) fn letter_in(item: Item) -> Option<Letter>
    ensures { result ≡ letter_in item }
{
    match item {
        Item::Letters(letter) | Item::Elapsed(letter) => Some(letter),
        _ => None,
    }
}

// The first letters of the items left.
pub(crate) fn next_letter(items: &mut SectionIter<'_, '_>) -> Option<Letter>
    ensures letter { result ≡ first (letters items.old) }
    ensures rest { letters items.new ≡ drop 1 (letters items.old) }
{
    'items: while let Some((item, _)) = items.next() {
        if let Some(letter) = letter_in(item) {
            return Some(letter);
        }
    }
    None
}

// The first letters behind an item, where `behind` were those behind the one before, and `ahead` has
// given them.
pub(crate) fn look_ahead(
    item: Item,
    behind: Option<Letter>,
    ahead: &mut SectionIter<'_, '_>,
) -> Option<Letter>
    ensures { LooksAhead (letter_in item) behind (letters ahead.old) result (letters ahead.new) }
{
    match letter_in(item) {
        Some(_) => next_letter(ahead),
        None => behind,
    }
}

pub(crate) fn letter_after(before: Option<Letter>, item: Item) -> Option<Letter>
    ensures { result ≡ letter_after before item }
{
    match letter_in(item) {
        Some(letter) => Some(letter),
        None => before,
    }
}

// The zeros right behind a point, three at most.
pub(crate) fn zeros_after(zeros: Option<u8>, item: Item) -> Option<u8>
    ensures { result ≡ zeros_after zeros item }
{
    match item {
        Item::Point => Some(0),
        Item::Place(Place::Zero) => match zeros {
            Some(n) if n < 3 => Some(n + 1),
            Some(_) => Some(3),
            None => None,
        },
        Item::Hidden | Item::Condition(_) => zeros,
        _ => None,
    }
}

fn is_clock_letter(letter: Option<Letter>) -> bool
    ensures { result ≡ is_clock_letter letter }
{
    matches!(letter, Some(Letter::H | Letter::S))
}

fn is_seconds_letter(letter: Option<Letter>) -> bool
    ensures { result ≡ is_seconds_letter letter }
{
    matches!(letter, Some(Letter::S))
}

// Letters m, so many.
fn month_or_minutes(before: Option<Letter>, behind: Option<Letter>, count: usize) -> Field
    ensures { result ≡ month_or_minutes before behind count }
{
    if count <= 2 && (is_clock_letter(before) || is_seconds_letter(behind)) {
        Field::Minutes
    } else {
        Field::Month
    }
}

fn letters_field(
    before: Option<Letter>,
    behind: Option<Letter>,
    letter: Letter,
    count: usize,
) -> Field
    ensures { result ≡ letters_field before behind letter count }
{
    match letter {
        Letter::Y => Field::Year,
        Letter::M => month_or_minutes(before, behind, count),
        Letter::D => Field::Day,
        Letter::H => Field::Hours,
        Letter::S => Field::Seconds,
        Letter::E => Field::FullYear,
        Letter::B => Field::BuddhistYear,
        Letter::G => Field::Nothing,
    }
}

fn elapsed_field(letter: Letter) -> Field
    ensures { result ≡ elapsed_field letter }
{
    match letter {
        Letter::H => Field::ElapsedHours,
        Letter::M => Field::ElapsedMinutes,
        Letter::S => Field::ElapsedSeconds,
        _ => Field::Own,
    }
}

// A zero behind so many others.
fn zero_field(zeros: Option<u8>) -> Field
    ensures { result ≡ zero_field zeros }
{
    match zeros {
        Some(0) => Field::Tenths,
        Some(1) => Field::Hundredths,
        Some(2) => Field::Thousandths,
        _ => Field::Own,
    }
}

// The number of characters.
pub(crate) fn char_count(text: &str) -> usize
    ensures { result ≡ length (chars text.now) }
{
    text.chars().count()
}

// What an item stands for, under the letters before and behind it, and the zeros before it.
pub(crate) fn field_of(
    before: Option<Letter>,
    behind: Option<Letter>,
    zeros: Option<u8>,
    item: Item,
    own: &str,
) -> Field
    ensures { result ≡ field_of before behind zeros item (length (chars own.now)) }
{
    match item {
        Item::Letters(letter) => letters_field(before, behind, letter, char_count(own)),
        Item::Elapsed(letter) => elapsed_field(letter),
        Item::Place(Place::Zero) => zero_field(zeros),
        Item::AmPm => Field::HalfDay,
        Item::AP => Field::HalfDayLetter,
        Item::Text => Field::Nothing,
        _ => Field::Own,
    }
}
