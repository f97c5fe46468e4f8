//! What the fields of a date's section show of a moment.

ghost use Rattle.std.specs.Prelude.{◌≡◌, ◌≤◌, ◌<◌, ◌^◌, ◌++◌, length, take, replicate, codes, if◌then◌else◌, true, false, MatchOption, OnOk, OnErr};
ghost use Rattle.std.specs.Str.{chars, IsAscii};
ghost use Rattle.std.specs.String.{string_bytes};
ghost use Rattle.std.specs.List.{list_any, before_first, after_first};
ghost use Rattle.xls_bytes.specs.Growth.{IsGrown};
ghost use Rattle.xls_bytes.specs.Characters.{is};
ghost use Rattle.xls_shown_dates.specs.Texts.{padded, year_text, month_name, month_text, day_name, day_text, all_hours, all_minutes, all_seconds, time_text, hour_shown, is_morning, field_text, section_text};
ghost use Rattle.xls_shown_dates.specs.Shown.{shown_text};

use crate::clocks::Clock;
use crate::fields::{
    Field, char_count, field_of, letter_after, look_ahead, next_letter, zeros_after,
};
use crate::moments::Moment;
use std::alloc::AllocError;
use xls_bytes::split_at_first;
use xls_number_formats::SectionItems;

// A number in at least so many digits, or a text.
#[derive(Clone, Copy)]
enum Shown<'a> {
    Number(usize, u64),
    Text(&'a str),
}

fn month_name<'a>(month: u8) -> &'a str
    ensures exact { result.now ≡ month_name month }
    ensures ascii { IsAscii result.now }
    ensures letters { 3 ≤ length result.now }
{
    match month {
        1 => "January",
        2 => "February",
        3 => "March",
        4 => "April",
        5 => "May",
        6 => "June",
        7 => "July",
        8 => "August",
        9 => "September",
        10 => "October",
        11 => "November",
        _ => "December",
    }
}

fn day_name<'a>(weekday: u8) -> &'a str
    ensures exact { result.now ≡ day_name weekday }
    ensures ascii { IsAscii result.now }
    ensures letters { 3 ≤ length result.now }
{
    match weekday {
        0 => "Sunday",
        1 => "Monday",
        2 => "Tuesday",
        3 => "Wednesday",
        4 => "Thursday",
        5 => "Friday",
        _ => "Saturday",
    }
}

// The characters of a name are its bytes.
#[tactic(auto, using(crate::proofs::TextLemmas::ascii_chars))]
fn whole<'a>(name: &'a str) -> &'a str
    requires { IsAscii name.now }
    ensures { chars result.now ≡ name.now }
{
    name
}

// The first letters of a name.
fn front<'a>(name: &'a str, count: usize) -> &'a str
    requires ascii { IsAscii name.now }
    requires letters { count ≤ length name.now }
    ensures { chars result.now ≡ take count name.now }
{
    let (front, _) = name.split_at(count);
    front
}

fn year_shown<'a>(count: usize, year: u64) -> Shown<'a>
    ensures { shown_text result ≡ year_text count year }
{
    if count <= 2 {
        Shown::Number(2, year % 100)
    } else {
        Shown::Number(4, year)
    }
}

fn month_shown<'a>(count: usize, month: u8) -> Shown<'a>
    ensures { shown_text result ≡ month_text count month }
{
    if count <= 2 {
        Shown::Number(count, month as u64)
    } else if count == 3 {
        Shown::Text(front(month_name(month), 3))
    } else if count == 5 {
        Shown::Text(front(month_name(month), 1))
    } else {
        Shown::Text(whole(month_name(month)))
    }
}

fn day_shown<'a>(count: usize, day: u8, weekday: u8) -> Shown<'a>
    ensures { shown_text result ≡ day_text count day weekday }
{
    if count <= 2 {
        Shown::Number(count, day as u64)
    } else if count == 3 {
        Shown::Text(front(day_name(weekday), 3))
    } else {
        Shown::Text(whole(day_name(weekday)))
    }
}

fn all_hours(moment: &Moment) -> u64
    ensures value { result ≡ all_hours moment.now }
    ensures within { result < 2 ^ 40 }
{
    moment.days as u64 * 24 + moment.hour as u64
}

fn all_minutes(moment: &Moment) -> u64
    ensures value { result ≡ all_minutes moment.now }
    ensures within { result < 2 ^ 48 }
{
    all_hours(moment) * 60 + moment.minute as u64
}

fn all_seconds(moment: &Moment) -> u64
    ensures { result ≡ all_seconds moment.now }
{
    all_minutes(moment) * 60 + moment.second as u64
}

fn time_shown<'a>(elapsed: bool, count: usize, all: u64, part: u8) -> Shown<'a>
    ensures { shown_text result ≡ time_text elapsed count all part }
{
    if elapsed {
        Shown::Number(count, all)
    } else {
        Shown::Number(count.min(2), part as u64)
    }
}

fn hour_shown(half_days: bool, hour: u8) -> u8
    ensures { result ≡ hour_shown half_days hour }
{
    if half_days {
        ((hour as u16 + 11) % 12 + 1) as u8
    } else {
        hour
    }
}

#[tactic(auto, using(crate::proofs::TextLemmas::am_chars, crate::proofs::TextLemmas::pm_chars))]
fn half_day<'a>(moment: &Moment) -> &'a str
    ensures { chars result.now ≡ (if is_morning moment.now then codes "AM" else codes "PM") }
{
    if moment.hour < 12 { "AM" } else { "PM" }
}

// The letter before the slash, or the one behind it.
#[tactic(auto, using(crate::proofs::TextLemmas::all_before, crate::proofs::TextLemmas::none_behind))]
fn half_day_letter<'a>(moment: &Moment, own: &'a str) -> &'a str
    ensures { chars result.now ≡ (if is_morning moment.now then before_first (is 47) (chars own.now)
        else after_first (is 47) (chars own.now)) }
{
    let is_morning = moment.hour < 12;
    match split_at_first(own, '/') {
        Some((morning, evening)) => { if is_morning { morning } else { evening } }
        None => { if is_morning { own } else { "" } }
    }
}

// The text of a field, by its item's text.
#[tactic(auto, using(crate::proofs::TextLemmas::no_chars))]
fn field_shown<'a>(clock: Clock, moment: &Moment, field: Field, own: &'a str) -> Shown<'a>
    ensures { shown_text result ≡ field_text clock moment.now field (chars own.now) }
{
    match field {
        Field::Own => Shown::Text(own),
        Field::Year => year_shown(char_count(own), moment.year as u64),
        Field::FullYear => Shown::Number(4, moment.year as u64),
        Field::BuddhistYear => year_shown(char_count(own), moment.year as u64 + 543),
        Field::Nothing => Shown::Text(""),
        Field::Month => month_shown(char_count(own), moment.month),
        Field::Day => day_shown(char_count(own), moment.day, moment.weekday),
        Field::Hours => time_shown(
            clock.has_elapsed_hours,
            char_count(own),
            all_hours(moment),
            hour_shown(clock.has_half_days, moment.hour),
        ),
        Field::Minutes => time_shown(
            clock.has_elapsed_minutes,
            char_count(own),
            all_minutes(moment),
            moment.minute,
        ),
        Field::Seconds => time_shown(
            clock.has_elapsed_seconds,
            char_count(own),
            all_seconds(moment),
            moment.second,
        ),
        Field::ElapsedHours => Shown::Number(char_count(own), all_hours(moment)),
        Field::ElapsedMinutes => Shown::Number(char_count(own), all_minutes(moment)),
        Field::ElapsedSeconds => Shown::Number(char_count(own), all_seconds(moment)),
        Field::Tenths => Shown::Number(1, moment.millisecond as u64 / 100 % 10),
        Field::Hundredths => Shown::Number(1, moment.millisecond as u64 / 10 % 10),
        Field::Thousandths => Shown::Number(1, moment.millisecond as u64 % 10),
        Field::HalfDay => Shown::Text(half_day(moment)),
        Field::HalfDayLetter => Shown::Text(half_day_letter(moment, own)),
    }
}

fn append_zeros(count: usize, text: &mut String) -> Result<(), AllocError>
    ensures ok { OnOk result (string_bytes text.new ≡ string_bytes text.old ++ replicate count 48) }
    ensures grown { IsGrown (string_bytes text.old) (string_bytes text.new) }
{
    'zeros: for i in 0..count {
        text.push_str("0")?;
    }
    Ok(())
}

// Appends a number in at least so many digits; an error may leave a part.
fn append_number(width: usize, n: u64, text: &mut String) -> Result<(), AllocError>
    ensures ok { OnOk result (chars (string_bytes text.new)
        ≡ chars (string_bytes text.old) ++ padded width n) }
    ensures grown { IsGrown (string_bytes text.old) (string_bytes text.new) }
{
    let mut buffer = itoa::Buffer::new();
    let digits = buffer.format(n);
    append_zeros(width.saturating_sub(digits.len()), text)?;
    text.push_str(digits)
}

fn append_shown(shown: Shown<'_>, text: &mut String) -> Result<(), AllocError>
    ensures ok { OnOk result (chars (string_bytes text.new)
        ≡ chars (string_bytes text.old) ++ shown_text shown.entry) }
    ensures grown { IsGrown (string_bytes text.old) (string_bytes text.new) }
{
    match shown {
        Shown::Number(width, n) => append_number(width, n, text),
        Shown::Text(part) => text.push_str(part),
    }
}

// Appends what a section shows of a moment; an error may leave a part.
fn append_section(
    section: &SectionItems<'_>,
    clock: Clock,
    moment: &Moment,
    text: &mut String,
) -> Result<(), AllocError>
    ensures ok { OnOk result (chars (string_bytes text.new)
        ≡ chars (string_bytes text.old) ++ section_text clock moment.now section.now) }
    ensures grown { IsGrown (string_bytes text.old) (string_bytes text.new) }
{
    let mut items = section.iter();
    let mut ahead = section.iter();
    let mut behind = next_letter(&mut ahead);
    let mut before = None;
    let mut zeros = None;
    'items: while let Some((item, own)) = items.next() {
        behind = look_ahead(item, behind, &mut ahead);
        let field = field_of(before, behind, zeros, item, own);
        append_shown(field_shown(clock, moment, field, own), text)?;
        before = letter_after(before, item);
        zeros = zeros_after(zeros, item);
    }
    Ok(())
}

/// Appends what a section, a date's, shows of a moment; `clock` is what the section
/// needs, by `read_clock`. Only running out of memory refuses, and then `text` is as it was.
pub fn push_moment(
    section: &SectionItems<'_>,
    clock: Clock,
    moment: &Moment,
    text: &mut String,
) -> Result<(), AllocError>
    ensures ok { OnOk result (chars (string_bytes text.new)
        ≡ chars (string_bytes text.old) ++ section_text clock moment.now section.now) }
    ensures err { OnErr result (string_bytes text.new ≡ string_bytes text.old) }
{
    let before = text.len();
    let done = append_section(section, clock, moment, text);
    if done.is_err() {
        text.truncate(before);
    }
    done
}
